//! What holds of the values of octets, for all modules, types and octets.
ghost use Rattle.record_stream.specs.Cuts.{OneList, SomeCut, OneCut};

/// Two lists of values whose complete encodings, one after another, are the same octets are equal.
pub fn one_list()
    ensures { OneList }
{}

/// Of all octets there is one cut: the longest list of values with whose complete encodings they begin.
pub fn one_cut()
    ensures some { SomeCut }
    ensures one { OneCut }
{}
