//! The laws of nodes, and of the first stop. Each is proved for all modules and octets.
ghost use Rattle.der_fields.specs.Laws.{NodeLaw, NodeRecursion, Either, NotBoth, OneValue, OneStop};

/// States that what is read from the octets that were written of a node is its value, and that what is read was written. So octets
/// are those of exactly one value, or reading stops, once. It also states how nodes are read.
pub fn nodes()
    ensures law { NodeLaw }
    ensures recursion { NodeRecursion }
{}

/// States that octets begin with those of one value of an assignment's type, or stop at one place for one reason. Exactly one of
/// the two holds.
pub fn first_stop()
    ensures either { Either }
    ensures not_both { NotBoth }
    ensures one_value { OneValue }
    ensures one_stop { OneStop }
{}
