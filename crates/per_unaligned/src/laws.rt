//! The laws of the unaligned encoding. Each is proved for all numbers, modules and octets.
ghost use Rattle.per_unaligned.specs.Fields.{NumberBits, FromBits, SignedBits, LastPiece, Fragment, SizedBits, ListBits};
ghost use Rattle.per_unaligned.specs.Unaligned.{OneOfTwoUnaligned, StopsAsReadUnaligned, WholeOctetsUnaligned};

/// States the fields, each by its clause of X.691: no bits precede a field, and a number of any range is in the least bits.
pub fn fields()
    ensures numbers { NumberBits }
    ensures from { FromBits }
    ensures signed { SignedBits }
    ensures last_piece { LastPiece }
    ensures fragment { Fragment }
    ensures sized { SizedBits }
    ensures lists { ListBits }
{}

/// States that octets begin with the complete unaligned encoding of one value of an assignment's type, or have one first stop.
/// Exactly one of the two holds. A first stop is where and why reading stops.
pub fn first_stop()
    ensures one_of_two { OneOfTwoUnaligned }
    ensures as_read { StopsAsReadUnaligned }
    ensures whole_octets { WholeOctetsUnaligned }
{}
