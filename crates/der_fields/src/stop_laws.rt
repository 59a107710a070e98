//! The law of the first stop, as a relation. It is proved for all modules and octets.
ghost use Rattle.der_fields.specs.StopLaws.{StopsAsRead, OneOfTwo};

/// States that octets stop where a node is the first that has a fault, and everything before is the octets of values. This is the
/// stop that reading gives. So octets begin with those of one value, or they have one such fault, and never both.
pub fn stops_first()
    ensures as_read { StopsAsRead }
    ensures one_of_two { OneOfTwo }
{}
