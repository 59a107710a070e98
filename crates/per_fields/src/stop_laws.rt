//! The law of the first stop, as a relation. It is proved for all modules and octets.
ghost use Rattle.std.specs.Prelude.{Bool};
ghost use Rattle.per_fields.specs.StopLaws.{StopsAsRead, OneOfTwo, StopsAsReadBy, OneOfTwoBy};

/// States that octets stop where a field or a node is the first that has a fault, and everything before is the bits of values. This
/// is the stop that reading gives. So octets begin with the complete encoding of one value, or they have one such fault.
pub fn stops_first()
    ensures as_read { StopsAsRead }
    ensures one_of_two { OneOfTwo }
{}

/// States the law of the first stop, for the aligned and the unaligned variant.
pub fn either_variant()
    ensures as_read { (aligned : Bool) → StopsAsReadBy aligned }
    ensures one_of_two { (aligned : Bool) → OneOfTwoBy aligned }
{}
