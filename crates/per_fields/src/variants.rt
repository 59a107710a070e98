//! The two variants of PER (X.691), as type parameters.

/// One of the two variants. They state whether a field may begin at an octet, after padding.
pub trait Variant {
    ghost use Rattle.std.specs.Prelude.{Bool};

    ghost ALIGNED: { Bool };

    /// Whether numbers of more than 255 values, lengths and counts begin at an octet.
    const ALIGNED: bool;
}

/// Aligned: such fields begin at an octet.
pub struct Aligned;

impl Variant for Aligned {
    ghost use Rattle.std.specs.Prelude.{true};

    ghost ALIGNED = { true };

    const ALIGNED: bool = true;
}

/// Unaligned: each field begins right after the previous one.
pub struct Unaligned;

impl Variant for Unaligned {
    ghost use Rattle.std.specs.Prelude.{false};

    ghost ALIGNED = { false };

    const ALIGNED: bool = false;
}
