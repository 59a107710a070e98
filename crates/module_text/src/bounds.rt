//! Numbers and the bounds of numbers and sizes.
use crate::written::Written;

/// A number: decimal digits, with or without a `-` at the beginning.
#[derive(Drop)]
pub struct PlainNumber {
    /// The offset of its first byte.
    pub at: u64,
    pub written: Written,
}

/// The bounds of a number or a size.
#[derive(Drop)]
pub enum PlainEnds {
    /// `(n)`.
    One {
        number: PlainNumber,
    },
    /// `(n..m)`.
    Both {
        least: PlainNumber,
        greatest: PlainNumber,
    },
    /// `(n..MAX)`. MAX begins at the byte `max_at`.
    From {
        least: PlainNumber,
        max_at: u64,
    },
}

/// The bounds of an INTEGER.
#[derive(Drop)]
pub enum PlainRange {
    Ends { ends: PlainEnds },
    /// `(MIN..n)`.
    To { greatest: PlainNumber },
}
