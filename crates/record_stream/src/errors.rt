//! Why no record was read.

use per_fields::Why;
use thiserror::Error;

/// Why no record was read.
#[derive(Clone, Copy, Debug, Error)]
pub enum RecordError {
    /// The first fault of the record with this number, counted from 1, and the bit at which its field or node begins,
    /// counted from the first bit of the record.
    #[error("record {number} does not encode a value of the type")]
    Bad { number: u64, bit: u64, why: Why },
    /// The octets that may be read end inside the record.
    #[error("more octets are needed than may be taken")]
    TooLong,
    #[error("the source failed")]
    Failed,
    #[error("out of memory")]
    Memory,
}
