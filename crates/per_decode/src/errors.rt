//! Why no value was decoded.

use per_fields::Why;
use thiserror::Error;

/// Why no value was decoded.
#[derive(Clone, Copy, Debug, Error)]
pub enum DecodeError {
    /// The first fault of the octets, and the bit at which its field or node begins.
    #[error("the octets do not encode a value of the type")]
    Bad { bit: u64, why: Why },
    #[error("the source failed")]
    Failed,
    /// The octets that may be read end inside a field.
    #[error("more octets are needed than may be taken")]
    TooLong,
    #[error("out of memory")]
    Memory,
}
