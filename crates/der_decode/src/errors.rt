//! Why no value was decoded.

use der_fields::Why;
use thiserror::Error;

/// Why no value was decoded.
#[derive(Clone, Copy, Debug, Error)]
pub enum DecodeError {
    /// The first fault of the octets, and the octet at which it is reported.
    #[error("the octets do not encode a value of the type")]
    Bad { at: u64, why: Why },
    #[error("out of memory")]
    Memory,
}
