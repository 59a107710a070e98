//! Why a document gives no value.
ghost use Rattle.std.specs.Prelude.{◌≡◌};

use base_texts::Memory;
use thiserror::Error;
use validity_rules::InvalidWhy;

/// Why a document gives no value.
#[derive(Clone, Copy, Debug, PartialEq, Eq, Error)]
pub enum ReadError {
    /// The first fault: its place in bytes from 0, and its reason.
    #[error("byte {at}: {why}")]
    Invalid { at: u64, why: InvalidWhy },
    /// The document is valid, and its value has this number of nodes, which is over the limit.
    #[error("{count} nodes")]
    TooManyNodes { count: u64 },
    #[error("out of memory")]
    Memory,
}

impl From<Memory> for ReadError {
    ghost use Rattle.xer_read.specs.declared.error.ReadError.{ReadError};

    ghost from_gives = { λ memory error. error ≡ ReadError.Memory };

    fn from(_: Memory) -> ReadError {
        ReadError::Memory
    }
}
