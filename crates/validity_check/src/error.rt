//! Why a document isn't found valid.
ghost use Rattle.std.specs.Prelude.{◌≡◌};

use base_texts::Memory;
use thiserror::Error;
use validity_rules::InvalidWhy;

/// The first fault: its place in bytes from 0, and its reason.
#[derive(Clone, Copy, Debug, PartialEq, Eq, Error)]
#[error("byte {at}: {why}")]
pub struct Invalidity {
    pub at: u64,
    pub why: InvalidWhy,
}

/// Why a document isn't found valid.
#[derive(Clone, Copy, Debug, PartialEq, Eq, Error)]
pub enum CheckError {
    /// The first fault: its place in bytes from 0, and its reason.
    #[error("byte {at}: {why}")]
    Invalid { at: u64, why: InvalidWhy },
    #[error("out of memory")]
    Memory,
}

impl From<Memory> for CheckError {
    ghost use Rattle.validity_check.specs.declared.error.CheckError.{CheckError};

    ghost from_gives = { λ memory error. error ≡ CheckError.Memory };

    fn from(_: Memory) -> CheckError {
        CheckError::Memory
    }
}

impl From<Invalidity> for CheckError {
    ghost use Rattle.validity_check.specs.declared.error.CheckError.{CheckError};

    ghost from_gives = { λ fault error. error ≡ CheckError.Invalid fault.at fault.why };

    fn from(fault: Invalidity) -> CheckError {
        CheckError::Invalid {
            at: fault.at,
            why: fault.why,
        }
    }
}
