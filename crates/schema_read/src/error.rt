//! Why a document gives no components.
ghost use Rattle.std.specs.Prelude.{◌≡◌};
ghost use Rattle.schema_read.specs.declared.error.SchemaError.TheVariants.{Memory as NoMemory};

use base_texts::Memory;
use schema_syntax::SchemaWhy;
use std::alloc::{AllocError, AllocFailed};
use thiserror::Error;

/// Why a document gives no components.
#[derive(Clone, Copy, Debug, PartialEq, Eq, Error)]
pub enum SchemaError {
    /// The first fault. The place is in bytes from 0.
    #[error("{why} at byte {at}")]
    Shown { at: u64, why: SchemaWhy },
    /// Memory is missing.
    #[error("out of memory")]
    Memory,
}

impl From<Memory> for SchemaError {
    ghost from_gives = { λ _ error. error ≡ NoMemory };

    fn from(_: Memory) -> SchemaError {
        SchemaError::Memory
    }
}

impl From<AllocError> for SchemaError {
    ghost from_gives = { λ _ error. error ≡ NoMemory };

    fn from(_: AllocError) -> SchemaError {
        SchemaError::Memory
    }
}

impl<T: Drop> From<AllocFailed<T>> for SchemaError {
    ghost from_gives = { λ _ error. error ≡ NoMemory };

    fn from(_: AllocFailed<T>) -> SchemaError {
        SchemaError::Memory
    }
}
