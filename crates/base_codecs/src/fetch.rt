//! Reads octets of a source into a buffer.
ghost use Rattle.std.specs.Prelude.{◌≡◌, ◌<◌, ◌≤◌, length, take, IsErrOf, OnOk};
ghost use Rattle.std.specs.Io.KnownBytes.{Consumes, IsAtEnd};
ghost use Rattle.base_texts.specs.Faults.{Counts};
ghost use Rattle.base_codecs.specs.declared.fetch.CursorError.TheVariants as variants;

use base_texts::{Failed, Source};
use std::alloc::AllocError;
use thiserror::Error;

/// The reasons why bits couldn't be read.
#[derive(Clone, Copy, Debug, PartialEq, Eq, Error)]
pub enum CursorError {
    #[error("the source ends before the bits that are needed")]
    Short,
    #[error("a bit that is skipped is 1")]
    Padding,
    #[error("the source failed")]
    Failed,
    #[error("more octets are needed than may be taken")]
    TooLong,
    #[error("out of memory")]
    Memory,
}

impl From<AllocError> for CursorError {
    ghost from_gives = { λ _ error. error ≡ variants.Memory };

    fn from(_: AllocError) -> CursorError {
        CursorError::Memory
    }
}

/// Fills the buffer from the source with at most `room` octets, and returns how many came. One read suffices where the source
/// gives all that is requested.
#[inline(always)]
pub(crate) fn fetch<S: Source>(
    source: &mut S,
    room: u64,
    buf: &mut [u8],
) -> (usize, Result<(), CursorError>)
    ensures count { (result.0 ≤ length buf.new) × (result.0 ≤ room) }
    ensures bytes { Consumes (S.left source.old) (S.left source.new) (take result.0 buf.new) }
    ensures ok { OnOk result.1 (result.0 ≡ length buf.new) }
    ensures short { IsErrOf result.1 CursorError.Short → (result.0 < length buf.new) × (result.0 < room) × IsAtEnd (S.left source.new) }
    ensures too_long { IsErrOf result.1 CursorError.TooLong → (room < length buf.new) × (result.0 ≡ room) }
    ensures failed { IsErrOf result.1 CursorError.Failed → result.0 < length buf.new }
    ensures cause { Counts (S.faults source.old) (S.faults source.new) (IsErrOf result.1 CursorError.Failed) }
    ensures kinds { ¬ IsErrOf result.1 CursorError.Padding × ¬ IsErrOf result.1 CursorError.Memory }
{
    let want = (buf.len() as u64).min(room) as usize;
    let mut have = 0;
    'reads: while have < want {
        match source.read(&mut buf[have..want]) {
            Ok(0) => return (have, Err(CursorError::Short)),
            Ok(count) => have += count,
            Err(Failed) => return (have, Err(CursorError::Failed)),
        }
    }
    if want < buf.len() {
        return (have, Err(CursorError::TooLong));
    }
    (have, Ok(()))
}
