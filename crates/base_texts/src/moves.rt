//! Reads all of a source, and writes all of a piece.
ghost use Rattle.std.specs.Prelude.{◌≡◌, ℕ, ◌+◌, ◌^◌, ◌<◌, ◌≤◌, length, IsErrOf, IfOk, OnOk, OnErr, IsErr};
ghost use Rattle.std.specs.Io.KnownBytes.{Consumes, Appends, IsAtEnd};
ghost use Rattle.base_texts.specs.Faults.{Counts};
ghost use Rattle.base_texts.specs.Bytes.{TakesSome, TakesFirst, AppendsFront, LeavesRoom, LacksRoom};

use crate::sinks::Sink;
use crate::sources::{Failed, Source};
use std::alloc::Global;
use thiserror::Error;

/// The reasons why a source wasn't read completely.
#[derive(Clone, Copy, Debug, Error)]
pub enum ReadError {
    #[error("the source failed")]
    Failed,
    #[error("more bytes are left than may be read")]
    TooLong,
    #[error("out of memory")]
    Memory,
}

// The greatest number of bytes that one read requests.
const BLOCK: usize = 65_536;

/// Reads all bytes that a source has left, if there are at most `limit`. It requests at most `limit + 1` bytes.
pub fn read_all<S: Source>(alloc: Global, source: &mut S, limit: u64) -> Result<Vec<u8>, ReadError>
    requires { limit ≤ 2 ^ 32 }
    ensures most { IfOk result (λ bytes. length bytes.items ≤ limit) }
    ensures bytes { IfOk result (λ bytes. Consumes (S.left source.old) (S.left source.new) bytes.items) }
    ensures end { OnOk result (IsAtEnd (S.left source.new)) }
    // It is too long if and only if more bytes are left than the limit.
    ensures too_long { IsErrOf result ReadError.TooLong → TakesFirst (S.left source.old) (S.left source.new) (limit + 1) }
    ensures prefix { OnErr result (TakesSome (S.left source.old) (S.left source.new)) }
    ensures cause { Counts (S.faults source.old) (S.faults source.new) (IsErrOf result ReadError.Failed) }
{
    let mut bytes = Vec::new(alloc);
    let mut block = [0u8; BLOCK];
    'reads: while bytes.len() as u64 <= limit {
        let room = (limit + 1 - bytes.len() as u64).min(BLOCK as u64) as usize;
        let count = match source.read(&mut block[..room]) {
            Ok(count) => count,
            Err(Failed) => return Err(ReadError::Failed),
        };
        if count == 0 {
            return Ok(bytes);
        }
        if bytes.extend_from_slice(&block[..count]).is_err() {
            return Err(ReadError::Memory);
        }
    }
    Err(ReadError::TooLong)
}

/// Writes the entire piece.
pub fn write_all<K: Sink>(sink: &mut K, piece: &[u8]) -> Result<(), Failed>
    ensures ok { OnOk result (Appends (K.written sink.old) (K.written sink.new) piece.now) }
    ensures prefix { OnErr result (AppendsFront (K.written sink.old) (K.written sink.new) piece.now) }
    ensures cause { Counts (K.faults sink.old) (K.faults sink.new) (IsErr result) }
    // Where the room is known, it fails only if the piece is longer.
    ensures leaves { OnOk result (LeavesRoom (K.free sink.old) (K.free sink.new) (length piece.now)) }
    ensures lacks { OnErr result (LacksRoom (K.free sink.old) (length piece.now)) }
{
    let mut done = 0;
    while done < piece.len() {
        done += sink.write(&piece[done..])?;
    }
    Ok(())
}
