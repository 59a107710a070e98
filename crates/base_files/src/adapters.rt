//! Files and streams with a count of their faults. The clauses of a library over files say nothing of its contents, and those of
//! a sink over a writer nothing of the bytes written. A source over a reader has the bytes that the reader states, which is
//! nothing for a file.
ghost use Rattle.std.specs.Prelude.{◌≡◌, None, false};

use base_texts::{Failed, Library, LoadError, ReadError, Sink, Source, Text, read_all};
use std::alloc::Global;
use std::fs;
use std::io::{Read, Write};
use std::rt::Files;

/// A source over a reader.
#[derive(Drop)]
pub struct Reading<R> {
    inner: R,
    faults: u64,
}

impl<R> Reading<R> {
    pub fn new(inner: R) -> Reading<R>
        ensures inner { result.inner ≡ inner }
        ensures faults { result.faults ≡ 0 }
    {
        Reading { inner, faults: 0 }
    }
}

impl<R: Read> Source for Reading<R> {
    ghost left = { λ s. R.remaining s.inner };

    ghost faults = { λ s. s.faults };

    fn read(&mut self, buf: &mut [u8]) -> Result<usize, Failed> {
        match self.inner.read(buf) {
            Ok(count) => Ok(count),
            Err(_) => {
                self.faults = self.faults.saturating_add(1);
                Err(Failed)
            }
        }
    }
}

/// A sink over a writer, flushed after each write.
#[derive(Drop)]
pub struct Writing<W> {
    inner: W,
    faults: u64,
}

impl<W> Writing<W> {
    pub fn new(inner: W) -> Writing<W>
        ensures inner { result.inner ≡ inner }
        ensures faults { result.faults ≡ 0 }
    {
        Writing { inner, faults: 0 }
    }
}

// Writes a prefix of the piece, and flushes. `None` if that failed, or if no byte of a piece was accepted.
fn write_front<W: Write>(inner: &mut W, piece: &[u8]) -> Option<usize>
    ensures most { IfSome result (λ n. n ≤ length piece.now) }
    ensures some { IfSome result (λ n. 0 < length piece.now → 0 < n) }
{
    let Ok(count) = inner.write(piece) else {
        return None;
    };
    if count == 0 && !piece.is_empty() {
        return None;
    }
    if inner.flush().is_err() {
        return None;
    }
    Some(count)
}

ghost use Rattle.std.specs.Prelude.{IfSome, ◌≤◌, ◌<◌, length};

impl<W: Write> Sink for Writing<W> {
    ghost written = { λ _. None };

    ghost faults = { λ s. s.faults };

    ghost free = { λ _. None };

    fn write(&mut self, piece: &[u8]) -> Result<usize, Failed> {
        match write_front(&mut self.inner, piece) {
            Some(count) => Ok(count),
            None => {
                self.faults = self.faults.saturating_add(1);
                Err(Failed)
            }
        }
    }
}

/// A library over the files of the system.
#[derive(Drop)]
pub struct Folder<'a, R> {
    rt: &'a R,
    faults: u64,
}

impl<'a, R: Files> Folder<'a, R> {
    pub fn new(rt: &'a R) -> Folder<'a, R>
        ensures { result.faults ≡ 0 }
    {
        Folder { rt, faults: 0 }
    }
}

// The contents of the file at that path.
fn load_path<R: Files>(rt: &R, alloc: Global, path: &[u8], limit: u64) -> Result<Vec<u8>, LoadError>
    requires { limit ≤ 2 ^ 32 }
    ensures { IfOk result (λ bytes. length bytes.items ≤ limit) }
{
    let Ok(path) = std::str::from_utf8(path) else {
        return Err(LoadError::Failed);
    };
    let Ok(file) = fs::open(rt, path) else {
        return Err(LoadError::Failed);
    };
    match read_all(alloc, &mut Reading::new(file), limit) {
        Ok(bytes) => Ok(bytes),
        Err(ReadError::Failed) => Err(LoadError::Failed),
        Err(ReadError::TooLong) => Err(LoadError::TooLong),
        Err(ReadError::Memory) => Err(LoadError::Memory),
    }
}

ghost use Rattle.std.specs.Prelude.{IfOk, ◌^◌};

impl<'a, R: Files> Library for Folder<'a, R> {
    ghost entries = { λ _. None };

    ghost is_sure = { λ _. false };

    ghost faults = { λ s. s.faults };

    ghost agenda = { λ _. None };

    fn load(&mut self, alloc: Global, name: &Text, limit: u64) -> Result<Vec<u8>, LoadError> {
        match load_path(self.rt, alloc, name.bytes(), limit) {
            Ok(bytes) => Ok(bytes),
            Err(LoadError::Failed) => {
                self.faults = self.faults.saturating_add(1);
                Err(LoadError::Failed)
            }
            Err(LoadError::TooLong) => Err(LoadError::TooLong),
            Err(LoadError::Memory) => Err(LoadError::Memory),
        }
    }
}
