//! Sources of bytes.
ghost use Rattle.std.specs.Prelude.{◌≡◌, ◌≢◌, ℕ, ◌+◌, ◌-◌, ◌^◌, ◌<◌, ◌≤◌, ◌↔◌, min, List, ◌++◌, length, take, drop, Option, Some, Ok, IsOk, IsErr, is_err, OnOk, OnErr, IfOk, All, Contains};
ghost use Rattle.std.specs.Io.{ReadsAtMost};
ghost use Rattle.std.specs.Io.KnownBytes.{ReadConsumes};
ghost use Rattle.base_texts.specs.Faults.{Counts, count_after, one_more};
ghost use Rattle.base_texts.specs.States.{piece_of, later_pieces};

use std::marker::Model;
use thiserror::Error;

/// A failure of the environment.
#[derive(Clone, Copy, Debug, Error)]
#[error("the outside failed")]
pub struct Failed;

/// A source of bytes. The clauses of a real one say nothing of the bytes left.
pub trait Source {
    /// The bytes left. `None` for a source whose bytes aren't known to proofs.
    ghost left: { Self → Option (List ℕ) };

    /// The number of failures so far. The count remains at 2^64 - 1 once it is reached.
    ghost faults: { Self → ℕ };

    /// Moves the next bytes to the start of the buffer and returns their number. It is 0 only at the end of the source, or where
    /// the buffer is empty. After a fault the bytes left are unchanged.
    fn read(&mut self, buf: &mut [u8]) -> Result<usize, Failed>
        ensures bound { ReadsAtMost result buf.new }
        ensures bytes { ReadConsumes (left self.old) (left self.new) result buf.new }
        ensures cause { Counts (faults self.old) (faults self.new) (IsErr result) };
}

// The number of bytes that a call moves: the next piece size, or `most` if no size is left.
pub(crate) fn piece_at(pieces: &[u64], turn: usize, most: usize) -> usize
    requires { All (λ size. 0 < size) pieces.now }
    ensures exact { result ≡ piece_of (drop turn pieces.now) most }
    ensures most { result ≤ most }
    ensures some { 0 < most → 0 < result }
{
    match pieces.get(turn) {
        Some(size) if *size < most as u64 => *size as usize,
        _ => most,
    }
}

// Copies the first bytes to the start of the buffer.
fn copy_front(from: &[u8], to: &mut [u8], count: usize)
    requires there { count ≤ length from.now }
    requires room { count ≤ length to.old }
    ensures { to.new ≡ take count from.now ++ drop count to.old }
{
    to[..count].copy_from_slice(&from[..count]);
}

/// A source in memory that never fails.
#[derive(Drop)]
pub struct SureSource {
    contents: Vec<u8>,
    at: usize,
    pieces: Vec<u64>,
    turn: usize,
}

impl Model for SureSource {
    ghost use Rattle.std.specs.Prelude.{drop, ◌<◌, ◌≤◌, length, All};
    ghost use Rattle.base_texts.specs.States.{Feed};

    ghost Value = { Feed };

    ghost view = { λ s. record { left = drop s.at s.contents.items; pieces = drop s.turn s.pieces.items } };

    ghost invariant = { λ s. (s.at ≤ length s.contents.items) × All (λ size. 0 < size) s.pieces.items };
}

impl SureSource {
    /// Returns a source with these contents. Each read moves at most the next of these piece sizes, in bytes. After the last size
    /// a read moves as much as it can.
    pub fn new(contents: Vec<u8>, pieces: Vec<u64>) -> SureSource
        requires { All (λ size. 0 < size) pieces.items }
        ensures { result ≡ record { left = contents.items; pieces = pieces.items } }
    {
        SureSource {
            contents,
            at: 0,
            pieces,
            turn: 0,
        }
    }

    /// Returns the bytes left.
    pub fn left(&self) -> &[u8]
        ensures { result.now ≡ self.now.left }
    {
        &self.contents.as_slice()[self.at..]
    }
}

impl Source for SureSource {
    ghost left = { λ s. Some s.left };

    ghost faults = { λ _. 0 };

    fn read(&mut self, buf: &mut [u8]) -> Result<usize, Failed>
        ensures bound { ReadsAtMost result buf.new }
        ensures bytes { ReadConsumes (Some self.old.left) (Some self.new.left) result buf.new }
        ensures cause { Counts 0 0 (IsErr result) }
        ensures moved { result ≡ Ok (piece_of self.old.pieces (min (length buf.old) (length self.old.left))) }
        ensures pieces { self.new.pieces ≡ later_pieces self.old.pieces }
    {
        let rest = self.left();
        let count = piece_at(&self.pieces, self.turn, rest.len().min(buf.len()));
        copy_front(rest, buf, count);
        self.at += count;
        if self.turn < self.pieces.len() {
            self.turn += 1;
        }
        Ok(count)
    }
}

/// A source in memory that fails at the calls with these numbers, counted from 1.
#[derive(Drop)]
pub struct MemorySource {
    bytes: SureSource,
    fails: Vec<u64>,
    calls: u64,
    faults: u64,
}

impl Model for MemorySource {
    ghost use Rattle.base_texts.specs.States.{FaultyFeed};

    ghost Value = { FaultyFeed };

    ghost view = { λ s. record { left = s.bytes.left; pieces = s.bytes.pieces; fails = s.fails.items; calls = s.calls; faults = s.faults } };
}

impl MemorySource {
    /// Returns a source with these contents. Each read moves at most the next of these piece sizes, in bytes, and the calls with
    /// these numbers fail. A call that fails uses up no piece size.
    pub fn new(contents: Vec<u8>, fails: Vec<u64>, pieces: Vec<u64>) -> MemorySource
        requires { All (λ size. 0 < size) pieces.items }
        ensures { result ≡ record { left = contents.items; pieces = pieces.items; fails = fails.items; calls = 0; faults = 0 } }
    {
        MemorySource {
            bytes: SureSource::new(contents, pieces),
            fails,
            calls: 0,
            faults: 0,
        }
    }

    /// Returns the bytes left.
    pub fn left(&self) -> &[u8]
        ensures { result.now ≡ self.now.left }
    {
        self.bytes.left()
    }
}

impl Source for MemorySource {
    ghost left = { λ s. Some s.left };

    ghost faults = { λ s. s.faults };

    fn read(&mut self, buf: &mut [u8]) -> Result<usize, Failed>
        ensures bound { ReadsAtMost result buf.new }
        ensures bytes { ReadConsumes (Some self.old.left) (Some self.new.left) result buf.new }
        ensures cause { Counts self.old.faults self.new.faults (IsErr result) }
        // It fails exactly at the calls with these numbers, and counts each fault.
        ensures fails { IsErr result ↔ Contains self.old.fails (one_more self.old.calls) }
        ensures faults { self.new.faults ≡ count_after (is_err result) self.old.faults }
        ensures calls { (self.new.calls ≡ one_more self.old.calls) × (self.new.fails ≡ self.old.fails) }
        ensures moved { IfOk result (λ n. n ≡ piece_of self.old.pieces (min (length buf.old) (length self.old.left))) }
        ensures pieces { OnOk result (self.new.pieces ≡ later_pieces self.old.pieces) }
        ensures kept { OnErr result ((self.new.left ≡ self.old.left) × (self.new.pieces ≡ self.old.pieces)) }
    {
        self.calls = self.calls.saturating_add(1);
        if self.fails.contains(&self.calls) {
            self.faults = self.faults.saturating_add(1);
            return Err(Failed);
        }
        self.bytes.read(buf)
    }
}
