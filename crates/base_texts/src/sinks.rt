//! Sinks of bytes.
ghost use Rattle.std.specs.Prelude.{◌≡◌, ◌⊎◌, ℕ, ◌+◌, ◌-◌, ◌^◌, ◌<◌, ◌≤◌, ◌↔◌, [], min, List, length, take, Option, Some, None, IsErr, is_err, IfOk, OnOk, OnErr, All, Contains};
ghost use Rattle.std.specs.Io.KnownBytes.{WriteAppends};
ghost use Rattle.base_texts.specs.Faults.{Counts, count_after, one_more};
ghost use Rattle.base_texts.specs.Bytes.{LeavesRoom, IsFull};
ghost use Rattle.base_texts.specs.States.{piece_of, later_pieces};

use crate::sources::{Failed, piece_at};
use crate::texts::Memory;
use std::alloc::Global;
use std::marker::Model;

/// A sink of bytes. The clauses of a real one say nothing of its contents.
pub trait Sink {
    /// The bytes written. `None` for a sink whose contents aren't known to proofs.
    ghost written: { Self → Option (List ℕ) };

    /// The number of failures so far. The count remains at 2^64 - 1 once it is reached.
    ghost faults: { Self → ℕ };

    /// The number of bytes there is room for. `None` for a sink whose room isn't known, or that may fail before it is full.
    ghost free: { Self → Option ℕ };

    /// Appends a prefix of the piece and returns its length in bytes, which is at least 1 unless the piece is empty. After a
    /// fault the bytes written and the room are unchanged.
    fn write(&mut self, piece: &[u8]) -> Result<usize, Failed>
        ensures most { IfOk result (λ n. n ≤ length piece.now) }
        ensures some { IfOk result (λ n. 0 < length piece.now → 0 < n) }
        ensures bytes { WriteAppends (written self.old) (written self.new) result piece.now }
        ensures cause { Counts (faults self.old) (faults self.new) (IsErr result) }
        ensures leaves { IfOk result (λ n. LeavesRoom (free self.old) (free self.new) n) }
        ensures full { OnErr result (IsFull (free self.old) × LeavesRoom (free self.old) (free self.new) 0) };
}

/// A sink in memory with a fixed room, which fails only when it is full.
#[derive(Drop)]
pub struct SureSink {
    bytes: Vec<u8>,
    room: usize,
    pieces: Vec<u64>,
    turn: usize,
    faults: u64,
}

impl Model for SureSink {
    ghost use Rattle.std.specs.Prelude.{◌≡◌, drop, ◌<◌, ◌≤◌, length, All, vec_len, vec_capacity};
    ghost use Rattle.base_texts.specs.States.{Tray};

    ghost Value = { Tray };

    ghost view = { λ s. record { written = s.bytes.items; room = s.room; pieces = drop s.turn s.pieces.items; faults = s.faults } };

    ghost invariant = { λ s. (s.room ≤ vec_capacity s.bytes) × (vec_len s.bytes ≤ s.room) × (0 < s.faults → vec_len s.bytes ≡ s.room) × All (λ size. 0 < size) s.pieces.items };
}

impl SureSink {
    /// Returns an empty sink with this room in bytes, which is allocated here. Each write appends at most the next of these piece
    /// sizes. After the last size a write appends as much as there is room for.
    pub fn new(alloc: Global, room: usize, pieces: Vec<u64>) -> Result<SureSink, Memory>
        requires { All (λ size. 0 < size) pieces.items }
        ensures { IfOk result (λ sink. sink ≡ record { written = []; room = room; pieces = pieces.items; faults = 0 }) }
    {
        let bytes = Vec::with_capacity(alloc, room)?;
        Ok(SureSink {
            bytes,
            room,
            pieces,
            turn: 0,
            faults: 0,
        })
    }

    /// Returns the bytes written.
    pub fn written(&self) -> &[u8]
        ensures bytes { result.now ≡ self.now.written }
        ensures within { length self.now.written ≤ self.now.room }
        ensures full { 0 < self.now.faults → length self.now.written ≡ self.now.room }
    {
        &self.bytes
    }

    /// Returns the room of the sink in bytes, including the bytes written.
    pub fn room(&self) -> usize
        ensures { result ≡ self.now.room }
    {
        self.room
    }
}

impl Sink for SureSink {
    ghost written = { λ s. Some s.written };

    ghost faults = { λ s. s.faults };

    ghost free = { λ s. Some (s.room - length s.written) };

    fn write(&mut self, piece: &[u8]) -> Result<usize, Failed>
        ensures most { IfOk result (λ n. n ≤ length piece.now) }
        ensures some { IfOk result (λ n. 0 < length piece.now → 0 < n) }
        ensures bytes { WriteAppends (Some self.old.written) (Some self.new.written) result piece.now }
        ensures cause { Counts self.old.faults self.new.faults (IsErr result) }
        ensures leaves { IfOk result (λ n. LeavesRoom (Some (self.old.room - length self.old.written)) (Some (self.new.room - length self.new.written)) n) }
        ensures full { OnErr result (IsFull (Some (self.old.room - length self.old.written))
            × LeavesRoom (Some (self.old.room - length self.old.written)) (Some (self.new.room - length self.new.written)) 0) }
        // It fails if and only if it is full and the piece isn't empty, and counts each fault.
        ensures fails { IsErr result ↔ ((length self.old.written ≡ self.old.room) × (0 < length piece.now)) }
        ensures faults { self.new.faults ≡ count_after (is_err result) self.old.faults }
        ensures room { self.new.room ≡ self.old.room }
        ensures moved { IfOk result (λ n. n ≡ piece_of self.old.pieces (min (length piece.now) (self.old.room - length self.old.written))) }
        ensures pieces { OnOk result (self.new.pieces ≡ later_pieces self.old.pieces) }
        ensures kept { OnErr result (self.new.pieces ≡ self.old.pieces) }
    {
        let free = self.room - self.bytes.len();
        if free == 0 && !piece.is_empty() {
            self.faults = self.faults.saturating_add(1);
            return Err(Failed);
        }
        let count = piece_at(&self.pieces, self.turn, free.min(piece.len()));
        self.bytes.extend_from_slice(&piece[..count]).unwrap();
        if self.turn < self.pieces.len() {
            self.turn += 1;
        }
        Ok(count)
    }
}

/// A sink in memory with a fixed room, which also fails at the calls with these numbers, counted from 1.
#[derive(Drop)]
pub struct MemorySink {
    tray: SureSink,
    fails: Vec<u64>,
    calls: u64,
    faults: u64,
}

impl Model for MemorySink {
    ghost use Rattle.base_texts.specs.States.{FaultyTray};

    ghost Value = { FaultyTray };

    ghost view = { λ s. record { written = s.tray.written; room = s.tray.room; pieces = s.tray.pieces; fails = s.fails.items; calls = s.calls; faults = s.faults } };
}

impl MemorySink {
    /// Returns an empty sink with this room in bytes, which is allocated here. Each write appends at most the next of these piece
    /// sizes, and the calls with these numbers fail. A call that fails uses up no piece size.
    pub fn new(
        alloc: Global,
        room: usize,
        fails: Vec<u64>,
        pieces: Vec<u64>,
    ) -> Result<MemorySink, Memory>
        requires { All (λ size. 0 < size) pieces.items }
        ensures { IfOk result (λ sink. sink ≡ record { written = []; room = room; pieces = pieces.items; fails = fails.items; calls = 0; faults = 0 }) }
    {
        Ok(MemorySink {
            tray: SureSink::new(alloc, room, pieces)?,
            fails,
            calls: 0,
            faults: 0,
        })
    }

    /// Returns the bytes written.
    pub fn written(&self) -> &[u8]
        ensures bytes { result.now ≡ self.now.written }
        ensures within { length self.now.written ≤ self.now.room }
    {
        self.tray.written()
    }

    /// Returns the room of the sink in bytes, including the bytes written.
    pub fn room(&self) -> usize
        ensures { result ≡ self.now.room }
    {
        self.tray.room()
    }
}

impl Sink for MemorySink {
    ghost written = { λ s. Some s.written };

    ghost faults = { λ s. s.faults };

    // It may fail with room left.
    ghost free = { λ _. None };

    fn write(&mut self, piece: &[u8]) -> Result<usize, Failed>
        ensures most { IfOk result (λ n. n ≤ length piece.now) }
        ensures some { IfOk result (λ n. 0 < length piece.now → 0 < n) }
        ensures bytes { WriteAppends (Some self.old.written) (Some self.new.written) result piece.now }
        ensures cause { Counts self.old.faults self.new.faults (IsErr result) }
        ensures leaves { IfOk result (λ n. LeavesRoom None None n) }
        ensures full { OnErr result (IsFull None × LeavesRoom None None 0) }
        // It fails exactly at the calls with these numbers and where it is full, and counts each fault.
        ensures fails { IsErr result ↔ (Contains self.old.fails (one_more self.old.calls) ⊎ ((length self.old.written ≡ self.old.room) × (0 < length piece.now))) }
        ensures faults { self.new.faults ≡ count_after (is_err result) self.old.faults }
        ensures calls { (self.new.calls ≡ one_more self.old.calls) × (self.new.fails ≡ self.old.fails) }
        ensures room { self.new.room ≡ self.old.room }
        ensures moved { IfOk result (λ n. n ≡ piece_of self.old.pieces (min (length piece.now) (self.old.room - length self.old.written))) }
        ensures pieces { OnOk result (self.new.pieces ≡ later_pieces self.old.pieces) }
        ensures kept { OnErr result (self.new.pieces ≡ self.old.pieces) }
    {
        self.calls = self.calls.saturating_add(1);
        if self.fails.contains(&self.calls) {
            self.faults = self.faults.saturating_add(1);
            return Err(Failed);
        }
        let written = self.tray.write(piece);
        if written.is_err() {
            self.faults = self.faults.saturating_add(1);
        }
        written
    }
}
