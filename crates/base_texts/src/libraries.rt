//! Libraries of named files.
ghost use Rattle.std.specs.Prelude.{◌≡◌, ◌⊎◌, ℕ, Bool, true, false, ◌+◌, ◌-◌, ◌^◌, ◌<◌, ◌≤◌, ◌↔◌, ◌&&◌, min, List, [], ◌∷◌, length, map, bytes_eq, nat_lt, Option, Some, None, Ok, Err, MatchOption, MatchResult, IsErr, IsErrOf, IfOk, IfSome, IsTrue, IsSome, Contains, if◌then◌else◌};
ghost use Rattle.base_texts.specs.Faults.{Counts, count_after, one_more};
ghost use Rattle.base_texts.specs.Entries.{beside, HasEntry, HasLonger, Lacks, IsNext, after_next, has_failed};

use crate::texts::Text;
use std::alloc::Global;
use std::marker::Model;
use thiserror::Error;

/// The reasons why a load returns no contents.
#[derive(Clone, Copy, Debug, Error)]
pub enum LoadError {
    #[error("the file can't be loaded")]
    Failed,
    #[error("the file is too long")]
    TooLong,
    #[error("out of memory")]
    Memory,
}

/// Named files. The clauses of a real library say nothing of its entries.
pub trait Library {
    /// The names with their contents. `None` for a library whose entries aren't known to proofs.
    ghost entries: { Self → Option (List (List ℕ × List ℕ)) };

    /// Whether it fails only on names that it doesn't have.
    ghost is_sure: { Self → Bool };

    /// The number of failures so far. The count remains at 2^64 - 1 once it is reached.
    ghost faults: { Self → ℕ };

    /// The names that may still be loaded, in their order and once each. `None` for a library that may be asked for any name.
    ghost agenda: { Self → Option (List (List ℕ)) };

    /// Returns the contents of the first entry of that name, if they have at most `limit` bytes. The entries are unchanged.
    fn load(&mut self, alloc: Global, name: &Text, limit: u64) -> Result<Vec<u8>, LoadError>
        requires small { limit ≤ 2 ^ 32 }
        requires next { IsNext (agenda self.old) name.now }
        ensures most { IfOk result (λ bytes. length bytes.items ≤ limit) }
        ensures contents { IfOk result (λ bytes. HasEntry (entries self.old) name.now bytes.items) }
        ensures too_long { IsErrOf result LoadError.TooLong → HasLonger (entries self.old) name.now limit }
        ensures kept { entries self.new ≡ entries self.old }
        ensures sure { is_sure self.new ≡ is_sure self.old }
        ensures rest { agenda self.new ≡ after_next (agenda self.old) }
        ensures cause { Counts (faults self.old) (faults self.new) (IsErrOf result LoadError.Failed) }
        // A sure library fails only on a name that isn't there.
        ensures missing { IsTrue (is_sure self.old) → (faults self.old < faults self.new) ⊎ IsErrOf result LoadError.Failed → Lacks (entries self.old) name.now };
}

/// A file of a library in memory, seen as its name and its contents.
#[derive(Drop)]
pub struct Entry {
    name: Text,
    contents: Vec<u8>,
}

impl Model for Entry {
    ghost use Rattle.std.specs.Prelude.{List, ℕ};

    ghost Value = { List ℕ × List ℕ };

    ghost view = { λ e. (e.name, e.contents.items) };
}

impl Entry {
    /// Returns a file with this name and these contents.
    pub fn of(name: Text, contents: Vec<u8>) -> Entry
        ensures { result ≡ (name, contents.items) }
    {
        Entry { name, contents }
    }

    fn has(&self, name: &Text) -> bool
        ensures { result ≡ bytes_eq self.now.0 name.now }
    {
        self.name.bytes() == name.bytes()
    }

    fn contents(&self) -> &[u8]
        ensures { result.now ≡ self.now.1 }
    {
        &self.contents
    }
}

// The contents of the first entry of that name.
fn find<'a>(entries: &'a [Entry], name: &Text) -> Option<&'a [u8]>
    ensures { MatchOption result (beside name.now entries.now ≡ None) (λ found. beside name.now entries.now ≡ Some found.now) }
{
    for entry in entries {
        if entry.has(name) {
            return Some(entry.contents());
        }
    }
    None
}

/// A library in memory that fails only on a name that isn't there.
#[derive(Drop)]
pub struct SureLibrary {
    entries: Vec<Entry>,
    faults: u64,
}

impl Model for SureLibrary {
    ghost use Rattle.base_texts.specs.States.{Shelf};

    ghost Value = { Shelf };

    ghost view = { λ s. record { entries = s.entries.items; faults = s.faults } };
}

impl SureLibrary {
    /// Returns a library of these files. Of two with one name the first is used.
    pub fn new(entries: Vec<Entry>) -> SureLibrary
        ensures { result ≡ record { entries = entries.items; faults = 0 } }
    {
        SureLibrary { entries, faults: 0 }
    }
}

impl Library for SureLibrary {
    ghost entries = { λ s. Some s.entries };

    ghost is_sure = { λ _. true };

    ghost faults = { λ s. s.faults };

    ghost agenda = { λ _. None };

    fn load(&mut self, alloc: Global, name: &Text, limit: u64) -> Result<Vec<u8>, LoadError>
        ensures most { IfOk result (λ bytes. length bytes.items ≤ limit) }
        ensures contents { IfOk result (λ bytes. HasEntry (Some self.old.entries) name.now bytes.items) }
        ensures too_long { IsErrOf result LoadError.TooLong ↔ HasLonger (Some self.old.entries) name.now limit }
        ensures kept { self.new.entries ≡ self.old.entries }
        ensures cause { Counts self.old.faults self.new.faults (IsErrOf result LoadError.Failed) }
        // It fails if and only if the name isn't there, and counts each fault.
        ensures missing { IsErrOf result LoadError.Failed ↔ (beside name.now self.old.entries ≡ None) }
        ensures faults { self.new.faults ≡ count_after (has_failed result) self.old.faults }
    {
        let Some(found) = find(&self.entries, name) else {
            self.faults = self.faults.saturating_add(1);
            return Err(LoadError::Failed);
        };
        if found.len() as u64 > limit {
            return Err(LoadError::TooLong);
        }
        match found.to_vec(alloc) {
            Ok(bytes) => Ok(bytes),
            Err(_) => Err(LoadError::Memory),
        }
    }
}

/// A library in memory that fails at the calls with these numbers, counted from 1, and on a name that isn't there.
#[derive(Drop)]
pub struct MemoryLibrary {
    shelf: SureLibrary,
    fails: Vec<u64>,
    calls: u64,
    faults: u64,
}

impl Model for MemoryLibrary {
    ghost use Rattle.base_texts.specs.States.{FaultyShelf};

    ghost Value = { FaultyShelf };

    ghost view = { λ s. record { entries = s.shelf.entries; fails = s.fails.items; calls = s.calls; faults = s.faults } };
}

impl MemoryLibrary {
    /// Returns a library of these files that fails at the calls with these numbers. Of two files with one name the first is used.
    pub fn new(entries: Vec<Entry>, fails: Vec<u64>) -> MemoryLibrary
        ensures { result ≡ record { entries = entries.items; fails = fails.items; calls = 0; faults = 0 } }
    {
        MemoryLibrary {
            shelf: SureLibrary::new(entries),
            fails,
            calls: 0,
            faults: 0,
        }
    }
}

impl Library for MemoryLibrary {
    ghost entries = { λ s. Some s.entries };

    ghost is_sure = { λ _. false };

    ghost faults = { λ s. s.faults };

    ghost agenda = { λ _. None };

    fn load(&mut self, alloc: Global, name: &Text, limit: u64) -> Result<Vec<u8>, LoadError>
        ensures most { IfOk result (λ bytes. length bytes.items ≤ limit) }
        ensures contents { IfOk result (λ bytes. HasEntry (Some self.old.entries) name.now bytes.items) }
        ensures too_long { IsErrOf result LoadError.TooLong → HasLonger (Some self.old.entries) name.now limit }
        ensures longer { HasLonger (Some self.old.entries) name.now limit → IsErrOf result LoadError.TooLong ⊎ IsErrOf result LoadError.Failed }
        ensures kept { self.new.entries ≡ self.old.entries }
        ensures cause { Counts self.old.faults self.new.faults (IsErrOf result LoadError.Failed) }
        // It fails exactly at the calls with these numbers and where the name isn't there, and counts each fault.
        ensures fails { IsErrOf result LoadError.Failed ↔ (Contains self.old.fails (one_more self.old.calls) ⊎ (beside name.now self.old.entries ≡ None)) }
        ensures faults { self.new.faults ≡ count_after (has_failed result) self.old.faults }
        ensures calls { (self.new.calls ≡ one_more self.old.calls) × (self.new.fails ≡ self.old.fails) }
    {
        self.calls = self.calls.saturating_add(1);
        if self.fails.contains(&self.calls) {
            self.faults = self.faults.saturating_add(1);
            return Err(LoadError::Failed);
        }
        let loaded = self.shelf.load(alloc, name, limit);
        if let Err(LoadError::Failed) = loaded {
            self.faults = self.faults.saturating_add(1);
        }
        loaded
    }
}
