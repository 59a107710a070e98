//! Names that are kept distinct.
ghost use Rattle.std.specs.Prelude.{◌≡◌, ℕ, ◌+◌, ◌<◌, ◌≤◌, ◌^◌, ◌↔◌, List, [], ◌∷◌, ◌++◌, IfOk, OnErr, IsTrue};
ghost use Rattle.std.specs.List.{Contains};
ghost use Rattle.asn_names.specs.Taking.{IsFree, IsTaken, IsLeastSuffix, AreTakenBelow, suffixed};
ghost use Rattle.asn_names.specs.declared.conversion.NameKind.{NameKind};

use crate::conversion::NameKind;
use crate::reserved::is_reserved;
use base_texts::{Memory, Text};
use indexmap::{IndexMap, IndexSet};
use std::alloc::Global;
use std::marker::Model;

/// Distinct names, seen as the list of them in the order in which they were added.
#[derive(Drop)]
pub struct Scope {
    alloc: Global,
    names: IndexSet<Text>,
    // For each name that was returned with a suffix, a number below which each suffix is in use.
    suffixes: IndexMap<Text, u64>,
}

impl Model for Scope {
    ghost use Rattle.std.specs.Prelude.{◌≡◌, ◌<◌, ℕ, List, Some, bytes_eq};
    ghost use Rattle.indexmap.specs.IndexMap.{get};
    ghost use Rattle.asn_names.specs.Taking.{AreTakenBelow};

    ghost Value = { List (List ℕ) };

    ghost view = { λ s. s.names.keys };

    ghost invariant = { λ s. (name : List ℕ) (n : ℕ) → get bytes_eq s.suffixes name ≡ Some n → (0 < n) × AreTakenBelow s.names.keys name n };
}

// Returns the name with a suffix.
fn with_suffix(alloc: Global, name: &Text, n: u64) -> Result<Text, Memory>
    ensures { IfOk result (λ text. text ≡ suffixed name.now n) }
{
    Text::from_string(format!(in alloc; "{}-{n}", name.as_str())?)
}

// Returns the name with the first suffix that differs from all names, where each suffix below `from` is in use.
fn first_suffix(
    alloc: Global,
    names: &IndexSet<Text>,
    name: &Text,
    from: u64,
) -> Result<(Text, u64), Memory>
    requires positive { 0 < from }
    requires taken { AreTakenBelow names.now.keys name.now from }
    ensures { IfOk result (λ r. (r.0 ≡ suffixed name.now r.1) × (0 < r.1) × (r.1 < 2 ^ 64) × (¬ Contains names.now.keys r.0) × AreTakenBelow names.now.keys name.now r.1) }
{
    // The names with these suffixes are distinct, so the names in use run out before the numbers do.
    prove!(names.len() < usize::MAX);
    let mut n = from;
    'suffixes: loop {
        let text = with_suffix(alloc, name, n)?;
        if !names.contains(&text) {
            return Ok((text, n));
        }
        n += 1;
    }
}

impl Scope {
    /// Returns a scope without names.
    pub fn new(alloc: Global) -> Scope
        ensures { result ≡ [] }
    {
        Scope {
            alloc,
            names: IndexSet::new(alloc),
            suffixes: IndexMap::new(alloc),
        }
    }

    fn is_free(&self, kind: NameKind, name: &Text) -> bool
        ensures { IsTrue result ↔ IsFree kind self.now name.now }
    {
        if self.names.contains(name) {
            return false;
        }
        match kind {
            NameKind::Reference => !is_reserved(name.bytes()),
            NameKind::Identifier => true,
        }
    }

    // Returns the name with the least suffix that differs from all names in use.
    fn suffixed(&mut self, name: &Text) -> Result<Text, Memory>
        ensures same { self.new ≡ self.old }
        ensures least { IfOk result (λ text. (n : ℕ) × ((kind : NameKind) → IsLeastSuffix kind self.old name.now n) × (text ≡ suffixed name.now n)) }
    {
        let from = self.suffixes.get(name).copied().unwrap_or(1);
        let (text, n) = first_suffix(self.alloc, &self.names, name, from)?;
        self.suffixes.insert(name.copy(self.alloc)?, n)?;
        Ok(text)
    }

    // Returns the name that is chosen for this one, and adds none.
    fn given(&mut self, kind: NameKind, converted: &Text) -> Result<Text, Memory>
        ensures same { self.new ≡ self.old }
        ensures taken { IfOk result (λ name. IsTaken kind self.old converted.now name) }
    {
        if self.is_free(kind, converted) {
            return converted.copy(self.alloc);
        }
        self.suffixed(converted)
    }

    /// Adds and returns the name if it is free. A name that is in use is not free, nor is a reserved word for a reference. Such a
    /// name gets a suffix: a hyphen and the least positive number that makes it free.
    pub fn take(&mut self, kind: NameKind, converted: &Text) -> Result<Text, Memory>
        ensures taken { IfOk result (λ name. IsTaken kind self.old converted.now name) }
        ensures fresh { IfOk result (λ name. ¬ Contains self.old name) }
        ensures noted { IfOk result (λ name. self.new ≡ self.old ++ name ∷ []) }
        ensures memory { OnErr result (self.new ≡ self.old) }
    {
        let name = self.given(kind, converted)?;
        self.names.insert(name.copy(self.alloc)?)?;
        Ok(name)
    }
}
