//! Names that appeared before.
ghost use Rattle.std.specs.Prelude.{◌≡◌, ◌++◌, ◌∷◌, [], false, OnOk};
ghost use Rattle.module_text.specs.Faults.{has_text};

use base_texts::{Memory, Text};
use indexmap::IndexSet;
use std::alloc::Global;
use std::marker::Model;

/// Distinct names, in the order in which they appeared.
#[derive(Drop)]
pub struct Seen {
    names: IndexSet<Text>,
}

impl Model for Seen {
    ghost use Rattle.std.specs.Prelude.{List, ℕ};

    ghost Value = { List (List ℕ) };

    ghost view = { λ s. s.names.keys };
}

impl Seen {
    /// Returns an empty list.
    pub fn new(alloc: Global) -> Seen
        ensures { result ≡ [] }
    {
        Seen {
            names: IndexSet::new(alloc),
        }
    }

    /// Returns whether the name is one of them.
    pub fn has(&self, name: &Text) -> bool
        ensures { result ≡ has_text self.now name.now }
    {
        self.names.contains(name)
    }

    /// Adds a name after the others.
    pub fn note(&mut self, name: Text) -> Result<(), Memory>
        requires { has_text self.old name ≡ false }
        ensures { OnOk result (self.new ≡ self.old ++ name ∷ []) }
    {
        self.names.insert(name)?;
        Ok(())
    }
}
