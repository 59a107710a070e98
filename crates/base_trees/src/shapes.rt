//! The number of children that a label allows its node.
ghost use Rattle.std.specs.Prelude.{◌≡◌, ℕ, IfOk, IsTrue, ◌↔◌};

use base_texts::Memory;
use std::alloc::Global;

/// A label that says how many children its node may have.
pub trait Shape: Drop {
    /// Holds if a node with this label may have this number of children.
    ghost allowed: { Self → ℕ → Type 0 };

    /// Returns whether a node with this label may have this number of children.
    fn allows(&self, kids: u64) -> bool
        ensures { IsTrue result ↔ allowed self.now kids };

    /// Returns an equal label.
    fn copy(&self, alloc: Global) -> Result<Self, Memory>
        ensures { IfOk result (λ label. label ≡ self.now) };
}
