//! What is prepared, with several owners.
ghost use Rattle.std.specs.Prelude.{◌≡◌, IfOk};

use std::alloc::{AllocError, Global};
use std::marker::Model;
use std::sync::Arc;
use transcode_core::Prepared;

/// One of the owners of what is prepared. The last one that is dropped frees it.
#[derive(Drop)]
pub struct Shared {
    it: Arc<Prepared>,
}

impl Model for Shared {
    ghost use Rattle.std.specs.Prelude.{ℕ};
    ghost use Rattle.std.specs.Arc.{arc_value};
    ghost use Rattle.std.specs.Coded.{codes};
    ghost use Rattle.simple_types.specs.contracts.simples.Simple as simple;
    ghost use Rattle.schema_components.specs.contracts.components.ComplexDef as complex;
    ghost use Rattle.schema_components.specs.Components.{Set};

    ghost Value = { Set × ℕ };

    ghost coded = { Prim.hlevel (codes, simple.the_row.coded, complex.the_row.coded) };

    ghost view = { λ s. arc_value s.it };
}

impl Shared {
    /// Returns the first owner.
    pub fn of(alloc: Global, prepared: Prepared) -> Result<Shared, AllocError>
        ensures { IfOk result (λ shared. shared ≡ prepared) }
    {
        let it = Arc::new(alloc, prepared)?;
        Ok(Shared { it })
    }

    /// Returns what is prepared.
    pub fn prepared(&self) -> &Prepared
        ensures { result.now ≡ self.now }
    {
        &self.it
    }

    /// Returns one more owner. Allocates nothing, and fails only if there are too many owners to count.
    pub fn again(&self) -> Result<Shared, AllocError>
        ensures { IfOk result (λ shared. shared ≡ self.now) }
    {
        let it = self.it.clone()?;
        Ok(Shared { it })
    }
}
