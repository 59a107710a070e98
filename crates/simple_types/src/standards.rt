//! Default and fixed values.
ghost use Rattle.std.specs.Prelude.{◌≡◌, IfOk};

use base_texts::{Memory, Text};
use std::alloc::Global;

/// The value constraint of an attribute (XML Schema Part 1, sections 3.2.1 and 3.5.1).
#[derive(Drop)]
pub enum Standard {
    /// No constraint.
    Free,
    /// The value of the attribute where it is absent: the canonical spelling of a value.
    Default(Text),
    /// The required value of the attribute, and its value where it is absent: the canonical spelling of a value.
    Fixed(Text),
}

impl Standard {
    /// Returns an equal constraint.
    pub fn copy(&self, alloc: Global) -> Result<Standard, Memory>
        ensures { IfOk result (λ standard. standard ≡ self.now) }
    {
        match self {
            Standard::Free => Ok(Standard::Free),
            Standard::Default(text) => {
                let text = text.copy(alloc)?;
                Ok(Standard::Default(text))
            }
            Standard::Fixed(text) => {
                let text = text.copy(alloc)?;
                Ok(Standard::Fixed(text))
            }
        }
    }
}
