//! Values with the spelling of the default or fixed value of their part.
ghost use Rattle.std.specs.Prelude.{◌≡◌, IfOk};
ghost use Rattle.asn_types.specs.Modules.{IsModule};
ghost use Rattle.asn_types.specs.Refs.{IsOf};
ghost use Rattle.per_fields.specs.Owning as owning;

use asn_types::{Component, Module, TypeLabel, resolve};
use asn_values::spelling;
use base_flat_trees::Node;
use base_texts::Memory;
use base_trees::Tree;
use simple_types::{Standard, ValueLabel};
use std::alloc::Global;

/// Returns whether a value has the spelling of the default or fixed value of its part.
pub fn is_standard(
    alloc: Global,
    module: &Module,
    part: &Component,
    kid: &Tree<TypeLabel>,
    value: &Node<'_, ValueLabel>,
) -> Result<bool, Memory>
    requires known { IsModule module.now }
    requires of { IsOf module.now kid.now }
    ensures { IfOk result (λ b. b ≡ owning.is_standard module.now part.now kid.now value.now) }
{
    let text = match &part.standard {
        Standard::Free => return Ok(false),
        Standard::Default(text) => text,
        Standard::Fixed(text) => text,
    };
    let spelled = spelling(alloc, resolve(module, kid), value)?;
    Ok(spelled == *text)
}
