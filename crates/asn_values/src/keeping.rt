//! Values compared with the default or fixed values of their parts.
ghost use Rattle.std.specs.Prelude.{◌≡◌, ◌↔◌, IfOk, IsTrue};
ghost use Rattle.asn_types.specs.Refs.{IsOf};
ghost use Rattle.asn_types.specs.Spaces as types;
ghost use Rattle.asn_values.specs.Values as rule;

use crate::spellings::spelling;
use asn_types::{Component, Module, TypeLabel, resolve};
use base_flat_trees::Node;
use base_texts::{Memory, Text};
use base_trees::Tree;
use simple_types::{Standard, ValueLabel};
use std::alloc::Global;

// Returns whether the canonical spelling of a value is this text.
fn has_spelling(
    alloc: Global,
    module: &Module,
    node: &Tree<TypeLabel>,
    value: &Node<'_, ValueLabel>,
    text: &Text,
) -> Result<bool, Memory>
    requires { IsOf module.now node.now }
    ensures { IfOk result (λ b. IsTrue b ↔ (types.spelling module.now node.now value.now ≡ text.now)) }
{
    // Calling one of the module's readers makes its invariant known.
    let _ = module.count();
    let spelled = spelling(alloc, resolve(module, node), value)?;
    Ok(spelled == *text)
}

/// Returns whether a part may be present with this value, given its default or fixed value (X.691, clause 19.5). A default value
/// is omitted, and so is a fixed value if the part may be absent. If the part may not be absent, its value is the fixed one.
/// Values are compared by their canonical spellings.
///
/// Without a default or fixed value the time is constant. Otherwise it is that of the spelling.
pub fn kept(
    alloc: Global,
    module: &Module,
    part: &Component,
    node: &Tree<TypeLabel>,
    value: &Node<'_, ValueLabel>,
) -> Result<bool, Memory>
    requires { IsOf module.now node.now }
    ensures { IfOk result (λ b. IsTrue b ↔ rule.Kept module.now part.now node.now value.now) }
{
    match &part.standard {
        Standard::Free => Ok(true),
        Standard::Default(text) => {
            let left_out = has_spelling(alloc, module, node, value, text)?;
            Ok(!left_out)
        }
        Standard::Fixed(_) if part.optional => Ok(false),
        Standard::Fixed(text) => has_spelling(alloc, module, node, value, text),
    }
}
