//! The default and fixed values of attributes in canonical spelling.
ghost use Rattle.std.specs.Prelude.{◌≡◌, map, IfOk};
ghost use Rattle.std.specs.List.{All};
ghost use Rattle.simple_types.specs.Seen.{space_of};
ghost use Rattle.simple_types.specs.Sound.{Sound};
ghost use Rattle.schema_components.specs.declared.components.SimpleDef.{SimpleDef as SimpleDefOf};
ghost use Rattle.link_set.specs.Sets as told;

use base_texts::Memory;
use link_simple::in_spelling;
use schema_components::{AttributeUse, ComplexDef, GlobalAttribute, SimpleDef, Uses};
use simple_types::Standard;
use std::alloc::Global;

fn or_free(found: Option<Standard>) -> Standard
    ensures { result ≡ told.or_free found }
{
    match found {
        Some(standard) => standard,
        None => Standard::Free,
    }
}

// Returns the value constraint in the canonical spelling of the simple type with this number.
fn spelled_standard(
    alloc: Global,
    simples: &[SimpleDef],
    n: u32,
    standard: &Standard,
) -> Result<Standard, Memory>
    requires { All (λ (t : SimpleDefOf). Sound (space_of t.space)) simples.now }
    ensures { IfOk result (λ made. made ≡ told.spelled_standard (told.named_spaces simples.now) n standard.now) }
{
    if let Standard::Free = standard {
        return Ok(Standard::Free);
    }
    if n as usize >= simples.len() {
        return Ok(Standard::Free);
    }
    let found = in_spelling(alloc, &simples[n as usize].space, standard)?;
    Ok(or_free(found))
}

/// Returns the global attributes with their default and fixed values in canonical spelling.
pub(crate) fn spelled_attributes(
    alloc: Global,
    simples: &[SimpleDef],
    attributes: Vec<GlobalAttribute>,
) -> Result<Vec<GlobalAttribute>, Memory>
    requires { All (λ (t : SimpleDefOf). Sound (space_of t.space)) simples.now }
    ensures { IfOk result (λ made. made.items ≡ map (told.spelled_attribute (told.named_spaces simples.now)) attributes.items) }
{
    let mut made = Vec::with_capacity(alloc, attributes.len())?;
    'attributes: for one in attributes {
        let standard = spelled_standard(alloc, simples, one.simple, &one.standard)?;
        made.push(GlobalAttribute {
            name: one.name,
            simple: one.simple,
            standard,
        })?;
    }
    Ok(made)
}

fn spelled_uses(alloc: Global, simples: &[SimpleDef], uses: Uses) -> Result<Uses, Memory>
    requires { All (λ (t : SimpleDefOf). Sound (space_of t.space)) simples.now }
    ensures { IfOk result (λ made. made ≡ map (told.spelled_use (told.named_spaces simples.now)) uses) }
{
    let uses = uses.into_items();
    let mut made = Vec::with_capacity(alloc, uses.len())?;
    'uses: for one in uses {
        let standard = spelled_standard(alloc, simples, one.simple, &one.standard)?;
        made.push(AttributeUse {
            name: one.name,
            simple: one.simple,
            required: one.required,
            standard,
        })?;
    }
    Ok(Uses::of(made))
}

/// Returns the complex types with the default and fixed values of their attributes in canonical spelling.
pub(crate) fn spelled_complexes(
    alloc: Global,
    simples: &[SimpleDef],
    complexes: Vec<ComplexDef>,
) -> Result<Vec<ComplexDef>, Memory>
    requires { All (λ (t : SimpleDefOf). Sound (space_of t.space)) simples.now }
    ensures { IfOk result (λ made. made.items ≡ map (told.spelled_complex (told.named_spaces simples.now)) complexes.items) }
{
    let mut made = Vec::with_capacity(alloc, complexes.len())?;
    'complexes: for one in complexes {
        let uses = spelled_uses(alloc, simples, one.uses)?;
        made.push(ComplexDef {
            name: one.name,
            uses,
            content: one.content,
        })?;
    }
    Ok(made)
}
