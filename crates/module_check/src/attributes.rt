//! The simple types that the types of attributes represent.
ghost use Rattle.std.specs.Prelude.{◌≡◌, None, IfOk, MatchOption, if◌then◌else◌};
ghost use Rattle.module_text.specs.declared.spots.Spot.TheVariants.{Elsewhere};
ghost use Rattle.module_text.specs.Resolving.{resolve};
ghost use Rattle.module_text.specs.Simple as simple;
ghost use Rattle.module_text.specs.Faults as rule;
ghost use Rattle.module_simple.specs.Made.{Makes};
ghost use Rattle.module_check.specs.Judging.{IsKnown};

use crate::context::Context;
use base_texts::Memory;
use base_trees::Tree;
use module_simple::simple_told;
use module_text::{PlainForm, PlainLabel, Spot};
use simple_types::Simple;
use std::alloc::Global;

/// Returns the simple type that the type of an attribute represents, without following references. None if it is not the type of an
/// attribute.
pub fn own_simple(
    alloc: Global,
    spot: Spot,
    attribute: bool,
    node: &Tree<PlainLabel>,
) -> Result<Option<Simple>, Memory>
    ensures { IfOk result (λ found. Makes found (if attribute then simple.simple_told spot node.now else None)) }
{
    if attribute {
        simple_told(alloc, spot, node)
    } else {
        Ok(None)
    }
}

// Returns the simple type of the assignment that the references of a type reach, if they reach one.
fn meant_simple<'a>(context: &Context<'a>, node: &Tree<PlainLabel>) -> Option<&'a Option<Simple>>
    requires { IsKnown context.now }
    ensures { MatchOption result
        (resolve context.now.assignments.now node.now ≡ node.now)
        (λ found. Makes found.now (simple.simple_told Elsewhere (resolve context.now.assignments.now node.now))) }
{
    let simples = context.simples;
    match context.references.number_meant(context.assignments, node) {
        Some(number) => Some(&simples[number]),
        None => None,
    }
}

/// Returns the simple type of an attribute whose type is a reference, as it is known of the assignment that is reached.
pub fn shared_simple<'a>(
    context: &Context<'a>,
    spot: Spot,
    attribute: bool,
    node: &Tree<PlainLabel>,
) -> Option<&'a Option<Simple>>
    requires { IsKnown context.now }
    ensures { MatchOption result
        ((if attribute then rule.space_through context.now.assignments.now spot node.now else None) ≡ (if attribute then simple.simple_told spot node.now else None))
        (λ found. Makes found.now (if attribute then rule.space_through context.now.assignments.now spot node.now else None)) }
{
    if !attribute {
        return None;
    }
    match &node.label().form {
        PlainForm::Ref { .. } => meant_simple(context, node),
        _ => None,
    }
}
