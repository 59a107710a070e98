//! The faults of a part in addition to those of its type.
ghost use Rattle.std.specs.Prelude.{◌≡◌, ◌<◌, ◌++◌, ◌∷◌, ◌||◌, IfOk, OnOk, [], length, false, nat_lt, if◌then◌else◌};
ghost use Rattle.base_texts.specs.Limits.{is_empty};
ghost use Rattle.module_text.specs.Texts as texts;
ghost use Rattle.module_text.specs.Listed.{first};
ghost use Rattle.module_text.specs.Told as told;
ghost use Rattle.module_text.specs.Faults as rule;
ghost use Rattle.module_simple.specs.Made.{IsMade, made_space};
ghost use Rattle.module_check.specs.Judging.{IsKnown, front_faults, value_faults};

use crate::context::Context;
use crate::forms::reference_fault;
use crate::parts::{is_order, roles_of};
use base_texts::{Memory, Text};
use base_trees::Tree;
use module_pieces::{
    Seen, has_embed_values, has_list, has_use_order, is_sequence_of, part_mark_fault, unless,
};
use module_simple::{absence_fault, fixed_fault, item_spot};
use module_text::{ModuleWhy, PlainForm, PlainLabel, PlainPart, Spot, TextFault};
use simple_types::Simple;
use std::alloc::Global;

/// Returns the spot of the type of a part.
pub fn part_spot(spot: Spot, label: &PlainLabel, i: usize, part: &PlainPart) -> Spot
    requires { i < length (texts.parts_of label.now.form) }
    ensures { result ≡ rule.part_spot spot label.now i part.now }
{
    if is_sequence_of(&label.form) {
        return item_spot(spot);
    }
    if is_order(roles_of(label), label, i, part) {
        Spot::Order
    } else {
        Spot::Elsewhere
    }
}

// Returns whether a part is only a reference, so that it begins where the reference begins.
fn is_bare(part: &PlainPart, label: &PlainLabel) -> bool
    ensures { result ≡ rule.is_bare part.now label.now }
{
    part.identifier.bytes().is_empty()
        && part.marks.items().is_empty()
        && label.marks.items().is_empty()
}

// Returns the fault of a part that is only a reference.
#[tactic(auto, unfolding(module_text::specs::Listed::first))]
fn bare_fault(context: &Context, part: &PlainPart, label: &PlainLabel) -> Option<TextFault>
    requires { IsKnown context.now }
    ensures { result ≡ first (if rule.is_bare part.now label.now then rule.reference_faults context.now.assignments.now label.now.form else []) }
{
    if is_bare(part, label) {
        reference_fault(context, &label.form)
    } else {
        None
    }
}

// Returns whether the part of a SEQUENCE OF has an identifier if and only if `nameless` is false.
fn is_named_so(nameless: bool, form: &PlainForm, part: &PlainPart) -> bool
    ensures { result ≡ rule.is_named_so nameless form.now part.now }
{
    !is_sequence_of(form) || part.identifier.bytes().is_empty() == nameless
}

/// Returns the first fault of a part before its type, except Duplicate.
#[tactic(auto, using(crate::proofs::Firsts::firsts), unfolding(module_text::specs::Listed::first))]
pub fn part_front_fault(
    context: &Context,
    nameless: bool,
    form: &PlainForm,
    part: &PlainPart,
    simple: bool,
    label: &PlainLabel,
) -> Option<TextFault>
    requires { IsKnown context.now }
    ensures { result ≡ first (front_faults context.now.assignments.now nameless form.now part.now simple label.now) }
{
    if let Some(fault) = bare_fault(context, part, label) {
        return Some(fault);
    }
    let named = is_named_so(nameless, form, part);
    if let Some(fault) = unless(named, part.at, ModuleWhy::Spelling) {
        return Some(fault);
    }
    part_mark_fault(simple, part.identifier.bytes(), part.marks.items())
}

/// Returns the first fault of a fixed value of a part, and of what follows a part that may be absent.
#[tactic(auto, using(crate::proofs::Firsts::firsts))]
pub fn value_fault(
    context: &Context,
    simple: &Option<Simple>,
    part: &PlainPart,
    kid: &Tree<PlainLabel>,
) -> Result<Option<TextFault>, Memory>
    requires known { IsKnown context.now }
    requires simple { IsMade simple.now }
    ensures { IfOk result (λ found. found ≡ first (value_faults context.now.assignments.now (made_space simple.now) part.now kid.now)) }
{
    if let Some(fault) = fixed_fault(context.alloc, simple, &part.fixed)? {
        return Ok(Some(fault));
    }
    let references = context.references;
    let meant = references.resolve(context.assignments, kid);
    let index = references.index_meant(context.assignments, kid);
    absence_fault(
        context.alloc,
        simple,
        &part.fixed,
        index,
        meant,
        &part.absence,
    )
}

// Returns the number of the first parts that are the texts of EMBED-VALUES and the order of USE-ORDER.
fn nameless_parts(label: &PlainLabel) -> usize
    ensures { result ≡ rule.nameless_parts label.now.marks }
{
    let marks = label.marks.items();
    match (has_embed_values(marks), has_use_order(marks)) {
        (true, true) => 2,
        (true, false) => 1,
        (false, true) => 1,
        (false, false) => 0,
    }
}

/// Returns whether the part with this number is one of those first parts.
pub fn is_front(label: &PlainLabel, i: usize) -> bool
    ensures { result ≡ nat_lt i (rule.nameless_parts label.now.marks) }
{
    i < nameless_parts(label)
}

/// Returns whether the part of a type has no identifier, if the type is a SEQUENCE OF.
pub fn is_nameless(label: &PlainLabel, nameless: bool) -> bool
    ensures { result ≡ (told.has_list label.now.marks || nameless) }
{
    has_list(label.marks.items()) || nameless
}

/// Returns whether the identifier is among these. An empty one never is.
pub fn is_listed(seen: &Seen, identifier: &Text) -> bool
    ensures { result ≡ rule.is_listed seen.now identifier.now }
{
    !identifier.bytes().is_empty() && seen.has(identifier)
}

/// Adds an identifier, if it is not empty.
pub fn note(alloc: Global, seen: &mut Seen, identifier: &Text) -> Result<(), Memory>
    requires { rule.is_listed seen.old identifier.now ≡ false }
    ensures { OnOk result (seen.new ≡ (if is_empty identifier.now then seen.old else seen.old ++ identifier.now ∷ [])) }
{
    if !identifier.bytes().is_empty() {
        seen.note(identifier.copy(alloc)?)?;
    }
    Ok(())
}
