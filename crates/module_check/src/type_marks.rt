//! Encoding instructions of types.
ghost use Rattle.std.specs.Prelude.{◌≡◌, ◌<◌, ◌+◌, ◌^◌, ◌&&◌, None, IfOk, IfSome, length, drop, option_map, position, bytes_eq, if◌then◌else◌};
ghost use Rattle.base_trees.specs.Rose.{label_of, kids_of, roses_of};
ghost use Rattle.module_text.specs.Ranks.{rank_of_type_mark};
ghost use Rattle.module_text.specs.declared.types.PlainName.{PlainName};
ghost use Rattle.module_text.specs.Listed.{first};
ghost use Rattle.module_text.specs.Simple as simple;
ghost use Rattle.module_text.specs.Marks as may;
ghost use Rattle.module_text.specs.Faults as rule;
ghost use Rattle.module_check.specs.Judging.{IsKnown, is_simple_of};

use crate::context::Context;
use crate::orders::has_order_part;
use base_texts::{Memory, Text};
use base_trees::Tree;
use module_pieces::{
    has_content, has_texts, is_choice, is_sequence_of, is_told_so, rank, stands_once, unless,
};
use module_simple::{is_order_item, simple_told};
use module_text::{ModuleWhy, PlainForm, PlainLabel, PlainName, Spot, TextFault, TypeMarkKind};

// Returns the number of the first of these items with the identifier.
fn position_of(items: &[PlainName], identifier: &Text) -> Option<usize>
    ensures number { result ≡ position (λ (i : PlainName). bytes_eq i.name identifier.now) items.now }
    ensures within { IfSome result (λ i. i < length items.now) }
{
    items.iter().position(|item| item.name == *identifier)
}

// Returns the number of the first item with the identifier, of those from a least number on.
fn position_from(items: &[PlainName], least: usize, identifier: &Text) -> Option<usize>
    ensures number { result ≡ option_map (λ i. least + i) (position (λ (i : PlainName). bytes_eq i.name identifier.now) (drop least items.now)) }
    ensures small { IfSome result (λ i. i + 1 < 2 ^ 64) }
{
    if items.len() <= least {
        return None;
    }
    match position_of(&items[least..], identifier) {
        Some(i) => Some(least + i),
        None => None,
    }
}

// Returns that number if the items are words, and None if they are the parts of an order.
fn word_number(spot: Spot, items: &[PlainName], least: usize, identifier: &Text) -> Option<usize>
    ensures number { result ≡ (if simple.is_order_item spot then None
        else option_map (λ i. least + i) (position (λ (i : PlainName). bytes_eq i.name identifier.now) (drop least items.now))) }
    ensures small { IfSome result (λ i. i + 1 < 2 ^ 64) }
{
    if is_order_item(spot) {
        return None;
    }
    position_from(items, least, identifier)
}

// Returns the number of the first item with this identifier from a least number on, if the items represent words.
fn item_number(spot: Spot, form: &PlainForm, least: usize, identifier: &Text) -> Option<usize>
    ensures number { result ≡ may.item_number spot form.now least identifier.now }
    ensures small { IfSome result (λ i. i + 1 < 2 ^ 64) }
{
    match form {
        PlainForm::Words { identifiers } => {
            word_number(spot, identifiers.items(), least, identifier)
        }
        _ => None,
    }
}

// Returns whether a type at this spot represents a simple type.
fn is_simple(context: &Context, spot: Spot, node: &Tree<PlainLabel>) -> Result<bool, Memory>
    ensures { IfOk result (λ is. is ≡ simple.is_simple spot node.now) }
{
    let found = simple_told(context.alloc, spot, node)?;
    Ok(found.is_some())
}

// Returns whether a type at this spot is mapped to a simple type, in terms of its label and its parts.
fn stands_for_simple(context: &Context, spot: Spot, node: &Tree<PlainLabel>) -> Result<bool, Memory>
    ensures { IfOk result (λ is. is ≡ is_simple_of spot (label_of node.now) (roses_of (kids_of node.now))) }
{
    is_simple(context, spot, node)
}

// Returns whether an instruction of a type at this spot may appear there. `least` is the least number that the item of a TEXT may
// have.
fn may_stand(
    context: &Context,
    spot: Spot,
    node: &Tree<PlainLabel>,
    least: usize,
    kind: &TypeMarkKind,
) -> Result<bool, Memory>
    requires { IsKnown context.now }
    ensures { IfOk result (λ is. is ≡
        may.type_mark_may context.now.assignments.now spot (label_of node.now) (roses_of (kids_of node.now)) least kind.now) }
{
    let form = &node.label().form;
    match kind {
        TypeMarkKind::UseNil => Ok(has_content(form)),
        TypeMarkKind::EmbedValues => Ok(has_texts(form, node.kids())),
        TypeMarkKind::UseOrder => has_order_part(context, node),
        TypeMarkKind::List => {
            let simple = stands_for_simple(context, spot, node)?;
            Ok(is_sequence_of(form) && simple)
        }
        TypeMarkKind::UseUnion => {
            let simple = stands_for_simple(context, spot, node)?;
            Ok(is_choice(form) && simple)
        }
        TypeMarkKind::UseNumber => Ok(true),
        TypeMarkKind::Replace => Ok(true),
        TypeMarkKind::Collapse => Ok(true),
        TypeMarkKind::Text { identifier, text } => {
            let number = item_number(spot, form, least, identifier);
            Ok(number.is_some() && is_told_so(identifier.bytes(), text))
        }
    }
}

// Returns the least number that the item of a TEXT after this instruction may have.
fn next_item(spot: Spot, form: &PlainForm, least: usize, kind: &TypeMarkKind) -> usize
    ensures { result ≡ may.next_item spot form.now least kind.now }
{
    match kind {
        TypeMarkKind::Text { identifier, .. } => match item_number(spot, form, least, identifier) {
            Some(number) => number + 1,
            None => least,
        },
        _ => least,
    }
}

// Returns whether an instruction may follow one of this rank.
fn mark_stands(
    context: &Context,
    spot: Spot,
    node: &Tree<PlainLabel>,
    before: Option<u8>,
    least: usize,
    kind: &TypeMarkKind,
) -> Result<bool, Memory>
    requires { IsKnown context.now }
    ensures { IfOk result (λ is. is ≡ (may.stands_once before (rank_of_type_mark kind.now)
        && may.type_mark_may context.now.assignments.now spot (label_of node.now) (roses_of (kids_of node.now)) least kind.now)) }
{
    let may = may_stand(context, spot, node, least, kind)?;
    Ok(stands_once(before, rank(kind)) && may)
}

/// Returns the first fault of the instructions of a type at this spot.
pub fn type_mark_fault(
    context: &Context,
    spot: Spot,
    node: &Tree<PlainLabel>,
) -> Result<Option<TextFault>, Memory>
    requires { IsKnown context.now }
    ensures { IfOk result (λ found. found ≡
        first (rule.type_mark_faults context.now.assignments.now spot (label_of node.now) (roses_of (kids_of node.now)) None 0 (label_of node.now).marks)) }
{
    let label = node.label();
    let marks = label.marks.items();
    let mut before = None;
    let mut least = 0;
    'marks: for mark in marks {
        let stands = mark_stands(context, spot, node, before, least, &mark.kind)?;
        if let Some(fault) = unless(stands, mark.at, ModuleWhy::Spelling) {
            return Ok(Some(fault));
        }
        before = Some(rank(&mark.kind));
        least = next_item(spot, &label.form, least, &mark.kind);
    }
    Ok(None)
}
