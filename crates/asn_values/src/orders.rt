//! The order of the child elements of a USE-ORDER type (X.693).
ghost use Rattle.std.specs.Prelude.{◌≡◌, ◌↔◌, [], Some, None, IfOk, IsTrue, MatchOption, map, not};
ghost use Rattle.std.specs.List.{list_any};
ghost use Rattle.base_trees.specs.Rose.{label_of, kids_of, roses_of};
ghost use Rattle.asn_types.specs.Modules.{HasOrderPart, IsSequence, ordered};
ghost use Rattle.asn_types.specs.Parts.{parts_of};
ghost use Rattle.asn_types.specs.Refs as refs;
ghost use Rattle.asn_values.specs.Orders as computed;
ghost use Rattle.asn_values.specs.Private.Placing.{place_seen};
ghost use Rattle.asn_values.specs.Values as rule;

use crate::places::{ComponentPlace, present_places};
use crate::rules::is_last_absent;
use asn_types::{Component, Form, Module, Role, TypeLabel, resolve};
use base_flat_trees::{Kids, Node};
use base_texts::Memory;
use base_trees::Tree;
use simple_types::ValueLabel;
use std::alloc::Global;
use std::iter::Iterator;

// Returns the type whose elements are in an order: the content of a USE-NIL type, and each other type itself.
fn ordered_type<'a>(module: &'a Module, node: &'a Tree<TypeLabel>) -> Option<&'a TypeLabel>
    ensures { MatchOption result
        (ordered module.now (label_of node.now) (roses_of (kids_of node.now)) ≡ None)
        (λ inner. ordered module.now (label_of node.now) (roses_of (kids_of node.now)) ≡ Some inner.now) }
{
    let label = node.label();
    if !label.marks.has_use_nil() {
        return Some(label);
    }
    match node.kids().get(label.form.part_count().saturating_sub(1)) {
        Some(content) => Some(resolve(module, content).label()),
        None => None,
    }
}

// Returns the value that has these elements: that of the content of a USE-NIL type, if it is present.
fn ordered_value<'a>(label: &TypeLabel, value: &Node<'a, ValueLabel>) -> Option<&'a ValueLabel>
    ensures { MatchOption result
        (rule.ordered_value label.now value.now ≡ None)
        (λ inner. rule.ordered_value label.now value.now ≡ Some inner.now) }
{
    if !label.marks.has_use_nil() {
        return Some(value.label());
    }
    let kids = value.kid_count();
    if is_last_absent(value.label()) || kids == 0 {
        return None;
    }
    Some(value.kid(kids - 1).label())
}

fn is_element(role: Role) -> bool
    ensures { result ≡ refs.is_element role }
{
    matches!(role, Role::Element)
}

// Returns which of the components that are elements are present.
fn element_flags(
    alloc: Global,
    label: &TypeLabel,
    parts: &[Component],
    present: &[bool],
) -> Result<Vec<bool>, Memory>
    requires { parts.now ≡ parts_of label.now.form }
    ensures { IfOk result (λ flags. flags.items ≡ rule.flags_from label.now 0 parts.now present.now) }
{
    let mut flags = Vec::new(alloc);
    'parts: for i in 0..parts.len() {
        if i == present.len() {
            return Ok(flags);
        }
        if is_element(label.role_of(i, &parts[i])) {
            flags.push(present[i])?;
        }
    }
    Ok(flags)
}

/// Returns which of the elements that a USE-ORDER type orders are present: none if the content of a USE-NIL type is absent.
pub fn ordered_flags(
    alloc: Global,
    module: &Module,
    node: &Tree<TypeLabel>,
    value: &Node<'_, ValueLabel>,
) -> Result<Vec<bool>, Memory>
    requires { HasOrderPart module.now (label_of node.now) (roses_of (kids_of node.now)) }
    ensures { IfOk result (λ flags. flags.items ≡ rule.ordered_flags module.now (label_of node.now) node.now value.now) }
{
    let Some(label) = ordered_type(module, node) else {
        return Ok(Vec::new(alloc));
    };
    let Some(inner) = ordered_value(node.label(), value) else {
        return Ok(Vec::new(alloc));
    };
    match &label.form {
        Form::Sequence { parts } => match inner {
            ValueLabel::Sequence { present } => {
                element_flags(alloc, label, parts.items(), present.items())
            }
            _ => Ok(Vec::new(alloc)),
        },
        _ => Ok(Vec::new(alloc)),
    }
}

// Returns the value of the part that has the order.
fn order_in<'a>(
    places: &[ComponentPlace<'_>],
    values: &Kids<'a, ValueLabel>,
) -> Option<Node<'a, ValueLabel>>
    ensures { MatchOption result
        (rule.numbers_in (map place_seen places.now) values.now ≡ [])
        (λ order. rule.numbers_in (map place_seen places.now) values.now ≡ map rule.item_number (kids_of order)) }
{
    let mut left = values.again();
    'places: for place in places {
        let Some(value) = left.next() else {
            return None;
        };
        if matches!(place.role, Role::Order) {
            return Some(value);
        }
    }
    None
}

// Returns the value of the part that has the order, if there is a value for each part that needs one.
fn order_of<'a>(
    alloc: Global,
    node: &Tree<TypeLabel>,
    value: &Node<'a, ValueLabel>,
) -> Result<Option<Node<'a, ValueLabel>>, Memory>
    requires { IsSequence (label_of node.now).form }
    ensures { IfOk result (λ found. MatchOption found
        (rule.order_of node.now value.now ≡ [])
        (λ order. rule.order_of node.now value.now ≡ map rule.item_number (kids_of order))) }
{
    let label = node.label();
    let Form::Sequence { parts } = &label.form else {
        return Ok(None);
    };
    let ValueLabel::Sequence { present } = value.label() else {
        return Ok(None);
    };
    match present_places(alloc, label, parts.items(), node.kids(), present.items())? {
        Some(places) => Ok(order_in(&places, &value.kids())),
        None => Ok(None),
    }
}

fn item_number(item: &Node<'_, ValueLabel>) -> u32
    ensures { result ≡ rule.item_number item.now }
{
    match item.label() {
        ValueLabel::Enum(i) => *i,
        _ => 0,
    }
}

fn is_set(flags: &[bool], i: usize) -> bool
    ensures { result ≡ computed.is_set flags.now i }
{
    match flags.get(i) {
        Some(flag) => *flag,
        None => false,
    }
}

fn is_none_set(flags: &[bool]) -> bool
    ensures { result ≡ not (list_any (λ flag. flag) flags.now) }
{
    'flags: for flag in flags {
        if *flag {
            return false;
        }
    }
    true
}

// Returns whether each item clears a flag that is set, and none is left set. The first item without such a flag ends the test.
fn are_just_set(flags: Vec<bool>, items: &Kids<'_, ValueLabel>) -> bool
    ensures { result ≡ computed.are_just_set flags.items (map rule.item_number items.now) }
{
    let mut left = flags;
    'items: for item in items.again() {
        let i = item_number(&item) as usize;
        if !is_set(&left, i) {
            return false;
        }
        left[i] = false;
    }
    is_none_set(&left)
}

/// Returns whether the order of the child elements names each that is present once, by its number among all that may be, and no
/// other. It allocates a flag for each component.
pub(crate) fn has_order(
    alloc: Global,
    module: &Module,
    node: &Tree<TypeLabel>,
    value: &Node<'_, ValueLabel>,
) -> Result<bool, Memory>
    requires { HasOrderPart module.now (label_of node.now) (roses_of (kids_of node.now)) }
    ensures { IfOk result (λ b. IsTrue b ↔ rule.HasOrder module.now (label_of node.now) node.now value.now) }
{
    let flags = ordered_flags(alloc, module, node, value)?;
    match order_of(alloc, node, value)? {
        Some(order) => Ok(are_just_set(flags, &order.kids())),
        None => Ok(is_none_set(&flags)),
    }
}
