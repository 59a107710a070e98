//! The rules of one node of a value.
ghost use Rattle.std.specs.Prelude.{◌≡◌, ◌-◌, ◌^◌, ◌↔◌, min, map, replicate, length, IfOk, IsTrue};
ghost use Rattle.base_trees.specs.Rose.{label_of, kids_of, roses_of};
ghost use Rattle.asn_types.specs.Modules.{AreWellFormed};
ghost use Rattle.asn_values.specs.Private.Judging.{HasTextsAndOrder};
ghost use Rattle.asn_values.specs.Private.Placing.{place_seen};
ghost use Rattle.asn_types.specs.Refs.{IsOf};
ghost use Rattle.asn_types.specs.Simples.{IsSimple};
ghost use Rattle.asn_values.specs.Values as rule;

use crate::orders::has_order;
use crate::places::{ComponentPlace, Places, find_places};
use asn_types::{Form, Module, Role, TypeLabel, resolve, simple_at};
use base_flat_trees::{Kids, Node};
use base_texts::{Memory, is_treated};
use base_trees::Tree;
use simple_types::{ValueLabel, has_characters, holds};
use std::alloc::Global;
use std::iter::Iterator;

// Returns whether a text follows the rules of its type.
fn is_text_of(label: &TypeLabel, value: &ValueLabel) -> bool
    ensures { IsTrue result ↔ rule.IsTextOf label.now.form label.now.marks value.now }
{
    match &label.form {
        Form::Utf8 { min, max, class } => match value {
            ValueLabel::Utf8(text) => {
                has_characters(*min, *max, *class, text.as_str())
                    && is_treated(label.marks.white_space(), text)
            }
            _ => true,
        },
        _ => true,
    }
}

// Returns whether a value is the one that its own spelling gives.
fn is_spelled(
    alloc: Global,
    node: &Tree<TypeLabel>,
    value: &Node<'_, ValueLabel>,
) -> Result<bool, Memory>
    requires { IsSimple node.now }
    ensures { IfOk result (λ b. IsTrue b ↔ rule.IsSpelled node.now value.now) }
{
    let simple = simple_at(alloc, node)?;
    holds(alloc, &simple, value)
}

// Returns the number of child elements that a part contributes; 2^64 - 1 means that number or a greater one.
#[cycle(counting)]
fn count_at(
    alloc: Global,
    module: &Module,
    place: &ComponentPlace,
    value: &Node<'_, ValueLabel>,
) -> Result<u64, Memory>
    ensures { IfOk result (λ n. n ≡ min (rule.counted place.now.role (rule.child_count module.now place.now.node.now value.now)) (2 ^ 64 - 1)) }
{
    match place.role {
        Role::Element => Ok(1),
        Role::Group => child_count(alloc, module, place.node, value),
        Role::Content => child_count(alloc, module, place.node, value),
        _ => Ok(0),
    }
}

#[cycle(counting)]
fn count_each(
    alloc: Global,
    module: &Module,
    places: &[ComponentPlace],
    values: &Kids<'_, ValueLabel>,
) -> Result<u64, Memory>
    ensures { IfOk result (λ n. n ≡ min (rule.count_in module.now (map place_seen places.now) (roses_of values.now)) (2 ^ 64 - 1)) }
{
    let mut count: u64 = 0;
    let mut left = values.again();
    'places: for place in places {
        let Some(value) = left.next() else {
            return Ok(count);
        };
        count = count.saturating_add(count_at(alloc, module, place, &value)?);
    }
    Ok(count)
}

#[cycle(counting)]
fn count_all(
    alloc: Global,
    module: &Module,
    place: &ComponentPlace,
    values: &Kids<'_, ValueLabel>,
) -> Result<u64, Memory>
    ensures { IfOk result (λ n. n ≡ min (rule.count_in module.now (replicate (length values.now) (place_seen place.now)) (roses_of values.now)) (2 ^ 64 - 1)) }
{
    let mut count: u64 = 0;
    'values: for value in values.again() {
        count = count.saturating_add(count_at(alloc, module, place, &value)?);
    }
    Ok(count)
}

// Returns the number of child elements that a value contributes to the element that contains it; 2^64 - 1 means that number or a
// greater one.
#[cycle(counting)]
fn child_count(
    alloc: Global,
    module: &Module,
    node: &Tree<TypeLabel>,
    value: &Node<'_, ValueLabel>,
) -> Result<u64, Memory>
    ensures { IfOk result (λ n. n ≡ min (rule.child_count module.now node.now value.now) (2 ^ 64 - 1)) }
{
    let values = value.kids();
    match find_places(alloc, resolve(module, node), value.label(), values.len())? {
        Some(Places::Each(places)) => count_each(alloc, module, &places, &values),
        Some(Places::All(place)) => count_all(alloc, module, &place, &values),
        None => Ok(0),
    }
}

// Returns the number of items of the first part, if it is present.
fn first_count(label: &ValueLabel, values: &Kids<'_, ValueLabel>) -> usize
    ensures { result ≡ rule.first_count label.now values.now }
{
    match label {
        ValueLabel::Sequence { present } => match present.items() {
            [true, ..] => match values.again().next() {
                Some(first) => first.kid_count(),
                None => 0,
            },
            _ => 0,
        },
        _ => 0,
    }
}

// Returns whether the last part of a SEQUENCE is absent.
pub(crate) fn is_last_absent(label: &ValueLabel) -> bool
    ensures { result ≡ rule.is_last_absent label.now }
{
    match label {
        ValueLabel::Sequence { present } => match present.items().last() {
            Some(flag) => !*flag,
            None => false,
        },
        _ => false,
    }
}

// Returns whether the number of texts is that required around the child elements.
fn has_texts(
    alloc: Global,
    module: &Module,
    node: &Tree<TypeLabel>,
    value: &Node<'_, ValueLabel>,
) -> Result<bool, Memory>
    ensures { IfOk result (λ b. IsTrue b ↔ rule.HasTextCount module.now (label_of node.now) node.now value.now) }
{
    let texts = first_count(value.label(), &value.kids()) as u64;
    if node.label().marks.has_use_nil() && is_last_absent(value.label()) {
        return Ok(texts == 0);
    }
    let children = child_count(alloc, module, node, value)?;
    Ok(children < texts && texts - children == 1)
}

// Returns whether a value of a SEQUENCE has the texts between its child elements and their order, if its type requires them.
fn has_texts_and_order(
    alloc: Global,
    module: &Module,
    node: &Tree<TypeLabel>,
    value: &Node<'_, ValueLabel>,
) -> Result<bool, Memory>
    requires { AreWellFormed module.now node.now }
    ensures { IfOk result (λ b. IsTrue b ↔ HasTextsAndOrder module.now (label_of node.now) node.now value.now) }
{
    let marks = &node.label().marks;
    if marks.has_embed_values() {
        if !has_texts(alloc, module, node, value)? {
            return Ok(false);
        }
    }
    if marks.has_use_order() {
        return has_order(alloc, module, node, value);
    }
    Ok(true)
}

// Returns whether a value follows the rules of its first node, whose type is this one, not a reference. Only a SEQUENCE OF has
// LIST, only a CHOICE USE-UNION, and only a SEQUENCE EMBED-VALUES and USE-ORDER. So the instructions of other types, such as the
// many TEXT of an ENUMERATED, are not visited.
pub(crate) fn own_at(
    alloc: Global,
    module: &Module,
    node: &Tree<TypeLabel>,
    value: &Node<'_, ValueLabel>,
) -> Result<bool, Memory>
    requires { AreWellFormed module.now node.now }
    ensures { IfOk result (λ b. IsTrue b ↔ rule.OwnAt module.now (label_of node.now) node.now value.now) }
{
    let label = node.label();
    match &label.form {
        Form::Utf8 { .. } => Ok(is_text_of(label, value.label())),
        Form::SequenceOf { .. } if label.marks.has_list() => is_spelled(alloc, node, value),
        Form::Choice { .. } if label.marks.has_use_union() => is_spelled(alloc, node, value),
        Form::Sequence { .. } => has_texts_and_order(alloc, module, node, value),
        _ => Ok(true),
    }
}

/// Returns whether a value follows the rules of its first node. A text consists of XML characters, its WHITESPACE leaves it
/// unchanged, and it is within its size and class. A value of a LIST or USE-UNION type is the one that its own spelling gives. A
/// value of an EMBED-VALUES type has one text more than child elements, and none if its content is absent. The order of a value of
/// a USE-ORDER type names each child element that is present once, and no other. It names an element by its number among all that
/// may be present. It is empty if the content is absent.
///
/// The time grows with the value, and for LIST and USE-UNION with the number of types that the simple type is made of. The number
/// of numbers or words of an ENUMERATED hardly matters. For EMBED-VALUES the groups of the value are visited, but no child element.
/// For USE-ORDER the time grows with the number of components: it visits at most one item more than there may be child elements.
pub fn own(
    alloc: Global,
    module: &Module,
    node: &Tree<TypeLabel>,
    value: &Node<'_, ValueLabel>,
) -> Result<bool, Memory>
    requires { IsOf module.now node.now }
    ensures { IfOk result (λ b. IsTrue b ↔ rule.Own module.now node.now value.now) }
{
    // Calling one of the module's readers makes its invariant known.
    let _ = module.count();
    own_at(alloc, module, resolve(module, node), value)
}
