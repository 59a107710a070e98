//! The places of a value's children in its type.
ghost use Rattle.std.specs.Prelude.{◌≡◌, ◌<◌, ◌∷◌, [], ℕ, ◌&&◌, if◌then◌else◌, IfOk, MatchOption, Some, None, length, map, slice_get};
ghost use Rattle.simple_types.specs.Lexical.{is_128_bits, is_from, is_to};
ghost use Rattle.asn_types.specs.Parts.{parts_of};
ghost use Rattle.asn_values.specs.Private.Placing.{place_seen, Found};
ghost use Rattle.asn_values.specs.Values as rule;

use asn_types::{Component, Form, Role, TypeLabel};
use base_texts::Memory;
use base_trees::Tree;
use simple_types::{ValueLabel, is_at_most};
use std::alloc::Global;

/// The place of a child of a value: the part, its role, and its type.
#[derive(Drop)]
pub(crate) struct ComponentPlace<'a> {
    pub(crate) role: Role,
    pub(crate) part: &'a Component,
    pub(crate) node: &'a Tree<TypeLabel>,
}

/// The places of the children of a value.
#[derive(Drop)]
pub(crate) enum Places<'a> {
    /// A place for each child.
    Each(Vec<ComponentPlace<'a>>),
    /// One place for all children.
    All(ComponentPlace<'a>),
}

// Returns whether a number is within the bounds of its type.
fn is_within(lo: Option<i128>, hi: Option<i128>, n: i128) -> bool
    ensures { result ≡ (is_128_bits n && is_from lo n && is_to hi n) }
{
    let from = match lo {
        Some(lo) => lo <= n,
        None => true,
    };
    let to = match hi {
        Some(hi) => n <= hi,
        None => true,
    };
    from && to
}

fn place_of<'a>(
    label: &TypeLabel,
    i: usize,
    part: &'a Component,
    node: &'a Tree<TypeLabel>,
) -> ComponentPlace<'a>
    requires { i < length (parts_of label.now.form) }
    ensures { place_seen result ≡ rule.place_of label.now i part.now node.now }
{
    ComponentPlace {
        role: label.role_of(i, part),
        part,
        node,
    }
}

// Returns the places of the components of a SEQUENCE that are present.
pub(crate) fn present_places<'a>(
    alloc: Global,
    label: &TypeLabel,
    parts: &'a [Component],
    kids: &'a [Tree<TypeLabel>],
    present: &[bool],
) -> Result<Option<Vec<ComponentPlace<'a>>>, Memory>
    requires { parts.now ≡ parts_of label.now.form }
    ensures { IfOk result (λ found. MatchOption found
        (rule.present_from label.now 0 parts.now kids.now present.now ≡ None)
        (λ places. rule.present_from label.now 0 parts.now kids.now present.now ≡ Some (map place_seen places.items))) }
{
    if parts.len() != present.len() || kids.len() < parts.len() {
        return Ok(None);
    }
    let mut places = Vec::with_capacity(alloc, parts.len())?;
    'parts: for i in 0..parts.len() {
        if present[i] {
            places.push(place_of(label, i, &parts[i], &kids[i]))?;
        } else if !parts[i].optional {
            return Ok(None);
        }
    }
    Ok(Some(places))
}

// Returns the place of an alternative or of the items.
fn place_at<'a>(
    label: &TypeLabel,
    i: usize,
    part: &'a Component,
    kids: &'a [Tree<TypeLabel>],
) -> Option<ComponentPlace<'a>>
    requires { i < length (parts_of label.now.form) }
    ensures { MatchOption result
        (rule.place_at label.now i (Some part.now) (slice_get kids.now i) ≡ None)
        (λ place. rule.place_at label.now i (Some part.now) (slice_get kids.now i) ≡ Some (place_seen place)) }
{
    match kids.get(i) {
        Some(kid) => Some(place_of(label, i, part, kid)),
        None => None,
    }
}

// Returns the places of the children of a value of a type without parts.
fn no_places<'a>(alloc: Global, holds: bool) -> Option<Places<'a>>
    ensures { (n : ℕ) → Found n result (rule.none_if holds) }
{
    if holds {
        Some(Places::Each(Vec::new(alloc)))
    } else {
        None
    }
}

// The places of the components of a SEQUENCE that are present.
fn sequence_places<'a>(
    alloc: Global,
    label: &TypeLabel,
    parts: &'a [Component],
    kids: &'a [Tree<TypeLabel>],
    present: &[bool],
) -> Result<Option<Places<'a>>, Memory>
    requires { parts.now ≡ parts_of label.now.form }
    ensures { IfOk result (λ found. (n : ℕ) → Found n found (rule.present_from label.now 0 parts.now kids.now present.now)) }
{
    match present_places(alloc, label, parts, kids, present)? {
        Some(places) => Ok(Some(Places::Each(places))),
        None => Ok(None),
    }
}

// The place of the alternative with this number, from 0.
fn choice_place<'a>(
    alloc: Global,
    label: &TypeLabel,
    parts: &'a [Component],
    kids: &'a [Tree<TypeLabel>],
    i: usize,
) -> Result<Option<Places<'a>>, Memory>
    requires { parts.now ≡ parts_of label.now.form }
    ensures { IfOk result (λ found. (n : ℕ) → Found n found (rule.alone (rule.place_at label.now i (slice_get parts.now i) (slice_get kids.now i)))) }
{
    match parts.get(i) {
        Some(part) => match place_at(label, i, part, kids) {
            Some(place) => one_place(alloc, place),
            None => Ok(None),
        },
        None => Ok(None),
    }
}

// The place of the items of a SEQUENCE OF, if their number is within its bounds.
fn items_place<'a>(
    label: &TypeLabel,
    part: &'a Component,
    kids: &'a [Tree<TypeLabel>],
    holds: bool,
) -> Option<Places<'a>>
    requires { 0 < length (parts_of label.now.form) }
    ensures { (n : ℕ) → Found n result (if holds then rule.repeated n (rule.place_at label.now 0 (Some part.now) (slice_get kids.now 0)) else None) }
{
    if !holds {
        return None;
    }
    match place_at(label, 0, part, kids) {
        Some(place) => Some(Places::All(place)),
        None => None,
    }
}

fn places_by_form<'a>(
    alloc: Global,
    label: &'a TypeLabel,
    kids: &'a [Tree<TypeLabel>],
    value: &ValueLabel,
    n: usize,
) -> Result<Option<Places<'a>>, Memory>
    ensures { IfOk result (λ found. Found n found (rule.places_in label.now kids.now label.now.form value.now n)) }
{
    match &label.form {
        Form::Bool => Ok(no_places(alloc, matches!(value, ValueLabel::Bool(_)))),
        Form::Int { lo, hi } => match value {
            ValueLabel::Int(z) => Ok(no_places(alloc, is_within(*lo, *hi, z.get()))),
            _ => Ok(None),
        },
        Form::Numbers { numbers } => match value {
            ValueLabel::Enum(i) => Ok(no_places(alloc, (*i as usize) < numbers.items().len())),
            _ => Ok(None),
        },
        Form::Words { words, .. } => match value {
            ValueLabel::Enum(i) => Ok(no_places(alloc, (*i as usize) < words.items().len())),
            _ => Ok(None),
        },
        Form::Order { identifiers } => match value {
            ValueLabel::Enum(i) => Ok(no_places(alloc, (*i as usize) < identifiers.items().len())),
            _ => Ok(None),
        },
        Form::Utf8 { .. } => Ok(no_places(alloc, matches!(value, ValueLabel::Utf8(_)))),
        Form::Sequence { parts } => match value {
            ValueLabel::Sequence { present } => {
                sequence_places(alloc, label, parts.items(), kids, present.items())
            }
            _ => Ok(None),
        },
        Form::Choice { parts } => match value {
            ValueLabel::Choice(i) => choice_place(alloc, label, parts.items(), kids, *i as usize),
            _ => Ok(None),
        },
        Form::SequenceOf { part, min, max } => match value {
            ValueLabel::SequenceOf => {
                let holds = *min as usize <= n && is_at_most(n, *max);
                Ok(items_place(label, part, kids, holds))
            }
            _ => Ok(None),
        },
        Form::Ref { .. } => Ok(None),
    }
}

fn one_place<'a>(alloc: Global, place: ComponentPlace<'a>) -> Result<Option<Places<'a>>, Memory>
    ensures { IfOk result (λ found. (n : ℕ) → Found n found (Some (place_seen place.entry ∷ []))) }
{
    let places = vec![in alloc; place]?;
    Ok(Some(Places::Each(places)))
}

/// Returns the places of the children of a value with this label and `n` children. None if it is not a value of the type.
pub(crate) fn find_places<'a>(
    alloc: Global,
    node: &'a Tree<TypeLabel>,
    value: &ValueLabel,
    n: usize,
) -> Result<Option<Places<'a>>, Memory>
    ensures { IfOk result (λ found. Found n found (rule.places node.now value.now n)) }
{
    places_by_form(alloc, node.label(), node.kids(), value, n)
}
