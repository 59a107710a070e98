//! What USE-ORDER requires of a type.
ghost use Rattle.std.specs.Prelude.{◌≡◌, IfOk};
ghost use Rattle.base_trees.specs.Rose.{label_of, kids_of, roses_of};
ghost use Rattle.module_text.specs.Resolving.{order_place, resolve};
ghost use Rattle.module_text.specs.Orders as rule;
ghost use Rattle.module_check.specs.Elements.{texts_in, names_of, part_of_order, content_order, content_of, elements_told};
ghost use Rattle.module_check.specs.Known.{AreContents};
ghost use Rattle.module_check.specs.Judging.{IsKnown};

use crate::context::Context;
use crate::parts::{is_element, is_group, is_order, parts_of, roles_of};
use base_texts::{Memory, Text};
use base_trees::Tree;
use module_pieces::{
    has_embed_values, has_use_nil, has_use_order, is_any_list, is_sequence, may_be_absent,
};
use module_text::{PlainAssignment, PlainForm, PlainLabel, PlainName, TypeMark};
use std::alloc::Global;

/// The identifiers of the elements of a SEQUENCE that may be the content of a type with USE-NIL and their order.
#[derive(Drop)]
pub struct Content<'a> {
    /// None if the type may not be such a content.
    elements: Option<Vec<&'a Text>>,
}

// Returns whether no part has UNTAGGED.
fn has_no_group(label: &PlainLabel) -> bool
    ensures { result ≡ rule.has_no_group label.now }
{
    let own = roles_of(label);
    let parts = parts_of(&label.form);
    'parts: for (i, part) in parts.iter().enumerate() {
        if is_group(own, label, i, part) {
            return false;
        }
    }
    true
}

// Returns the identifiers of the parts that are elements, in their order.
fn elements_of(alloc: Global, label: &PlainLabel) -> Result<Vec<&Text>, Memory>
    ensures { IfOk result (λ elements. texts_in elements.items ≡ rule.element_identifiers label.now) }
{
    let own = roles_of(label);
    let parts = parts_of(&label.form);
    let mut elements = Vec::new(alloc);
    'parts: for (i, part) in parts.iter().enumerate() {
        if !is_element(own, label, i, part) {
            continue;
        }
        elements.push(&part.identifier)?;
    }
    Ok(elements)
}

// Returns whether the names are these.
fn are_named(elements: &[&Text], names: &[PlainName]) -> bool
    ensures { result ≡ rule.are_equal (texts_in elements.now) (names_of names.now) }
{
    if elements.len() != names.len() {
        return false;
    }
    'names: for (i, name) in names.iter().enumerate() {
        if *elements[i] != name.name {
            return false;
        }
    }
    true
}

fn are_identifiers(elements: &[&Text], form: &PlainForm) -> bool
    ensures { result ≡ rule.are_identifiers (texts_in elements.now) form.now }
{
    match form {
        PlainForm::Words { identifiers } => are_named(elements, identifiers.items()),
        _ => false,
    }
}

// Returns whether the type is a SEQUENCE OF the ENUMERATED of these identifiers, without a size.
fn is_order_of(elements: &[&Text], node: &Tree<PlainLabel>) -> bool
    ensures { result ≡ rule.is_order_of (texts_in elements.now) node.now }
{
    match node.kids().first() {
        Some(kid) => {
            is_any_list(&node.label().form) && are_identifiers(elements, &kid.label().form)
        }
        None => false,
    }
}

// Returns the place of the part with the order.
fn order_place(marks: &[TypeMark]) -> usize
    ensures { result ≡ order_place marks.now }
{
    if has_embed_values(marks) { 1 } else { 0 }
}

// Returns whether the type has the part with the order of these elements.
fn is_order_part(label: &PlainLabel, kids: &[Tree<PlainLabel>], elements: &[&Text]) -> bool
    ensures { result ≡ part_of_order label.now (roses_of kids.now) (texts_in elements.now) }
{
    let place = order_place(label.marks.items());
    let Some(part) = parts_of(&label.form).get(place) else {
        return false;
    };
    let Some(kid) = kids.get(place) else {
        return false;
    };
    is_order(roles_of(label), label, place, part)
        && !may_be_absent(&part.absence)
        && is_order_of(elements, kid)
}

fn stands_alone(label: &PlainLabel) -> bool
    ensures { result ≡ rule.stands_alone label.now }
{
    let marks = label.marks.items();
    !has_use_nil(marks) && !has_embed_values(marks) && !has_use_order(marks)
}

impl<'a> Content<'a> {
    /// Returns the elements of the type with this label.
    fn of(alloc: Global, label: &'a PlainLabel) -> Result<Content<'a>, Memory>
        ensures { IfOk result (λ content. elements_told content ≡ content_of label.now) }
    {
        if !is_sequence(&label.form) || !has_no_group(label) || !stands_alone(label) {
            return Ok(Content { elements: None });
        }
        let elements = elements_of(alloc, label)?;
        Ok(Content {
            elements: Some(elements),
        })
    }
}

/// Returns the elements of the type of each assignment. The time is linear in the types.
pub fn contents_of<'a>(
    alloc: Global,
    assignments: &'a [PlainAssignment],
) -> Result<Vec<Content<'a>>, Memory>
    ensures { IfOk result (λ contents. AreContents contents.items assignments.now) }
{
    let mut contents = Vec::with_capacity(alloc, assignments.len())?;
    'assignments: for assignment in assignments {
        contents.push(Content::of(alloc, assignment.body.label())?)?;
    }
    Ok(contents)
}

// Returns whether the type has the part with the order of the elements of its content.
fn has_order_of(label: &PlainLabel, kids: &[Tree<PlainLabel>], content: &Content) -> bool
    ensures { result ≡ content_order label.now (roses_of kids.now) (elements_told content.now) }
{
    match &content.elements {
        Some(elements) => is_order_part(label, kids, elements),
        None => false,
    }
}

// Returns whether the type has the part with the order of the elements of the content that this type refers to.
fn has_content_order(
    context: &Context,
    label: &PlainLabel,
    kids: &[Tree<PlainLabel>],
    node: &Tree<PlainLabel>,
) -> Result<bool, Memory>
    requires { IsKnown context.now }
    ensures { IfOk result (λ is. is ≡ content_order label.now (roses_of kids.now) (content_of (label_of (resolve context.now.assignments.now node.now)))) }
{
    let contents = context.contents;
    match context.references.number_meant(context.assignments, node) {
        Some(number) => Ok(has_order_of(label, kids, &contents[number])),
        None => {
            let content = Content::of(context.alloc, node.label())?;
            Ok(has_order_of(label, kids, &content))
        }
    }
}

/// Returns whether the type is a SEQUENCE with the part that has the order of its elements, or of those of its content. The time is
/// linear in the type, because the content that a reference reaches is known.
pub fn has_order_part(context: &Context, node: &Tree<PlainLabel>) -> Result<bool, Memory>
    requires { IsKnown context.now }
    ensures { IfOk result (λ is. is ≡ rule.has_order_part context.now.assignments.now (label_of node.now) (roses_of (kids_of node.now))) }
{
    let label = node.label();
    let kids = node.kids();
    if !is_sequence(&label.form) {
        return Ok(false);
    }
    if !has_no_group(label) {
        return Ok(false);
    }
    if !has_use_nil(label.marks.items()) {
        let elements = elements_of(context.alloc, label)?;
        return Ok(is_order_part(label, kids, &elements));
    }
    match kids.last() {
        Some(content) => has_content_order(context, label, kids, content),
        None => Ok(false),
    }
}
