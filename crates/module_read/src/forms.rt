//! Types without the types of their parts.
ghost use Rattle.std.specs.Prelude.{◌≡◌, ◌<◌, ◌^◌, [], false, true, IfOk, unwrap_or, length};
ghost use Rattle.std.specs.List.{list_all};
ghost use Rattle.std.specs.Str.{is_utf8};
ghost use Rattle.base_trees.specs.Rose.{roses_of};
ghost use Rattle.module_text.specs.Texts.{parts_of};
ghost use Rattle.module_text.specs.Told as told;
ghost use Rattle.module_text.specs.Simple as simple;
ghost use Rattle.module_text.specs.Resolving.{number_of};
ghost use Rattle.module_text.specs.Meaning as meant;
ghost use Rattle.module_check.specs.Known.{Knows};
ghost use Rattle.module_read.specs.Ready as ready;

use crate::parts::component;
use asn_types::{Component, Components, Form};
use base_texts::{Memory, Text};
use base_trees::Tree;
use module_check::References;
use module_pieces::{numbers_of, range_of, sizes_of, words_of};
use module_simple::is_order_item;
use module_text::{
    NumberedItem, PlainAssignment, PlainEnds, PlainForm, PlainLabel, PlainName, PlainPart,
    PlainRange, Spot, TypeMark,
};
use simple_types::{Class, NumberList, TextList};
use std::alloc::Global;

fn int(range: &Option<PlainRange>) -> Form
    ensures { result ≡ meant.int_meant (told.range_of range.now) }
{
    match range_of(range) {
        Some(bounds) => Form::Int {
            lo: bounds.0,
            hi: bounds.1,
        },
        None => Form::Int { lo: None, hi: None },
    }
}

fn utf8(size: &Option<PlainEnds>, class: Class) -> Form
    ensures { result ≡ meant.utf8_meant (told.sizes_of size.now) class }
{
    match sizes_of(size) {
        Some(sizes) => Form::Utf8 {
            min: sizes.0,
            max: sizes.1,
            class,
        },
        None => Form::Utf8 {
            min: 0,
            max: None,
            class,
        },
    }
}

fn list(size: &Option<PlainEnds>, part: Component) -> Form
    ensures { result ≡ meant.list_meant (told.sizes_of size.now) part }
{
    match sizes_of(size) {
        Some(sizes) => Form::SequenceOf {
            part,
            min: sizes.0,
            max: sizes.1,
        },
        None => Form::SequenceOf {
            part,
            min: 0,
            max: None,
        },
    }
}

fn numbers(alloc: Global, items: &[NumberedItem]) -> Result<Form, Memory>
    ensures { IfOk result (λ made. made ≡ Form.Numbers (unwrap_or (simple.numbers_of items.now) [])) }
{
    let numbers = match numbers_of(alloc, items)? {
        Some(numbers) => numbers,
        None => Vec::new(alloc),
    };
    let numbers = NumberList::of(numbers)?;
    Ok(Form::Numbers { numbers })
}

// Returns the identifiers of items.
fn identifiers(alloc: Global, items: &[PlainName]) -> Result<TextList, Memory>
    ensures { IfOk result (λ made. made ≡ meant.names_of items.now) }
{
    let mut names = Vec::with_capacity(alloc, items.len())?;
    'items: for item in items {
        names.push(item.name.copy(alloc)?)?;
    }
    TextList::of(names)
}

// Returns the words that items represent.
fn words(alloc: Global, marks: &[TypeMark], items: &[PlainName]) -> Result<TextList, Memory>
    requires { list_all is_utf8 (told.words_of marks.now items.now) ≡ true }
    ensures { IfOk result (λ made. made ≡ told.words_of marks.now items.now) }
{
    match words_of(alloc, marks, items)? {
        Some(words) => TextList::of(words),
        None => unreachable!(),
    }
}

// Returns an ENUMERATED of items without numbers, which represent words or the parts of an order.
fn enumerated(
    alloc: Global,
    spot: Spot,
    marks: &[TypeMark],
    items: &[PlainName],
) -> Result<Form, Memory>
    requires { simple.is_order_item spot ≡ false → list_all is_utf8 (told.words_of marks.now items.now) ≡ true }
    ensures { IfOk result (λ made. made ≡ meant.words_meant (simple.is_order_item spot) marks.now items.now) }
{
    let identifiers = identifiers(alloc, items)?;
    if is_order_item(spot) {
        return Ok(Form::Order { identifiers });
    }
    let words = words(alloc, marks, items)?;
    Ok(Form::Words { identifiers, words })
}

// Returns parts with these types.
fn components(
    alloc: Global,
    references: &References,
    assignments: &[PlainAssignment],
    parts: &[PlainPart],
    kids: &[Tree<PlainLabel>],
) -> Result<Components, Memory>
    requires references { Knows references.now assignments.now }
    requires parts { ready.ArePartsSpelled assignments.now parts.now (roses_of kids.now) }
    ensures { IfOk result (λ made. made ≡ ready.components_told assignments.now parts.now (roses_of kids.now)) }
{
    let count = parts.len().min(kids.len());
    let mut made = Vec::with_capacity(alloc, count)?;
    'parts: for i in 0..count {
        let part = component(alloc, references, assignments, &parts[i], &kids[i])?;
        made.push(part)?;
    }
    Ok(Components::of(made))
}

// Returns the number of the assignment with this reference.
fn number(references: &References, assignments: &[PlainAssignment], reference: &Text) -> u32
    requires references { Knows references.now assignments.now }
    requires count { length assignments.now < 2 ^ 32 }
    ensures { result ≡ unwrap_or (number_of assignments.now reference.now) 0 }
{
    match references.number_of(reference, assignments) {
        Some(number) => number as u32,
        None => 0,
    }
}

/// Returns the form of a type at this spot with these instructions, whose parts have these types.
pub(crate) fn form(
    alloc: Global,
    references: &References,
    assignments: &[PlainAssignment],
    spot: Spot,
    label: &PlainLabel,
    kids: &[Tree<PlainLabel>],
) -> Result<Form, Memory>
    requires references { Knows references.now assignments.now }
    requires count { length assignments.now < 2 ^ 32 }
    requires label { ready.IsLabelReady assignments.now spot label.now (roses_of kids.now) }
    requires parts { ready.ArePartsReady assignments.now spot label.now 0 (parts_of label.now.form) (roses_of kids.now) }
    ensures { IfOk result (λ made. made ≡ meant.form_meant assignments.now spot label.now (roses_of kids.now)) }
{
    match &label.form {
        PlainForm::Bool => Ok(Form::Bool),
        PlainForm::Int { range } => Ok(int(range)),
        PlainForm::Numbers { items } => numbers(alloc, items.items()),
        PlainForm::Words { identifiers } => {
            enumerated(alloc, spot, label.marks.items(), identifiers.items())
        }
        PlainForm::Utf8 { size, class } => Ok(utf8(size, *class)),
        PlainForm::Sequence { parts } => {
            let parts = components(alloc, references, assignments, parts.items(), kids)?;
            Ok(Form::Sequence { parts })
        }
        PlainForm::Choice { parts } => {
            let parts = components(alloc, references, assignments, parts.items(), kids)?;
            Ok(Form::Choice { parts })
        }
        PlainForm::SequenceOf { size, part } => match kids {
            [kid, ..] => {
                let part = component(alloc, references, assignments, part, kid)?;
                Ok(list(size, part))
            }
            [] => unreachable!(),
        },
        PlainForm::Ref { reference } => Ok(Form::Ref {
            to: number(references, assignments, &reference.name),
        }),
    }
}
