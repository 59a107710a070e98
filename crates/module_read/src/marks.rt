//! Encoding instructions.
ghost use Rattle.std.specs.Prelude.{◌≡◌, ◌+◌, ◌<◌, ◌^◌, IfOk, IfSome, IsUtf8, bytes_eq, drop, length};
ghost use Rattle.std.specs.List.{position_from};
ghost use Rattle.module_text.specs.declared.types.PlainName.{PlainName};
ghost use Rattle.module_text.specs.Told as told;
ghost use Rattle.module_text.specs.Marks as may;
ghost use Rattle.module_text.specs.Meaning as meant;
ghost use Rattle.module_read.specs.Ready as ready;

use asn_types::{Instruction, Marks};
use base_texts::{Memory, Text, WhiteSpace};
use module_pieces::told_name;
use module_simple::is_order_item;
use module_text::{
    NameAs, PartMark, PartMarkKind, PlainForm, PlainName, Spot, TypeMark, TypeMarkKind,
};
use std::alloc::Global;

// Returns the name that is given next to an identifier or a reference.
fn name(alloc: Global, generated: &Text, name: &NameAs) -> Result<Text, Memory>
    requires { IsUtf8 (told.told_name generated.now name.now) }
    ensures { IfOk result (λ text. text ≡ told.told_name generated.now name.now) }
{
    let bytes = told_name(alloc, generated.bytes(), name)?;
    Text::from_utf8(alloc, &bytes)
}

fn part_mark(alloc: Global, generated: &Text, kind: &PartMarkKind) -> Result<Instruction, Memory>
    requires { ready.IsPartMarkReady generated.now kind.now }
    ensures { IfOk result (λ mark. mark ≡ meant.part_mark_meant generated.now kind.now) }
{
    match kind {
        PartMarkKind::Attribute => Ok(Instruction::Attribute),
        PartMarkKind::Untagged => Ok(Instruction::Untagged),
        PartMarkKind::Name { name: told } => {
            let told = name(alloc, generated, told)?;
            Ok(Instruction::Name(told))
        }
        PartMarkKind::Namespace { space } => {
            let space = Text::from_utf8(alloc, space.bytes())?;
            Ok(Instruction::Namespace(space))
        }
    }
}

/// Returns the instructions of a part or an assignment of this name.
pub(crate) fn part_marks(
    alloc: Global,
    generated: &Text,
    marks: &[PartMark],
) -> Result<Marks, Memory>
    requires { ready.ArePartMarksReady generated.now marks.now }
    ensures { IfOk result (λ made. made ≡ meant.part_marks_meant generated.now marks.now) }
{
    let mut entries = Vec::with_capacity(alloc, marks.len())?;
    'marks: for mark in marks {
        let made = part_mark(alloc, generated, &mark.kind)?;
        entries.push(made)?;
    }
    Ok(Marks::of(entries))
}

// Returns the place of the first item with this identifier, from a least place on.
fn place_from(items: &[PlainName], least: usize, identifier: &Text) -> Option<usize>
    ensures place { result ≡ position_from (λ (i : PlainName). bytes_eq i.name identifier.now) least (drop least items.now) }
    ensures within { IfSome result (λ place. place < length items.now) }
{
    'items: for i in least..items.len() {
        if items[i].name == *identifier {
            return Some(i);
        }
    }
    None
}

// Returns the number of the first item with this identifier from a least number on, if items represent words.
fn item_number(spot: Spot, form: &PlainForm, least: u32, identifier: &Text) -> Option<u32>
    requires { ready.HasRoom form.now }
    ensures number { result ≡ may.item_number spot form.now least identifier.now }
    ensures within { IfSome result (λ item. item + 1 < 2 ^ 32) }
{
    match form {
        PlainForm::Words { identifiers } if !is_order_item(spot) => {
            match place_from(identifiers.items(), least as usize, identifier) {
                Some(place) => Some(place as u32),
                None => None,
            }
        }
        _ => None,
    }
}

// Returns TEXT, and the least number that the item of a TEXT after it may have.
fn text_mark(
    alloc: Global,
    spot: Spot,
    form: &PlainForm,
    least: u32,
    identifier: &Text,
    text: &NameAs,
) -> Result<(Instruction, u32), Memory>
    requires room { ready.HasRoom form.now }
    requires utf8 { IsUtf8 (told.told_name identifier.now text.now) }
    requires number { may.item_number spot form.now least identifier.now ≡ may.item_number spot form.now 0 identifier.now }
    ensures { IfOk result (λ made.
        (made.0 ≡ meant.type_mark_meant spot form.now (TypeMarkKind.Text identifier.now text.now))
        × (made.1 ≡ may.next_item spot form.now least (TypeMarkKind.Text identifier.now text.now))) }
{
    let text = name(alloc, identifier, text)?;
    match item_number(spot, form, least, identifier) {
        Some(item) => Ok((Instruction::Text { item, text }, item + 1)),
        None => Ok((Instruction::Text { item: 0, text }, least)),
    }
}

// Returns an instruction of a type, and the least number that the item of a TEXT after it may have.
fn type_mark(
    alloc: Global,
    spot: Spot,
    form: &PlainForm,
    least: u32,
    kind: &TypeMarkKind,
) -> Result<(Instruction, u32), Memory>
    requires room { ready.HasRoom form.now }
    requires mark { ready.IsTypeMarkReady spot form.now least kind.now }
    ensures { IfOk result (λ made. (made.0 ≡ meant.type_mark_meant spot form.now kind.now) × (made.1 ≡ may.next_item spot form.now least kind.now)) }
{
    match kind {
        TypeMarkKind::UseNil => Ok((Instruction::UseNil, least)),
        TypeMarkKind::EmbedValues => Ok((Instruction::EmbedValues, least)),
        TypeMarkKind::UseOrder => Ok((Instruction::UseOrder, least)),
        TypeMarkKind::List => Ok((Instruction::List, least)),
        TypeMarkKind::UseUnion => Ok((Instruction::UseUnion, least)),
        TypeMarkKind::UseNumber => Ok((Instruction::UseNumber, least)),
        TypeMarkKind::Replace => Ok((Instruction::WhiteSpace(WhiteSpace::Replace), least)),
        TypeMarkKind::Collapse => Ok((Instruction::WhiteSpace(WhiteSpace::Collapse), least)),
        TypeMarkKind::Text { identifier, text } => {
            text_mark(alloc, spot, form, least, identifier, text)
        }
    }
}

/// Returns the instructions of a type of this form at this spot. The time is linear in them and in the items of the type.
pub(crate) fn type_marks(
    alloc: Global,
    spot: Spot,
    form: &PlainForm,
    marks: &[TypeMark],
) -> Result<Marks, Memory>
    requires room { ready.HasRoom form.now }
    requires marks { ready.AreTypeMarksReady spot form.now 0 marks.now }
    ensures { IfOk result (λ made. made ≡ meant.type_marks_meant spot form.now marks.now) }
{
    let mut entries = Vec::with_capacity(alloc, marks.len())?;
    let mut least = 0;
    'marks: for mark in marks {
        let (made, next) = type_mark(alloc, spot, form, least, &mark.kind)?;
        entries.push(made)?;
        least = next;
    }
    Ok(Marks::of(entries))
}
