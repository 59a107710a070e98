//! The canonical spelling of values, by their types.
ghost use Rattle.std.specs.Prelude.{◌≡◌, ◌++◌, IfOk, OnOk, map, string_bytes};
ghost use Rattle.base_trees.specs.Rose.{roses_of, Allowed, AllowedAll};
ghost use Rattle.std.specs.List.{join_with_byte};
ghost use Rattle.simple_types.specs.Space.{UnionOf};
ghost use Rattle.simple_types.specs.Reading.{spelled, spelled_whole, spelled_text};
ghost use Rattle.asn_types.specs.Parts.{MayHave};
ghost use Rattle.asn_types.specs.Spaces.{space_at, spaces_at};

use asn_types::{Form, TypeLabel};
use base_flat_trees::{Kids, Node};
use base_texts::{Memory, Text};
use base_trees::Tree;
use itoa::Buffer;
use simple_types::{
    ValueLabel, choice_of, word_of, write_boolean, write_number, write_text, write_whole,
    write_word,
};
use std::alloc::Global;
use std::iter::Iterator;

// Returns the digits of an integer.
fn whole_text(alloc: Global, label: &ValueLabel) -> Result<Text, Memory>
    ensures { IfOk result (λ text. text ≡ spelled_whole label.now) }
{
    match label {
        ValueLabel::Int(n) => Text::from_str(alloc, Buffer::new().format(n.get())),
        _ => Ok(Text::empty()),
    }
}

// Returns the text of a UTF8String.
fn text_of(alloc: Global, label: &ValueLabel) -> Result<Text, Memory>
    ensures { IfOk result (λ text. text ≡ spelled_text label.now) }
{
    match label {
        ValueLabel::Utf8(text) => text.copy(alloc),
        _ => Ok(Text::empty()),
    }
}

// Appends the spellings of the items, with a space between each two.
#[cycle(spelling)]
fn write_items(
    out: &mut String,
    item: &Tree<TypeLabel>,
    values: &Kids<'_, ValueLabel>,
) -> Result<(), Memory>
    requires { Allowed MayHave item.now }
    ensures { OnOk result (string_bytes out.new ≡ string_bytes out.old ++ join_with_byte 0x20 (map (spelled (space_at item.now)) values.now)) }
{
    let mut further = values.again();
    let Some(first) = further.next() else {
        return Ok(());
    };
    write_spelling(out, item, &first)?;
    'items: for value in further {
        out.push(' ')?;
        write_spelling(out, item, &value)?;
    }
    Ok(())
}

#[cycle(spelling)]
fn write_chosen(
    out: &mut String,
    members: &[Tree<TypeLabel>],
    value: &Node<'_, ValueLabel>,
) -> Result<(), Memory>
    requires { AllowedAll MayHave (roses_of members.now) }
    ensures { OnOk result (string_bytes out.new ≡ string_bytes out.old ++ spelled (UnionOf (spaces_at (roses_of members.now))) value.now) }
{
    let Some((i, chosen)) = choice_of(value) else {
        return Ok(());
    };
    match members.get(i as usize) {
        Some(member) => write_spelling(out, member, &chosen),
        None => Ok(()),
    }
}

// Appends the canonical spelling. A type that is not that of a simple type spells its values like those of BOOLEAN.
#[cycle(spelling)]
fn write_spelling(
    out: &mut String,
    node: &Tree<TypeLabel>,
    value: &Node<'_, ValueLabel>,
) -> Result<(), Memory>
    requires { Allowed MayHave node.now }
    ensures { OnOk result (string_bytes out.new ≡ string_bytes out.old ++ spelled (space_at node.now) value.now) }
{
    let label = value.label();
    match &node.label().form {
        Form::Bool => write_boolean(out, label),
        Form::Int { .. } => write_whole(out, label),
        Form::Numbers { numbers } => write_number(out, numbers.items(), label),
        Form::Words { words, .. } => write_word(out, words.items(), label),
        Form::Order { .. } => write_boolean(out, label),
        Form::Utf8 { .. } => write_text(out, label),
        Form::SequenceOf { .. } => write_items(out, node.kid(0), &value.kids()),
        Form::Choice { .. } => write_chosen(out, node.kids(), value),
        Form::Sequence { .. } => write_boolean(out, label),
        Form::Ref { .. } => write_boolean(out, label),
    }
}

/// Returns the canonical spelling of a value of the type, which is not a reference. The spelling of a list has those of its items,
/// with one space between each two. The type alone determines the form of the spelling: a value of another form is spelled empty.
/// If the type is not that of a simple type, all values except truth values are spelled empty. Texts and words are shared.
pub fn spelling(
    alloc: Global,
    node: &Tree<TypeLabel>,
    value: &Node<'_, ValueLabel>,
) -> Result<Text, Memory>
    requires { Allowed MayHave node.now }
    ensures { IfOk result (λ text. text ≡ spelled (space_at node.now) value.now) }
{
    match &node.label().form {
        Form::Words { words, .. } => match word_of(words.items(), value.label()) {
            Some(word) => word.copy(alloc),
            None => Ok(Text::empty()),
        },
        Form::Utf8 { .. } => text_of(alloc, value.label()),
        Form::Int { .. } => whole_text(alloc, value.label()),
        _ => {
            let mut out = String::new(alloc);
            write_spelling(&mut out, node, value)?;
            Text::from_string(out)
        }
    }
}
