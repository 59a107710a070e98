//! The canonical spelling of values.
ghost use Rattle.std.specs.Prelude.{◌≡◌, ◌++◌, [], IfOk, OnOk, MatchOption, Some, None, map, string_bytes};
ghost use Rattle.base_trees.specs.Rose.{label_of, kids_of};
ghost use Rattle.std.specs.List.{join_with_byte};
ghost use Rattle.simple_types.specs.Space.{UnionOf};
ghost use Rattle.simple_types.specs.Seen.{space_of, spaces_in};
ghost use Rattle.simple_types.specs.Reading.{spelled, spelled_boolean, spelled_whole, spelled_number, spelled_word, spelled_text, choice_at, Holds};
ghost use Rattle.simple_types.specs.Sound.{Sound};

use crate::labels::ValueLabel;
use crate::simples::Simple;
use base_flat_trees::{Kids, Node};
use base_texts::{Memory, Text};
use itoa::Buffer;
use std::alloc::Global;
use std::iter::Iterator;

/// Appends the spelling of a truth value. Appends nothing for any other value.
pub fn write_boolean(out: &mut String, label: &ValueLabel) -> Result<(), Memory>
    ensures { OnOk result (string_bytes out.new ≡ string_bytes out.old ++ spelled_boolean label.now) }
{
    match label {
        ValueLabel::Bool(true) => out.push_str("true")?,
        ValueLabel::Bool(false) => out.push_str("false")?,
        _ => {}
    }
    Ok(())
}

/// Appends the digits of a whole number. Appends nothing for any other value.
pub fn write_whole(out: &mut String, label: &ValueLabel) -> Result<(), Memory>
    ensures { OnOk result (string_bytes out.new ≡ string_bytes out.old ++ spelled_whole label.now) }
{
    if let ValueLabel::Int(n) = label {
        out.push_str(Buffer::new().format(n.get()))?;
    }
    Ok(())
}

/// Appends the number that a value selects from these. Appends nothing for a value that selects none.
pub fn write_number(out: &mut String, numbers: &[i128], label: &ValueLabel) -> Result<(), Memory>
    ensures { OnOk result (string_bytes out.new ≡ string_bytes out.old ++ spelled_number numbers.now label.now) }
{
    if let ValueLabel::Enum(i) = label {
        if let Some(n) = numbers.get(*i as usize) {
            out.push_str(Buffer::new().format(*n))?;
        }
    }
    Ok(())
}

/// Returns the word that a value selects from these.
pub fn word_of<'a>(words: &'a [Text], label: &ValueLabel) -> Option<&'a Text>
    ensures { MatchOption result (spelled_word words.now label.now ≡ []) (λ word. spelled_word words.now label.now ≡ word.now) }
{
    match label {
        ValueLabel::Enum(i) => words.get(*i as usize),
        _ => None,
    }
}

/// Appends the word that a value selects from these. Appends nothing for a value that selects none.
pub fn write_word(out: &mut String, words: &[Text], label: &ValueLabel) -> Result<(), Memory>
    ensures { OnOk result (string_bytes out.new ≡ string_bytes out.old ++ spelled_word words.now label.now) }
{
    if let Some(word) = word_of(words, label) {
        out.push_str(word.as_str())?;
    }
    Ok(())
}

/// Appends a text. Appends nothing for any other value.
pub fn write_text(out: &mut String, label: &ValueLabel) -> Result<(), Memory>
    ensures { OnOk result (string_bytes out.new ≡ string_bytes out.old ++ spelled_text label.now) }
{
    if let ValueLabel::Utf8(text) = label {
        out.push_str(text.as_str())?;
    }
    Ok(())
}

// The items' spellings with a space between each two.
#[cycle(spelling)]
fn write_items(out: &mut String, item: &Simple, values: &Kids<'_, ValueLabel>) -> Result<(), Memory>
    ensures { OnOk result (string_bytes out.new ≡ string_bytes out.old ++ join_with_byte 0x20 (map (spelled (space_of item.now)) values.now)) }
{
    let mut further = values.again();
    let Some(first) = further.next() else {
        return Ok(());
    };
    write_spelling(out, item, &first)?;
    'items: for value in further {
        out.push(' ')?;
        write_spelling(out, item, &value)?;
    }
    Ok(())
}

/// Returns the number of the alternative that a value chooses, and the value of the alternative.
pub fn choice_of<'a>(value: &Node<'a, ValueLabel>) -> Option<(u32, Node<'a, ValueLabel>)>
    ensures { MatchOption result
        (choice_at (label_of value.now) (kids_of value.now) ≡ None)
        (λ choice. choice_at (label_of value.now) (kids_of value.now) ≡ Some (choice.0, choice.1)) }
{
    let ValueLabel::Choice(i) = value.label() else {
        return None;
    };
    let chosen = value.kids().next()?;
    Some((*i, chosen))
}

#[cycle(spelling)]
fn write_chosen(
    out: &mut String,
    members: &[Simple],
    value: &Node<'_, ValueLabel>,
) -> Result<(), Memory>
    ensures { OnOk result (string_bytes out.new ≡ string_bytes out.old ++ spelled (UnionOf (spaces_in members.now)) value.now) }
{
    let Some((i, chosen)) = choice_of(value) else {
        return Ok(());
    };
    match members.get(i as usize) {
        Some(member) => write_spelling(out, member, &chosen),
        None => Ok(()),
    }
}

/// Appends the canonical spelling. For a value that isn't of the type, it appends the spellings of the parts that have one.
#[cycle(spelling)]
pub(crate) fn write_spelling(
    out: &mut String,
    simple: &Simple,
    value: &Node<'_, ValueLabel>,
) -> Result<(), Memory>
    ensures { OnOk result (string_bytes out.new ≡ string_bytes out.old ++ spelled (space_of simple.now) value.now) }
{
    let label = value.label();
    match simple {
        Simple::Bool => write_boolean(out, label),
        Simple::Whole { .. } => write_whole(out, label),
        Simple::Numbers(numbers) => write_number(out, numbers.items(), label),
        Simple::Words { words, .. } => write_word(out, words.items(), label),
        Simple::Chars { .. } => write_text(out, label),
        Simple::List { item, .. } => write_items(out, item, &value.kids()),
        Simple::Union(members) => write_chosen(out, members.items(), value),
    }
}

/// Returns the canonical spelling, whether the value is of the type or not.
pub(crate) fn spelling(
    alloc: Global,
    simple: &Simple,
    value: &Node<'_, ValueLabel>,
) -> Result<Text, Memory>
    ensures { IfOk result (λ text. text ≡ spelled (space_of simple.now) value.now) }
{
    let mut out = String::new(alloc);
    write_spelling(&mut out, simple, value)?;
    Text::from_string(out)
}

/// Returns the canonical spelling of a value of the type, by XML Schema Part 2. For a list it is the spellings of its items,
/// separated by single spaces.
pub fn spell(alloc: Global, simple: &Simple, value: &Node<'_, ValueLabel>) -> Result<Text, Memory>
    requires sound { Sound (space_of simple.now) }
    requires holds { Holds (space_of simple.now) value.now }
    ensures { IfOk result (λ text. text ≡ spelled (space_of simple.now) value.now) }
{
    spelling(alloc, simple, value)
}
