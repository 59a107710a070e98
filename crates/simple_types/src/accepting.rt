//! What a simple type makes of a text.
ghost use Rattle.std.specs.Prelude.{◌≡◌, ◌<◌, ◌≤◌, ◌-◌, ◌^◌, ◌&&◌, ℕ, List, MatchResult, OnOk, OnErr, IfOk, IfSome, IsUtf8, Ok, Err, length, min as lesser, nat_le, take as front_of};
ghost use Rattle.simple_types.specs.Lexical.{is_at_most};
ghost use Rattle.base_flat_trees.specs.Zips.{added, added_all};
ghost use Rattle.simple_types.specs.declared.labels.ValueLabel.{ValueLabel};
ghost use Rattle.base_trees.specs.Rose.{Rose, node, none as no_kids, more as with_kid};
ghost use Rattle.base_texts.specs.WhiteSpace.{words_of, treated};
ghost use Rattle.base_texts.specs.declared.white_space.WhiteSpace.TheVariants as WhiteSpace;
ghost use Rattle.simple_types.specs.Answering.{AnswersReading, AnswersLeaf};
ghost use Rattle.simple_types.specs.Seen.{space_of, spaces_in};
ghost use Rattle.simple_types.specs.Sound.{Sound, AreSound};
ghost use Rattle.simple_types.specs.Reading as rule;

use crate::classes::{CharFacets, has_characters};
use crate::integers::Integer;
use crate::labels::ValueLabel;
use crate::numbers::{Whole, collapsed_number};
use crate::reading::{
    SimpleError, is_within, outside, read_boolean, read_characters, read_number, read_whole,
    read_word,
};
use crate::simples::Simple;
use crate::spelling::spelling;
use base_flat_trees::{Builder, Flat, Node};
use base_texts::{Text, first_word, is_str_treated, is_treated, utf8_text};
use std::alloc::{AllocError, Global};

// Puts a value without parts, of which the label was read.
fn put(
    label: Result<ValueLabel, SimpleError>,
    values: &mut Builder<ValueLabel>,
) -> Result<(), SimpleError>
    ensures read { (due : rule.Reading) → AnswersLeaf label due → MatchResult result
        (λ _. (value : Rose ValueLabel) × (due ≡ Ok value) × (values.new ≡ added value values.old))
        (λ error. AnswersReading (Err error) due) }
    ensures kept { OnErr result (values.new ≡ values.old) }
{
    values.leaf(label?)?;
    Ok(())
}

// Puts the values of the words, as the item type reads them, and says how many they are. 2^64 - 1 stands for that number
// and every greater one.
#[cycle(accepting)]
fn put_each(
    alloc: Global,
    item: &Simple,
    text: &str,
    values: &mut Builder<ValueLabel>,
) -> Result<u64, SimpleError>
    requires { Sound (space_of item.now) }
    ensures read { MatchResult result
        (λ count. (read : List (Rose ValueLabel)) × (rule.read_each (rule.reads (space_of item.now)) (words_of text.now) ≡ Ok read)
        × (count ≡ lesser (length read) (2 ^ 64 - 1)) × (values.new ≡ added_all read values.old))
        (λ error. AnswersReading (Err error) (rule.read_each (rule.reads (space_of item.now)) (words_of text.now))) }
    ensures above { values.new.above ≡ values.old.above }
{
    let mut count: u64 = 0;
    let mut rest = text;
    'words: while let Some((word, behind)) = first_word(rest) {
        put_value(alloc, item, word, values)?;
        count = count.saturating_add(1);
        rest = behind;
    }
    Ok(count)
}

// The least and the greatest number of items of a list.
#[derive(Clone, Copy)]
struct Bounds {
    min: u32,
    max: Option<u32>,
}

// Whether a list may have so many items.
fn are_within(count: u64, bounds: Bounds) -> bool
    ensures { (n : ℕ) → count ≡ lesser n (2 ^ 64 - 1) → result ≡ (nat_le bounds.min n && is_at_most n bounds.max) }
{
    let within = match bounds.max {
        Some(most) => count <= u64::from(most),
        None => true,
    };
    u64::from(bounds.min) <= count && within
}

#[cycle(accepting)]
fn put_list(
    alloc: Global,
    item: &Simple,
    bounds: Bounds,
    text: &str,
    values: &mut Builder<ValueLabel>,
) -> Result<(), SimpleError>
    requires { Sound (space_of item.now) }
    ensures read { MatchResult result
        (λ _. (value : Rose ValueLabel) × (rule.list_within bounds.min bounds.max (rule.read_each (rule.reads (space_of item.now)) (words_of text.now)) ≡ Ok value) × (values.new ≡ added value values.old))
        (λ error. AnswersReading (Err error) (rule.list_within bounds.min bounds.max (rule.read_each (rule.reads (space_of item.now)) (words_of text.now)))) }
    ensures kept { OnErr result (values.new ≡ values.old) }
{
    values.open(ValueLabel::SequenceOf)?;
    match put_each(alloc, item, text, values) {
        Ok(count) => {
            if are_within(count, bounds) {
                values.close();
                Ok(())
            } else {
                values.cancel();
                Err(SimpleError::BadText)
            }
        }
        Err(error) => {
            values.cancel();
            Err(error)
        }
    }
}

// The number of the first member that accepts the text or finds its number too wide, with the value that it gives.
#[cycle(accepting)]
fn take(
    alloc: Global,
    members: &[Simple],
    text: &str,
) -> Result<(usize, Flat<ValueLabel>), SimpleError>
    requires { AreSound (spaces_in members.now) }
    ensures bound { IfOk result (λ taken. taken.0 < length members.now) }
    ensures taken { MatchResult result
        (λ taken. rule.taken_by (spaces_in members.now) text.now ≡ Ok (taken.0, taken.1))
        (λ error. AnswersReading (Err error) (rule.taken_by (spaces_in members.now) text.now)) }
{
    'members: for i in 0..members.len() {
        match read(alloc, &members[i], text) {
            Ok(value) => return Ok((i, value)),
            Err(SimpleError::BadText) => {}
            Err(SimpleError::TooWide) => return Err(SimpleError::TooWide),
            Err(SimpleError::Memory) => return Err(SimpleError::Memory),
        }
    }
    Err(SimpleError::BadText)
}

// What takes the spelling of a value that a member gave.
#[cycle(accepting)]
fn take_again(
    alloc: Global,
    members: &[Simple],
    member: usize,
    value: &Node<'_, ValueLabel>,
) -> Result<(usize, Flat<ValueLabel>), SimpleError>
    requires sound { AreSound (spaces_in members.now) }
    requires member { member < length members.now }
    ensures bound { IfOk result (λ taken. taken.0 < length members.now) }
    ensures taken { MatchResult result
        (λ taken. rule.taken_by (spaces_in members.now) (rule.spelled_by (spaces_in members.now) member value.now) ≡ Ok (taken.0, taken.1))
        (λ error. AnswersReading (Err error) (rule.taken_by (spaces_in members.now) (rule.spelled_by (spaces_in members.now) member value.now))) }
{
    let spelled = spelling(alloc, &members[member], value)?;
    take(alloc, members, spelled.as_str())
}

// Puts the value of a union, of which a member gave this.
fn put_choice(
    member: usize,
    value: Flat<ValueLabel>,
    values: &mut Builder<ValueLabel>,
) -> Result<(), AllocError>
    requires { member < 2 ^ 32 }
    ensures put { OnOk result (values.new ≡ added (node (ValueLabel.Choice member) (with_kid value no_kids)) values.old) }
    ensures kept { OnErr result (values.new ≡ values.old) }
{
    values.open(ValueLabel::Choice(member as u32))?;
    match values.append(value.into_trees()) {
        Ok(()) => {
            values.close();
            Ok(())
        }
        Err(error) => {
            values.cancel();
            Err(error)
        }
    }
}

// The member that keeps the value of a text, and that value.
#[cycle(accepting)]
fn settle(
    alloc: Global,
    members: &[Simple],
    text: &str,
) -> Result<(usize, Flat<ValueLabel>), SimpleError>
    requires sound { AreSound (spaces_in members.now) }
    requires counted { length members.now < 2 ^ 32 }
    ensures bound { IfOk result (λ settled. settled.0 < length members.now) }
    ensures settled { MatchResult result
        (λ settled. rule.settled (rule.taken_by (spaces_in members.now)) (rule.spelled_by (spaces_in members.now)) (length members.now) text.now ≡ Ok (node (ValueLabel.Choice settled.0) (with_kid settled.1 no_kids)))
        (λ error. AnswersReading (Err error) (rule.settled (rule.taken_by (spaces_in members.now)) (rule.spelled_by (spaces_in members.now)) (length members.now) text.now)) }
{
    let (mut member, mut value) = take(alloc, members, text)?;
    let mut turns = members.len();
    'turns: while 0 < turns {
        let (next, again) = take_again(alloc, members, member, &value.root())?;
        if next == member {
            return Ok((member, value));
        }
        member = next;
        value = again;
        turns -= 1;
    }
    Err(SimpleError::BadText)
}

#[cycle(accepting)]
fn put_union(
    alloc: Global,
    members: &[Simple],
    text: &str,
    values: &mut Builder<ValueLabel>,
) -> Result<(), SimpleError>
    requires sound { AreSound (spaces_in members.now) }
    requires counted { length members.now < 2 ^ 32 }
    ensures read { MatchResult result
        (λ _. (value : Rose ValueLabel) × (rule.settled (rule.taken_by (spaces_in members.now)) (rule.spelled_by (spaces_in members.now)) (length members.now) text.now ≡ Ok value) × (values.new ≡ added value values.old))
        (λ error. AnswersReading (Err error) (rule.settled (rule.taken_by (spaces_in members.now)) (rule.spelled_by (spaces_in members.now)) (length members.now) text.now)) }
    ensures kept { OnErr result (values.new ≡ values.old) }
{
    let (member, value) = settle(alloc, members, text)?;
    put_choice(member, value, values)?;
    Ok(())
}

#[cycle(accepting)]
fn put_value(
    alloc: Global,
    simple: &Simple,
    text: &str,
    values: &mut Builder<ValueLabel>,
) -> Result<(), SimpleError>
    requires { Sound (space_of simple.now) }
    ensures read { MatchResult result
        (λ _. (value : Rose ValueLabel) × rule.Accepts (space_of simple.now) text.now value × (values.new ≡ added value values.old))
        (λ error. AnswersReading (Err error) (rule.reads (space_of simple.now) text.now)) }
    ensures kept { OnErr result (values.new ≡ values.old) }
{
    match simple {
        Simple::Bool => put(read_boolean(text), values),
        Simple::Whole { lo, hi } => put(read_whole(*lo, *hi, text), values),
        Simple::Numbers(numbers) => put(read_number(numbers.items(), text), values),
        Simple::Words { space, words } => {
            put(read_word(alloc, *space, words.items(), text), values)
        }
        Simple::Chars {
            space,
            min,
            max,
            class,
        } => {
            let facets = CharFacets {
                min: *min,
                max: *max,
                class: *class,
            };
            put(read_characters(alloc, *space, facets, text), values)
        }
        Simple::List { item, min, max } => {
            let bounds = Bounds {
                min: *min,
                max: *max,
            };
            put_list(alloc, item, bounds, text, values)
        }
        Simple::Union(members) => put_union(alloc, members.items(), text, values),
    }
}

/// The value of a text, as a tree of its own.
#[cycle(accepting)]
pub(crate) fn read(
    alloc: Global,
    simple: &Simple,
    text: &str,
) -> Result<Flat<ValueLabel>, SimpleError>
    requires { Sound (space_of simple.now) }
    ensures { AnswersReading result (rule.reads (space_of simple.now) text.now) }
{
    let mut values = Builder::new(alloc);
    put_value(alloc, simple, text, &mut values)?;
    Ok(values.finish_one())
}

/// The value that the type gives to the text, by XML Schema Part 2. A union takes the first member that accepts the
/// text; the spelling of the accepted value is read again until the member stays the same.
pub fn accept(alloc: Global, simple: &Simple, text: &Text) -> Result<Flat<ValueLabel>, SimpleError>
    requires { Sound (space_of simple.now) }
    ensures { AnswersReading result (rule.reads (space_of simple.now) text.now) }
{
    read(alloc, simple, text.as_str())
}

// Puts a text that is read as it is, which is judged before it is copied.
fn put_text(
    alloc: Global,
    facets: CharFacets,
    text: &Text,
    values: &mut Builder<ValueLabel>,
) -> Result<(), SimpleError>
    ensures read { MatchResult result
        (λ _. (value : Rose ValueLabel) × (rule.read_characters facets.min facets.max facets.class text.now ≡ Ok value) × (values.new ≡ added value values.old))
        (λ error. AnswersReading (Err error) (rule.read_characters facets.min facets.max facets.class text.now)) }
    ensures kept { OnErr result (values.new ≡ values.old) }
{
    if !has_characters(facets.min, facets.max, facets.class, text.as_str()) {
        return Err(SimpleError::BadText);
    }
    let copied = text.copy(alloc)?;
    values.leaf(ValueLabel::Utf8(copied))?;
    Ok(())
}

/// Appends the value of a text to what is built so far. An error leaves that as it was.
pub fn accept_into(
    alloc: Global,
    simple: &Simple,
    text: &Text,
    values: &mut Builder<ValueLabel>,
) -> Result<(), SimpleError>
    requires { Sound (space_of simple.now) }
    ensures read { MatchResult result
        (λ _. (value : Rose ValueLabel) × rule.Accepts (space_of simple.now) text.now value × (values.new ≡ added value values.old))
        (λ error. AnswersReading (Err error) (rule.reads (space_of simple.now) text.now)) }
    ensures kept { OnErr result (values.new ≡ values.old) }
{
    match simple {
        Simple::Chars {
            space,
            min,
            max,
            class,
        } if is_treated(*space, text) => {
            let facets = CharFacets {
                min: *min,
                max: *max,
                class: *class,
            };
            put_text(alloc, facets, text, values)
        }
        _ => put_value(alloc, simple, text.as_str(), values),
    }
}

// Puts a text as it is read, of so many bytes that stand first.
#[inline(always)]
fn put_front(
    alloc: Global,
    facets: CharFacets,
    bytes: &[u8],
    len: usize,
    values: &mut Builder<ValueLabel>,
) -> Result<(), SimpleError>
    requires within { len ≤ length bytes.now }
    requires utf8 { IsUtf8 (front_of len bytes.now) }
    ensures read { MatchResult result
        (λ _. (value : Rose ValueLabel) × (rule.read_characters facets.min facets.max facets.class (front_of len bytes.now) ≡ Ok value) × (values.new ≡ added value values.old))
        (λ error. AnswersReading (Err error) (rule.read_characters facets.min facets.max facets.class (front_of len bytes.now))) }
    ensures kept { OnErr result (values.new ≡ values.old) }
{
    let text = utf8_text(&bytes[..len]);
    if !has_characters(facets.min, facets.max, facets.class, text) {
        return Err(SimpleError::BadText);
    }
    let text = Text::of_front(alloc, bytes, len)?;
    values.leaf(ValueLabel::Utf8(text))?;
    Ok(())
}

// Puts a whole number.
#[inline(always)]
fn put_whole(
    lo: Option<i128>,
    hi: Option<i128>,
    text: &str,
    values: &mut Builder<ValueLabel>,
) -> Result<(), SimpleError>
    ensures read { MatchResult result
        (λ _. (value : Rose ValueLabel) × (rule.read_whole lo hi (treated WhiteSpace.Collapse text.now) ≡ Ok value) × (values.new ≡ added value values.old))
        (λ error. AnswersReading (Err error) (rule.read_whole lo hi (treated WhiteSpace.Collapse text.now))) }
    ensures kept { OnErr result (values.new ≡ values.old) }
{
    match collapsed_number(text) {
        None => Err(SimpleError::BadText),
        Some(Whole::Above) => Err(outside(hi)),
        Some(Whole::Below) => Err(outside(lo)),
        Some(Whole::Within(n)) => {
            if !is_within(lo, hi, n) {
                return Err(SimpleError::BadText);
            }
            values.leaf(ValueLabel::Int(Integer::of(n)))?;
            Ok(())
        }
    }
}

/// Appends the value of the text of the first `len` bytes to what is built so far. An error leaves that as it was. The text
/// is copied only if it is a value.
pub fn accept_front_into(
    alloc: Global,
    simple: &Simple,
    bytes: &[u8],
    len: usize,
    values: &mut Builder<ValueLabel>,
) -> Result<(), SimpleError>
    requires sound { Sound (space_of simple.now) }
    requires within { len ≤ length bytes.now }
    requires utf8 { IsUtf8 (front_of len bytes.now) }
    ensures read { MatchResult result
        (λ _. (value : Rose ValueLabel) × rule.Accepts (space_of simple.now) (front_of len bytes.now) value × (values.new ≡ added value values.old))
        (λ error. AnswersReading (Err error) (rule.reads (space_of simple.now) (front_of len bytes.now))) }
    ensures kept { OnErr result (values.new ≡ values.old) }
{
    let text = utf8_text(&bytes[..len]);
    match simple {
        Simple::Chars {
            space,
            min,
            max,
            class,
        } if is_str_treated(*space, text) => {
            let facets = CharFacets {
                min: *min,
                max: *max,
                class: *class,
            };
            put_front(alloc, facets, bytes, len, values)
        }
        Simple::Whole { lo, hi } => put_whole(*lo, *hi, text, values),
        _ => put_value(alloc, simple, text, values),
    }
}

fn alone(label: Result<ValueLabel, SimpleError>) -> Result<Option<ValueLabel>, SimpleError>
    ensures { (due : rule.Reading) → AnswersLeaf label due → MatchResult result
        (λ found. IfSome found (λ label. due ≡ Ok (node label no_kids)))
        (λ error. AnswersReading (Err error) due) }
{
    Ok(Some(label?))
}

/// The label of the value that the type gives to the text, where the type has no parts, so that this node is the whole value.
/// `None` where the type is a list or a union, of which nothing is read.
pub fn accept_label(
    alloc: Global,
    simple: &Simple,
    text: &Text,
) -> Result<Option<ValueLabel>, SimpleError>
    requires { Sound (space_of simple.now) }
    ensures { MatchResult result
        (λ found. IfSome found (λ label. rule.Accepts (space_of simple.now) text.now (node label no_kids)))
        (λ error. AnswersReading (Err error) (rule.reads (space_of simple.now) text.now)) }
{
    let text = text.as_str();
    match simple {
        Simple::Bool => alone(read_boolean(text)),
        Simple::Whole { lo, hi } => alone(read_whole(*lo, *hi, text)),
        Simple::Numbers(numbers) => alone(read_number(numbers.items(), text)),
        Simple::Words { space, words } => alone(read_word(alloc, *space, words.items(), text)),
        Simple::Chars {
            space,
            min,
            max,
            class,
        } => {
            let facets = CharFacets {
                min: *min,
                max: *max,
                class: *class,
            };
            alone(read_characters(alloc, *space, facets, text))
        }
        Simple::List { .. } => Ok(None),
        Simple::Union(_) => Ok(None),
    }
}
