//! Lists whose items are dropped once they are counted.
ghost use Rattle.std.specs.Prelude.{◌≡◌, ◌++◌, ◌∷◌, [], Ok, Err, List, MatchResult, OnOk, length, nat_le, string_bytes, if◌then◌else◌};
ghost use Rattle.base_trees.specs.Rose.{Rose};
ghost use Rattle.base_texts.specs.WhiteSpace.{words_of};
ghost use Rattle.simple_types.specs.declared.labels.ValueLabel.{ValueLabel};
ghost use Rattle.simple_types.specs.Seen.{space_of};
ghost use Rattle.simple_types.specs.Sound.{Sound};
ghost use Rattle.simple_types.specs.Space.{ListOf};
ghost use Rattle.simple_types.specs.Answering.{AnswersReading};
ghost use Rattle.simple_types.specs.Reading.{reads, read_each, Holds};
ghost use Rattle.value_builder.specs.Private.Kept.{AreCounted, IsSpelledBy, IsCount, IsKept};

use crate::items::{Items, read_item};
use crate::unions::MemberReading;
use base_flat_trees::Node;
use base_texts::{Memory, Text, first_word};
use simple_types::{Simple, SimpleError, ValueLabel, spell};
use std::alloc::Global;

// Counts the items of the text, as the item type reads them.
fn count_items(alloc: Global, item: &Simple, text: &str) -> Result<Items, SimpleError>
    requires { Sound (space_of item.now) }
    ensures { MatchResult result
        (λ items. (values : List (Rose ValueLabel)) × (read_each (reads (space_of item.now)) (words_of text.now) ≡ Ok values) × AreCounted values items)
        (λ error. AnswersReading (Err error) (read_each (reads (space_of item.now)) (words_of text.now))) }
{
    let mut items = Items::none();
    let mut rest = text;
    'words: while let Some((word, behind)) = first_word(rest) {
        let value = read_item(alloc, item, word)?;
        items.add(&value.root());
        rest = behind;
    }
    Ok(items)
}

/// Returns the number of nodes of the list that the text represents.
pub(crate) fn count_list(
    alloc: Global,
    item: &Simple,
    min: u32,
    max: Option<u32>,
    text: &str,
) -> Result<u64, SimpleError>
    requires { Sound (space_of item.now) }
    ensures { MatchResult result
        (IsCount (ListOf (space_of item.now) min max) text.now)
        (λ error. AnswersReading (Err error) (reads (ListOf (space_of item.now) min max) text.now)) }
{
    let items = count_items(alloc, item, text)?;
    if items.are_within(min, max) {
        Ok(items.list_nodes())
    } else {
        Err(SimpleError::BadText)
    }
}

// Appends a space, unless there are no items before.
fn write_space(spelling: &mut String, items: &Items) -> Result<(), Memory>
    ensures { OnOk result ((values : List (Rose ValueLabel)) → AreCounted values items.now
        → string_bytes spelling.new ≡ (if nat_le (length values) 0 then string_bytes spelling.old else string_bytes spelling.old ++ 0x20 ∷ [])) }
{
    if items.are_none() {
        return Ok(());
    }
    spelling.push(' ')?;
    Ok(())
}

// Appends the spelling of the next item, after a space if these items precede it.
fn write_item(
    alloc: Global,
    spelling: &mut String,
    item: &Simple,
    items: &Items,
    value: &Node<'_, ValueLabel>,
) -> Result<(), Memory>
    requires sound { Sound (space_of item.now) }
    requires holds { Holds (space_of item.now) value.now }
    ensures { OnOk result ((values : List (Rose ValueLabel)) → AreCounted values items.now
        → IsSpelledBy (space_of item.now) values (string_bytes spelling.old) → IsSpelledBy (space_of item.now) (values ++ value.now ∷ []) (string_bytes spelling.new)) }
{
    write_space(spelling, items)?;
    let spelled = spell(alloc, item, value)?;
    spelling.push_str(spelled.as_str())?;
    Ok(())
}

// Returns the items of the text, counted, and their spellings with a space between each two.
fn spell_items(alloc: Global, item: &Simple, text: &str) -> Result<(Items, String), SimpleError>
    requires { Sound (space_of item.now) }
    ensures { MatchResult result
        (λ spelled. (values : List (Rose ValueLabel)) × (read_each (reads (space_of item.now)) (words_of text.now) ≡ Ok values) × AreCounted values spelled.0 × IsSpelledBy (space_of item.now) values (string_bytes spelled.1))
        (λ error. AnswersReading (Err error) (read_each (reads (space_of item.now)) (words_of text.now))) }
{
    let mut items = Items::none();
    let mut spelling = String::new(alloc);
    let mut rest = text;
    'words: while let Some((word, behind)) = first_word(rest) {
        let value = read_item(alloc, item, word)?;
        write_item(alloc, &mut spelling, item, &items, &value.root())?;
        items.add(&value.root());
        rest = behind;
    }
    Ok((items, spelling))
}

/// Returns what is kept of the list that the text represents.
pub(crate) fn keep_list(
    alloc: Global,
    item: &Simple,
    min: u32,
    max: Option<u32>,
    text: &str,
) -> Result<MemberReading, SimpleError>
    requires { Sound (space_of item.now) }
    ensures { MatchResult result
        (IsKept (ListOf (space_of item.now) min max) text.now)
        (λ error. AnswersReading (Err error) (reads (ListOf (space_of item.now) min max) text.now)) }
{
    let (items, spelling) = spell_items(alloc, item, text)?;
    if !items.are_within(min, max) {
        return Err(SimpleError::BadText);
    }
    let spelling = Text::from_string(spelling)?;
    Ok(MemberReading {
        nodes: items.list_nodes(),
        spelling,
    })
}
