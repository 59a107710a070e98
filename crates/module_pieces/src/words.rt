//! The texts that the items of an ENUMERATED represent.
ghost use Rattle.std.specs.Prelude.{◌≡◌, ◌∷◌, [], List, true, false, IfOk, MatchOption};
ghost use Rattle.module_text.specs.declared.types.PlainName.{PlainName};
ghost use Rattle.std.specs.List.{list_all, filter_map};
ghost use Rattle.std.specs.Str.{is_utf8};
ghost use Rattle.module_text.specs.Told as told;

use crate::names::told_name;
use base_texts::{Memory, Text, TextError};
use module_text::{NameAs, PlainName, TypeMark, TypeMarkKind, Written};
use std::alloc::Global;

// Returns the next TEXT, with its item, and the instructions after it.
fn next_text(marks: &[TypeMark]) -> Option<(&Text, &NameAs, &[TypeMark])>
    ensures { MatchOption result
        (filter_map told.said marks.now ≡ [])
        (λ r. filter_map told.said marks.now ≡ record { identifier = r.0.now; text = r.1.now } ∷ filter_map told.said r.2.now) }
{
    'marks: for (i, mark) in marks.iter().enumerate() {
        if let TypeMarkKind::Text { identifier, text } = &mark.kind {
            return Some((identifier, text, &marks[i + 1..]));
        }
    }
    None
}

// Returns the text that this item represents, and the instructions that remain for the items after it.
fn next_word<'a>(
    alloc: Global,
    marks: &'a [TypeMark],
    item: &PlainName,
) -> Result<(Vec<u8>, &'a [TypeMark]), Memory>
    ensures { IfOk result (λ r. (is : List PlainName) →
        told.words_of marks.now (item.now ∷ is) ≡ r.0.items ∷ told.words_of r.1.now is) }
{
    let name = item.name.bytes();
    if let Some((identifier, text, behind)) = next_text(marks) {
        if identifier.bytes() == name {
            let word = told_name(alloc, name, text)?;
            return Ok((word, behind));
        }
    }
    Ok((Vec::from_slice(alloc, name)?, marks))
}

/// Returns the texts that items with these identifiers represent, as bytes.
pub fn written_words(
    alloc: Global,
    marks: &[TypeMark],
    items: &[PlainName],
) -> Result<Vec<Written>, Memory>
    ensures { IfOk result (λ words. words.items ≡ told.words_of marks.now items.now) }
{
    let mut words = Vec::with_capacity(alloc, items.len())?;
    let mut left = marks;
    'items: for item in items {
        let (word, behind) = next_word(alloc, left, item)?;
        words.push(Written::of(word))?;
        left = behind;
    }
    Ok(words)
}

/// Returns the words of items as texts. None if one of them is not UTF-8.
pub fn words_of(
    alloc: Global,
    marks: &[TypeMark],
    items: &[PlainName],
) -> Result<Option<Vec<Text>>, Memory>
    ensures { IfOk result (λ found. MatchOption found
        (list_all is_utf8 (told.words_of marks.now items.now) ≡ false)
        (λ words. (words.items ≡ told.words_of marks.now items.now) × (list_all is_utf8 words.items ≡ true))) }
{
    let written = written_words(alloc, marks, items)?;
    let written = written.as_slice();
    let mut words = Vec::with_capacity(alloc, written.len())?;
    'words: for word in written {
        match Text::of(alloc, word.bytes()) {
            Ok(word) => words.push(word)?,
            Err(TextError::NotUtf8) => return Ok(None),
            Err(TextError::Memory) => return Err(Memory),
        }
    }
    Ok(Some(words))
}
