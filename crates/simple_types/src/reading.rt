//! Reading texts of the types that have no parts.
ghost use Rattle.std.specs.Prelude.{◌≡◌, ◌&&◌, ◌^◌, ◌<◌, IfOk, IfSome, Err, length, position, bytes_eq};
ghost use Rattle.std.specs.List.Sorted.{IsStrictlySortedBy};
ghost use Rattle.std.specs.Ordering.{nat_cmp, int_cmp, int_eq};
ghost use Rattle.std.specs.Cmp.Lexicographic.{slice_cmp};
ghost use Rattle.base_texts.specs.WhiteSpace.{treated};
ghost use Rattle.simple_types.specs.Answering.{AnswersReading, AnswersLeaf};
ghost use Rattle.simple_types.specs.Lexical as lexical;
ghost use Rattle.simple_types.specs.Reading as rule;

use crate::classes::{CharFacets, has_characters};
use crate::integers::Integer;
use crate::labels::ValueLabel;
use crate::numbers::{Whole, collapsed_boolean, collapsed_number, only_word};
use base_texts::{Memory, Text, WhiteSpace, is_treated, treat};
use std::alloc::{AllocError, Global};
use thiserror::Error;

/// Why a text has no value of a simple type.
#[derive(Clone, Copy, Debug, PartialEq, Eq, Error)]
pub enum SimpleError {
    #[error("no text of the type")]
    BadText,
    /// A whole number outside 128 bits, where the type has no bound on that side.
    #[error("a whole number outside 128 bits")]
    TooWide,
    #[error("out of memory")]
    Memory,
}

impl From<Memory> for SimpleError {
    ghost use Rattle.simple_types.specs.declared.reading.SimpleError.{SimpleError};

    ghost from_gives = { λ memory error. error ≡ SimpleError.Memory };

    fn from(_: Memory) -> SimpleError {
        SimpleError::Memory
    }
}

impl From<AllocError> for SimpleError {
    ghost use Rattle.simple_types.specs.declared.reading.SimpleError.{SimpleError};

    ghost from_gives = { λ failed error. error ≡ SimpleError.Memory };

    fn from(_: AllocError) -> SimpleError {
        SimpleError::Memory
    }
}

pub(crate) fn read_boolean(text: &str) -> Result<ValueLabel, SimpleError>
    ensures { AnswersLeaf result (rule.read_boolean (treated WhiteSpace.Collapse text.now)) }
{
    match collapsed_boolean(text) {
        Some(b) => Ok(ValueLabel::Bool(b)),
        None => Err(SimpleError::BadText),
    }
}

/// Whether the number is no less than a least one and no more than a greatest one, where there is one.
pub fn is_within(lo: Option<i128>, hi: Option<i128>, n: i128) -> bool
    ensures { result ≡ (lexical.is_from lo n && lexical.is_to hi n) }
{
    let from = match lo {
        Some(least) => least <= n,
        None => true,
    };
    let to = match hi {
        Some(greatest) => n <= greatest,
        None => true,
    };
    from && to
}

/// Why a number past 128 bits is refused, by the bound on its side.
pub(crate) fn outside(bound: Option<i128>) -> SimpleError
    ensures { AnswersReading (Err result) (rule.outside bound) }
{
    match bound {
        Some(_) => SimpleError::BadText,
        None => SimpleError::TooWide,
    }
}

pub(crate) fn read_whole(
    lo: Option<i128>,
    hi: Option<i128>,
    text: &str,
) -> Result<ValueLabel, SimpleError>
    ensures { AnswersLeaf result (rule.read_whole lo hi (treated WhiteSpace.Collapse text.now)) }
{
    match collapsed_number(text) {
        None => Err(SimpleError::BadText),
        Some(Whole::Above) => Err(outside(hi)),
        Some(Whole::Below) => Err(outside(lo)),
        Some(Whole::Within(n)) => {
            if is_within(lo, hi, n) {
                Ok(ValueLabel::Int(Integer::of(n)))
            } else {
                Err(SimpleError::BadText)
            }
        }
    }
}

/// Returns the index of the number in the list. It is found by binary search.
pub fn place_of(numbers: &[i128], n: i128) -> Option<u32>
    requires sorted { IsStrictlySortedBy int_cmp numbers.now }
    requires count { length numbers.now < 2 ^ 32 }
    ensures { result ≡ position (λ x. int_eq x n) numbers.now }
{
    match numbers.binary_search(&n) {
        Ok(i) => Some(i as u32),
        Err(_) => None,
    }
}

// The place of a text among words that ascend.
fn place_of_text(words: &[Text], text: &str) -> Option<u32>
    requires sorted { IsStrictlySortedBy (slice_cmp nat_cmp) words.now }
    requires count { length words.now < 2 ^ 32 }
    ensures { result ≡ position (λ x. bytes_eq x text.now) words.now }
{
    match words.binary_search_by(|word| word.bytes().cmp(text.as_bytes())) {
        Ok(i) => Some(i as u32),
        Err(_) => None,
    }
}

/// Returns the index of the text in the list. It is found by binary search.
pub fn place_of_word(words: &[Text], word: &Text) -> Option<u32>
    requires sorted { IsStrictlySortedBy (slice_cmp nat_cmp) words.now }
    requires count { length words.now < 2 ^ 32 }
    ensures { result ≡ position (λ x. bytes_eq x word.now) words.now }
{
    place_of_text(words, word.as_str())
}

fn item(place: Option<u32>) -> Result<ValueLabel, SimpleError>
    ensures { AnswersLeaf result (rule.item_at place) }
{
    match place {
        Some(i) => Ok(ValueLabel::Enum(i)),
        None => Err(SimpleError::BadText),
    }
}

pub(crate) fn read_number(numbers: &[i128], text: &str) -> Result<ValueLabel, SimpleError>
    requires sorted { IsStrictlySortedBy int_cmp numbers.now }
    requires count { length numbers.now < 2 ^ 32 }
    ensures { AnswersLeaf result (rule.read_number numbers.now (treated WhiteSpace.Collapse text.now)) }
{
    match collapsed_number(text) {
        Some(Whole::Within(n)) => item(place_of(numbers, n)),
        Some(Whole::Above | Whole::Below) => Err(SimpleError::BadText),
        None => Err(SimpleError::BadText),
    }
}

// The text with its white space treated.
fn treated(alloc: Global, space: WhiteSpace, text: &str) -> Result<Text, Memory>
    ensures { IfOk result (λ made. made ≡ treated space text.now) }
{
    let text = Text::from_str(alloc, text)?;
    if is_treated(space, &text) {
        Ok(text)
    } else {
        treat(alloc, space, &text)
    }
}

// The part of the text that its treatment leaves, where it leaves one part of it as it is: there is nothing to copy.
#[tactic(auto, unfolding(base_texts::specs::WhiteSpace::treated))]
fn treated_part(space: WhiteSpace, text: &str) -> Option<&str>
    ensures { IfSome result (λ part. part.now ≡ treated space text.now) }
{
    match space {
        WhiteSpace::Preserve => Some(text),
        WhiteSpace::Replace => None,
        WhiteSpace::Collapse => only_word(text),
    }
}

// Most words have no white space in them, so that nothing is copied to look for one.
pub(crate) fn read_word(
    alloc: Global,
    space: WhiteSpace,
    words: &[Text],
    text: &str,
) -> Result<ValueLabel, SimpleError>
    requires sorted { IsStrictlySortedBy (slice_cmp nat_cmp) words.now }
    requires count { length words.now < 2 ^ 32 }
    ensures { AnswersLeaf result (rule.read_word words.now (treated space text.now)) }
{
    match treated_part(space, text) {
        Some(word) => item(place_of_text(words, word)),
        None => {
            let made = treated(alloc, space, text)?;
            item(place_of_word(words, &made))
        }
    }
}

pub(crate) fn read_characters(
    alloc: Global,
    space: WhiteSpace,
    facets: CharFacets,
    text: &str,
) -> Result<ValueLabel, SimpleError>
    ensures { AnswersLeaf result (rule.read_characters facets.min facets.max facets.class (treated space text.now)) }
{
    let made = treated(alloc, space, text)?;
    if has_characters(facets.min, facets.max, facets.class, made.as_str()) {
        Ok(ValueLabel::Utf8(made))
    } else {
        Err(SimpleError::BadText)
    }
}
