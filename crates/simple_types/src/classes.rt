//! The classes of characters.
ghost use Rattle.std.specs.Prelude.{◌≡◌, ◌&&◌, ◌||◌, ◌↔◌, ◌≤◌, ◌<◌, true, false, All, IsTrue, MatchOption, length, nat_le, take};
ghost use Rattle.std.specs.List.{list_all, position_or_len, slice_split};
ghost use Rattle.std.specs.Str.{chars};
ghost use Rattle.base_texts.specs.Characters.{is_xml_char};
ghost use Rattle.base_texts.specs.Digits.{is_digit};
ghost use Rattle.simple_types.specs.Lexical as lexical;
ghost use Rattle.simple_types.specs.Reading.{has_characters};

use crate::simples::Class;
use base_texts::{is_digit, is_name_char, is_name_text, is_ncname_text, is_xml_char};

// The least and the greatest number of code points of a text, and the class that it is in.
#[derive(Clone, Copy)]
pub(crate) struct CharFacets {
    pub(crate) min: u32,
    pub(crate) max: Option<u32>,
    pub(crate) class: Class,
}

fn is_letter(b: u8) -> bool
    ensures { result ≡ lexical.is_letter b }
{
    matches!(b, b'A'..=b'Z' | b'a'..=b'z')
}

fn is_letter_or_digit(b: u8) -> bool
    ensures { result ≡ (lexical.is_letter b || is_digit b) }
{
    is_letter(b) || is_digit(b)
}

fn are_letters_or_digits(bytes: &[u8]) -> bool
    ensures { result ≡ list_all (λ b. lexical.is_letter b || is_digit b) bytes.now }
{
    bytes.iter().all(|b| is_letter_or_digit(*b))
}

fn is_subtag(part: &[u8]) -> bool
    ensures { result ≡ lexical.is_subtag part.now }
{
    1 <= part.len() && part.len() <= 8 && are_letters_or_digits(part)
}

// The length of the first subtag.
fn first_length(bytes: &[u8]) -> usize
    ensures { result ≡ position_or_len lexical.is_hyphen bytes.now }
{
    bytes.iter().position(|b| *b == b'-').unwrap_or(bytes.len())
}

fn starts_with_letters(bytes: &[u8]) -> bool
    ensures { result ≡ list_all lexical.is_letter (take (position_or_len lexical.is_hyphen bytes.now) bytes.now) }
{
    let first = &bytes[..first_length(bytes)];
    first.iter().all(|b| is_letter(*b))
}

fn are_subtags(bytes: &[u8]) -> bool
    ensures { result ≡ list_all lexical.is_subtag (slice_split lexical.is_hyphen bytes.now) }
{
    bytes.split(|b| *b == b'-').all(|part| is_subtag(part))
}

fn is_language(bytes: &[u8]) -> bool
    ensures { result ≡ lexical.is_language bytes.now }
{
    are_subtags(bytes) && starts_with_letters(bytes)
}

fn is_nmtoken(text: &str) -> bool
    ensures { result ≡ lexical.is_nmtoken text.now }
{
    !text.is_empty() && text.chars().all(|c| is_name_char(c))
}

#[tactic(auto, unfolding(crate::specs::Lexical::in_class))]
fn in_class(class: Class, text: &str) -> bool
    ensures { result ≡ lexical.in_class class text.now }
{
    match class {
        Class::Any => true,
        Class::Language => is_language(text.as_bytes()),
        Class::NmToken => is_nmtoken(text),
        Class::Name => is_name_text(text),
        Class::NcName => is_ncname_text(text),
    }
}

fn are_xml_chars(text: &str) -> bool
    ensures { result ≡ list_all is_xml_char (chars text.now) }
{
    text.chars().all(|c| is_xml_char(c))
}

/// Returns the number of code points of the text.
pub fn char_count(text: &str) -> usize
    ensures { result ≡ length (chars text.now) }
{
    text.chars().count()
}

/// Returns whether the number is at most the greatest one, if there is one.
pub fn is_at_most(n: usize, most: Option<u32>) -> bool
    ensures { result ≡ lexical.is_at_most n most }
{
    match most {
        Some(most) => n <= most as usize,
        None => true,
    }
}

// Whether each byte is a visible ASCII character or a space.
#[inline(always)]
fn are_plain(bytes: &[u8]) -> bool
    ensures { IsTrue result ↔ All (λ b. (0x20 ≤ b) × (b < 0x7F)) bytes.now }
{
    for b in bytes {
        if *b < 0x20 || *b >= 0x7F {
            return false;
        }
    }
    true
}

// The number of code points of the text, if all are XML characters. Plain characters are single bytes.
#[inline(always)]
fn xml_count(text: &str) -> Option<usize>
    ensures { MatchOption result (list_all is_xml_char (chars text.now) ≡ false) (λ n. (list_all is_xml_char (chars text.now) ≡ true) × (n ≡ length (chars text.now))) }
{
    if are_plain(text.as_bytes()) {
        return Some(text.len());
    }
    if are_xml_chars(text) {
        Some(char_count(text))
    } else {
        None
    }
}

/// Returns whether the text has only XML characters, from `min` to `max` code points, and is in the class.
pub fn has_characters(min: u32, max: Option<u32>, class: Class, text: &str) -> bool
    ensures { result ≡ has_characters min max class text.now }
{
    match xml_count(text) {
        Some(count) => { min as usize <= count && is_at_most(count, max) && in_class(class, text) }
        None => false,
    }
}
