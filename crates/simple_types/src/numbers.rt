//! Whole numbers and truth values as texts write them.
ghost use Rattle.std.specs.Prelude.{◌≡◌, ◌<◌, ◌^◌, ◌∷◌, [], true, Some, None, IfSome, MatchOption, length, ◌≢◌};
ghost use Rattle.std.specs.List.{list_all};
ghost use Rattle.std.specs.Str.Parse.{without_leading_sign, starts_with_minus, digits_value};
ghost use Rattle.base_texts.specs.WhiteSpace.{words_of, treated};
ghost use Rattle.base_texts.specs.Digits as digits;
ghost use Rattle.simple_types.specs.Lexical as lexical;
ghost use Rattle.simple_types.specs.Written.{Writes, Shows};

use base_texts::{WhiteSpace, first_word, is_digit, is_numeral};

/// A whole number of 128 bits, or the side on which a number exceeds them.
#[derive(Clone, Copy)]
pub enum Whole {
    Within(i128),
    /// Greater than 2^127 - 1.
    Above,
    /// Less than -2^127.
    Below,
}

fn has_minus(bytes: &[u8]) -> bool
    ensures { result ≡ starts_with_minus bytes.now }
{
    bytes.first() == Some(&b'-')
}

fn without_sign(bytes: &[u8]) -> &[u8]
    ensures { result.now ≡ without_leading_sign bytes.now }
{
    if has_minus(bytes) || bytes.first() == Some(&b'+') {
        &bytes[1..]
    } else {
        bytes
    }
}

/// Returns the number that the text denotes.
#[tactic(auto, unfolding(crate::specs::Lexical::whole_number))]
fn whole_number(text: &str) -> Option<Whole>
    ensures { Writes result (lexical.whole_number text.now) }
{
    let bytes = text.as_bytes();
    if !is_numeral(without_sign(bytes)) {
        return None;
    }
    let whole = match text.parse::<i128>() {
        Ok(n) => Whole::Within(n),
        Err(_) if has_minus(bytes) => Whole::Below,
        Err(_) => Whole::Above,
    };
    Some(whole)
}

/// Returns the word of a text that has exactly one.
pub fn only_word(text: &str) -> Option<&str>
    ensures { MatchOption result (length (words_of text.now) ≢ 1) (λ word. words_of text.now ≡ word.now ∷ []) }
{
    let (word, behind) = first_word(text)?;
    match first_word(behind) {
        Some(_) => None,
        None => Some(word),
    }
}

// The number that these bytes denote, if they are one to eighteen digits. Each such number fits in 64 bits.
#[inline(always)]
fn few_digits(bytes: &[u8]) -> Option<u64>
    ensures { IfSome result (λ n. (digits.is_numeral bytes.now ≡ true) × (n ≡ digits_value 10 bytes.now) × (n < 10 ^ 18)) }
{
    if bytes.is_empty() || bytes.len() > 18 {
        return None;
    }
    let mut n: u64 = 0;
    for b in bytes {
        if !is_digit(*b) {
            return None;
        }
        n = n * 10 + u64::from(*b - b'0');
    }
    Some(n)
}

/// Returns the number that the collapsed text denotes.
pub fn collapsed_number(text: &str) -> Option<Whole>
    ensures { Writes result (lexical.whole_number (treated WhiteSpace.Collapse text.now)) }
{
    if let Some(n) = few_digits(text.as_bytes()) {
        return Some(Whole::Within(i128::from(n)));
    }
    match only_word(text) {
        Some(word) => whole_number(word),
        None => None,
    }
}

/// Returns the truth value that the word denotes (XML Schema Part 2, section 3.2.2.1).
pub fn boolean_of(word: &str) -> Option<bool>
    ensures { result ≡ lexical.boolean_of word.now }
{
    if word == "true" || word == "1" {
        Some(true)
    } else if word == "false" || word == "0" {
        Some(false)
    } else {
        None
    }
}

/// Returns the truth value that the collapsed text denotes.
pub fn collapsed_boolean(text: &str) -> Option<bool>
    ensures { result ≡ lexical.boolean_of (treated WhiteSpace.Collapse text.now) }
{
    match only_word(text) {
        Some(word) => boolean_of(word),
        None => None,
    }
}
