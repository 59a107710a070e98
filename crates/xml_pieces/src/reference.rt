//! References to characters.
ghost use Rattle.std.specs.Prelude.{◌≡◌, ◌≤◌, ◌<◌, MatchOption, false, true, length, min, nat_lt};
ghost use Rattle.std.specs.List.{prefix_len};
ghost use Rattle.std.specs.Char as char_specs;
ghost use Rattle.base_texts.specs.Characters as xml;
ghost use Rattle.xml_pieces.specs.Pieces as pieces;
ghost use Rattle.xml_pieces.specs.Reading as reading;
ghost use Rattle.xml_pieces.specs.Reading.{Gives};

use crate::text::strip;
use base_texts::is_xml_char;

// A number greater than that of each character. Greater numbers are replaced by it.
const ABOVE_ALL: u32 = 0x11_0000;

#[tactic(auto, unfolding(crate::specs::Reading::named_at))]
fn named(bytes: &[u8]) -> Option<(char, &[u8])>
    ensures { Gives (λ x. (x.0, x.1.now)) result (reading.named_at bytes.now) }
{
    if let Some(rest) = strip(b"lt;", bytes) {
        return Some(('<', rest));
    }
    if let Some(rest) = strip(b"gt;", bytes) {
        return Some(('>', rest));
    }
    if let Some(rest) = strip(b"amp;", bytes) {
        return Some(('&', rest));
    }
    if let Some(rest) = strip(b"apos;", bytes) {
        return Some(('\'', rest));
    }
    let rest = strip(b"quot;", bytes)?;
    Some(('"', rest))
}

// The value of a digit of base 36, or 36 if the byte is not a digit.
fn digit_value(b: u8) -> u32
    ensures value { result ≡ char_specs.digit_value b }
    ensures small { result ≤ 36 }
{
    match b {
        b'0'..=b'9' => (b - b'0') as u32,
        b'A'..=b'Z' => (b - b'A') as u32 + 10,
        b'a'..=b'z' => (b - b'a') as u32 + 10,
        _ => 36,
    }
}

fn digit_len(base: u32, bytes: &[u8]) -> usize
    ensures value { result ≡ prefix_len (pieces.is_digit base) bytes.now }
    ensures within { result ≤ length bytes.now }
{
    bytes.iter().take_while(|b| digit_value(**b) < base).count()
}

// The number that the digits denote, or `ABOVE_ALL` if it is greater.
fn number(base: u32, digits: &[u8]) -> u32
    requires low { 1 ≤ base }
    requires high { base ≤ 16 }
    ensures { result ≡ min (pieces.number base 0 digits.now) 0x110000 }
{
    let mut number = 0;
    for digit in digits {
        number = ABOVE_ALL.min(number * base + digit_value(*digit));
    }
    number
}

// The XML character whose number the digits denote.
fn character_of(base: u32, digits: &[u8]) -> Option<char>
    requires low { 1 ≤ base }
    requires high { base ≤ 16 }
    ensures { let n = pieces.number base 0 digits.now in MatchOption result (xml.is_xml_char n ≡ false) (λ c. (c ≡ n) × (xml.is_xml_char n ≡ true)) }
{
    let number = number(base, digits);
    let Some(c) = char::from_u32(number) else {
        return None;
    };
    if is_xml_char(c) { Some(c) } else { None }
}

#[tactic(auto, unfolding(crate::specs::Reading::numbered_at))]
fn numbered(base: u32, bytes: &[u8]) -> Option<(char, &[u8])>
    requires low { 1 ≤ base }
    requires high { base ≤ 16 }
    ensures { Gives (λ x. (x.0, x.1.now)) result (reading.numbered_at base bytes.now) }
{
    let (digits, rest) = bytes.split_at(digit_len(base, bytes));
    if digits.is_empty() {
        return None;
    }
    let Some(c) = character_of(base, digits) else {
        return None;
    };
    let rest = strip(b";", rest)?;
    Some((c, rest))
}

/// Returns the character of the reference at the start, after its `&`, and the rest.
#[tactic(auto, unfolding(crate::specs::Reading::reference_at))]
pub fn reference(bytes: &[u8]) -> Option<(char, &[u8])>
    ensures { Gives (λ x. (x.0, x.1.now)) result (reading.reference_at bytes.now) }
{
    if let Some(rest) = strip(b"#x", bytes) {
        return numbered(16, rest);
    }
    if let Some(rest) = strip(b"#", bytes) {
        return numbered(10, rest);
    }
    named(bytes)
}
