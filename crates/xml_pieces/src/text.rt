//! Parts of texts, read from the start.
ghost use Rattle.std.specs.Prelude.{◌≡◌, ◌≤◌, ◌==◌, IfSome, IsUtf8, Some, length, not, take, chars};
ghost use Rattle.std.specs.List.{prefix_len, list_any, list_all};
ghost use Rattle.base_texts.specs.Characters as xml;
ghost use Rattle.base_texts.specs.WhiteSpace as white;
ghost use Rattle.xml_pieces.specs.Pieces as pieces;
ghost use Rattle.xml_pieces.specs.Pieces.{behind, has_byte, is_quote, version_name, encoding_name, standalone_name};
ghost use Rattle.xml_pieces.specs.Reading as reading;
ghost use Rattle.xml_pieces.specs.Reading.{Gives, past_blank, space_at, equals_at, upto_at, quoted_at, name_at};

use base_texts::{is_name_text, is_white_space, is_xml_char, utf8_text};

// The rest after this prefix.
pub fn strip<'a>(front: &[u8], bytes: &'a [u8]) -> Option<&'a [u8]>
    ensures { Gives (λ x. x.now) result (behind front.now bytes.now) }
{
    bytes.strip_prefix(front)
}

// The part before the first place of the mark, and the rest after the mark.
pub fn until<'a>(mark: &[u8], bytes: &'a [u8]) -> Option<(&'a [u8], &'a [u8])>
    ensures { Gives (λ x. (x.0.now, x.1.now)) result (reading.until mark.now bytes.now) }
{
    let mut at = 0;
    'places: while at < bytes.len() {
        let (front, tail) = bytes.split_at(at);
        if let Some(rest) = strip(mark, tail) {
            return Some((front, rest));
        }
        at += 1;
    }
    None
}

fn blank_len(bytes: &[u8]) -> usize
    ensures value { result ≡ prefix_len white.is_white_space bytes.now }
    ensures within { result ≤ length bytes.now }
{
    bytes.iter().take_while(|b| is_white_space(**b)).count()
}

// The rest after any white space.
pub fn skip_blank(bytes: &[u8]) -> &[u8]
    ensures { result.now ≡ past_blank bytes.now }
{
    &bytes[blank_len(bytes)..]
}

// The rest after white space, of which there must be some.
#[tactic(auto, unfolding(crate::specs::Reading::space_at))]
pub fn space(bytes: &[u8]) -> Option<&[u8]>
    ensures { Gives (λ x. x.now) result (space_at bytes.now) }
{
    let n = blank_len(bytes);
    if n == 0 {
        return None;
    }
    Some(&bytes[n..])
}

// The rest after `=` with optional white space around it.
#[tactic(auto, unfolding(crate::specs::Reading::equals_at))]
pub fn equals(bytes: &[u8]) -> Option<&[u8]>
    ensures { Gives (λ x. x.now) result (equals_at bytes.now) }
{
    let rest = strip(b"=", skip_blank(bytes))?;
    Some(skip_blank(rest))
}

pub fn len_before(byte: u8, bytes: &[u8]) -> usize
    ensures value { result ≡ prefix_len (λ b. not (b == byte)) bytes.now }
    ensures within { result ≤ length bytes.now }
{
    bytes.iter().take_while(|b| **b != byte).count()
}

#[tactic(auto, unfolding(crate::specs::Reading::upto_at))]
fn upto(byte: u8, bytes: &[u8]) -> Option<(&[u8], &[u8])>
    ensures { Gives (λ x. (x.0.now, x.1.now)) result (upto_at byte bytes.now) }
{
    let (front, rest) = bytes.split_at(len_before(byte, bytes));
    let rest = strip(&[byte], rest)?;
    Some((front, rest))
}

// A text in quotes, and the rest.
#[tactic(auto, unfolding(crate::specs::Reading::quoted_at))]
pub fn quoted(bytes: &[u8]) -> Option<(&[u8], &[u8])>
    ensures { Gives (λ x. (x.0.now, x.1.now)) result (quoted_at bytes.now) }
{
    match bytes {
        [quote @ (b'"' | b'\''), rest @ ..] => upto(*quote, rest),
        _ => None,
    }
}

// Whether all characters are XML characters.
pub fn is_text(bytes: &[u8]) -> bool
    requires { IsUtf8 bytes.now }
    ensures { result ≡ reading.is_text bytes.now }
{
    utf8_text(bytes).chars().all(|c| is_xml_char(c))
}

#[tactic(auto, unfolding(crate::specs::Reading::is_name_byte))]
fn is_name_byte(b: u8) -> bool
    ensures { result ≡ reading.is_name_byte b }
{
    matches!(b, b'a'..=b'z' | b'A'..=b'Z' | b'0'..=b':' | b'-' | b'.' | b'_' | 0x80..)
}

fn name_len(bytes: &[u8]) -> usize
    ensures value { result ≡ prefix_len reading.is_name_byte bytes.now }
    ensures within { result ≤ length bytes.now }
{
    bytes.iter().take_while(|b| is_name_byte(**b)).count()
}

#[inline(always)]
#[tactic(auto, unfolding(crate::specs::Reading::is_ascii_start))]
fn is_ascii_start(b: u8) -> bool
    ensures { result ≡ reading.is_ascii_start b }
{
    if b >= b'a' {
        b <= b'z'
    } else {
        matches!(b, b'A'..=b'Z' | b'_' | b':')
    }
}

// Lower-case letters are tested first, since most names have no others. The bytes that end a name, all below the letters, are
// tested separately.
#[inline(always)]
#[tactic(auto, unfolding(crate::specs::Reading::is_ascii_part))]
fn is_ascii_part(b: u8) -> bool
    ensures { result ≡ reading.is_ascii_part b }
{
    if b >= b'a' {
        b <= b'z'
    } else if b >= b'A' {
        b <= b'Z' || b == b'_'
    } else {
        matches!(b, b'0'..=b':' | b'-' | b'.')
    }
}

fn are_ascii_parts(bytes: &[u8]) -> bool
    ensures { result ≡ list_all reading.is_ascii_part bytes.now }
{
    bytes.iter().all(|b| is_ascii_part(*b))
}

// Whether the bytes are a Name of ASCII characters only, as most names are. This test decodes nothing.
fn is_ascii_name(bytes: &[u8]) -> bool
    ensures { result ≡ reading.is_ascii_name bytes.now }
{
    let Some((first, rest)) = bytes.split_first() else {
        return false;
    };
    is_ascii_start(*first) && are_ascii_parts(rest)
}

#[tactic(auto, unfolding(crate::specs::Reading::is_ncname_start))]
fn is_ncname_start(b: u8) -> bool
    ensures { result ≡ reading.is_ncname_start b }
{
    if b >= b'a' {
        b <= b'z'
    } else {
        matches!(b, b'A'..=b'Z' | b'_')
    }
}

#[tactic(auto, unfolding(crate::specs::Reading::is_ncname_part))]
fn is_ncname_part(b: u8) -> bool
    ensures { result ≡ reading.is_ncname_part b }
{
    if b >= b'a' {
        b <= b'z'
    } else {
        matches!(b, b'A'..=b'Z' | b'0'..=b'9' | b'-' | b'.' | b'_')
    }
}

fn are_ncname_parts(bytes: &[u8]) -> bool
    ensures { result ≡ list_all reading.is_ncname_part bytes.now }
{
    bytes.iter().all(|b| is_ncname_part(*b))
}

/// Returns whether the bytes are an NCName of ASCII characters only, as most names are. This test decodes nothing.
pub fn is_ascii_ncname(bytes: &[u8]) -> bool
    ensures { result ≡ reading.is_ascii_ncname bytes.now }
{
    let Some((first, rest)) = bytes.split_first() else {
        return false;
    };
    is_ncname_start(*first) && are_ncname_parts(rest)
}

// Whether the bytes are a Name.
#[tactic(auto, using(crate::proofs::AsciiNames::ascii_name))]
fn is_name(bytes: &[u8]) -> bool
    requires { IsUtf8 bytes.now }
    ensures { result ≡ xml.is_name (chars bytes.now) }
{
    if is_ascii_name(bytes) {
        return true;
    }
    is_name_text(utf8_text(bytes))
}

// The number of bytes before the first that can't be in a Name of ASCII characters.
fn part_len(bytes: &[u8]) -> usize
    ensures value { result ≡ prefix_len reading.is_ascii_part bytes.now }
    ensures within { result ≤ length bytes.now }
{
    bytes.iter().take_while(|b| is_ascii_part(**b)).count()
}

fn starts_ascii(bytes: &[u8]) -> bool
    ensures { result ≡ reading.starts_ascii bytes.now }
{
    match bytes {
        [] => false,
        [first, ..] => is_ascii_start(*first),
    }
}

fn starts_low(bytes: &[u8]) -> bool
    ensures { result ≡ reading.starts_low bytes.now }
{
    match bytes {
        [] => true,
        [first, ..] => *first < 0x80,
    }
}

// A Name of ASCII characters only, and the rest, in one pass over its bytes.
#[inline(always)]
fn plain_name(bytes: &[u8]) -> Option<(&[u8], &[u8])>
    ensures { IfSome result (λ x. name_at bytes.now ≡ Some (x.0.now, x.1.now)) }
{
    let (name, rest) = bytes.split_at(part_len(bytes));
    if starts_ascii(bytes) && starts_low(rest) {
        Some((name, rest))
    } else {
        None
    }
}

// A Name, and the rest.
#[inline]
#[tactic(auto, unfolding(crate::specs::Reading::name_at))]
pub fn name(bytes: &[u8]) -> Option<(&[u8], &[u8])>
    requires { IsUtf8 bytes.now }
    ensures { Gives (λ x. (x.0.now, x.1.now)) result (name_at bytes.now) }
{
    match plain_name(bytes) {
        Some(plain) => Some(plain),
        None => any_name(bytes),
    }
}

// A Name of any characters, and the rest.
#[inline(never)]
#[tactic(auto, unfolding(crate::specs::Reading::name_at))]
fn any_name(bytes: &[u8]) -> Option<(&[u8], &[u8])>
    requires { IsUtf8 bytes.now }
    ensures { Gives (λ x. (x.0.now, x.1.now)) result (name_at bytes.now) }
{
    let (name, rest) = bytes.split_at(name_len(bytes));
    if is_name(name) {
        Some((name, rest))
    } else {
        None
    }
}

// Whether the bytes are empty or begin with white space.
pub fn is_apart(bytes: &[u8]) -> bool
    ensures { result ≡ pieces.is_apart bytes.now }
{
    match bytes {
        [] => true,
        [first, ..] => is_white_space(*first),
    }
}
