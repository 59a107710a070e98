//! The reason why no piece begins at a place, and runs of characters that need no test.
ghost use Rattle.std.specs.Prelude.{◌≡◌, ◌≤◌, IsUtf8, length, take, drop, is_some, option_map};
ghost use Rattle.std.specs.List.{prefix_len};
ghost use Rattle.xml_pieces.specs.Pieces.{Loose};
ghost use Rattle.xml_pieces.specs.Reading.{Gives, many, attribute_at, tag_at};
ghost use Rattle.xml_pieces.specs.Reasons as reasons;
ghost use Rattle.xml_pieces.specs.Reasons.{IsPlainRun};

use crate::markup::{declared, has_encoding, is_version};
use crate::tag::written;
use crate::text::{name, skip_blank, strip};
use crate::value::is_loose_value;

/// The reasons why no piece begins. The first that holds is reported.
#[derive(Clone, Copy, Debug, PartialEq, Eq)]
pub enum NoneWhy {
    /// A document type declaration begins here.
    Doctype,
    /// The document begins with a declaration whose version isn't `1.0`.
    Version,
    /// The document begins with a declaration whose encoding is neither `UTF-8` nor `US-ASCII`, in any case.
    Encoding,
    /// A `&` begins no reference, here or in the tag that begins here.
    BadReference,
    /// No piece begins here, for none of these reasons.
    NoPiece,
}

#[tactic(auto, unfolding(crate::specs::Reading::attribute_at, crate::specs::Reading::value_of))]
fn past_loose_attribute(bytes: &[u8]) -> Option<&[u8]>
    requires { IsUtf8 bytes.now }
    ensures { Gives (λ x. x.now) result (option_map (λ x. x.1) (attribute_at Loose bytes.now)) }
{
    let (_, written, rest) = written(bytes)?;
    if is_loose_value(written) {
        Some(rest)
    } else {
        None
    }
}

fn past_loose_attributes(bytes: &[u8]) -> &[u8]
    requires { IsUtf8 bytes.now }
    ensures { result.now ≡ (many (attribute_at Loose) (length bytes.now) bytes.now).1 }
{
    let mut rest = bytes;
    'all: while let Some(behind) = past_loose_attribute(rest) {
        rest = behind;
    }
    rest
}

// Whether a tag follows, after its `<`, if each `&` within its values is read as a plain character.
#[tactic(auto, unfolding(crate::specs::Reading::tag_at, crate::specs::Reading::shut_at))]
fn is_loose_tag(bytes: &[u8]) -> bool
    requires { IsUtf8 bytes.now }
    ensures { result ≡ is_some (tag_at Loose bytes.now) }
{
    let Some((_, rest)) = name(bytes) else {
        return false;
    };
    let rest = skip_blank(past_loose_attributes(rest));
    strip(b">", rest).is_some() || strip(b"/>", rest).is_some()
}

#[tactic(auto, unfolding(crate::specs::Reasons::reference_why))]
fn reference_why(bytes: &[u8]) -> NoneWhy
    requires { IsUtf8 bytes.now }
    ensures { result ≡ reasons.reference_why bytes.now }
{
    if strip(b"&", bytes).is_some() {
        return NoneWhy::BadReference;
    }
    if let Some(rest) = strip(b"<", bytes)
        && is_loose_tag(rest)
    {
        return NoneWhy::BadReference;
    }
    NoneWhy::NoPiece
}

#[tactic(auto, unfolding(crate::specs::Reasons::declared_why))]
fn declared_why(is_first: bool, bytes: &[u8]) -> NoneWhy
    requires { IsUtf8 bytes.now }
    ensures { result ≡ reasons.declared_why is_first bytes.now }
{
    if !is_first {
        return reference_why(bytes);
    }
    let Some(rest) = strip(b"<?xml", bytes) else {
        return reference_why(bytes);
    };
    let Some((version, encoding, _)) = declared(rest) else {
        return reference_why(bytes);
    };
    if !is_version(version) {
        return NoneWhy::Version;
    }
    if !has_encoding(encoding) {
        return NoneWhy::Encoding;
    }
    reference_why(bytes)
}

#[tactic(auto, unfolding(crate::specs::Reasons::why_at))]
fn why_at(is_first: bool, bytes: &[u8]) -> NoneWhy
    requires { IsUtf8 bytes.now }
    ensures { result ≡ reasons.why_at is_first bytes.now }
{
    if strip(b"<!DOCTYPE", bytes).is_some() {
        return NoneWhy::Doctype;
    }
    declared_why(is_first, bytes)
}

/// Returns why no piece begins at the start of the text, where none does. `is_first` holds at the very first place of the
/// document. Allocates nothing, and takes time linear in the length of the text.
pub fn why_none(bytes: &[u8], is_first: bool) -> NoneWhy
    requires { IsUtf8 bytes.now }
    ensures { reasons.NoneReason is_first bytes.now result }
{
    why_at(is_first, bytes)
}

#[tactic(auto, unfolding(crate::specs::Reasons::is_plain_byte))]
fn is_plain_byte(b: u8) -> bool
    ensures { result ≡ reasons.is_plain_byte b }
{
    matches!(b, b'\t' | b'\n' | b' '..=b'%' | b'\''..=b';' | b'=' | b'?'..=b'\\' | b'^'..=0xEE | 0xF0..)
}

/// Returns the number of bytes of the run of plain characters at the start: each is a piece by itself, and none is `<`, `&`, `>`,
/// `]` or a carriage return. The run ends before each character from U+F000 to U+FFFF, and is otherwise the longest.
pub fn plain_run(bytes: &[u8]) -> usize
    requires { IsUtf8 bytes.now }
    ensures longest { result ≡ prefix_len reasons.is_plain_byte bytes.now }
    ensures within { result ≤ length bytes.now }
    ensures run { IsPlainRun (take result bytes.now) }
    ensures rest { IsUtf8 (drop result bytes.now) }
{
    plain_len(bytes)
}

fn plain_len(bytes: &[u8]) -> usize
    ensures value { result ≡ prefix_len reasons.is_plain_byte bytes.now }
    ensures within { result ≤ length bytes.now }
{
    bytes.iter().take_while(|b| is_plain_byte(**b)).count()
}
