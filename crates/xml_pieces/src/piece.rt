//! The piece at the start of a text.
ghost use Rattle.std.specs.Prelude.{◌≡◌, Some, IfOk, IsUtf8, MatchOption, length};
ghost use Rattle.xml_pieces.specs.Pieces.{Exact, Begins, NoPieceAt};
ghost use Rattle.xml_pieces.specs.Reading as reading;
ghost use Rattle.xml_pieces.specs.Reading.{Gives, char_at, line_end_at, character_at, markup_at, piece_at, tag_at, cdata_at};
ghost use Rattle.xml_pieces.specs.Found.{seen};

use crate::found::Found;
use crate::markup::{cdata, comment, question};
use crate::reference::reference;
use crate::tag::{end_tag, tag};
use crate::text::strip;
use base_texts::{Memory, is_xml_char, utf8_text};
use std::alloc::Global;

// The first character, and the rest.
#[tactic(auto, unfolding(crate::specs::Reading::char_at))]
fn first_char(bytes: &[u8]) -> Option<(char, &[u8])>
    requires { IsUtf8 bytes.now }
    ensures { Gives (λ x. (x.0, x.1.now)) result (char_at bytes.now) }
{
    let mut chars = utf8_text(bytes).chars();
    let c = chars.next()?;
    Some((c, chars.as_str().as_bytes()))
}

// A line end that begins with CR, after the CR, and the rest.
#[tactic(auto, unfolding(crate::specs::Reading::line_end_at))]
fn line_end(rest: &[u8]) -> (Found<'_>, &[u8])
    ensures { line_end_at rest.now ≡ Some (seen result.0, result.1.now) }
{
    match strip(b"\n", rest) {
        Some(behind) => (Found::Character('\n'), behind),
        None => (Found::Character('\n'), rest),
    }
}

// The character at the start, and the rest.
#[tactic(auto, unfolding(crate::specs::Reading::character_at))]
fn character(bytes: &[u8]) -> Option<(Found<'_>, &[u8])>
    requires { IsUtf8 bytes.now }
    ensures { Gives (λ x. (seen x.0, x.1.now)) result (character_at bytes.now) }
{
    if let Some(rest) = strip(b"\r", bytes) {
        return Some(line_end(rest));
    }
    let (c, rest) = first_char(bytes)?;
    if is_xml_char(c) {
        Some((Found::Character(c), rest))
    } else {
        None
    }
}

// Whether a comment, a CDATA section, an instruction or a declaration may follow, after its `<`.
fn is_marked(bytes: &[u8]) -> bool
    ensures { result ≡ reading.is_marked bytes.now }
{
    matches!(bytes, [b'!' | b'?', ..])
}

// The piece at the start, after its `<`, and the rest. Most are tags.
fn markup<'a>(alloc: Global, bytes: &'a [u8]) -> Result<Option<(Found<'a>, &'a [u8])>, Memory>
    requires { IsUtf8 bytes.now }
    ensures { IfOk result (λ o. Gives (λ x. (seen x.0, x.1.now)) o (markup_at bytes.now)) }
{
    if let Some(rest) = strip(b"/", bytes) {
        return Ok(end_tag(rest));
    }
    if is_marked(bytes) {
        return marked(alloc, bytes);
    }
    tag(alloc, bytes)
}

// The piece at the start, after its `<`, where it is probably not a tag, and the rest.
#[inline(never)]
#[tactic(auto, unfolding(crate::specs::Reading::markup_at))]
fn marked<'a>(alloc: Global, bytes: &'a [u8]) -> Result<Option<(Found<'a>, &'a [u8])>, Memory>
    requires { IsUtf8 bytes.now }
    ensures { IfOk result (λ o. Gives (λ x. (seen x.0, x.1.now)) o (markup_at bytes.now)) }
{
    if let Some(rest) = strip(b"!--", bytes) {
        return Ok(comment(rest));
    }
    if let Some(rest) = strip(b"![CDATA[", bytes) {
        return cdata(alloc, rest);
    }
    if let Some(rest) = strip(b"?", bytes) {
        return Ok(question(rest));
    }
    if let Some(rest) = strip(b"/", bytes) {
        return Ok(end_tag(rest));
    }
    tag(alloc, bytes)
}

// The piece at the start of the text, and the rest.
#[tactic(auto, unfolding(crate::specs::Reading::piece_at))]
fn first_piece<'a>(alloc: Global, bytes: &'a [u8]) -> Result<Option<(Found<'a>, &'a [u8])>, Memory>
    requires { IsUtf8 bytes.now }
    ensures { IfOk result (λ o. Gives (λ x. (seen x.0, x.1.now)) o (piece_at bytes.now)) }
{
    if let Some(rest) = strip(b"<", bytes) {
        return markup(alloc, rest);
    }
    if let Some(rest) = strip(b"&", bytes) {
        let Some((c, behind)) = reference(rest) else {
            return Ok(None);
        };
        return Ok(Some((Found::Reference(c), behind)));
    }
    Ok(character(bytes))
}

/// Returns the piece at the start of the text, by the grammar of XML 1.0, and the rest, or `None` if no piece begins. Takes time
/// linear in the length of the piece, or in the length of the text if there is none.
pub fn read_piece<'a>(
    alloc: Global,
    bytes: &'a [u8],
) -> Result<Option<(Found<'a>, &'a [u8])>, Memory>
    requires { IsUtf8 bytes.now }
    ensures { IfOk result (λ o. MatchOption o (NoPieceAt bytes.now) (λ x. Begins (seen x.0) bytes.now x.1.now)) }
{
    first_piece(alloc, bytes)
}
