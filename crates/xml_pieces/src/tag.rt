//! Tags.
ghost use Rattle.std.specs.Prelude.{◌≡◌, IfOk, IsUtf8, map, length, is_some, codes};
ghost use Rattle.xml_pieces.specs.Pieces.{Exact, Loose, behind};
ghost use Rattle.xml_pieces.specs.Reading as reading;
ghost use Rattle.xml_pieces.specs.Reading.{Gives, many, past_blank, written_at, attribute_at, shut_at, tag_at, end_at};
ghost use Rattle.xml_pieces.specs.Found.{attribute_of, seen};

use crate::found::{Attribute, Element, Found};
use crate::text::{equals, name, quoted, skip_blank, space, strip};
use crate::value::{is_loose_value, value};
use base_texts::Memory;
use std::alloc::Global;

// White space, a Name, `=` and a text in quotes. The results are the name, the text, and the rest.
#[inline(always)]
#[tactic(auto, unfolding(crate::specs::Reading::written_at))]
pub fn written(bytes: &[u8]) -> Option<(&[u8], &[u8], &[u8])>
    requires { IsUtf8 bytes.now }
    ensures { Gives (λ x. (x.0.now, x.1.now, x.2.now)) result (written_at bytes.now) }
{
    let spaced = space(bytes)?;
    let (name, rest) = name(spaced)?;
    let inner = equals(rest)?;
    let (written, rest) = quoted(inner)?;
    Some((name, written, rest))
}

#[tactic(auto, unfolding(crate::specs::Reading::attribute_at))]
fn attribute<'a>(
    alloc: Global,
    bytes: &'a [u8],
) -> Result<Option<(Attribute<'a>, &'a [u8])>, Memory>
    requires { IsUtf8 bytes.now }
    ensures { IfOk result (λ o. Gives (λ x. (attribute_of x.0, x.1.now)) o (attribute_at Exact bytes.now)) }
{
    let Some((name, written, rest)) = written(bytes) else {
        return Ok(None);
    };
    let Some(value) = value(alloc, written)? else {
        return Ok(None);
    };
    Ok(Some((Attribute { name, value }, rest)))
}

// All attributes at the start, and the rest.
fn attributes<'a>(alloc: Global, bytes: &'a [u8]) -> Result<(Vec<Attribute<'a>>, &'a [u8]), Memory>
    requires { IsUtf8 bytes.now }
    ensures { IfOk result (λ x. many (attribute_at Exact) (length bytes.now) bytes.now ≡ (map attribute_of x.0.items, x.1.now)) }
{
    let mut list = Vec::new(alloc);
    let mut rest = bytes;
    'all: while let Some((attribute, behind)) = attribute(alloc, rest)? {
        list.push(attribute)?;
        rest = behind;
    }
    Ok((list, rest))
}

// The rest after a `>` at the start.
#[inline(always)]
fn past_end(bytes: &[u8]) -> Option<&[u8]>
    ensures { Gives (λ x. x.now) result (behind (codes ">") bytes.now) }
{
    let (first, rest) = bytes.split_first()?;
    if *first == b'>' { Some(rest) } else { None }
}

// The rest after a `>` with optional white space before it. Mostly there is none.
#[inline(always)]
fn past_spaced_end(bytes: &[u8]) -> Option<&[u8]>
    ensures { Gives (λ x. x.now) result (behind (codes ">") (past_blank bytes.now)) }
{
    match past_end(bytes) {
        Some(rest) => Some(rest),
        None => past_end(skip_blank(bytes)),
    }
}

// The start tag or empty tag with this Name, from the bytes after the Name, and the rest.
#[inline(never)]
#[tactic(auto, unfolding(crate::specs::Reading::shut_at))]
fn tag_of<'a>(
    alloc: Global,
    name: &'a [u8],
    bytes: &'a [u8],
) -> Result<Option<(Found<'a>, &'a [u8])>, Memory>
    requires { IsUtf8 bytes.now }
    ensures { IfOk result (λ o. Gives (λ x. (seen x.0, x.1.now)) o
        (let r = many (attribute_at Exact) (length bytes.now) bytes.now in shut_at (reading.tag_of name.now r.0) (past_blank r.1))) }
{
    let (attributes, rest) = attributes(alloc, bytes)?;
    let element = Element { name, attributes };
    let rest = skip_blank(rest);
    if let Some(rest) = past_end(rest) {
        return Ok(Some((Found::Start(element), rest)));
    }
    if let Some(rest) = strip(b"/>", rest) {
        return Ok(Some((Found::Empty(element), rest)));
    }
    Ok(None)
}

/// Returns the start tag or empty tag at the start, after its `<`, and the rest. Most are start tags without attributes.
#[tactic(auto, unfolding(crate::specs::Reading::tag_at))]
pub fn tag<'a>(alloc: Global, bytes: &'a [u8]) -> Result<Option<(Found<'a>, &'a [u8])>, Memory>
    requires { IsUtf8 bytes.now }
    ensures { IfOk result (λ o. Gives (λ x. (seen x.0, x.1.now)) o (tag_at Exact bytes.now)) }
{
    let Some((name, rest)) = name(bytes) else {
        return Ok(None);
    };
    match past_end(rest) {
        Some(behind) => {
            let attributes = Vec::new(alloc);
            Ok(Some((Found::Start(Element { name, attributes }), behind)))
        }
        None => tag_of(alloc, name, rest),
    }
}

/// Returns the end tag at the start, after its `</`, and the rest.
#[tactic(auto, unfolding(crate::specs::Reading::end_at))]
pub fn end_tag(bytes: &[u8]) -> Option<(Found<'_>, &[u8])>
    requires { IsUtf8 bytes.now }
    ensures { Gives (λ x. (seen x.0, x.1.now)) result (end_at bytes.now) }
{
    let (name, rest) = name(bytes)?;
    let rest = past_spaced_end(rest)?;
    Some((Found::End(name), rest))
}
