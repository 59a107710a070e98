//! Elements that have only a text.
ghost use Rattle.std.specs.Prelude.{◌≡◌, ◌≤◌, ◌<◌, ◌+◌, ◌++◌, ◌∷◌, [], length, OnOk};
ghost use Rattle.std.specs.Bool.{OnTrue};
ghost use Rattle.std.specs.List.{flat_map};
ghost use Rattle.xml_write.specs.Written.{text_escape};
ghost use Rattle.xml_write.specs.Private.Binding.{qualifier_text};
ghost use Rattle.xml_write.specs.Private.Elements.{HasRoom, Puts, element_text, written_words};

use crate::prefixes::Qualifier;
use crate::writing::{CharacterPlace, split_plain, write_escaped};
use std::alloc::{AllocError, Global};
use std::mem;

// The greatest length in bytes of a name and of a text that are written byte by byte. A call that copies takes as long as about
// ten single bytes.
const FEW: usize = 32;

// Appends at most three bytes for which there is room.
#[inline(always)]
fn put_last(out: &mut Vec<u8>, bytes: &[u8])
    requires few { length bytes.now ≤ 3 }
    requires room { HasRoom out.old (length bytes.now) }
    ensures { Puts out.old out.new bytes.now }
{
    match bytes {
        [first, second, third] => {
            let (first, second, third) = (*first, *second, *third);
            out.push_reserved(first);
            out.push_reserved(second);
            out.push_reserved(third);
        }
        [first, second] => {
            let (first, second) = (*first, *second);
            out.push_reserved(first);
            out.push_reserved(second);
        }
        [first] => out.push_reserved(*first),
        _ => {}
    }
}

// Appends four bytes for which there is room.
#[inline(always)]
fn put_four(out: &mut Vec<u8>, first: u8, second: u8, third: u8, fourth: u8)
    requires { HasRoom out.old 4 }
    ensures { Puts out.old out.new (first ∷ second ∷ third ∷ fourth ∷ []) }
{
    out.push_reserved(first);
    out.push_reserved(second);
    out.push_reserved(third);
    out.push_reserved(fourth);
}

// Appends bytes for which there is room, four at a time.
#[inline(always)]
fn put_all(out: &mut Vec<u8>, bytes: &[u8])
    requires { HasRoom out.old (length bytes.now) }
    ensures { Puts out.old out.new bytes.now }
{
    let mut rest = bytes;
    'fours: while let [first, second, third, fourth, behind @ ..] = rest {
        put_four(out, *first, *second, *third, *fourth);
        rest = behind;
    }
    put_last(out, rest);
}

// Reserves room for `count` bytes, unless there is enough.
#[inline(always)]
fn make_room(out: &mut Vec<u8>, count: usize) -> Result<(), AllocError>
    ensures items { OnOk result (out.new.items ≡ out.old.items) }
    ensures room { OnOk result (HasRoom out.new count) }
{
    if count <= out.capacity() - out.len() {
        return Ok(());
    }
    out.reserve(count)
}

// A name whose prefix is `n` with one digit.
#[derive(Clone, Copy)]
struct DigitName<'t> {
    digit: u8,
    local: &'t [u8],
}

// Appends a start tag of this name, without its end.
#[inline(always)]
fn put_start(out: &mut Vec<u8>, name: DigitName<'_>)
    requires { HasRoom out.old (4 + length name.local.now) }
    ensures { Puts out.old out.new (60 ∷ 110 ∷ name.entry.digit ∷ 58 ∷ name.entry.local.now) }
{
    out.push_reserved(b'<');
    out.push_reserved(b'n');
    out.push_reserved(name.digit);
    out.push_reserved(b':');
    put_all(out, name.local);
}

// Appends an end tag of this name.
#[inline(always)]
fn put_end(out: &mut Vec<u8>, name: DigitName<'_>)
    requires { HasRoom out.old (6 + length name.local.now) }
    ensures { Puts out.old out.new (60 ∷ 47 ∷ (110 ∷ name.entry.digit ∷ 58 ∷ name.entry.local.now) ++ 62 ∷ []) }
{
    out.push_reserved(b'<');
    out.push_reserved(b'/');
    out.push_reserved(b'n');
    out.push_reserved(name.digit);
    out.push_reserved(b':');
    put_all(out, name.local);
    out.push_reserved(b'>');
}

// Appends an element of this name. The text is written without escapes.
#[inline(always)]
fn put_element(out: &mut Vec<u8>, name: DigitName<'_>, text: &[u8])
    requires { HasRoom out.old (11 + length name.local.now + length name.local.now + length text.now) }
    ensures { Puts out.old out.new (element_text (110 ∷ name.entry.digit ∷ 58 ∷ name.entry.local.now) text.now) }
{
    put_start(out, name);
    out.push_reserved(b'>');
    put_all(out, text);
    put_end(out, name);
}

// Appends a byte.
#[inline(always)]
pub(crate) fn write_byte(out: &mut Vec<u8>, byte: u8) -> Result<(), AllocError>
    ensures { OnOk result (out.new.items ≡ out.old.items ++ byte ∷ []) }
{
    make_room(out, 1)?;
    out.push_reserved(byte);
    Ok(())
}

// Reserves room for a start tag of this name without its end, and appends it. The list is moved to a local variable meanwhile, so
// that its length isn't stored for each byte.
#[inline(always)]
fn write_few_start(alloc: Global, out: &mut Vec<u8>, name: DigitName<'_>) -> Result<(), AllocError>
    requires { length name.local.now ≤ 32 }
    ensures { OnOk result (out.new.items ≡ out.old.items ++ 60 ∷ 110 ∷ name.entry.digit ∷ 58 ∷ name.entry.local.now) }
{
    make_room(out, 4 + name.local.len())?;
    let mut told = mem::replace(out, Vec::new(alloc));
    put_start(&mut told, name);
    *out = told;
    Ok(())
}

// Reserves room for an end tag of this name, and appends it.
#[inline(always)]
fn write_few_end(alloc: Global, out: &mut Vec<u8>, name: DigitName<'_>) -> Result<(), AllocError>
    requires { length name.local.now ≤ 32 }
    ensures { OnOk result (out.new.items ≡ out.old.items ++ 60 ∷ 47 ∷ (110 ∷ name.entry.digit ∷ 58 ∷ name.entry.local.now) ++ 62 ∷ []) }
{
    make_room(out, 6 + name.local.len())?;
    let mut told = mem::replace(out, Vec::new(alloc));
    put_end(&mut told, name);
    *out = told;
    Ok(())
}

// Reserves room for an element of this name, and appends it. The text is written without escapes.
#[inline(always)]
fn write_few(
    alloc: Global,
    out: &mut Vec<u8>,
    name: DigitName<'_>,
    text: &[u8],
) -> Result<(), AllocError>
    requires local { length name.local.now ≤ 32 }
    requires text { length text.now ≤ 32 }
    ensures { OnOk result (out.new.items ≡ out.old.items ++ element_text (110 ∷ name.entry.digit ∷ 58 ∷ name.entry.local.now) text.now) }
{
    make_room(out, 11 + name.local.len() + name.local.len() + text.len())?;
    let mut told = mem::replace(out, Vec::new(alloc));
    put_element(&mut told, name, text);
    *out = told;
    Ok(())
}

// Whether a text has few bytes, at least one, and each needs no escape in an element.
#[inline(always)]
fn needs_no_escape(text: &[u8]) -> bool
    ensures some { OnTrue result (0 < length text.now) }
    ensures few { OnTrue result (length text.now ≤ 32) }
    ensures plain { OnTrue result (flat_map text_escape text.now ≡ text.now) }
{
    if text.is_empty() || text.len() > FEW {
        return false;
    }
    let (_, other) = split_plain(CharacterPlace::Content, text);
    other.is_empty()
}

// An element of this name without attributes that has only a text, or no content if the text is empty.
fn write_any(
    out: &mut Vec<u8>,
    qualifier: Qualifier,
    local: &[u8],
    text: &[u8],
) -> Result<(), AllocError>
    ensures { OnOk result (out.new.items ≡ out.old.items ++ written_words (qualifier_text qualifier ++ local.now) text.now) }
{
    qualifier.write_start(out)?;
    out.extend_from_slice(local)?;
    if text.is_empty() {
        return out.extend_from_slice(b"/>");
    }
    out.push(b'>')?;
    write_escaped(out, CharacterPlace::Content, text)?;
    qualifier.write_end(out)?;
    out.extend_from_slice(local)?;
    out.push(b'>')?;
    Ok(())
}

/// Appends an element of this name without attributes that has only a text, or no content if the text is empty. A short one, as
/// most are, is written byte by byte.
#[inline(always)]
pub(crate) fn write_text_element(
    alloc: Global,
    out: &mut Vec<u8>,
    qualifier: Qualifier,
    local: &[u8],
    text: &[u8],
) -> Result<(), AllocError>
    ensures { OnOk result (out.new.items ≡ out.old.items ++ written_words (qualifier_text qualifier ++ local.now) text.now) }
{
    if let Some(digit) = qualifier.digit() {
        if local.len() <= FEW && needs_no_escape(text) {
            return write_few(alloc, out, DigitName { digit, local }, text);
        }
    }
    write_any(out, qualifier, local, text)
}

/// Appends a start tag of this name without its end.
#[inline(always)]
pub(crate) fn write_start_tag(
    alloc: Global,
    out: &mut Vec<u8>,
    qualifier: Qualifier,
    local: &[u8],
) -> Result<(), AllocError>
    ensures { OnOk result (out.new.items ≡ out.old.items ++ 60 ∷ (qualifier_text qualifier ++ local.now)) }
{
    if let Some(digit) = qualifier.digit() {
        if local.len() <= FEW {
            return write_few_start(alloc, out, DigitName { digit, local });
        }
    }
    qualifier.write_start(out)?;
    out.extend_from_slice(local)
}

/// Appends an end tag of this name.
#[inline(always)]
pub(crate) fn write_end_tag(
    alloc: Global,
    out: &mut Vec<u8>,
    qualifier: Qualifier,
    local: &[u8],
) -> Result<(), AllocError>
    ensures { OnOk result (out.new.items ≡ out.old.items ++ 60 ∷ 47 ∷ (qualifier_text qualifier ++ local.now) ++ 62 ∷ []) }
{
    if let Some(digit) = qualifier.digit() {
        if local.len() <= FEW {
            return write_few_end(alloc, out, DigitName { digit, local });
        }
    }
    qualifier.write_end(out)?;
    out.extend_from_slice(local)?;
    out.push(b'>')?;
    Ok(())
}
