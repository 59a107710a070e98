//! Texts in which line ends, white space and references are replaced.
ghost use Rattle.std.specs.Prelude.{◌≡◌, ◌≢◌, ◌≤◌, ◌++◌, ◌∷◌, [], ◌||◌, ◌&&◌, ◌==◌, IfOk, IsUtf8, true, false, length, not, encode_utf8};
ghost use Rattle.std.specs.List.{prefix_len, list_any, list_all};
ghost use Rattle.xml_pieces.specs.Pieces as pieces;
ghost use Rattle.xml_pieces.specs.Pieces.{line_ends, spaced_ends, Exact};
ghost use Rattle.xml_pieces.specs.Reading as reading;
ghost use Rattle.xml_pieces.specs.Reading.{Gives, value_of, mention_at};
ghost use Rattle.xml_pieces.specs.Found.{bytes_of};

use crate::found::Value;
use crate::reference::reference;
use crate::text::{is_text, len_before, strip};
use base_texts::Memory;
use std::alloc::Global;

// The number of bytes before the first CR.
fn line_len(bytes: &[u8]) -> usize
    ensures value { result ≡ prefix_len (λ b. not (b == 0xD)) bytes.now }
    ensures within { result ≤ length bytes.now }
{
    len_before(b'\r', bytes)
}

fn append(text: &mut Vec<u8>, bytes: &[u8]) -> Result<(), Memory>
    ensures { IfOk result (λ _. text.new.items ≡ text.old.items ++ bytes.now) }
{
    text.extend_from_slice(bytes)?;
    Ok(())
}

// Whether the first byte is LF.
fn starts_line(bytes: &[u8]) -> bool
    ensures { result ≡ pieces.starts (0xA ∷ []) bytes.now }
{
    matches!(bytes, [b'\n', ..])
}

// Appends the bytes with each line end as LF.
fn append_line_ends(text: &mut Vec<u8>, bytes: &[u8]) -> Result<(), Memory>
    ensures { IfOk result (λ _. text.new.items ≡ text.old.items ++ line_ends bytes.now) }
{
    let mut rest = bytes;
    'lines: loop {
        let (line, behind) = rest.split_at(line_len(rest));
        append(text, line)?;
        let Some((_, after)) = behind.split_first() else {
            return Ok(());
        };
        if !starts_line(after) {
            append(text, b"\n")?;
        }
        rest = after;
    }
}

/// Returns the bytes with each line end as LF (XML 1.0, section 2.11).
pub fn with_line_ends<'a>(alloc: Global, bytes: &'a [u8]) -> Result<Value<'a>, Memory>
    ensures { IfOk result (λ value. bytes_of value ≡ line_ends bytes.now) }
{
    if line_len(bytes) == bytes.len() {
        return Ok(Value::Borrowed(bytes));
    }
    let mut text = Vec::new(alloc);
    append_line_ends(&mut text, bytes)?;
    Ok(Value::Owned(text))
}

// Whether the byte is the CR of a CR LF.
fn is_line_start(byte: u8, after: &[u8]) -> bool
    ensures { result ≡ byte == 0xD && pieces.starts (0xA ∷ []) after.now }
{
    byte == b'\r' && starts_line(after)
}

// The number of bytes before the first that a value changes.
fn kept_len(bytes: &[u8]) -> usize
    ensures value { result ≡ prefix_len (λ b. not (b == 0x9 || b == 0xA || b == 0xD)) bytes.now }
    ensures within { result ≤ length bytes.now }
{
    bytes
        .iter()
        .take_while(|b| !matches!(**b, b'\t' | b'\n' | b'\r'))
        .count()
}

// Appends the bytes with a space for each line end and each tab.
fn append_spaced(value: &mut Vec<u8>, bytes: &[u8]) -> Result<(), Memory>
    ensures { IfOk result (λ _. value.new.items ≡ value.old.items ++ spaced_ends bytes.now) }
{
    let mut rest = bytes;
    'lines: loop {
        let (kept, behind) = rest.split_at(kept_len(rest));
        append(value, kept)?;
        let Some((byte, after)) = behind.split_first() else {
            return Ok(());
        };
        if !is_line_start(*byte, after) {
            append(value, b" ")?;
        }
        rest = after;
    }
}

fn append_char(value: &mut Vec<u8>, c: char) -> Result<(), Memory>
    ensures { IfOk result (λ _. value.new.items ≡ value.old.items ++ encode_utf8 c) }
{
    let mut bytes = [0; 4];
    append(value, c.encode_utf8(&mut bytes).as_bytes())
}

// The character of a reference at the start, the run of other characters after it, and the rest.
#[tactic(auto, unfolding(crate::specs::Reading::mention_at))]
fn mention(bytes: &[u8]) -> Option<(char, &[u8], &[u8])>
    ensures { Gives (λ x. (encode_utf8 x.0 ++ spaced_ends x.1.now, x.2.now)) result (mention_at bytes.now) }
{
    let inner = strip(b"&", bytes)?;
    let (c, rest) = reference(inner)?;
    let (run, rest) = rest.split_at(len_before(b'&', rest));
    Some((c, run, rest))
}

// The value with its references replaced.
fn replaced(alloc: Global, written: &[u8]) -> Result<Option<Vec<u8>>, Memory>
    ensures { IfOk result (λ o. Gives (λ x. x.items) o (reading.replaced written.now)) }
{
    let mut value = Vec::new(alloc);
    let (first, mut rest) = written.split_at(len_before(b'&', written));
    append_spaced(&mut value, first)?;
    'mentions: while let Some((c, run, behind)) = mention(rest) {
        append_char(&mut value, c)?;
        append_spaced(&mut value, run)?;
        rest = behind;
    }
    Ok(if rest.is_empty() { Some(value) } else { None })
}

// Whether the text of a value is its value.
fn is_kept(written: &[u8]) -> bool
    ensures { result ≡ list_all (λ b. not (b == 0x26 || b == 0x9 || b == 0xA || b == 0xD)) written.now }
{
    written
        .iter()
        .all(|b| !matches!(*b, b'&' | b'\t' | b'\n' | b'\r'))
}

/// Returns whether the text would be a valid attribute value if each `&` were a plain character.
pub fn is_loose_value(written: &[u8]) -> bool
    requires { IsUtf8 written.now }
    ensures { result ≡ reading.is_loose written.now }
{
    is_text(written) && !written.contains(&b'<')
}

/// Returns the value of an attribute from the text between its quotes.
#[tactic(auto, unfolding(crate::specs::Reading::value_of))]
pub fn value<'a>(alloc: Global, written: &'a [u8]) -> Result<Option<Value<'a>>, Memory>
    requires { IsUtf8 written.now }
    ensures { IfOk result (λ o. Gives bytes_of o (value_of Exact written.now)) }
{
    if !is_loose_value(written) {
        return Ok(None);
    }
    if is_kept(written) {
        return Ok(Some(Value::Borrowed(written)));
    }
    let Some(value) = replaced(alloc, written)? else {
        return Ok(None);
    };
    Ok(Some(Value::Owned(value)))
}
