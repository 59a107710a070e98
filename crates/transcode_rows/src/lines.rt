//! The lines that a text is written in.
use crate::error::LineError;
use crate::row::{NamedText, find_text};
use std::alloc::Global;

/// The bytes that a line of a text denotes.
#[derive(Drop)]
pub struct Piece {
    pub bytes: Vec<u8>,
    /// The place of a `^` in the line. The character itself is dropped.
    pub mark: Option<usize>,
}

/// Returns what a line denotes, or None where it is no line of a text.
pub fn piece_of_line(
    alloc: Global,
    texts: &[NamedText<'_>],
    line: &str,
) -> Result<Option<Piece>, LineError> {
    if let Some(piece) = written(alloc, line)? {
        return Ok(Some(piece));
    }
    match other_bytes(alloc, texts, line)? {
        Some(bytes) => Ok(Some(Piece { bytes, mark: None })),
        None => Ok(None),
    }
}

// `> TEXT` denotes the text, `| TEXT` the text and a line feed.
fn written(alloc: Global, line: &str) -> Result<Option<Piece>, LineError> {
    if let Some(text) = line.strip_prefix('>') {
        return Ok(Some(marked(alloc, behind_space(text))?));
    }
    if let Some(text) = line.strip_prefix('|') {
        let mut piece = marked(alloc, behind_space(text))?;
        piece.bytes.push(b'\n')?;
        return Ok(Some(piece));
    }
    Ok(None)
}

// `= 0D 0A` stands for octets, `copy NAME` for the text of that name, `copies 1000 NAME` for so many of it,
// `repeat 101 400 > TEXT` for the text with each of these numbers in place of its `@`, `nest 1 9 | TEXT` for lines with the
// text, indented by so many levels.
fn other_bytes(
    alloc: Global,
    texts: &[NamedText<'_>],
    line: &str,
) -> Result<Option<Vec<u8>>, LineError> {
    if let Some(digits) = line.strip_prefix('=') {
        return Ok(Some(octets(alloc, digits)?));
    }
    if let Some(name) = line.strip_prefix("copy ") {
        let contents = find_text(texts, name).ok_or(LineError::NoText)?;
        return Ok(Some(contents.to_vec(alloc)?));
    }
    if let Some(rest) = line.strip_prefix("copies ") {
        return Ok(Some(copies(alloc, texts, rest)?));
    }
    if let Some(rest) = line.strip_prefix("repeat ") {
        return Ok(Some(repeated(alloc, rest)?));
    }
    if let Some(rest) = line.strip_prefix("nest ") {
        return Ok(Some(nested(alloc, rest)?));
    }
    Ok(None)
}

/// A text without the first `^` in it.
pub fn marked(alloc: Global, text: &str) -> Result<Piece, LineError> {
    let Some((front, back)) = text.split_once('^') else {
        return Ok(Piece {
            bytes: text.as_bytes().to_vec(alloc)?,
            mark: None,
        });
    };
    let mut bytes = front.as_bytes().to_vec(alloc)?;
    bytes.extend_from_slice(back.as_bytes())?;
    Ok(Piece {
        bytes,
        mark: Some(front.len()),
    })
}

// The text behind the one space that stands between it and its mark.
fn behind_space(text: &str) -> &str {
    text.strip_prefix(' ').unwrap_or(text)
}

// Octets in hexadecimal.
fn octets(alloc: Global, digits: &str) -> Result<Vec<u8>, LineError> {
    let mut bytes = Vec::new(alloc);
    for word in digits.split_whitespace() {
        let Ok(more) = hex::decode(alloc, word) else {
            return Err(LineError::NoOctets);
        };
        bytes.extend_from_slice(&more)?;
    }
    Ok(bytes)
}

// `1000 NAME` stands for the text of that name, so many times.
fn copies(alloc: Global, texts: &[NamedText<'_>], rest: &str) -> Result<Vec<u8>, LineError> {
    let (times, name) = rest.split_once(' ').ok_or(LineError::Unknown)?;
    let contents = find_text(texts, name).ok_or(LineError::NoText)?;
    Ok(contents.repeat(alloc, times.parse()?)?)
}

// What stands once for each of some numbers.
#[derive(Drop)]
struct Series {
    first: u16,
    last: u16,
    text: Vec<u8>,
}

// `101 400 > TEXT`.
fn series_of(alloc: Global, rest: &str) -> Result<Series, LineError> {
    let (first, rest) = rest.split_once(' ').ok_or(LineError::Unknown)?;
    let (last, line) = rest.split_once(' ').ok_or(LineError::Unknown)?;
    let first: u16 = first.parse()?;
    let last: u16 = last.parse()?;
    let once = written(alloc, line)?.ok_or(LineError::Unknown)?;
    Ok(Series {
        first,
        last,
        text: once.bytes,
    })
}

// `101 400 > a@` stands for `a101` to `a400`.
fn repeated(alloc: Global, rest: &str) -> Result<Vec<u8>, LineError> {
    let once = series_of(alloc, rest)?;
    let mut bytes = Vec::new(alloc);
    for number in once.first..=once.last {
        let number = format!(in alloc; "{number}")?;
        push_numbered(&mut bytes, &once.text, number.as_bytes())?;
    }
    Ok(bytes)
}

// `1 3 | a` stands for `a` on lines that are indented by one, two and three levels, `3 1 | a` for these from the last on.
fn nested(alloc: Global, rest: &str) -> Result<Vec<u8>, LineError> {
    let once = series_of(alloc, rest)?;
    let mut bytes = Vec::new(alloc);
    for levels in once.first..=once.last {
        push_indented(&mut bytes, &once.text, levels)?;
    }
    if once.last < once.first {
        for levels in (once.last..=once.first).rev() {
            push_indented(&mut bytes, &once.text, levels)?;
        }
    }
    Ok(bytes)
}

// Adds the bytes behind four spaces for each level.
fn push_indented(bytes: &mut Vec<u8>, text: &[u8], levels: u16) -> Result<(), LineError> {
    for _ in 0..levels {
        bytes.extend_from_slice(b"    ")?;
    }
    bytes.extend_from_slice(text)?;
    Ok(())
}

// Adds the bytes with the number in place of each `@`.
fn push_numbered(bytes: &mut Vec<u8>, text: &[u8], number: &[u8]) -> Result<(), LineError> {
    for byte in text {
        if *byte == b'@' {
            bytes.extend_from_slice(number)?;
        } else {
            bytes.push(*byte)?;
        }
    }
    Ok(())
}

/// Numbers, separated by spaces.
pub fn numbers(alloc: Global, words: &str) -> Result<Vec<u64>, LineError> {
    let mut all = Vec::new(alloc);
    for word in words.split_whitespace() {
        let number: u64 = word.parse()?;
        all.push(number)?;
    }
    Ok(all)
}
