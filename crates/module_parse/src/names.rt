//! Names, numbers, quoted texts and octets.
ghost use Rattle.std.specs.Prelude.{◌≡◌, ◌≤◌, length, map, IfOk};
ghost use Rattle.module_grammar.specs.Reading.{many_at};
ghost use Rattle.module_grammar.specs.Shapes.{each_written};
ghost use Rattle.module_parse.specs.Spans.{Spans, Lies, GivesSpan, LiesWithin, digits_at};
ghost use Rattle.module_parse.specs.Reads.{Reads, ReadsAs, ReadsSpan, PassesMoving, PassesStaying, Stays, Moves};
ghost use Rattle.module_grammar.specs.NameReading.{piece_at, piece_text, identifier_at, reference_at, plain_identifier_at, numeral_at, signed_at, number_at, quoted_byte_at, byte_of, quoted_at, octet_at, octet_text, octets_at};
ghost use Rattle.module_grammar.specs.TypeReading.{plain_reference_at};

use crate::steps::{ByteClass, again, byte, literal};
use base_texts::{Text, is_digit};
use module_grammar::{Reach, Stop, later, word};
use module_text::{PlainName, PlainNumber, Written, identifier_text, reference_text};
use std::alloc::{AllocError, Global};

// Reads a letter or a digit, with or without a preceding hyphen.
fn piece(bytes: &[u8], from: Reach) -> Result<Reach, Stop>
    requires { from.at ≤ length bytes.now }
    ensures value { ReadsSpan piece_at piece_text bytes.now from result }
    ensures within { PassesMoving (length bytes.now) from result }
{
    let hyphen = match byte(ByteClass::LetterOrDigit, bytes, from) {
        Ok(next) => return Ok(next),
        Err(stop) => again(from, stop)?,
    };
    let letter = literal(b"-", bytes, hyphen)?;
    byte(ByteClass::LetterOrDigit, bytes, letter)
}

// Reads all such letters and digits that there are.
fn behind_pieces(bytes: &[u8], from: Reach) -> Result<Reach, Stop>
    requires { from.at ≤ length bytes.now }
    ensures value { ReadsSpan (many_at piece_at) (each_written piece_text) bytes.now from result }
    ensures within { PassesStaying (length bytes.now) from result }
{
    let mut next = from;
    'pieces: loop {
        match piece(bytes, next) {
            Ok(behind) => next = behind,
            Err(stop) => return again(next, stop),
        }
    }
}

// Reads the decimal digits from here on.
fn behind_digits(bytes: &[u8], from: Reach) -> Reach
    requires { from.at ≤ length bytes.now }
    ensures value { Spans digits_at bytes.now from result }
    ensures within { Lies bytes.now from result }
{
    let mut at = from.at;
    while at < bytes.len() && is_digit(bytes[at]) {
        at += 1;
    }
    Reach {
        at,
        far: later(from.far, at),
    }
}

// Reads past an identifier.
fn behind_identifier(bytes: &[u8], from: Reach) -> Result<Reach, Stop>
    requires { from.at ≤ length bytes.now }
    ensures value { ReadsSpan identifier_at (λ name. name) bytes.now from result }
    ensures within { PassesMoving (length bytes.now) from result }
{
    let next = byte(ByteClass::Small, bytes, from)?;
    behind_pieces(bytes, next)
}

/// Reads an identifier.
pub fn identifier(alloc: Global, bytes: &[u8], from: Reach) -> Result<(Text, Reach), Stop>
    requires { from.at ≤ length bytes.now }
    ensures value { Reads identifier_at bytes.now from result }
    ensures within { Moves (length bytes.now) from result }
{
    let next = behind_identifier(bytes, from)?;
    match identifier_text(alloc, &bytes[from.at..next.at]) {
        Ok(name) => Ok((name, next)),
        Err(_) => Err(Stop::Memory),
    }
}

// Reads past a reference.
fn behind_reference(bytes: &[u8], from: Reach) -> Result<Reach, Stop>
    requires { from.at ≤ length bytes.now }
    ensures value { ReadsSpan reference_at (λ name. name) bytes.now from result }
    ensures within { PassesMoving (length bytes.now) from result }
{
    let next = byte(ByteClass::Capital, bytes, from)?;
    behind_pieces(bytes, next)
}

/// Reads a reference.
pub fn reference(alloc: Global, bytes: &[u8], from: Reach) -> Result<(Text, Reach), Stop>
    requires { from.at ≤ length bytes.now }
    ensures value { Reads reference_at bytes.now from result }
    ensures within { Moves (length bytes.now) from result }
{
    let next = behind_reference(bytes, from)?;
    match reference_text(alloc, &bytes[from.at..next.at]) {
        Ok(name) => Ok((name, next)),
        Err(_) => Err(Stop::Memory),
    }
}

/// Reads an identifier with its place.
pub fn plain_identifier(
    alloc: Global,
    bytes: &[u8],
    from: Reach,
) -> Result<(PlainName, Reach), Stop>
    requires { from.at ≤ length bytes.now }
    ensures value { Reads plain_identifier_at bytes.now from result }
    ensures within { Moves (length bytes.now) from result }
{
    let (name, next) = identifier(alloc, bytes, from)?;
    Ok((
        PlainName {
            at: from.at as u64,
            name,
        },
        next,
    ))
}

/// Reads a reference with its place.
pub fn plain_reference(alloc: Global, bytes: &[u8], from: Reach) -> Result<(PlainName, Reach), Stop>
    requires { from.at ≤ length bytes.now }
    ensures value { Reads plain_reference_at bytes.now from result }
    ensures within { Moves (length bytes.now) from result }
{
    let (name, next) = reference(alloc, bytes, from)?;
    Ok((
        PlainName {
            at: from.at as u64,
            name,
        },
        next,
    ))
}

// Reads one digit or more.
fn numeral(bytes: &[u8], from: Reach) -> Result<Reach, Stop>
    requires { from.at ≤ length bytes.now }
    ensures value { GivesSpan numeral_at bytes.now from result }
    ensures within { LiesWithin bytes.now from result }
{
    if from.at == bytes.len() || !is_digit(bytes[from.at]) {
        return Err(Stop::Fails {
            far: later(from.far, from.at),
        });
    }
    Ok(behind_digits(
        bytes,
        Reach {
            at: from.at + 1,
            far: later(from.far, from.at + 1),
        },
    ))
}

// Reads past decimal digits, with or without a `-` at the beginning.
fn behind_signed(bytes: &[u8], from: Reach) -> Result<Reach, Stop>
    requires { from.at ≤ length bytes.now }
    ensures value { GivesSpan signed_at bytes.now from result }
    ensures within { LiesWithin bytes.now from result }
{
    let far = match word(b"-", bytes, from) {
        Ok(next) => match numeral(bytes, next) {
            Ok(end) => return Ok(end),
            Err(stop) => stop.failed()?,
        },
        Err(stop) => stop.failed()?,
    };
    numeral(bytes, Reach { at: from.at, far })
}

fn copy_of(alloc: Global, bytes: &[u8]) -> Result<Written, AllocError>
    ensures { IfOk result (λ made. made ≡ bytes.now) }
{
    let mut copy = Vec::new(alloc);
    copy.extend_from_slice(bytes)?;
    Ok(Written::of(copy))
}

/// Reads decimal digits, with or without a `-` at the beginning.
pub fn signed(alloc: Global, bytes: &[u8], from: Reach) -> Result<(Written, Reach), Stop>
    requires { from.at ≤ length bytes.now }
    ensures value { Reads signed_at bytes.now from result }
    ensures within { Stays (length bytes.now) from result }
{
    let next = behind_signed(bytes, from)?;
    let written = copy_of(alloc, &bytes[from.at..next.at])?;
    Ok((written, next))
}

/// Reads a number with its place.
pub fn number(alloc: Global, bytes: &[u8], from: Reach) -> Result<(PlainNumber, Reach), Stop>
    requires { from.at ≤ length bytes.now }
    ensures value { Reads number_at bytes.now from result }
    ensures within { Stays (length bytes.now) from result }
{
    let (written, next) = signed(alloc, bytes, from)?;
    Ok((
        PlainNumber {
            at: from.at as u64,
            written,
        },
        next,
    ))
}

// Reads a byte in quotation marks. Quotation marks there are doubled.
fn quoted_byte(bytes: &[u8], from: Reach) -> Result<(u8, Reach), Stop>
    requires { from.at ≤ length bytes.now }
    ensures value { ReadsAs byte_of quoted_byte_at bytes.now from result }
    ensures within { Moves (length bytes.now) from result }
{
    let mark = match byte(ByteClass::Plain, bytes, from) {
        Ok(next) => return Ok((bytes[from.at], next)),
        Err(stop) => again(from, stop)?,
    };
    let next = literal(b"\"\"", bytes, mark)?;
    Ok((b'"', next))
}

// Reads all such bytes that there are.
fn quoted_bytes(alloc: Global, bytes: &[u8], from: Reach) -> Result<(Written, Reach), Stop>
    requires { from.at ≤ length bytes.now }
    ensures value { ReadsAs (map byte_of) (many_at quoted_byte_at) bytes.now from result }
    ensures within { Stays (length bytes.now) from result }
{
    let mut text = Vec::new(alloc);
    let mut next = from;
    'text: loop {
        match quoted_byte(bytes, next) {
            Ok((b, behind)) => {
                text.push(b)?;
                next = behind;
            }
            Err(stop) => {
                let end = again(next, stop)?;
                return Ok((Written::of(text), end));
            }
        }
    }
}

/// Reads a text in quotation marks. Quotation marks in it are doubled.
pub fn quoted(alloc: Global, bytes: &[u8], from: Reach) -> Result<(Written, Reach), Stop>
    requires { from.at ≤ length bytes.now }
    ensures value { Reads quoted_at bytes.now from result }
    ensures within { Moves (length bytes.now) from result }
{
    let inside = literal(b"\"", bytes, from)?;
    let (text, end) = quoted_bytes(alloc, bytes, inside)?;
    let next = literal(b"\"", bytes, end)?;
    Ok((text, next))
}

// Reads two hexadecimal digits.
fn octet(bytes: &[u8], from: Reach) -> Result<Reach, Stop>
    requires { from.at ≤ length bytes.now }
    ensures value { ReadsSpan octet_at octet_text bytes.now from result }
    ensures within { PassesMoving (length bytes.now) from result }
{
    let low = byte(ByteClass::Hexadecimal, bytes, from)?;
    byte(ByteClass::Hexadecimal, bytes, low)
}

// Reads past all such pairs that there are.
fn behind_octets(bytes: &[u8], from: Reach) -> Result<Reach, Stop>
    requires { from.at ≤ length bytes.now }
    ensures value { ReadsSpan (many_at octet_at) (each_written octet_text) bytes.now from result }
    ensures within { PassesStaying (length bytes.now) from result }
{
    let mut next = from;
    'octets: loop {
        match octet(bytes, next) {
            Ok(behind) => next = behind,
            Err(stop) => return again(next, stop),
        }
    }
}

/// Reads octets, each written as two hexadecimal digits.
pub fn octets(alloc: Global, bytes: &[u8], from: Reach) -> Result<(Written, Reach), Stop>
    requires { from.at ≤ length bytes.now }
    ensures value { Reads octets_at bytes.now from result }
    ensures within { Stays (length bytes.now) from result }
{
    let next = behind_octets(bytes, from)?;
    let digits = copy_of(alloc, &bytes[from.at..next.at])?;
    Ok((digits, next))
}
