//! Bounds and constraints.
ghost use Rattle.std.specs.Prelude.{◌≡◌, ◌≤◌, length};
ghost use Rattle.module_parse.specs.Reads.{Reads, Stays, Moves};
ghost use Rattle.module_parse.specs.Readers.{from_upper, upper_bound_at};
ghost use Rattle.module_grammar.specs.BoundReading.{ends_at, range_at, some_range_at, number_range_at, some_size_at, size_at, named_class_at, class_at, some_fixed_at, octets_here_at, fixed_at};

use crate::names::{number, octets};
use crate::steps::{again, literal, nothing, optional};
use module_grammar::{Reach, Stop};
use module_text::{PlainEnds, PlainNumber, PlainOctets, PlainRange};
use simple_types::Class;
use std::alloc::Global;

// The greatest bound, after two points.
#[derive(Drop)]
enum UpperBound {
    Number { number: PlainNumber },
    Max { at: u64 },
}

fn upper_bound(alloc: Global, bytes: &[u8], from: Reach) -> Result<(UpperBound, Reach), Stop>
    requires { from.at ≤ length bytes.now }
    ensures value { Reads upper_bound_at bytes.now from result }
    ensures within { Moves (length bytes.now) from result }
{
    let bound = literal(b"..", bytes, from)?;
    let max = match number(alloc, bytes, bound) {
        Ok((number, next)) => return Ok((UpperBound::Number { number }, next)),
        Err(stop) => again(bound, stop)?,
    };
    let next = literal(b"MAX", bytes, max)?;
    Ok((UpperBound::Max { at: max.at as u64 }, next))
}

fn ends_of(least: PlainNumber, greatest: UpperBound) -> PlainEnds
    ensures { result ≡ from_upper least greatest }
{
    match greatest {
        UpperBound::Number { number } => PlainEnds::Both {
            least,
            greatest: number,
        },
        UpperBound::Max { at } => PlainEnds::From { least, max_at: at },
    }
}

/// Reads the bounds of a number or a size.
pub fn ends(alloc: Global, bytes: &[u8], from: Reach) -> Result<(PlainEnds, Reach), Stop>
    requires { from.at ≤ length bytes.now }
    ensures value { Reads ends_at bytes.now from result }
    ensures within { Stays (length bytes.now) from result }
{
    let (least, behind) = number(alloc, bytes, from)?;
    match upper_bound(alloc, bytes, behind) {
        Ok((greatest, next)) => Ok((ends_of(least, greatest), next)),
        Err(stop) => {
            let end = again(behind, stop)?;
            Ok((PlainEnds::One { number: least }, nothing(end)))
        }
    }
}

/// Reads the bounds of an INTEGER.
pub fn range(alloc: Global, bytes: &[u8], from: Reach) -> Result<(PlainRange, Reach), Stop>
    requires { from.at ≤ length bytes.now }
    ensures value { Reads range_at bytes.now from result }
    ensures within { Stays (length bytes.now) from result }
{
    let least = match ends(alloc, bytes, from) {
        Ok((ends, next)) => return Ok((PlainRange::Ends { ends }, next)),
        Err(stop) => again(from, stop)?,
    };
    let bound = literal(b"MIN..", bytes, least)?;
    let (greatest, next) = number(alloc, bytes, bound)?;
    Ok((PlainRange::To { greatest }, next))
}

fn range_in_parentheses(
    alloc: Global,
    bytes: &[u8],
    from: Reach,
) -> Result<(PlainRange, Reach), Stop>
    requires { from.at ≤ length bytes.now }
    ensures value { Reads some_range_at bytes.now from result }
    ensures within { Stays (length bytes.now) from result }
{
    let inside = literal(b" (", bytes, from)?;
    let (range, end) = range(alloc, bytes, inside)?;
    let next = literal(b")", bytes, end)?;
    Ok((range, next))
}

/// Reads the constraint after INTEGER, if there is one.
pub fn number_range(
    alloc: Global,
    bytes: &[u8],
    from: Reach,
) -> Result<(Option<PlainRange>, Reach), Stop>
    requires { from.at ≤ length bytes.now }
    ensures value { Reads number_range_at bytes.now from result }
    ensures within { Stays (length bytes.now) from result }
{
    optional(from, range_in_parentheses(alloc, bytes, from))
}

fn size_in_parentheses(alloc: Global, bytes: &[u8], from: Reach) -> Result<(PlainEnds, Reach), Stop>
    requires { from.at ≤ length bytes.now }
    ensures value { Reads some_size_at bytes.now from result }
    ensures within { Stays (length bytes.now) from result }
{
    let inside = literal(b" (SIZE (", bytes, from)?;
    let (size, end) = ends(alloc, bytes, inside)?;
    let next = literal(b"))", bytes, end)?;
    Ok((size, next))
}

/// Reads a size, if there is one.
pub fn size(alloc: Global, bytes: &[u8], from: Reach) -> Result<(Option<PlainEnds>, Reach), Stop>
    requires { from.at ≤ length bytes.now }
    ensures value { Reads size_at bytes.now from result }
    ensures within { Stays (length bytes.now) from result }
{
    optional(from, size_in_parentheses(alloc, bytes, from))
}

// Reads the class of a text, which is named.
fn named_class(bytes: &[u8], from: Reach) -> Result<(Class, Reach), Stop>
    requires { from.at ≤ length bytes.now }
    ensures value { Reads named_class_at bytes.now from result }
    ensures within { Stays (length bytes.now) from result }
{
    let token = match literal(b" (CONSTRAINED BY {/* language */})", bytes, from) {
        Ok(next) => return Ok((Class::Language, next)),
        Err(stop) => again(from, stop)?,
    };
    let name = match literal(b" (CONSTRAINED BY {/* NMTOKEN */})", bytes, token) {
        Ok(next) => return Ok((Class::NmToken, next)),
        Err(stop) => again(token, stop)?,
    };
    let plain = match literal(b" (CONSTRAINED BY {/* Name */})", bytes, name) {
        Ok(next) => return Ok((Class::Name, next)),
        Err(stop) => again(name, stop)?,
    };
    let next = literal(b" (CONSTRAINED BY {/* NCName */})", bytes, plain)?;
    Ok((Class::NcName, next))
}

/// Reads the class of a text. Without a name it is that of any text.
pub fn class(bytes: &[u8], from: Reach) -> Result<(Class, Reach), Stop>
    requires { from.at ≤ length bytes.now }
    ensures value { Reads class_at bytes.now from result }
    ensures within { Stays (length bytes.now) from result }
{
    match named_class(bytes, from) {
        Ok((class, next)) => Ok((class, next)),
        Err(stop) => {
            let end = again(from, stop)?;
            Ok((Class::Any, nothing(end)))
        }
    }
}

// Reads octets at this place.
fn octets_here(alloc: Global, bytes: &[u8], from: Reach) -> Result<(PlainOctets, Reach), Stop>
    requires { from.at ≤ length bytes.now }
    ensures value { Reads octets_here_at bytes.now from result }
    ensures within { Stays (length bytes.now) from result }
{
    let (digits, next) = octets(alloc, bytes, from)?;
    Ok((
        PlainOctets {
            at: from.at as u64,
            digits,
        },
        next,
    ))
}

fn octets_in_comment(alloc: Global, bytes: &[u8], from: Reach) -> Result<(PlainOctets, Reach), Stop>
    requires { from.at ≤ length bytes.now }
    ensures value { Reads some_fixed_at bytes.now from result }
    ensures within { Stays (length bytes.now) from result }
{
    let inside = literal(b" (CONSTRAINED BY {/* fixed ", bytes, from)?;
    let (octets, end) = octets_here(alloc, bytes, inside)?;
    let next = literal(b" */})", bytes, end)?;
    Ok((octets, next))
}

/// Reads a fixed value, if there is one.
pub fn fixed(alloc: Global, bytes: &[u8], from: Reach) -> Result<(Option<PlainOctets>, Reach), Stop>
    requires { from.at ≤ length bytes.now }
    ensures value { Reads fixed_at bytes.now from result }
    ensures within { Stays (length bytes.now) from result }
{
    optional(from, octets_in_comment(alloc, bytes, from))
}
