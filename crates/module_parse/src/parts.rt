//! Labels, and lines.
ghost use Rattle.std.specs.Prelude.{◌++◌, ◌+◌, ◌≤◌, length};
ghost use Rattle.module_print.specs.Notation.{new_line};
ghost use Rattle.module_grammar.specs.TypeReading.{label_at, item_label_at, closing};
ghost use Rattle.module_parse.specs.Reads.{Reads, ReadsWord, PassesMoving, Stays, Moves};

use crate::names::identifier;
use crate::steps::{again, literal, nothing};
use base_texts::Text;
use module_grammar::{Reach, Stop};
use std::alloc::Global;

/// Reads an identifier with a space after it.
pub fn label(alloc: Global, bytes: &[u8], from: Reach) -> Result<(Text, Reach), Stop>
    requires { from.at ≤ length bytes.now }
    ensures value { Reads label_at bytes.now from result }
    ensures within { Moves (length bytes.now) from result }
{
    let (name, end) = identifier(alloc, bytes, from)?;
    let next = literal(b" ", bytes, end)?;
    Ok((name, next))
}

/// Reads an identifier with a space after it, if there is one.
pub fn item_label(alloc: Global, bytes: &[u8], from: Reach) -> Result<(Text, Reach), Stop>
    requires { from.at ≤ length bytes.now }
    ensures value { Reads item_label_at bytes.now from result }
    ensures within { Stays (length bytes.now) from result }
{
    match label(alloc, bytes, from) {
        Ok((name, next)) => Ok((name, next)),
        Err(stop) => {
            let end = again(from, stop)?;
            Ok((Text::empty(), nothing(end)))
        }
    }
}

/// Reads a new line with an indentation of this level, four spaces for each level.
pub fn line(levels: usize, bytes: &[u8], from: Reach) -> Result<Reach, Stop>
    requires { from.at ≤ length bytes.now }
    ensures value { ReadsWord (new_line levels) bytes.now from result }
    ensures within { PassesMoving (length bytes.now) from result }
{
    let mut next = literal(b"\n", bytes, from)?;
    let mut done = 0;
    'levels: while done < levels {
        let behind = literal(b"    ", bytes, next)?;
        next = behind;
        done += 1;
    }
    Ok(next)
}

/// Reads this word, and a new line after it.
pub fn word_and_line(text: &[u8], levels: usize, bytes: &[u8], from: Reach) -> Result<Reach, Stop>
    requires { from.at ≤ length bytes.now }
    ensures value { ReadsWord (text.now ++ new_line levels) bytes.now from result }
    ensures within { PassesMoving (length bytes.now) from result }
{
    let end = literal(text, bytes, from)?;
    line(levels, bytes, end)
}

/// Reads the brace after parts, on a line of this level of indentation.
pub fn closing_brace(levels: usize, bytes: &[u8], from: Reach) -> Result<Reach, Stop>
    requires { from.at ≤ length bytes.now }
    ensures value { ReadsWord (closing levels) bytes.now from result }
    ensures within { PassesMoving (length bytes.now) from result }
{
    let end = line(levels, bytes, from)?;
    literal(b"}", bytes, end)
}
