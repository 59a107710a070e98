//! The line and the column of a byte.
ghost use Rattle.std.specs.Prelude.{◌≡◌, ◌+◌, ◌≤◌, ◌==◌, ◌∷◌, ◌++◌, not, length, take, drop, true, MatchOption};
ghost use Rattle.std.specs.List.{prefix_len};
ghost use Rattle.std.specs.Str.{chars};
ghost use Rattle.people_complaints.specs.Places.{IsColumn};
ghost use Rattle.people_complaints.specs.Lines.{is_line, EndsInLine, BeginsInLine, WithoutReturn};

use std::str;

fn char_count(text: &str) -> usize
    ensures count { result ≡ length (chars text.now) }
    ensures within { result ≤ length text.now }
{
    text.chars().count()
}

/// A place between two bytes of a text.
#[derive(Clone, Copy)]
pub struct Spot<'a> {
    /// The number of its line, from 1. A line ends with a line feed, or with the text.
    pub line: u64,
    /// The bytes of its line that precede it.
    pub before: &'a [u8],
    /// The bytes of its line that follow it, without the line feed and a carriage return that precedes this.
    pub after: &'a [u8],
}

impl<'a> Spot<'a> {
    /// Returns the column of the place, from 1, counted in code points; in bytes if those that precede it in its line aren't UTF-8.
    pub fn column(&self) -> u64
        ensures { IsColumn self.now.before.now result }
    {
        let before = match str::from_utf8(self.before) {
            Ok(text) => char_count(text),
            Err(_) => self.before.len(),
        };
        1 + before as u64
    }
}

fn line_len(bytes: &[u8]) -> usize
    ensures value { result ≡ prefix_len (λ b. not (b == 10)) bytes.now }
    ensures within { result ≤ length bytes.now }
{
    bytes.iter().take_while(|b| **b != b'\n').count()
}

// Returns the first line, and what follows its line feed, if it has one.
fn split_line(bytes: &[u8]) -> Option<(&[u8], &[u8])>
    ensures { MatchOption result (is_line bytes.now ≡ true) (λ parts. (is_line parts.0.now ≡ true) × (bytes.now ≡ parts.0.now ++ 10 ∷ parts.1.now)) }
{
    let (line, rest) = bytes.split_at(line_len(bytes));
    match rest {
        [] => None,
        [_, behind @ ..] => Some((line, behind)),
    }
}

// Returns the number of the last line, and its bytes.
fn last_line(front: &[u8]) -> (u64, &[u8])
    ensures { EndsInLine front.now result.0 result.1.now }
{
    let mut ended: u64 = 0;
    let mut here = front;
    'lines: while let Some((_, behind)) = split_line(here) {
        ended += 1;
        here = behind;
    }
    (ended + 1, here)
}

fn without_return(line: &[u8]) -> &[u8]
    ensures { WithoutReturn line.now result.now }
{
    match line {
        [front @ .., b'\r'] => front,
        _ => line,
    }
}

// Returns the first line without its end.
fn first_line(rest: &[u8]) -> &[u8]
    ensures { BeginsInLine rest.now result.now }
{
    match split_line(rest) {
        Some((line, _)) => without_return(line),
        None => without_return(rest),
    }
}

/// Returns the place before the byte of this number, from 0. After the last byte is one too.
pub fn spot_at(text: &[u8], at: usize) -> Spot<'_>
    requires { at ≤ length text.now }
    ensures before { EndsInLine (take at text.now) result.line result.before.now }
    ensures after { BeginsInLine (drop at text.now) result.after.now }
{
    let (front, rest) = text.split_at(at);
    let (line, before) = last_line(front);
    Spot {
        line,
        before,
        after: first_line(rest),
    }
}
