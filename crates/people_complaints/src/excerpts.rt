//! The line of a place, with a mark beneath.
ghost use Rattle.std.specs.Prelude.{◌≡◌, ◌≤◌, ℕ, length, take, drop, IfOk, IsUtf8, string_bytes};
ghost use Rattle.people_complaints.specs.Excerpts as rule;
ghost use Rattle.people_complaints.specs.Excerpts.{IsExcerpt};

use crate::lines::Spot;
use base_texts::Memory;
use std::alloc::{AllocError, Global};
use std::str;

// The greatest number of bytes that are shown before the place, and after it.
const ROOM: usize = 120;

// Returns what replaces a character in a line that is shown.
#[tactic(auto, unfolding(crate::specs::Excerpts::is_steering))]
fn shown_char(c: char) -> char
    ensures { result ≡ rule.shown_char c }
{
    if matches!(c, '\0'..='\u{8}' | '\u{a}'..='\u{1f}' | '\u{7f}'..='\u{9f}' | '\u{202a}'..='\u{202e}' | '\u{2066}'..='\u{2069}')
    {
        '?'
    } else {
        c
    }
}

fn beneath_char(c: char) -> char
    ensures { result ≡ rule.beneath_char c }
{
    if c == '\t' { '\t' } else { ' ' }
}

// Returns a suffix of the text of at most 120 bytes: the longest that is UTF-8, or at most three bytes shorter.
fn last_part(text: &[u8]) -> &str
    ensures part { (n : ℕ) × (result.now ≡ drop n text.now) }
    ensures short { length result.now ≤ 120 }
    ensures whole { length text.now ≤ 120 → IsUtf8 text.now → result.now ≡ text.now }
{
    let from = text.len().saturating_sub(ROOM);
    for cut in 0..4usize {
        let (_, part) = text.split_at((from + cut).min(text.len()));
        if let Ok(part) = str::from_utf8(part) {
            return part;
        }
    }
    ""
}

// Returns a prefix of the text of at most 120 bytes: the longest that is UTF-8, or at most three bytes shorter.
fn first_part(text: &[u8]) -> &str
    ensures part { (n : ℕ) × (result.now ≡ take n text.now) }
    ensures short { length result.now ≤ 120 }
    ensures whole { length text.now ≤ 120 → IsUtf8 text.now → result.now ≡ text.now }
{
    let to = text.len().min(ROOM);
    for cut in 0..4usize {
        let part = &text[..to.saturating_sub(cut)];
        if let Ok(part) = str::from_utf8(part) {
            return part;
        }
    }
    ""
}

// Returns the text as it is shown.
fn shown(alloc: Global, text: &str) -> Result<String, AllocError>
    ensures { IfOk result (λ shown. string_bytes shown ≡ rule.spelled rule.shown_char text.now) }
{
    text.chars().map(shown_char).collect(alloc)
}

// Returns what is beneath the text.
fn beneath(alloc: Global, text: &str) -> Result<String, AllocError>
    ensures { IfOk result (λ beneath. string_bytes beneath ≡ rule.spelled rule.beneath_char text.now) }
{
    text.chars().map(beneath_char).collect(alloc)
}

/// Returns the line of the place, with a mark beneath the character that follows it. Of a long line the 120 bytes on each side of the
/// place are shown. Characters that would steer a terminal are shown as `?`.
pub fn excerpt(alloc: Global, spot: Spot<'_>) -> Result<String, Memory>
    ensures { IfOk result (λ text. IsExcerpt spot.entry.before.now spot.entry.after.now (string_bytes text)) }
{
    let before = last_part(spot.before);
    let after = first_part(spot.after);
    let mut text = shown(alloc, before)?;
    text.push_str(shown(alloc, after)?.as_str())?;
    text.push_str("\n")?;
    text.push_str(beneath(alloc, before)?.as_str())?;
    text.push_str("^\n")?;
    Ok(text)
}
