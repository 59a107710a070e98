//! White space, as the facet `whiteSpace` of XML Schema treats it.
ghost use Rattle.std.specs.Prelude.{◌≡◌, ◌∷◌, ◌++◌, ◌↔◌, [], IfOk, IfSome, IsTrue, IsUtf8, MatchOption, not, map, position, ◌==◌, string_bytes};
ghost use Rattle.std.specs.List.{join_with_byte, position_or_len};
ghost use Rattle.base_texts.specs.WhiteSpace as rule;
ghost use Rattle.base_texts.specs.WhiteSpace.{is_white_space, spaced, words_of, treated, IsTreated};

use crate::texts::{Memory, Text};
use std::alloc::{AllocError, Global};

/// The values of the facet `whiteSpace` (XML Schema Part 2, section 4.3.6): how a text is changed before it is read.
#[derive(Clone, Copy, Debug, PartialEq, Eq)]
pub enum WhiteSpace {
    /// No change.
    Preserve,
    /// Each tab, line feed and carriage return becomes a space.
    Replace,
    /// As `Replace`. Then each run of spaces becomes one space, and the spaces at both ends are removed.
    Collapse,
}

/// Returns whether the byte is white space (XML 1.0, production [3] S).
#[tactic(auto, unfolding(crate::specs::WhiteSpace::is_white_space))]
pub fn is_white_space(b: u8) -> bool
    ensures { result ≡ is_white_space b }
{
    matches!(b, b' ' | b'\t' | b'\n' | b'\r')
}

/// Returns whether each byte is white space.
pub fn is_blank(bytes: &[u8]) -> bool
    ensures { result ≡ rule.is_blank bytes.now }
{
    bytes.iter().all(|b| is_white_space(*b))
}

// The number of bytes of white space at the start.
fn white_space_len(bytes: &[u8]) -> usize
    ensures { result ≡ position_or_len (λ b. not (is_white_space b)) bytes.now }
{
    bytes
        .iter()
        .position(|b| !is_white_space(*b))
        .unwrap_or(bytes.len())
}

// The number of bytes before the first white space.
fn word_len(bytes: &[u8]) -> usize
    ensures { result ≡ position_or_len is_white_space bytes.now }
{
    bytes
        .iter()
        .position(|b| is_white_space(*b))
        .unwrap_or(bytes.len())
}

/// Returns the first word of the text and the rest after it. A word is a longest run of bytes that aren't white space.
pub fn first_word(text: &str) -> Option<(&str, &str)>
    ensures words { MatchOption result (words_of text.now ≡ []) (λ x. words_of text.now ≡ x.0.now ∷ words_of x.1.now) }
    ensures text { IfSome result (λ x. IsUtf8 x.0.now × IsUtf8 x.1.now) }
{
    let words = &text[white_space_len(text.as_bytes())..];
    if words.is_empty() {
        return None;
    }
    Some(words.split_at(word_len(words.as_bytes())))
}

// The words of the text, joined by spaces.
fn collapse(alloc: Global, text: &str) -> Result<String, AllocError>
    ensures { IfOk result (λ collapsed. string_bytes collapsed ≡ treated WhiteSpace.Collapse text.now) }
{
    let mut collapsed = String::with_capacity(alloc, text.len())?;
    let mut rest = text;
    'words: while let Some((word, behind)) = first_word(rest) {
        if !collapsed.is_empty() {
            collapsed.push(' ')?;
        }
        collapsed.push_str(word)?;
        rest = behind;
    }
    Ok(collapsed)
}

// Whether a byte is white space other than a space.
#[tactic(auto, unfolding(crate::specs::WhiteSpace::is_white_space))]
fn is_replaced(b: u8) -> bool
    ensures { result ≡ not (spaced b == b) }
{
    matches!(b, b'\t' | b'\n' | b'\r')
}

// The place of the first byte that is replaced.
fn first_replaced(bytes: &[u8]) -> Option<usize>
    ensures { result ≡ position (λ b. not (spaced b == b)) bytes.now }
{
    bytes.iter().position(|b| is_replaced(*b))
}

// The parts of the text before and after the first byte that is replaced.
fn split_at_replaced(text: &str) -> Option<(&str, &str)>
    ensures split { MatchOption result (map spaced text.now ≡ text.now) (λ x. map spaced text.now ≡ x.0.now ++ 32 ∷ map spaced x.1.now) }
    ensures text { IfSome result (λ x. IsUtf8 x.0.now × IsUtf8 x.1.now) }
{
    let at = first_replaced(text.as_bytes())?;
    Some((&text[..at], &text[at + 1..]))
}

// The text with spaces for other white space.
#[tactic(auto, unfolding(crate::specs::WhiteSpace::treated))]
fn replace(alloc: Global, text: &str) -> Result<String, AllocError>
    ensures { IfOk result (λ replaced. string_bytes replaced ≡ treated WhiteSpace.Replace text.now) }
{
    let mut replaced = String::with_capacity(alloc, text.len())?;
    let mut rest = text;
    'runs: while let Some((run, behind)) = split_at_replaced(rest) {
        replaced.push_str(run)?;
        replaced.push(' ')?;
        rest = behind;
    }
    replaced.push_str(rest)?;
    Ok(replaced)
}

// Whether the bytes are words joined by spaces.
fn is_collapsed(bytes: &[u8]) -> bool
    ensures { IsTrue result ↔ IsTreated WhiteSpace.Collapse bytes.now }
{
    // No word is open at the start and after a space.
    let mut is_apart = true;
    for b in bytes {
        let is_space = is_white_space(*b);
        if is_space && (*b != b' ' || is_apart) {
            return false;
        }
        is_apart = is_space;
    }
    bytes.is_empty() || !is_apart
}

/// Returns whether the treatment leaves the text unchanged. It allocates nothing.
pub fn is_treated(how: WhiteSpace, text: &Text) -> bool
    ensures { IsTrue result ↔ IsTreated how text.now }
{
    is_str_treated(how, text.as_str())
}

/// Returns whether the treatment leaves a `str` unchanged.
#[tactic(auto, unfolding(crate::specs::WhiteSpace::treated))]
pub fn is_str_treated(how: WhiteSpace, text: &str) -> bool
    ensures { IsTrue result ↔ IsTreated how text.now }
{
    match how {
        WhiteSpace::Preserve => true,
        WhiteSpace::Replace => first_replaced(text.as_bytes()).is_none(),
        WhiteSpace::Collapse => is_collapsed(text.as_bytes()),
    }
}

/// Returns the text as the facet changes it. An unchanged text is copied without an allocation.
#[tactic(auto, unfolding(crate::specs::WhiteSpace::treated))]
pub fn treat(alloc: Global, how: WhiteSpace, text: &Text) -> Result<Text, Memory>
    ensures { IfOk result (λ made. made ≡ treated how text.now) }
{
    match how {
        WhiteSpace::Preserve => text.copy(alloc),
        _ if is_treated(how, text) => text.copy(alloc),
        WhiteSpace::Replace => Text::from_string(replace(alloc, text.as_str())?),
        WhiteSpace::Collapse => Text::from_string(collapse(alloc, text.as_str())?),
    }
}
