//! Comments, CDATA sections, instructions and the declaration.
ghost use Rattle.std.specs.Prelude.{◌≡◌, IfOk, IsUtf8, length, true, option_map};
ghost use Rattle.xml_pieces.specs.Pieces as pieces;
ghost use Rattle.xml_pieces.specs.Reading as reading;
ghost use Rattle.xml_pieces.specs.Reading.{Gives, comment_at, cdata_at, instruction_at, assigned_at, maybe_assigned_at, declared_at, declaration_at, question_at};
ghost use Rattle.xml_pieces.specs.Found.{seen};

use crate::found::Found;
use crate::text::{equals, is_apart, is_text, name, quoted, skip_blank, space, strip, until};
use crate::value::with_line_ends;
use base_texts::{Memory, is_ncname_text, utf8_text};
use std::alloc::Global;

/// Returns the comment at the start, after its `<!--`, and the rest.
#[tactic(auto, unfolding(crate::specs::Reading::comment_at))]
pub fn comment(bytes: &[u8]) -> Option<(Found<'_>, &[u8])>
    requires { IsUtf8 bytes.now }
    ensures { Gives (λ x. (seen x.0, x.1.now)) result (comment_at bytes.now) }
{
    let (inner, rest) = until(b"--", bytes)?;
    let rest = strip(b">", rest)?;
    if is_text(inner) {
        Some((Found::Comment, rest))
    } else {
        None
    }
}

/// Returns the CDATA section at the start, after its `<![CDATA[`, and the rest.
#[tactic(auto, unfolding(crate::specs::Reading::cdata_at))]
pub fn cdata<'a>(alloc: Global, bytes: &'a [u8]) -> Result<Option<(Found<'a>, &'a [u8])>, Memory>
    requires { IsUtf8 bytes.now }
    ensures { IfOk result (λ o. Gives (λ x. (seen x.0, x.1.now)) o (cdata_at bytes.now)) }
{
    let Some((inner, rest)) = until(b"]]>", bytes) else {
        return Ok(None);
    };
    if !is_text(inner) {
        return Ok(None);
    }
    let text = with_line_ends(alloc, inner)?;
    Ok(Some((Found::CData(text), rest)))
}

// Whether an instruction may have this target.
fn is_target(target: &[u8]) -> bool
    requires { IsUtf8 target.now }
    ensures { result ≡ reading.is_target target.now }
{
    is_ncname_text(utf8_text(target)) && !target.eq_ignore_ascii_case(b"xml")
}

// The instruction at the start, after its target, and the rest.
#[tactic(auto, unfolding(crate::specs::Reading::instruction_at))]
fn instruction<'a>(target: &[u8], bytes: &'a [u8]) -> Option<(Found<'a>, &'a [u8])>
    requires target { IsUtf8 target.now }
    requires bytes { IsUtf8 bytes.now }
    ensures { Gives (λ x. (seen x.0, x.1.now)) result (instruction_at target.now bytes.now) }
{
    let (inner, rest) = until(b"?>", bytes)?;
    if is_target(target) && is_apart(inner) && is_text(inner) {
        Some((Found::Instruction, rest))
    } else {
        None
    }
}

// White space, this name, `=` and a text in quotes. The results are the text and the rest.
#[tactic(auto, unfolding(crate::specs::Reading::assigned_at))]
fn assigned<'a>(name: &[u8], bytes: &'a [u8]) -> Option<(&'a [u8], &'a [u8])>
    ensures { Gives (λ x. (x.0.now, x.1.now)) result (assigned_at name.now bytes.now) }
{
    let rest = strip(name, space(bytes)?)?;
    quoted(equals(rest)?)
}

pub fn is_version(written: &[u8]) -> bool
    ensures { result ≡ pieces.is_version written.now }
{
    written == b"1.0".as_slice()
}

fn is_encoding(written: &[u8]) -> bool
    ensures { result ≡ pieces.is_encoding_name written.now }
{
    written.eq_ignore_ascii_case(b"utf-8") || written.eq_ignore_ascii_case(b"us-ascii")
}

fn is_standalone(written: &[u8]) -> bool
    ensures { result ≡ pieces.is_standalone_word written.now }
{
    written == b"yes".as_slice() || written == b"no".as_slice()
}

// An optional assignment: its text, or `None` where it is absent, and the rest.
#[tactic(auto, unfolding(crate::specs::Reading::maybe_assigned_at))]
fn maybe_assigned<'a>(name: &[u8], bytes: &'a [u8]) -> (Option<&'a [u8]>, &'a [u8])
    ensures { (option_map (λ x. x.now) result.0, result.1.now) ≡ maybe_assigned_at name.now bytes.now }
{
    match assigned(name, bytes) {
        Some((written, rest)) => (Some(written), rest),
        None => (None, bytes),
    }
}

/// Returns the version and the encoding of a declaration after its `<?xml`, and the rest. Any texts in quotes may be the version
/// and the encoding.
#[tactic(auto, unfolding(crate::specs::Reading::declared_at))]
pub fn declared(bytes: &[u8]) -> Option<(&[u8], Option<&[u8]>, &[u8])>
    ensures { Gives (λ x. (x.0.now, option_map (λ e. e.now) x.1, x.2.now)) result (declared_at bytes.now) }
{
    let (version, rest) = assigned(b"version", bytes)?;
    let (encoding, rest) = maybe_assigned(b"encoding", rest);
    let (standalone, rest) = maybe_assigned(b"standalone", rest);
    let rest = strip(b"?>", skip_blank(rest))?;
    if has_standalone(standalone) {
        Some((version, encoding, rest))
    } else {
        None
    }
}

fn has_standalone(written: Option<&[u8]>) -> bool
    ensures { result ≡ pieces.is_standalone (option_map (λ x. x.now) written.entry) }
{
    match written {
        Some(written) => is_standalone(written),
        None => true,
    }
}

pub fn has_encoding(written: Option<&[u8]>) -> bool
    ensures { result ≡ pieces.is_encoding (option_map (λ x. x.now) written.entry) }
{
    match written {
        Some(written) => is_encoding(written),
        None => true,
    }
}

// The declaration at the start, after its `<?xml`, and the rest.
#[tactic(auto, unfolding(crate::specs::Reading::declaration_at))]
fn declaration(bytes: &[u8]) -> Option<(Found<'_>, &[u8])>
    ensures { Gives (λ x. (seen x.0, x.1.now)) result (declaration_at bytes.now) }
{
    let (version, encoding, rest) = declared(bytes)?;
    if is_version(version) && has_encoding(encoding) {
        Some((Found::Declaration, rest))
    } else {
        None
    }
}

/// Returns the instruction or the declaration at the start, after its `<?`, and the rest.
#[tactic(auto, unfolding(crate::specs::Reading::question_at))]
pub fn question(bytes: &[u8]) -> Option<(Found<'_>, &[u8])>
    requires { IsUtf8 bytes.now }
    ensures { Gives (λ x. (seen x.0, x.1.now)) result (question_at bytes.now) }
{
    let (target, rest) = name(bytes)?;
    if target == b"xml".as_slice() {
        declaration(rest)
    } else {
        instruction(target, rest)
    }
}
