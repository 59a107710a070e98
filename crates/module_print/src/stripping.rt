//! The text of a module without its encoding instructions and its encoding control.
ghost use Rattle.std.specs.Prelude.{◌≡◌, ◌++◌, ℕ, List, IfOk, MatchOption};
ghost use Rattle.asn_types.specs.declared.modules.Assignment.{Assignment};
ghost use Rattle.module_print.specs.Printed as print;
ghost use Rattle.module_print.specs.Names.{IsNotation};
ghost use Rattle.module_print.specs.Plain as rule;
ghost use Rattle.module_print.specs.Stripped.{next, is_kept, stripped};

use base_texts::Memory;
use std::alloc::{AllocError, Global};

const OPENING: &[u8] = b"Schema-Set DEFINITIONS XER INSTRUCTIONS AUTOMATIC TAGS ::= BEGIN\n";

const PLAIN_OPENING: &[u8] = b"Schema-Set DEFINITIONS AUTOMATIC TAGS ::= BEGIN\n";

const CLOSING: &[u8] =
    b"ENCODING-CONTROL XER\n    GLOBAL-DEFAULTS MODIFIED-ENCODINGS\n    GLOBAL-DEFAULTS CONTROL-NAMESPACE \"http://www.w3.org/2001/XMLSchema-instance\" PREFIX \"xsi\"\nEND\n";

const PLAIN_CLOSING: &[u8] = b"END\n";

/// The position of a byte of a module. It is in an encoding instruction, in a quoted text in one, after one, in a quoted text
/// elsewhere, or outside of all these.
#[derive(Clone, Copy, PartialEq, Eq)]
pub(crate) enum Within {
    Module,
    Text,
    Instruction,
    Quotes,
    Behind,
}

// Returns the position of the byte after this one. A quotation mark in a text is written twice, so it ends the text and begins it
// again.
fn behind(within: Within, byte: u8) -> Within
    ensures { result ≡ next within byte }
{
    match (within, byte) {
        (Within::Module, b'[') => Within::Instruction,
        (Within::Module, b'"') => Within::Text,
        (Within::Text, b'"') => Within::Module,
        (Within::Instruction, b']') => Within::Behind,
        (Within::Instruction, b'"') => Within::Quotes,
        (Within::Quotes, b'"') => Within::Instruction,
        (Within::Behind, _) => Within::Module,
        (within, _) => within,
    }
}

// Returns whether a byte belongs to no instruction.
fn is_kept(within: Within, byte: u8) -> bool
    ensures { result ≡ is_kept within byte }
{
    match within {
        Within::Module => byte != b'[',
        Within::Text => true,
        _ => false,
    }
}

// Returns the text without its instructions and the space after each.
fn without_instructions(alloc: Global, text: &[u8]) -> Result<Vec<u8>, AllocError>
    ensures { IfOk result (λ left. left.items ≡ stripped Within.Module text.now) }
{
    let mut left = Vec::new(alloc);
    let mut within = Within::Module;
    let mut rest = text;
    'bytes: while let [byte, others @ ..] = rest {
        if is_kept(within, *byte) {
            left.push(*byte)?;
        }
        within = behind(within, *byte);
        rest = others;
    }
    Ok(left)
}

// Returns the bytes between the opening and the closing of a printed module.
fn between(text: &[u8]) -> Option<&[u8]>
    ensures { (body : List ℕ) → text.now ≡ print.opening ++ body ++ print.closing → MatchOption result ⊥ (λ part. part.now ≡ body) }
{
    let Some(rest) = text.strip_prefix(OPENING) else {
        return None;
    };
    match rest.strip_suffix(CLOSING) {
        Some(body) => Some(body),
        None => None,
    }
}

/// Returns the printed module without its encoding instructions and its encoding control (X.693). A text that doesn't begin and end
/// as printed modules do is returned unchanged.
pub fn plain_module(alloc: Global, text: &[u8]) -> Result<Vec<u8>, Memory>
    ensures { (M : List Assignment) → text.now ≡ print.printed M → IsNotation M → IfOk result (λ left. left.items ≡ rule.plain M) }
{
    let Some(body) = between(text) else {
        return Ok(Vec::from_slice(alloc, text)?);
    };
    let mut whole = Vec::from_slice(alloc, PLAIN_OPENING)?;
    let left = without_instructions(alloc, body)?;
    whole.extend_from_slice(&left)?;
    whole.extend_from_slice(PLAIN_CLOSING)?;
    Ok(whole)
}
