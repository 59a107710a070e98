//! The results of files and of messages, in boxes.
ghost use Rattle.std.specs.Prelude.{◌≡◌, Some, IfOk, IfSome, MatchOption, IsUtf8};
ghost use Rattle.transcode_words.specs.Answers.{Answers, NoMemory};
ghost use Rattle.transcode_words.specs.AskedSeen.{chosen_seen};
ghost use Rattle.transcode_core.specs.Preparing.{prepared_seen};
ghost use Rattle.transcode_core.specs.Next.{NextDocument, NextBack};
ghost use Rattle.transcode_core.specs.ReadBack.{DocumentedBack};
ghost use Rattle.people_complaints.specs.DocumentPaths.{IsDocumentPath};
ghost use Rattle.ruvkhiska_c.specs.Statuses.{PreparedOf, root_named, syntax_numbered, EncodedBy, DocumentedBy};

use base_texts::Memory;
use people_complaints::document_path;
use std::alloc::{AllocError, Global};
use std::str::from_utf8;
use transcode_messages::{
    Message, Outcome, Prepared, Root, RootName, SchemaFiles, Shared, Syntax, decode, encode, next,
};

// Returns the syntax with this number.
fn syntax_of(number: u32) -> Option<Syntax>
    ensures { result ≡ syntax_numbered number }
{
    if number == 0 {
        Some(Syntax::Aligned)
    } else if number == 1 {
        Some(Syntax::Unaligned)
    } else if number == 2 {
        Some(Syntax::Der)
    } else {
        None
    }
}

// Returns the root, if both are UTF-8: the only global element if both are empty.
fn root_of<'a>(space: &'a [u8], local: &'a [u8]) -> Option<Root<'a>>
    ensures { MatchOption result (IsUtf8 space.now → IsUtf8 local.now → ⊥)
        (λ root. IsUtf8 space.now × IsUtf8 local.now × (chosen_seen root ≡ root_named space.now local.now)) }
{
    let Ok(space) = from_utf8(space) else {
        return None;
    };
    let Ok(local) = from_utf8(local) else {
        return None;
    };
    if space.is_empty() && local.is_empty() {
        Some(Root::Only)
    } else {
        Some(Root::Named(RootName { space, local }))
    }
}

// Returns the first owner of what is prepared.
fn boxed(alloc: Global, prepared: Prepared) -> Result<Box<Shared>, AllocError>
    ensures { IfOk result (λ b. b.value ≡ prepared) }
{
    let shared = Shared::of(alloc, prepared)?;
    Ok(Box::new(alloc, shared)?)
}

/// Returns one more owner of what is prepared.
pub(crate) fn share_boxed(alloc: Global, shared: &Shared) -> Result<Box<Shared>, AllocError>
    ensures { IfOk result (λ b. b.value ≡ shared.now) }
{
    let more = shared.again()?;
    Ok(Box::new(alloc, more)?)
}

/// Prepares the files and the root.
pub(crate) fn prepare_boxed(
    alloc: Global,
    files: &SchemaFiles,
    space: &[u8],
    local: &[u8],
) -> Result<Box<Shared>, Outcome>
    ensures { Answers (λ b. prepared_seen b.value) (PreparedOf files.now space.now local.now) NoMemory result }
{
    let Some(root) = root_of(space, local) else {
        return Err(Outcome::Usage);
    };
    let prepared = files.prepare(alloc, root)?;
    match boxed(alloc, prepared) {
        Ok(b) => Ok(b),
        Err(_) => Err(Outcome::OutOfMemory),
    }
}

/// Returns the encoding of a document.
pub(crate) fn encode_boxed(
    alloc: Global,
    prepared: &Prepared,
    syntax: u32,
    document: &[u8],
) -> Result<Box<Message>, Outcome>
    ensures { Answers (λ b. b.value.bytes.items) (EncodedBy syntax (prepared_seen prepared.now) document.now) NoMemory result }
{
    let Some(syntax) = syntax_of(syntax) else {
        return Err(Outcome::Usage);
    };
    let message = encode(alloc, prepared, syntax, document)?;
    match Box::new(alloc, message) {
        Ok(b) => Ok(b),
        Err(_) => Err(Outcome::OutOfMemory),
    }
}

/// Returns the document of an encoding.
pub(crate) fn decode_boxed(
    alloc: Global,
    prepared: &Prepared,
    syntax: u32,
    octets: &[u8],
) -> Result<Box<Message>, Outcome>
    ensures due { Answers (λ b. b.value.bytes.items) (DocumentedBy syntax (prepared_seen prepared.now) octets.now) NoMemory result }
    ensures back { IfOk result (λ b. IfSome (syntax_numbered syntax) (λ s. DocumentedBack s (prepared_seen prepared.now) (Some octets.now) b.value.bytes.items)) }
{
    let Some(syntax) = syntax_of(syntax) else {
        return Err(Outcome::Usage);
    };
    let message = decode(alloc, prepared, syntax, octets)?;
    match Box::new(alloc, message) {
        Ok(b) => Ok(b),
        Err(_) => Err(Outcome::OutOfMemory),
    }
}

/// Returns the document of the first record of the octets, and the number of the record's octets.
pub(crate) fn next_boxed(
    alloc: Global,
    prepared: &Prepared,
    octets: &[u8],
) -> Result<(Box<Message>, u64), Outcome>
    ensures due { Answers (λ first. (first.0.value.bytes.items, first.1)) (NextDocument (prepared_seen prepared.now) (Some octets.now)) NoMemory result }
    ensures back { IfOk result (λ first. NextBack (prepared_seen prepared.now) (Some octets.now) (first.0.value.bytes.items, first.1)) }
{
    let first = next(alloc, prepared, octets)?;
    match Box::new(alloc, first.message) {
        Ok(b) => Ok((b, first.octets)),
        Err(_) => Err(Outcome::OutOfMemory),
    }
}

/// Returns the path to the element at the byte of a document.
pub(crate) fn path_boxed(alloc: Global, document: &[u8], at: u64) -> Result<Box<Message>, Memory>
    ensures { IfOk result (λ b. IsDocumentPath document.now at b.value.bytes.items) }
{
    let path = document_path(alloc, document, at)?;
    let bytes = path.into_bytes();
    Ok(Box::new(alloc, Message { bytes })?)
}
