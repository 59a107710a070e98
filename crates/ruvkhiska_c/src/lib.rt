//! Is the library for C. include/ruvkhiska.h states what each call does and what the caller must keep.
//!
//! Read first: `specs/Statuses`, then the calls below; `src/slots.rt` has what C holds between them.
#![tactic(auto)]

ghost use Rattle.std.specs.Prelude.{◌≡◌, ◌≢◌, ◌↔◌, ◌⊎◌, ◌<◌, ◌++◌, [], ◌∷◌, pos, length, IsUtf8, IfSome, IfErr, IsSomeAnd, MatchResult, None, Some, Ok};
ghost use Rattle.transcode_words.specs.Answers.{Answers, NoMemory, IsRefusal};
ghost use Rattle.transcode_words.specs.Status.{status};
ghost use Rattle.transcode_core.specs.Preparing.{prepared_seen};
ghost use Rattle.transcode_core.specs.Due.{Checked};
ghost use Rattle.transcode_core.specs.ReadBack.{DocumentedBack};
ghost use Rattle.transcode_core.specs.Stamps.{Stamped};
ghost use Rattle.ruvkhiska_c.specs.Complaints.{Tells, IsQuiet};
ghost use Rattle.ruvkhiska_c.specs.Statuses.{Refuses, files_in, PreparedOf, syntax_numbered, EncodedBy, DocumentedBy};
ghost use Rattle.ruvkhiska_c.specs.Pointing.{PointsTo};

mod boxes;
mod complaint;
mod given;
mod kept;
mod listed;
mod parts;
mod places;
mod records;
mod slots;

use crate::boxes::{decode_boxed, encode_boxed, prepare_boxed, share_boxed};
use crate::complaint::{Complaint, clear, tell};
use crate::slots::{
    Bytes, Converter, Files, close, closed, drop_files, free, give, hold, no_files, nothing, open,
};
use base_texts::Memory;
use std::alloc::Global;
use std::mem::replace;
use std::str::from_utf8;
use transcode_core::STAMP_LENGTH;
use transcode_messages::{AddError, Message, Outcome, SchemaFiles, Shared, check};

// Major, minor and patch, two digits each.
const VERSION: u32 = 10_000;

const DONE: i32 = 0;

const USAGE: i32 = 2;

const OUT_OF_MEMORY: i32 = 30;

const CLOSED: i32 = 40;

// The files of a slot.
fn taken(alloc: Global, files: Files) -> Result<Box<SchemaFiles>, Memory>
    ensures { MatchResult result (λ b. b.value ≡ files_in files.listed.value) (λ _. files.listed.value ≡ None) }
{
    let Files { is_open, listed } = files;
    if is_open {
        return Ok(listed.into_box());
    }
    match Box::new(alloc, SchemaFiles::new(alloc)) {
        Ok(b) => Ok(b),
        Err(_) => Err(Memory),
    }
}

/// Adds a schema file to the files, of which the name and the contents are copied.
#[unsafe(no_mangle)]
pub extern "C" fn ruvkhiska_add(
    alloc: Global,
    files: &mut Files,
    name: &[u8],
    contents: &[u8],
) -> i32
    ensures added { result ≡ pos 0 → files_in files.new.listed.value ≡ files_in files.old.listed.value ++ (name.now, contents.now) ∷ [] }
    ensures unchanged { result ≢ pos 0 → files_in files.new.listed.value ≡ files_in files.old.listed.value }
    ensures takes { result ≡ pos 0 → IsUtf8 name.now × (length (files_in files.old.listed.value) < 64) }
    ensures usage { result ≡ pos 2 → IsUtf8 name.now → length (files_in files.old.listed.value) ≡ 64 }
    ensures not_utf8 { (IsUtf8 name.now → ⊥) → result ≡ pos 2 }
    ensures statuses { (result ≡ pos 0) ⊎ ((result ≡ pos 2) ⊎ (result ≡ pos 30)) }
{
    let Ok(name) = from_utf8(name) else {
        return USAGE;
    };
    let Ok(mut listed) = taken(alloc, replace(files, no_files(alloc))) else {
        return OUT_OF_MEMORY;
    };
    let added = listed.add(alloc, name, contents);
    let _ = replace(files, hold(listed));
    match added {
        Ok(()) => DONE,
        Err(AddError::TooMany) => USAGE,
        Err(AddError::Memory) => OUT_OF_MEMORY,
    }
}

/// Drops the files. What was prepared of them stays.
#[unsafe(no_mangle)]
pub extern "C" fn ruvkhiska_drop_files(alloc: Global, files: &mut Files)
    ensures { files.new.listed.value ≡ None }
{
    drop_files(replace(files, no_files(alloc)));
}

// What is prepared of the files of the slot, which keeps them.
fn prepare_slot(
    alloc: Global,
    files: &mut Files,
    space: &[u8],
    local: &[u8],
) -> Result<Box<Shared>, Outcome>
    ensures due { Answers (λ b. prepared_seen b.value) (PreparedOf (files_in files.old.listed.value) space.now local.now) NoMemory result }
    ensures same { files.new.listed.value ≡ files.old.listed.value }
{
    let Files { is_open, listed } = replace(files, no_files(alloc));
    if !is_open {
        return prepare_boxed(alloc, &SchemaFiles::new(alloc), space, local);
    }
    let listed = listed.into_box();
    let prepared = prepare_boxed(alloc, &listed, space, local);
    let _ = replace(files, hold(listed));
    prepared
}

/// Reads the files and links them, and looks for the root. On 0 the converter is open on what was prepared, and what it had
/// before is closed. On anything else it is as it was, and the complaint has the line.
#[unsafe(no_mangle)]
pub extern "C" fn ruvkhiska_open(
    alloc: Global,
    files: &mut Files,
    space: &[u8],
    local: &[u8],
    converter: &mut Converter,
    complaint: &mut Complaint,
) -> i32
    ensures same_files { files.new.listed.value ≡ files.old.listed.value }
    ensures opened { result ≡ pos 0 → IsSomeAnd converter.new.kept.value (λ p. PreparedOf (files_in files.old.listed.value) space.now local.now (Ok (prepared_seen p))) }
    ensures refused { result ≢ pos 0 → Refuses (PreparedOf (files_in files.old.listed.value) space.now local.now) result complaint.new }
    ensures unchanged { result ≢ pos 0 → converter.new.kept.value ≡ converter.old.kept.value }
    ensures quiet { result ≡ pos 0 → IsQuiet complaint.new }
{
    match prepare_slot(alloc, files, space, local) {
        Ok(b) => {
            close(replace(converter, open(b)));
            clear(complaint);
            DONE
        }
        Err(outcome) => tell(outcome, complaint),
    }
}

/// Opens the second converter on what the first one has, for another thread. On 0 both own it, and what the second had before is
/// closed. Otherwise the second is as it was.
#[unsafe(no_mangle)]
pub extern "C" fn ruvkhiska_share(
    alloc: Global,
    converter: &mut Converter,
    mine: &mut Converter,
) -> i32
    ensures same { converter.new.kept.value ≡ converter.old.kept.value }
    ensures is_closed { (result ≡ pos 40) ↔ (converter.old.kept.value ≡ None) }
    ensures shared { result ≡ pos 0 → mine.new.kept.value ≡ converter.old.kept.value }
    ensures unchanged { result ≢ pos 0 → mine.new.kept.value ≡ mine.old.kept.value }
    ensures statuses { (result ≡ pos 0) ⊎ ((result ≡ pos 30) ⊎ (result ≡ pos 40)) }
{
    let Converter { is_open, kept } = replace(converter, closed(alloc));
    if !is_open {
        return CLOSED;
    }
    let shared = kept.into_box();
    let more = share_boxed(alloc, &shared);
    let _ = replace(converter, open(shared));
    match more {
        Ok(b) => {
            close(replace(mine, open(b)));
            DONE
        }
        Err(_) => OUT_OF_MEMORY,
    }
}

/// Returns the version of the library: 10,000 for 1.0.0.
#[unsafe(no_mangle)]
pub extern "C" fn ruvkhiska_version() -> u32
    ensures { result ≡ 10000 }
{
    VERSION
}

/// Closes the converter.
#[unsafe(no_mangle)]
pub extern "C" fn ruvkhiska_close(alloc: Global, converter: &mut Converter)
    ensures { converter.new.kept.value ≡ None }
{
    close(replace(converter, closed(alloc)));
}

/// Whether the document is valid.
#[unsafe(no_mangle)]
pub extern "C" fn ruvkhiska_check(
    alloc: Global,
    converter: &mut Converter,
    document: &[u8],
    complaint: &mut Complaint,
) -> i32
    ensures same { converter.new.kept.value ≡ converter.old.kept.value }
    ensures is_closed { (result ≡ pos 40) ↔ (converter.old.kept.value ≡ None) }
    ensures valid { result ≡ pos 0 → IfSome converter.old.kept.value (λ p. Checked (prepared_seen p) (Some document.now) (Ok [])) }
    ensures refused { result ≢ pos 0 → IfSome converter.old.kept.value (λ p. Refuses (Checked (prepared_seen p) (Some document.now)) result complaint.new) }
    ensures quiet { (result ≡ pos 0) ⊎ (result ≡ pos 40) → IsQuiet complaint.new }
{
    clear(complaint);
    let Converter { is_open, kept } = replace(converter, closed(alloc));
    if !is_open {
        return CLOSED;
    }
    let shared = kept.into_box();
    let checked = check(alloc, shared.prepared(), document);
    let _ = replace(converter, open(shared));
    match checked {
        Ok(()) => DONE,
        Err(outcome) => tell(outcome, complaint),
    }
}

// Hands the answer out, and drops the one before it; or tells the refusal.
fn hand_out(
    answered: Result<Box<Message>, Outcome>,
    answer: &mut Bytes,
    complaint: &mut Complaint,
) -> i32
    requires { IfErr answered (λ o. IsRefusal o ⊎ NoMemory o) }
    ensures answer { MatchResult answered
        (λ b. (result ≡ pos 0) × (answer.new.given.value ≡ Some b.value) × PointsTo answer.new.start answer.new.count b.value)
        (λ o. (result ≡ pos (status o)) × (answer.new.given.value ≡ answer.old.given.value) × Tells o complaint.new) }
    ensures not_closed { result ≢ pos 40 }
    ensures not_done { IfErr answered (λ _. result ≢ pos 0) }
    ensures quiet { result ≡ pos 0 → IsQuiet complaint.new }
{
    match answered {
        Ok(b) => {
            free(replace(answer, give(b)));
            clear(complaint);
            DONE
        }
        Err(outcome) => tell(outcome, complaint),
    }
}

/// The encoding of the document in the transfer syntax of this number.
#[unsafe(no_mangle)]
pub extern "C" fn ruvkhiska_encode(
    alloc: Global,
    converter: &mut Converter,
    syntax: u32,
    document: &[u8],
    answer: &mut Bytes,
    complaint: &mut Complaint,
) -> i32
    ensures same { converter.new.kept.value ≡ converter.old.kept.value }
    ensures is_closed { (result ≡ pos 40) ↔ (converter.old.kept.value ≡ None) }
    ensures given { result ≡ pos 0 → IfSome converter.old.kept.value (λ p. IsSomeAnd answer.new.given.value (λ m.
        EncodedBy syntax (prepared_seen p) document.now (Ok m.bytes.items) × PointsTo answer.new.start answer.new.count m)) }
    ensures refused { result ≢ pos 0 → IfSome converter.old.kept.value (λ p. Refuses (EncodedBy syntax (prepared_seen p) document.now) result complaint.new) }
    ensures unchanged { result ≢ pos 0 → answer.new.given.value ≡ answer.old.given.value }
    ensures quiet { (result ≡ pos 0) ⊎ (result ≡ pos 40) → IsQuiet complaint.new }
{
    let Converter { is_open, kept } = replace(converter, closed(alloc));
    if !is_open {
        clear(complaint);
        return CLOSED;
    }
    let shared = kept.into_box();
    let encoded = encode_boxed(alloc, shared.prepared(), syntax, document);
    let _ = replace(converter, open(shared));
    hand_out(encoded, answer, complaint)
}

/// The document of the value of which the octets are the encoding in the transfer syntax of this number.
#[unsafe(no_mangle)]
pub extern "C" fn ruvkhiska_decode(
    alloc: Global,
    converter: &mut Converter,
    syntax: u32,
    octets: &[u8],
    answer: &mut Bytes,
    complaint: &mut Complaint,
) -> i32
    ensures same { converter.new.kept.value ≡ converter.old.kept.value }
    ensures is_closed { (result ≡ pos 40) ↔ (converter.old.kept.value ≡ None) }
    ensures given { result ≡ pos 0 → IfSome converter.old.kept.value (λ p. IsSomeAnd answer.new.given.value (λ m.
        DocumentedBy syntax (prepared_seen p) octets.now (Ok m.bytes.items) × PointsTo answer.new.start answer.new.count m)) }
    ensures back { result ≡ pos 0 → IfSome converter.old.kept.value (λ p. IsSomeAnd answer.new.given.value (λ m.
        IfSome (syntax_numbered syntax) (λ s. DocumentedBack s (prepared_seen p) (Some octets.now) m.bytes.items))) }
    ensures refused { result ≢ pos 0 → IfSome converter.old.kept.value (λ p. Refuses (DocumentedBy syntax (prepared_seen p) octets.now) result complaint.new) }
    ensures unchanged { result ≢ pos 0 → answer.new.given.value ≡ answer.old.given.value }
    ensures quiet { (result ≡ pos 0) ⊎ (result ≡ pos 40) → IsQuiet complaint.new }
{
    let Converter { is_open, kept } = replace(converter, closed(alloc));
    if !is_open {
        clear(complaint);
        return CLOSED;
    }
    let shared = kept.into_box();
    let decoded = decode_boxed(alloc, shared.prepared(), syntax, octets);
    let _ = replace(converter, open(shared));
    hand_out(decoded, answer, complaint)
}

/// Writes the stamp of the set, which has 8 octets. On anything but 0 they are as they were.
#[unsafe(no_mangle)]
pub extern "C" fn ruvkhiska_stamp(alloc: Global, converter: &mut Converter, stamp: &mut [u8]) -> i32
    ensures same { converter.new.kept.value ≡ converter.old.kept.value }
    ensures is_closed { (result ≡ pos 40) ↔ (converter.old.kept.value ≡ None) }
    ensures stamped { result ≡ pos 0 → IfSome converter.old.kept.value (λ p. Stamped (prepared_seen p) (Ok stamp.new)) }
    ensures unchanged { result ≢ pos 0 → stamp.new ≡ stamp.old }
    ensures usage { result ≡ pos 2 → length stamp.old ≢ 8 }
    ensures statuses { (result ≡ pos 0) ⊎ ((result ≡ pos 2) ⊎ ((result ≡ pos 30) ⊎ (result ≡ pos 40))) }
{
    let Converter { is_open, kept } = replace(converter, closed(alloc));
    if !is_open {
        return CLOSED;
    }
    let shared = kept.into_box();
    let made = shared.prepared().stamp(alloc);
    let _ = replace(converter, open(shared));
    if stamp.len() != STAMP_LENGTH {
        return USAGE;
    }
    match made {
        Ok(octets) => {
            stamp.copy_from_slice(octets.as_slice());
            DONE
        }
        Err(_) => OUT_OF_MEMORY,
    }
}

/// Frees the answer.
#[unsafe(no_mangle)]
pub extern "C" fn ruvkhiska_free(alloc: Global, answer: &mut Bytes)
    ensures { answer.new.given.value ≡ None }
{
    free(replace(answer, nothing(alloc)));
}
