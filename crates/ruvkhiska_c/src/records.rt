//! The calls for records that follow one another.
ghost use Rattle.std.specs.Prelude.{◌≡◌, ◌≢◌, ◌↔◌, ◌⊎◌, pos, IfSome, IsSomeAnd, None, Some, Ok};
ghost use Rattle.transcode_words.specs.Answers.{IsRefusal, NoMemory};
ghost use Rattle.transcode_core.specs.Preparing.{prepared_seen};
ghost use Rattle.transcode_core.specs.Next.{NextDocument, NextBack};
ghost use Rattle.ruvkhiska_c.specs.Complaints.{Tells, IsQuiet};
ghost use Rattle.per_fields.specs.Stops as stops;
ghost use Rattle.ruvkhiska_c.specs.Statuses as statuses;
ghost use Rattle.ruvkhiska_c.specs.Statuses.{RefusesWith, next_status};
ghost use Rattle.ruvkhiska_c.specs.Pointing.{PointsTo};

use crate::boxes::next_boxed;
use crate::complaint::{Complaint, clear, tell};
use crate::slots::{Bytes, Converter, closed, free, give, open};
use crate::{CLOSED, DONE};
use per_fields::Why;
use std::alloc::Global;
use std::mem::replace;
use transcode_messages::Outcome;

// The octets end before the record does.
const MORE: i32 = 41;

// Whether octets end inside a field.
fn is_short(why: Why) -> bool
    ensures { result ≡ stops.is_short why }
{
    match why {
        Why::Short => true,
        Why::TooDeep
        | Why::TooMany
        | Why::Padding
        | Why::NotShortest
        | Why::Range
        | Why::TooWide
        | Why::NotUtf8
        | Why::DefaultWritten
        | Why::NotAValue => false,
    }
}

// Whether the octets end inside a field.
fn ends_short(outcome: Outcome) -> bool
    ensures { result ≡ statuses.ends_short outcome }
{
    match outcome {
        Outcome::PerFault { why, .. } => is_short(why),
        Outcome::Done
        | Outcome::Usage
        | Outcome::SchemaSyntax { .. }
        | Outcome::SchemaFault { .. }
        | Outcome::LinkFault { .. }
        | Outcome::UnknownRoot
        | Outcome::Stamp
        | Outcome::DocSyntax { .. }
        | Outcome::Invalid { .. }
        | Outcome::DerFault { .. }
        | Outcome::ModuleFault { .. }
        | Outcome::Trailing { .. }
        | Outcome::RecordFault { .. }
        | Outcome::TooLong { .. }
        | Outcome::TooManyNodes { .. }
        | Outcome::LoadFault { .. }
        | Outcome::ReadFault
        | Outcome::WriteFault
        | Outcome::OutOfMemory => false,
    }
}

// Reports the rejection of octets that may go on, and returns its status.
fn tell_next(outcome: Outcome, complaint: &mut Complaint) -> i32
    requires { IsRefusal outcome ⊎ NoMemory outcome }
    ensures status { result ≡ pos (next_status outcome) }
    ensures told { Tells outcome complaint.new }
    ensures not_done { result ≢ pos 0 }
    ensures not_closed { result ≢ pos 40 }
{
    let status = tell(outcome, complaint);
    if ends_short(outcome) { MORE } else { status }
}

/// The document of the first record of the octets, and the number of the record's octets. On anything but 0 both are as they were.
#[unsafe(no_mangle)]
pub extern "C" fn ruvkhiska_next(
    alloc: Global,
    converter: &mut Converter,
    octets: &[u8],
    answer: &mut Bytes,
    used: &mut usize,
    complaint: &mut Complaint,
) -> i32
    ensures same { converter.new.kept.value ≡ converter.old.kept.value }
    ensures is_closed { (result ≡ pos 40) ↔ (converter.old.kept.value ≡ None) }
    ensures given { result ≡ pos 0 → IfSome converter.old.kept.value (λ p. IsSomeAnd answer.new.given.value (λ m.
        NextDocument (prepared_seen p) (Some octets.now) (Ok (m.bytes.items, used.new)) × PointsTo answer.new.start answer.new.count m)) }
    ensures back { result ≡ pos 0 → IfSome converter.old.kept.value (λ p. IsSomeAnd answer.new.given.value (λ m.
        NextBack (prepared_seen p) (Some octets.now) (m.bytes.items, used.new))) }
    ensures refused { result ≢ pos 0 → IfSome converter.old.kept.value (λ p. RefusesWith next_status (NextDocument (prepared_seen p) (Some octets.now)) result complaint.new) }
    ensures unchanged { result ≢ pos 0 → (answer.new.given.value ≡ answer.old.given.value) × (used.new ≡ used.old) }
    ensures quiet { (result ≡ pos 0) ⊎ (result ≡ pos 40) → IsQuiet complaint.new }
{
    let Converter { is_open, kept } = replace(converter, closed(alloc));
    if !is_open {
        clear(complaint);
        return CLOSED;
    }
    let shared = kept.into_box();
    let first = next_boxed(alloc, shared.prepared(), octets);
    let _ = replace(converter, open(shared));
    match first {
        Ok((b, count)) => {
            free(replace(answer, give(b)));
            *used = count as usize;
            clear(complaint);
            DONE
        }
        Err(outcome) => tell_next(outcome, complaint),
    }
}
