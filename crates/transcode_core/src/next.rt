//! The first of the records that follow one another in octets.
ghost use Rattle.std.specs.Prelude.{◌≡◌, ◌≤◌, ℕ, IfOk};
ghost use Rattle.asn_values.specs.Values.{In};
ghost use Rattle.schema_components.specs.Components.{Set};
ghost use Rattle.transcode_words.specs.Answers.{Answers};
ghost use Rattle.transcode_core.specs.Private.Seen.{opened_seen, type_seen};
ghost use Rattle.transcode_core.specs.Steps.{IsTypeOf};
ghost use Rattle.transcode_core.specs.Causes.{OneRead};
ghost use Rattle.transcode_core.specs.Next.{FirstRecord, FirstDocument, FirstBack};

use crate::each::record_text;
use crate::opened::{Opened, RootModule};
use base_texts::Source;
use per_decode::{DecodeError, Decoded, decode};
use std::alloc::Global;
use transcode_words::Outcome;

/// The greatest length of a record, in octets.
const LIMIT: u64 = 16_777_216;

/// The document of a record, and the number of the record's octets.
#[derive(Drop)]
pub struct NextRecord {
    pub text: Vec<u8>,
    pub octets: u64,
}

// Returns the value of the first record that the input has left, and the number of its octets.
fn decode_first<S: Source>(
    alloc: Global,
    typed: &RootModule,
    input: &mut S,
) -> Result<Decoded, Outcome>
    requires { (set : Set) × (n : ℕ) × IsTypeOf set n (type_seen typed.now) }
    ensures due { Answers (λ first. (first.value, first.octets)) (FirstRecord (type_seen typed.now) (S.left input.old)) (OneRead (S.faults input.old) (S.faults input.new)) result }
    ensures value { IfOk result (λ first. In typed.now.module typed.now.number first.value) }
    ensures later { S.faults input.old ≤ S.faults input.new }
{
    match decode(alloc, &typed.module, typed.number, input, LIMIT) {
        Ok(first) => Ok(first),
        Err(DecodeError::Bad { bit, why }) => Err(Outcome::PerFault { bit, why }),
        Err(DecodeError::TooLong) => Err(Outcome::TooLong { file: 0 }),
        Err(DecodeError::Failed) => Err(Outcome::ReadFault),
        Err(DecodeError::Memory) => Err(Outcome::OutOfMemory),
    }
}

/// Returns the document of the first record that the input has left, and takes no octet after the record.
pub fn next_record<S: Source>(
    alloc: Global,
    opened: &Opened,
    typed: &RootModule,
    input: &mut S,
) -> Result<NextRecord, Outcome>
    requires { IsTypeOf opened.now.set opened.now.root (type_seen typed.now) }
    ensures due { Answers (λ next. (next.text.items, next.octets)) (FirstDocument (type_seen typed.now) (S.left input.old)) (OneRead (S.faults input.old) (S.faults input.new)) result }
    ensures back { IfOk result (λ next. FirstBack (opened_seen opened.now) (type_seen typed.now) (S.left input.old) (next.text.items, next.octets)) }
    ensures later { S.faults input.old ≤ S.faults input.new }
{
    let first = decode_first(alloc, typed, input)?;
    let text = record_text(alloc, opened, typed, &first.value)?;
    Ok(NextRecord {
        text,
        octets: first.octets,
    })
}
