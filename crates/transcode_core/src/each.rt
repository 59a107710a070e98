//! From records, one after another, to the texts of their values' documents.
ghost use Rattle.std.specs.Prelude.{◌≡◌, ◌⊎◌, ℕ, ◌≤◌, List, length, None, OnOk, IfOk, IfErr, Ok};
ghost use Rattle.std.specs.Io.KnownBytes.{Appends, IsAtEnd};
ghost use Rattle.base_texts.specs.Faults.{HasRisen};
ghost use Rattle.base_texts.specs.Bytes.{AppendsFront, LeavesRoom, LacksRoom};
ghost use Rattle.asn_values.specs.Values.{In};
ghost use Rattle.transcode_words.specs.Answers.{Answers, NoMemory};
ghost use Rattle.transcode_core.specs.Private.Seen.{opened_seen, type_seen};
ghost use Rattle.transcode_core.specs.Steps.{IsTypeOf, Written};
ghost use Rattle.transcode_core.specs.Each.{outcome_of};
ghost use Rattle.transcode_core.specs.Requests.Answers.{IsBack, TakesRecords};
ghost use Rattle.transcode_core.specs.Requests.Records.{EndsRecords, streams_of};

use crate::opened::{Opened, RootModule};
use crate::receiving::write_value;
use base_texts::{Failed, Sink, Source, write_all};
use record_stream::{RecordError, Records};
use simple_types::Value;
use std::alloc::Global;
use transcode_words::Outcome;
use value_laws::documents_of_values;

/// The greatest number of octets of the records of an input.
const LIMIT: u64 = 1_073_741_824;

/// The number of turns after which these octets are at their end: each record has at least one octet, and the last turn finds the end.
const TURNS: u64 = 1_073_741_825;

/// Returns the document of a record's value.
pub fn record_text(
    alloc: Global,
    opened: &Opened,
    typed: &RootModule,
    value: &Value,
) -> Result<Vec<u8>, Outcome>
    requires typed { IsTypeOf opened.now.set opened.now.root (type_seen typed.now) }
    requires value { In typed.now.module typed.now.number value.now }
    ensures due { Answers (λ text. text.items) (Written (type_seen typed.now) value.now) NoMemory result }
    ensures back { IfOk result (λ text. IsBack (opened_seen opened.now) (type_seen typed.now) value.now text.items) }
{
    documents_of_values();
    write_value(alloc, typed, value)
}

// Writes the document of a record's value.
fn write_record<K: Sink>(
    alloc: Global,
    opened: &Opened,
    typed: &RootModule,
    value: &Value,
    output: &mut K,
) -> Result<(), Outcome>
    requires typed { IsTypeOf opened.now.set opened.now.root (type_seen typed.now) }
    requires value { In typed.now.module typed.now.number value.now }
    ensures wrote { OnOk result ((text : List ℕ) × Written (type_seen typed.now) value.now (Ok text) × IsBack (opened_seen opened.now) (type_seen typed.now) value.now text
        × Appends (K.written output.old) (K.written output.new) text × LeavesRoom (K.free output.old) (K.free output.new) (length text)) }
    ensures stopped { IfErr result (λ o. ((o ≡ Outcome.OutOfMemory) × (output.new ≡ output.old))
        ⊎ ((o ≡ Outcome.WriteFault) × HasRisen (K.faults output.old) (K.faults output.new)
        × ((text : List ℕ) × Written (type_seen typed.now) value.now (Ok text) × IsBack (opened_seen opened.now) (type_seen typed.now) value.now text
        × AppendsFront (K.written output.old) (K.written output.new) text × LacksRoom (K.free output.old) (length text)))) }
    ensures later { K.faults output.old ≤ K.faults output.new }
{
    let text = record_text(alloc, opened, typed, value)?;
    match write_all(output, &text) {
        Ok(()) => Ok(()),
        Err(Failed) => Err(Outcome::WriteFault),
    }
}

// Returns the outcome where there is no next record.
fn ended(error: RecordError) -> Outcome
    ensures { result ≡ outcome_of error }
{
    match error {
        RecordError::Bad { number, bit, why } => Outcome::RecordFault { number, bit, why },
        RecordError::TooLong => Outcome::TooLong { file: 0 },
        RecordError::Failed => Outcome::ReadFault,
        RecordError::Memory => Outcome::OutOfMemory,
    }
}

// Writes the document of each record that is left, before the next record is requested.
fn write_each<S: Source, K: Sink>(
    alloc: Global,
    opened: &Opened,
    typed: &RootModule,
    records: &mut Records<S>,
    output: &mut K,
) -> Outcome
    requires typed { IsTypeOf opened.now.set opened.now.root (type_seen typed.now) }
    requires start { (records.old.octet ≡ None) × (records.old.room ≡ LIMIT) × (records.old.records ≡ 0) }
    ensures same_reference { records.new.source.ghost_name ≡ records.old.source.ghost_name }
    ensures streams { EndsRecords (opened_seen opened.now) (type_seen typed.now)
        (streams_of S.Source K.Sink records.old.source.now output.old) (streams_of S.Source K.Sink records.new.source.now output.new) result }
    ensures taken { TakesRecords (type_seen typed.now) (S.left records.old.source.now) (S.left records.new.source.now) }
    ensures reads { S.faults records.old.source.now ≤ S.faults records.new.source.now }
    ensures writes { K.faults output.old ≤ K.faults output.new }
    ensures end { result ≡ Outcome.Done → IsAtEnd (S.left records.new.source.now) }
{
    'records: for turn in 0..TURNS {
        match records.next(alloc, &typed.module, typed.number) {
            Ok(Some(value)) => match write_record(alloc, opened, typed, &value, output) {
                Ok(()) => {}
                Err(outcome) => return outcome,
            },
            Ok(None) => return Outcome::Done,
            Err(error) => return ended(error),
        }
    }
    Outcome::TooLong { file: 0 }
}

/// Writes the documents of the records that the input has left, of at most 1,073,741,824 octets in all. Each document is complete before
/// any of it is written, and it is written before the octet after its record is read.
pub fn write_records<S: Source, K: Sink>(
    alloc: Global,
    opened: &Opened,
    typed: &RootModule,
    input: &mut S,
    output: &mut K,
) -> Outcome
    requires { IsTypeOf opened.now.set opened.now.root (type_seen typed.now) }
    ensures streams { EndsRecords (opened_seen opened.now) (type_seen typed.now)
        (streams_of S.Source K.Sink input.old output.old) (streams_of S.Source K.Sink input.new output.new) result }
    ensures taken { TakesRecords (type_seen typed.now) (S.left input.old) (S.left input.new) }
    ensures reads { S.faults input.old ≤ S.faults input.new }
    ensures writes { K.faults output.old ≤ K.faults output.new }
    ensures end { result ≡ Outcome.Done → IsAtEnd (S.left input.new) }
{
    let mut records = Records::new(input, LIMIT);
    write_each(alloc, opened, typed, &mut records, output)
}
