//! Writing a result, if there is one.
ghost use Rattle.std.specs.Prelude.{◌≡◌, ◌⊎◌, ◌≤◌, length, MatchResult};
ghost use Rattle.std.specs.Io.KnownBytes.{Appends};
ghost use Rattle.base_texts.specs.Faults.{HasRisen};
ghost use Rattle.base_texts.specs.Bytes.{AppendsFront, LacksRoom};

use base_texts::{Failed, Sink, write_all};
use transcode_words::Outcome;

/// Writes the result, and returns the outcome. Writes nothing of a rejection.
pub fn deliver<K: Sink>(made: Result<Vec<u8>, Outcome>, output: &mut K) -> Outcome
    ensures written { MatchResult made
        (λ bytes. ((result ≡ Outcome.Done) × Appends (K.written output.old) (K.written output.new) bytes.items)
        ⊎ ((result ≡ Outcome.WriteFault) × HasRisen (K.faults output.old) (K.faults output.new)
        × AppendsFront (K.written output.old) (K.written output.new) bytes.items × LacksRoom (K.free output.old) (length bytes.items)))
        (λ o. (result ≡ o) × (output.new ≡ output.old)) }
    ensures later { K.faults output.old ≤ K.faults output.new }
{
    match made {
        Ok(bytes) => match write_all(output, &bytes) {
            Ok(()) => Outcome::Done,
            Err(Failed) => Outcome::WriteFault,
        },
        Err(outcome) => outcome,
    }
}
