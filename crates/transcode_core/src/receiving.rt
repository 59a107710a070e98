//! From the octets of an encoding to the text of its value's document.
ghost use Rattle.std.specs.Prelude.{◌≡◌, ◌<◌, ◌≤◌, IsTrue, IsFalse, List, ℕ, Some, length, IsErr, OnOk, IfOk, IfErr};
ghost use Rattle.std.specs.Io.KnownBytes.{IsAtEnd};
ghost use Rattle.base_texts.specs.Faults.{Counts};
ghost use Rattle.asn_values.specs.Values.{In};
ghost use Rattle.schema_components.specs.Components.{Set};
ghost use Rattle.transcode_core.specs.Private.Seen.{type_seen};
ghost use Rattle.transcode_core.specs.Steps.{IsTypeOf, Streamed, DecodedOf, Decoded, Written};
ghost use Rattle.transcode_core.specs.Syntaxes.{per_syntax};
ghost use Rattle.transcode_core.specs.ReadBack.{WrittenBack, DecodedBack};
ghost use Rattle.transcode_words.specs.Order.{Then};
ghost use Rattle.transcode_words.specs.Answers.{Answers, NoMemory};
ghost use Rattle.transcode_core.specs.Causes.{OneRead, TakesItsField, TakesOctets, IsOfInput};

use crate::eight_bits::see_octets;
use crate::files::read_input;
use crate::opened::RootModule;
use base_texts::{Failed, Source};
use der_decode::{DecodeError as DerError, decode_der};
use per_decode::{DecodeError, decode_by};
use per_fields::{Aligned, Unaligned, Variant};
use simple_types::Value;
use std::alloc::Global;
use transcode_words::{Outcome, Syntax};
use value_laws::items_are_sound;
use xer_write::text_of;

/// The greatest length of an encoding, in octets.
const LIMIT: u64 = 16_777_216;

// Whether the source is at its end. Else one octet is taken.
fn ends<S: Source>(input: &mut S) -> Result<bool, Failed>
    ensures end { IfOk result (λ ended. IsTrue ended → IsAtEnd (S.left input.old) × IsAtEnd (S.left input.new)) }
    ensures more { IfOk result (λ ended. IsFalse ended → (left : List ℕ) → S.left input.old ≡ Some left → 0 < length left) }
    ensures cause { Counts (S.faults input.old) (S.faults input.new) (IsErr result) }
{
    let mut octet = [0u8; 1];
    let count = input.read(&mut octet)?;
    Ok(count == 0)
}

// The value of which the input is the encoding in one of the two variants of canonical PER.
fn decode_per<S: Source, V: Variant>(
    alloc: Global,
    typed: &RootModule,
    input: &mut S,
) -> Result<Value, Outcome>
    requires { (set : Set) × (n : ℕ) × IsTypeOf set n (type_seen typed.now) }
    ensures due { Answers (λ value. value) (Streamed (per_syntax V.ALIGNED) (type_seen typed.now) (S.left input.old)) (OneRead (S.faults input.old) (S.faults input.new)) result }
    ensures kept { IfOk result (λ value. In typed.now.module typed.now.number value) }
    ensures end { OnOk result (IsAtEnd (S.left input.new)) }
    ensures stage { IfErr result IsOfInput }
    ensures taken { TakesItsField (per_syntax V.ALIGNED) (type_seen typed.now) (S.left input.old) (S.left input.new) }
    ensures later { S.faults input.old ≤ S.faults input.new }
{
    match decode_by::<S, V>(alloc, &typed.module, typed.number, input, LIMIT) {
        Ok(decoded) => match ends(input) {
            Ok(true) => Ok(decoded.value),
            Ok(false) => Err(Outcome::Trailing { at: decoded.octets }),
            Err(Failed) => Err(Outcome::ReadFault),
        },
        Err(DecodeError::Bad { bit, why }) => Err(Outcome::PerFault { bit, why }),
        Err(DecodeError::TooLong) => Err(Outcome::TooLong { file: 0 }),
        Err(DecodeError::Failed) => Err(Outcome::ReadFault),
        Err(DecodeError::Memory) => Err(Outcome::OutOfMemory),
    }
}

// The value of which these octets are the encoding in DER: all that there are.
fn decode_octets(alloc: Global, typed: &RootModule, octets: &[u8]) -> Result<Value, Outcome>
    requires typed { (set : Set) × (n : ℕ) × IsTypeOf set n (type_seen typed.now) }
    requires few { length octets.now ≤ 16777216 }
    ensures due { Answers (λ value. value) (DecodedOf Syntax.Der (type_seen typed.now) octets.now) NoMemory result }
    ensures kept { IfOk result (λ value. In typed.now.module typed.now.number value) }
    ensures stage { IfErr result IsOfInput }
{
    see_octets(octets);
    match decode_der(alloc, &typed.module, typed.number, octets) {
        Ok(decoded) => {
            if decoded.octets == octets.len() as u64 {
                Ok(decoded.value)
            } else {
                Err(Outcome::Trailing { at: decoded.octets })
            }
        }
        Err(DerError::Bad { at, why }) => Err(Outcome::DerFault { at, why }),
        Err(DerError::Memory) => Err(Outcome::OutOfMemory),
    }
}

// The value of which the whole input is the encoding in DER.
fn decode_whole<S: Source>(
    alloc: Global,
    typed: &RootModule,
    input: &mut S,
) -> Result<Value, Outcome>
    requires { (set : Set) × (n : ℕ) × IsTypeOf set n (type_seen typed.now) }
    ensures due { Answers (λ value. value) (Decoded Syntax.Der (type_seen typed.now) (S.left input.old)) (OneRead (S.faults input.old) (S.faults input.new)) result }
    ensures kept { IfOk result (λ value. In typed.now.module typed.now.number value) }
    ensures end { OnOk result (IsAtEnd (S.left input.new)) }
    ensures stage { IfErr result IsOfInput }
    ensures later { S.faults input.old ≤ S.faults input.new }
{
    let octets = read_input(alloc, input)?;
    decode_octets(alloc, typed, &octets)
}

// The value of which the input is the encoding.
fn decode_input<S: Source>(
    alloc: Global,
    syntax: Syntax,
    typed: &RootModule,
    input: &mut S,
) -> Result<Value, Outcome>
    requires { (set : Set) × (n : ℕ) × IsTypeOf set n (type_seen typed.now) }
    ensures due { Answers (λ value. value) (Decoded syntax (type_seen typed.now) (S.left input.old)) (OneRead (S.faults input.old) (S.faults input.new)) result }
    ensures kept { IfOk result (λ value. In typed.now.module typed.now.number value) }
    ensures end { OnOk result (IsAtEnd (S.left input.new)) }
    ensures stage { IfErr result IsOfInput }
    ensures taken { TakesOctets syntax (type_seen typed.now) (S.left input.old) (S.left input.new) }
    ensures later { S.faults input.old ≤ S.faults input.new }
{
    match syntax {
        Syntax::Aligned => decode_per::<S, Aligned>(alloc, typed, input),
        Syntax::Unaligned => decode_per::<S, Unaligned>(alloc, typed, input),
        Syntax::Der => decode_whole(alloc, typed, input),
    }
}

/// The document of the value.
pub fn write_value(alloc: Global, typed: &RootModule, value: &Value) -> Result<Vec<u8>, Outcome>
    requires typed { (set : Set) × (n : ℕ) × IsTypeOf set n (type_seen typed.now) }
    requires value { In typed.now.module typed.now.number value.now }
    ensures due { Answers (λ text. text.items) (Written (type_seen typed.now) value.now) NoMemory result }
    ensures back { IfOk result (λ text. WrittenBack (type_seen typed.now) value.now text.items) }
    ensures stage { IfErr result IsOfInput }
{
    items_are_sound();
    match text_of(alloc, &typed.module, typed.number, value) {
        Ok(text) => Ok(text),
        Err(_) => Err(Outcome::OutOfMemory),
    }
}

/// The document of the value of which the input is the encoding.
pub fn write_input<S: Source>(
    alloc: Global,
    syntax: Syntax,
    typed: &RootModule,
    input: &mut S,
) -> Result<Vec<u8>, Outcome>
    requires { (set : Set) × (n : ℕ) × IsTypeOf set n (type_seen typed.now) }
    ensures due { Answers (λ text. text.items)
        (Then (Decoded syntax (type_seen typed.now) (S.left input.old)) (λ value. Written (type_seen typed.now) value)) (OneRead (S.faults input.old) (S.faults input.new)) result }
    ensures back { IfOk result (λ text. DecodedBack syntax (type_seen typed.now) (S.left input.old) text.items) }
    ensures end { OnOk result (IsAtEnd (S.left input.new)) }
    ensures stage { IfErr result IsOfInput }
    ensures taken { TakesOctets syntax (type_seen typed.now) (S.left input.old) (S.left input.new) }
    ensures later { S.faults input.old ≤ S.faults input.new }
{
    let value = decode_input(alloc, syntax, typed, input)?;
    write_value(alloc, typed, &value)
}
