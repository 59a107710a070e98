//! From the items of a document to the encoding of its value.
ghost use Rattle.std.specs.Prelude.{◌+◌, ◌*◌, ◌≤◌, IfOk, OnOk, IfErr};
ghost use Rattle.xml_items.specs.Counts.{element_count};
ghost use Rattle.asn_values.specs.Values.{In};
ghost use Rattle.transcode_core.specs.Private.Seen.{opened_seen, type_seen};
ghost use Rattle.transcode_core.specs.Steps.{RootType, IsTypeOf, ValueIn, Encoding};
ghost use Rattle.transcode_core.specs.Syntaxes.{per_syntax};
ghost use Rattle.transcode_words.specs.Answers.{Answers, NoMemory};
ghost use Rattle.transcode_core.specs.Causes.{IsOfInput};

use crate::eight_bits::see_octets;
use crate::opened::{Opened, RootModule};
use base_texts::Steps;
use der_encode::encode_der;
use per_encode::encode_by;
use per_fields::{Aligned, Unaligned, Variant};
use simple_types::Value;
use std::alloc::Global;
use std::sync::ledger::Ledger;
use transcode_words::{Outcome, Syntax};
use xer_read::{ReadValueError, read_value};
use xml_read::Items;

/// The value of the document, if it is valid: one value, in the map of the set.
pub fn value_of<L: Ledger>(
    alloc: Global,
    opened: &Opened,
    items: &Items,
    steps: &mut Steps<L>,
) -> Result<Value, Outcome>
    ensures due { (type : RootType) → IsTypeOf opened.now.set opened.now.root type
        → Answers (λ value. value) (ValueIn (opened_seen opened.now) type items.now) NoMemory result }
    ensures kept { (type : RootType) → IsTypeOf opened.now.set opened.now.root type → IfOk result (λ value. In type.assignments type.number value) }
    ensures stage { IfErr result IsOfInput }
    ensures most { steps.new ≤ steps.old + 144 * element_count items.now }
    ensures later { steps.old ≤ steps.new }
    ensures least { OnOk result (steps.old + element_count items.now ≤ steps.new + 1) }
{
    match read_value(alloc, &opened.set, opened.root, items, steps) {
        Ok(value) => Ok(value),
        Err(ReadValueError::Invalid { at, why }) => Err(Outcome::Invalid { at, why }),
        Err(ReadValueError::TooManyNodes { count }) => Err(Outcome::TooManyNodes { count }),
        Err(ReadValueError::Memory) => Err(Outcome::OutOfMemory),
    }
}

// The encoding of the value in one of the two variants of canonical PER.
fn encode_per<V: Variant>(
    alloc: Global,
    typed: &RootModule,
    value: &Value,
) -> Result<Vec<u8>, Outcome>
    requires { In typed.now.module typed.now.number value.now }
    ensures due { Answers (λ octets. octets.items) (Encoding (per_syntax V.ALIGNED) (type_seen typed.now) value.now) NoMemory result }
    ensures stage { IfErr result IsOfInput }
{
    match encode_by::<V>(alloc, &typed.module, typed.number, value) {
        Ok(octets) => {
            see_octets(&octets);
            Ok(octets)
        }
        Err(_) => Err(Outcome::OutOfMemory),
    }
}

// The encoding of the value in DER.
fn encode_distinguished(
    alloc: Global,
    typed: &RootModule,
    value: &Value,
) -> Result<Vec<u8>, Outcome>
    requires { In typed.now.module typed.now.number value.now }
    ensures due { Answers (λ octets. octets.items) (Encoding Syntax.Der (type_seen typed.now) value.now) NoMemory result }
    ensures stage { IfErr result IsOfInput }
{
    match encode_der(alloc, &typed.module, typed.number, value) {
        Ok(octets) => Ok(octets),
        Err(_) => Err(Outcome::OutOfMemory),
    }
}

/// The encoding of the value.
pub fn encode_value(
    alloc: Global,
    syntax: Syntax,
    typed: &RootModule,
    value: &Value,
) -> Result<Vec<u8>, Outcome>
    requires { In typed.now.module typed.now.number value.now }
    ensures due { Answers (λ octets. octets.items) (Encoding syntax (type_seen typed.now) value.now) NoMemory result }
    ensures stage { IfErr result IsOfInput }
{
    match syntax {
        Syntax::Aligned => encode_per::<Aligned>(alloc, typed, value),
        Syntax::Unaligned => encode_per::<Unaligned>(alloc, typed, value),
        Syntax::Der => encode_distinguished(alloc, typed, value),
    }
}
