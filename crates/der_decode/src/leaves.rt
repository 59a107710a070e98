//! Contents that are octets, and fill all that remain (X.690, clauses 8.2 to 8.4 and 8.23).
ghost use Rattle.std.specs.Prelude.{◌≡◌, ◌<◌, ◌≤◌, ◌^◌, ◌⊎◌, false, true, drop, IfOk, IfErr, IsUtf8, length};
ghost use Rattle.simple_types.specs.Labels.{MayHave};
ghost use Rattle.simple_types.specs.declared.labels.ValueLabel.TheVariants as value;
ghost use Rattle.per_fields.specs.Nodes.{is_no_text};
ghost use Rattle.der_fields.specs.FieldsReading.{stop_at};
ghost use Rattle.der_fields.specs.Reading.{bool_at, int_at, enum_at, item_below, item_with};
ghost use Rattle.der_decode.specs.Private.Leaves.{IsLeaf, IsLeafAt, IsPlain, Reads, ReadsLeaf, StopsLeaf};

use crate::faults::DerEnd;
use crate::wholes::whole;
use asn_types::Form;
use base_codecs::Spot;
use base_texts::{Text, TextError};
use der_fields::{Stop, Why};
use simple_types::{Integer, ValueLabel, is_within, place_of};
use std::alloc::Global;

// Reads a BOOLEAN (clauses 8.2 and 11.1).
fn boolean(octets: &[u8], spot: Spot) -> Result<ValueLabel, Stop>
    requires { spot.at ≤ length octets.now }
    ensures kids { IfOk result (λ label. MayHave label 0) }
    ensures text { IfOk result (λ label. is_no_text label ≡ false) }
    ensures reads { Reads bool_at octets.now spot result }
{
    let contents = &octets[spot.at as usize..];
    let stop = Stop {
        at: spot.at,
        why: Why::Content,
    };
    if contents.len() != 1 {
        return Err(stop);
    }
    match contents[0] {
        0x00 => Ok(ValueLabel::Bool(false)),
        0xFF => Ok(ValueLabel::Bool(true)),
        _ => Err(stop),
    }
}

// Reads an INTEGER (clause 8.3).
fn integer(
    lo: Option<i128>,
    hi: Option<i128>,
    octets: &[u8],
    spot: Spot,
) -> Result<ValueLabel, Stop>
    requires { spot.at ≤ length octets.now }
    ensures kids { IfOk result (λ label. MayHave label 0) }
    ensures text { IfOk result (λ label. is_no_text label ≡ false) }
    ensures reads { Reads (int_at lo hi) octets.now spot result }
{
    let z = whole(octets, spot)?;
    if is_within(lo, hi, z) {
        return Ok(ValueLabel::Int(Integer::of(z)));
    }
    Err(Stop {
        at: spot.at,
        why: Why::Range,
    })
}

// Returns the item with a number, if the items have the numbers from 0 on.
fn item_below(items: usize, z: i128) -> Option<u32>
    requires { items < 2 ^ 32 }
    ensures { result ≡ item_below items z }
{
    if 0 <= z && z < items as i128 {
        return Some(z as u32);
    }
    None
}

// Returns the item with a number.
fn item_with(form: &Form, z: i128) -> Option<u32>
    requires { IsLeaf form.now }
    ensures { result ≡ item_with form.now z }
{
    match form {
        Form::Numbers { numbers } => place_of(numbers.items(), z),
        Form::Words { words, .. } => item_below(words.items().len(), z),
        Form::Order { identifiers } => item_below(identifiers.items().len(), z),
        _ => None,
    }
}

// Reads an ENUMERATED (clause 8.4).
fn enumerated(form: &Form, octets: &[u8], spot: Spot) -> Result<ValueLabel, Stop>
    requires leaf { IsLeaf form.now }
    requires inside { spot.at ≤ length octets.now }
    ensures kids { IfOk result (λ label. MayHave label 0) }
    ensures text { IfOk result (λ label. is_no_text label ≡ false) }
    ensures reads { Reads (enum_at form.now) octets.now spot result }
{
    let z = whole(octets, spot)?;
    match item_with(form, z) {
        Some(i) => Ok(ValueLabel::Enum(i)),
        None => Err(Stop {
            at: spot.at,
            why: Why::Range,
        }),
    }
}

// Reads contents that are not a text.
fn plain(form: &Form, octets: &[u8], spot: Spot) -> Result<ValueLabel, Stop>
    requires plain { IsPlain form.now }
    requires inside { spot.at ≤ length octets.now }
    ensures kids { IfOk result (λ label. MayHave label 0) }
    ensures text { IfOk result (λ label. is_no_text label ≡ false) }
    ensures reads { ReadsLeaf form.now octets.now spot result }
{
    match form {
        Form::Bool => boolean(octets, spot),
        Form::Int { lo, hi } => integer(*lo, *hi, octets, spot),
        _ => enumerated(form, octets, spot),
    }
}

// Reads a text of a node that begins at an octet (clause 8.23).
fn text(alloc: Global, octets: &[u8], begin: u64, spot: Spot) -> Result<ValueLabel, DerEnd>
    requires { spot.at ≤ length octets.now }
    ensures ok { IfOk result (λ label. (label ≡ value.Utf8 (drop spot.at octets.now)) × IsUtf8 (drop spot.at octets.now)) }
    ensures err { IfErr result (λ fault. (fault ≡ DerEnd.Memory) ⊎ ((fault ≡ DerEnd.Stopped (stop_at begin Why.NotUtf8)) × (IsUtf8 (drop spot.at octets.now) → ⊥))) }
{
    match Text::of(alloc, &octets[spot.at as usize..]) {
        Ok(text) => Ok(ValueLabel::Utf8(text)),
        Err(TextError::NotUtf8) => Err(DerEnd::Stopped(Stop {
            at: begin,
            why: Why::NotUtf8,
        })),
        Err(TextError::Memory) => Err(DerEnd::Memory),
    }
}

/// Returns the label of a node of a type of this form that begins at an octet. Its contents are all octets that remain. That a text
/// is UTF-8 is a rule of its node, so that fault is reported where the node begins.
pub(crate) fn leaf(
    alloc: Global,
    form: &Form,
    octets: &[u8],
    begin: u64,
    spot: Spot,
) -> Result<ValueLabel, DerEnd>
    requires leaf { IsLeaf form.now }
    requires inside { spot.at ≤ length octets.now }
    ensures kids { IfOk result (λ label. MayHave label 0) }
    ensures text { IfOk result (λ label. is_no_text label ≡ false) }
    ensures ok { IfOk result (λ label. IsLeafAt form.now octets.now spot label) }
    ensures stopped { IfErr result (λ fault. StopsLeaf form.now octets.now begin spot fault) }
{
    match form {
        Form::Utf8 { .. } => text(alloc, octets, begin, spot),
        _ => {
            let label = plain(form, octets, spot)?;
            Ok(label)
        }
    }
}
