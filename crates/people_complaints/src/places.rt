//! The place of a fault, as a complaint writes it.
ghost use Rattle.std.specs.Prelude.{◌≡◌, ◌++◌, ◌≤◌, [], codes, decimal, length, IfOk, OnOk, string_bytes};
ghost use Rattle.people_complaints.specs.Complaints.{IsByte, IsPlaceOf, IsUnit};
ghost use Rattle.people_complaints.specs.Places.{IsPlaced};

use crate::excerpts::excerpt;
use crate::lines::spot_at;
use base_texts::Memory;
use itoa::Buffer;
use std::alloc::{AllocError, Global};
use transcode_words::Outcome;

/// A place, as it follows the name of the text, and the excerpt that shows it, which may be empty.
#[derive(Drop)]
pub struct Place {
    pub text: String,
    pub excerpt: String,
}

// Appends words and a number in decimal digits.
fn put_number(text: &mut String, words: &str, number: u64) -> Result<(), AllocError>
    ensures { OnOk result (string_bytes text.new ≡ string_bytes text.old ++ words.now ++ decimal number) }
{
    let mut digits = Buffer::new();
    text.push_str(words)?;
    text.push_str(digits.format(number))
}

// Returns no place.
fn nowhere(alloc: Global) -> Place
    ensures text { string_bytes result.text ≡ [] }
    ensures excerpt { string_bytes result.excerpt ≡ [] }
{
    Place {
        text: String::new(alloc),
        excerpt: String::new(alloc),
    }
}

// Returns the place of a unit, as a bit, after these words.
fn unit(alloc: Global, words: &str, number: u64) -> Result<Place, Memory>
    ensures { IfOk result (λ place. IsUnit words.now number (string_bytes place.text) (string_bytes place.excerpt)) }
{
    let mut place = nowhere(alloc);
    put_number(&mut place.text, words, number)?;
    Ok(place)
}

// Returns the place of a bit of a record.
fn record_bit(alloc: Global, number: u64, bit: u64) -> Result<Place, Memory>
    ensures { IfOk result (λ place. IsUnit (codes ": record " ++ decimal number ++ codes ", bit ") bit (string_bytes place.text) (string_bytes place.excerpt)) }
{
    let mut place = nowhere(alloc);
    put_number(&mut place.text, ": record ", number)?;
    put_number(&mut place.text, ", bit ", bit)?;
    Ok(place)
}

// Returns the place of a byte of the contents.
fn line_and_column(alloc: Global, contents: &[u8], at: usize) -> Result<Place, Memory>
    requires { at ≤ length contents.now }
    ensures { IfOk result (λ place. IsPlaced contents.now at (string_bytes place.text) (string_bytes place.excerpt)) }
{
    let spot = spot_at(contents, at);
    let excerpt = excerpt(alloc, spot)?;
    let mut text = String::new(alloc);
    put_number(&mut text, ":", spot.line)?;
    put_number(&mut text, ":", spot.column())?;
    Ok(Place { text, excerpt })
}

// Returns the place of a byte, which may follow the contents.
fn byte(alloc: Global, contents: &[u8], at: u64) -> Result<Place, Memory>
    ensures { IfOk result (λ place. IsByte contents.now at (string_bytes place.text) (string_bytes place.excerpt)) }
{
    if at <= contents.len() as u64 {
        line_and_column(alloc, contents, at as usize)
    } else {
        unit(alloc, ": byte ", at)
    }
}

/// Returns the place of an outcome in a text with these contents.
pub fn place_of(alloc: Global, outcome: Outcome, contents: &[u8]) -> Result<Place, Memory>
    ensures { IfOk result (λ place. IsPlaceOf outcome contents.now (string_bytes place.text) (string_bytes place.excerpt)) }
{
    match outcome {
        Outcome::SchemaSyntax { at, .. }
        | Outcome::SchemaFault { at, .. }
        | Outcome::LinkFault { at, .. }
        | Outcome::DocSyntax { at, .. }
        | Outcome::Invalid { at, .. }
        | Outcome::ModuleFault { at, .. } => byte(alloc, contents, at),
        Outcome::PerFault { bit, .. } => unit(alloc, ": bit ", bit),
        Outcome::RecordFault { number, bit, .. } => record_bit(alloc, number, bit),
        Outcome::DerFault { at, .. } | Outcome::Trailing { at } => unit(alloc, ": octet ", at),
        Outcome::Done
        | Outcome::Usage
        | Outcome::UnknownRoot
        | Outcome::Stamp
        | Outcome::TooLong { .. }
        | Outcome::TooManyNodes { .. }
        | Outcome::LoadFault { .. }
        | Outcome::ReadFault
        | Outcome::WriteFault
        | Outcome::OutOfMemory => Ok(nowhere(alloc)),
    }
}
