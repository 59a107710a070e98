//! Items of an ENUMERATED.
ghost use Rattle.std.specs.Prelude.{◌≤◌, length, codes};
ghost use Rattle.module_grammar.specs.Reading.{behind_at};
ghost use Rattle.module_grammar.specs.NameReading.{plain_identifier_at};
ghost use Rattle.module_grammar.specs.ValueReading.{listed_at};
ghost use Rattle.module_grammar.specs.TypeReading.{numbered_at, enumerated_at};
ghost use Rattle.module_parse.specs.Reads.{Reads, ReadsList, Stays, Moves};
ghost use Rattle.module_parse.specs.Readers.{enumerated_form_at};

use crate::names::{number, plain_identifier};
use crate::steps::{again, literal, nothing};
use module_grammar::{Reach, Stop};
use module_text::{NumberedItem, PlainForm, PlainList, PlainName};
use std::alloc::Global;

fn numbered_item(alloc: Global, bytes: &[u8], from: Reach) -> Result<(NumberedItem, Reach), Stop>
    requires { from.at ≤ length bytes.now }
    ensures value { Reads numbered_at bytes.now from result }
    ensures within { Moves (length bytes.now) from result }
{
    let (identifier, opening) = plain_identifier(alloc, bytes, from)?;
    let inside = literal(b"(", bytes, opening)?;
    let (number, closing) = number(alloc, bytes, inside)?;
    let next = literal(b")", bytes, closing)?;
    Ok((NumberedItem { identifier, number }, next))
}

fn another_item(alloc: Global, bytes: &[u8], from: Reach) -> Result<(NumberedItem, Reach), Stop>
    requires { from.at ≤ length bytes.now }
    ensures value { Reads (behind_at (codes ", ") numbered_at) bytes.now from result }
    ensures within { Moves (length bytes.now) from result }
{
    let start = literal(b", ", bytes, from)?;
    numbered_item(alloc, bytes, start)
}

// Reads items with a comma between each two.
fn listed_items(
    alloc: Global,
    bytes: &[u8],
    from: Reach,
) -> Result<(Vec<NumberedItem>, Reach), Stop>
    requires { from.at ≤ length bytes.now }
    ensures value { ReadsList (listed_at (codes ", ") numbered_at) bytes.now from result }
    ensures within { Stays (length bytes.now) from result }
{
    let (first, behind) = numbered_item(alloc, bytes, from)?;
    let mut items = Vec::new(alloc);
    items.push(first)?;
    let mut next = behind;
    'items: loop {
        match another_item(alloc, bytes, next) {
            Ok((other, behind)) => {
                items.push(other)?;
                next = behind;
            }
            Err(stop) => {
                let end = again(next, stop)?;
                return Ok((items, end));
            }
        }
    }
}

// Reads items in braces.
fn items(alloc: Global, bytes: &[u8], from: Reach) -> Result<(PlainList<NumberedItem>, Reach), Stop>
    requires { from.at ≤ length bytes.now }
    ensures value { Reads (enumerated_at numbered_at) bytes.now from result }
    ensures within { Moves (length bytes.now) from result }
{
    let inside = literal(b" { ", bytes, from)?;
    let (listed, end) = listed_items(alloc, bytes, inside)?;
    let next = literal(b" }", bytes, end)?;
    Ok((PlainList::of(listed), next))
}

fn another_name(alloc: Global, bytes: &[u8], from: Reach) -> Result<(PlainName, Reach), Stop>
    requires { from.at ≤ length bytes.now }
    ensures value { Reads (behind_at (codes ", ") plain_identifier_at) bytes.now from result }
    ensures within { Moves (length bytes.now) from result }
{
    let start = literal(b", ", bytes, from)?;
    plain_identifier(alloc, bytes, start)
}

// Reads identifiers with a comma between each two.
fn listed_names(alloc: Global, bytes: &[u8], from: Reach) -> Result<(Vec<PlainName>, Reach), Stop>
    requires { from.at ≤ length bytes.now }
    ensures value { ReadsList (listed_at (codes ", ") plain_identifier_at) bytes.now from result }
    ensures within { Stays (length bytes.now) from result }
{
    let (first, behind) = plain_identifier(alloc, bytes, from)?;
    let mut names = Vec::new(alloc);
    names.push(first)?;
    let mut next = behind;
    'names: loop {
        match another_name(alloc, bytes, next) {
            Ok((other, behind)) => {
                names.push(other)?;
                next = behind;
            }
            Err(stop) => {
                let end = again(next, stop)?;
                return Ok((names, end));
            }
        }
    }
}

// Reads identifiers in braces.
fn names(alloc: Global, bytes: &[u8], from: Reach) -> Result<(PlainList<PlainName>, Reach), Stop>
    requires { from.at ≤ length bytes.now }
    ensures value { Reads (enumerated_at plain_identifier_at) bytes.now from result }
    ensures within { Moves (length bytes.now) from result }
{
    let inside = literal(b" { ", bytes, from)?;
    let (listed, end) = listed_names(alloc, bytes, inside)?;
    let next = literal(b" }", bytes, end)?;
    Ok((PlainList::of(listed), next))
}

/// Reads what follows ENUMERATED, if anything does. Otherwise the word is a reference.
pub fn enumerated(
    alloc: Global,
    name: PlainName,
    bytes: &[u8],
    from: Reach,
) -> Result<(PlainForm, Reach), Stop>
    requires { from.at ≤ length bytes.now }
    ensures value { Reads (enumerated_form_at name) bytes.now from result }
    ensures within { Stays (length bytes.now) from result }
{
    let other = match items(alloc, bytes, from) {
        Ok((items, next)) => return Ok((PlainForm::Numbers { items }, next)),
        Err(stop) => again(from, stop)?,
    };
    match names(alloc, bytes, other) {
        Ok((identifiers, next)) => Ok((PlainForm::Words { identifiers }, next)),
        Err(stop) => {
            let end = again(other, stop)?;
            Ok((PlainForm::Ref { reference: name }, nothing(end)))
        }
    }
}
