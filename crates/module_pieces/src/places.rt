//! The places of items and alternatives.
ghost use Rattle.std.specs.Prelude.{◌≡◌, ℕ, List, IfOk, OnOk, position, bytes_eq};
ghost use Rattle.indexmap.specs.IndexMap.{get};
ghost use Rattle.module_text.specs.declared.types.NumberedItem.{NumberedItem};
ghost use Rattle.module_text.specs.declared.types.PlainName.{PlainName};
ghost use Rattle.module_text.specs.declared.types.PlainPart.{PlainPart};
ghost use Rattle.module_pieces.specs.Indexed.{Notes, place_in};

use base_texts::{Memory, Text};
use indexmap::IndexMap;
use module_text::{NumberedItem, PlainForm, PlainName, PlainPart};
use std::alloc::Global;

// Adds the place of one more identifier, unless it is already there.
fn note(
    alloc: Global,
    places: &mut IndexMap<Text, usize>,
    identifier: &Text,
    i: usize,
) -> Result<(), Memory>
    ensures { OnOk result (Notes (get bytes_eq places.old) identifier.now i (get bytes_eq places.new)) }
{
    if places.contains_key(identifier) {
        return Ok(());
    }
    places.insert(identifier.copy(alloc)?, i)?;
    Ok(())
}

// Returns the place of the first item with each identifier, among items with numbers.
fn number_places(alloc: Global, items: &[NumberedItem]) -> Result<IndexMap<Text, usize>, Memory>
    ensures { IfOk result (λ places. (identifier : List ℕ) →
        get bytes_eq places identifier ≡ position (λ (i : NumberedItem). bytes_eq i.identifier.name identifier) items.now) }
{
    let mut places = IndexMap::new(alloc);
    'items: for (i, item) in items.iter().enumerate() {
        note(alloc, &mut places, &item.identifier.name, i)?;
    }
    Ok(places)
}

// Returns the place of the first item with each identifier, among items without numbers.
fn word_places(alloc: Global, names: &[PlainName]) -> Result<IndexMap<Text, usize>, Memory>
    ensures { IfOk result (λ places. (identifier : List ℕ) →
        get bytes_eq places identifier ≡ position (λ (i : PlainName). bytes_eq i.name identifier) names.now) }
{
    let mut places = IndexMap::new(alloc);
    'names: for (i, name) in names.iter().enumerate() {
        note(alloc, &mut places, &name.name, i)?;
    }
    Ok(places)
}

// Returns the place of the first alternative with each identifier.
fn part_places(alloc: Global, parts: &[PlainPart]) -> Result<IndexMap<Text, usize>, Memory>
    ensures { IfOk result (λ places. (identifier : List ℕ) →
        get bytes_eq places identifier ≡ position (λ (p : PlainPart). bytes_eq p.identifier identifier) parts.now) }
{
    let mut places = IndexMap::new(alloc);
    'parts: for (i, part) in parts.iter().enumerate() {
        note(alloc, &mut places, &part.identifier, i)?;
    }
    Ok(places)
}

/// Returns the place of the first item or alternative with each identifier.
pub(crate) fn places_of(alloc: Global, form: &PlainForm) -> Result<IndexMap<Text, usize>, Memory>
    ensures { IfOk result (λ places. (identifier : List ℕ) → get bytes_eq places identifier ≡ place_in form.now identifier) }
{
    match form {
        PlainForm::Numbers { items } => number_places(alloc, items.items()),
        PlainForm::Words { identifiers } => word_places(alloc, identifiers.items()),
        PlainForm::Choice { parts } => part_places(alloc, parts.items()),
        _ => Ok(IndexMap::new(alloc)),
    }
}
