//! Indexes of types.
ghost use Rattle.std.specs.Prelude.{◌≡◌, None, Some, IfOk, MatchOption, option_and_then, slice_get, bytes_eq};
ghost use Rattle.indexmap.specs.IndexMap.{get};
ghost use Rattle.module_text.specs.Defaults as rule;
ghost use Rattle.module_pieces.specs.Indexed.{IsIndex, Indexes, AreIndexes, IsKept, number_at, words_in, may_name};

use crate::places::places_of;
use crate::type_marks::{has_list, has_use_union};
use crate::words::written_words;
use base_texts::{Memory, Text};
use base_trees::Tree;
use indexmap::IndexMap;
use module_text::{NumberedItem, PlainAssignment, PlainForm, PlainLabel, Written};
use std::alloc::Global;

/// The places of the items or the alternatives of a type, by their identifiers, and the words that items represent.
#[derive(Drop)]
pub struct Index {
    places: IndexMap<Text, usize>,
    words: Vec<Written>,
}

// Returns the words that the items represent.
fn words_of(alloc: Global, label: &PlainLabel) -> Result<Vec<Written>, Memory>
    ensures { IfOk result (λ words. words.items ≡ words_in label.now) }
{
    match &label.form {
        PlainForm::Words { identifiers } => {
            written_words(alloc, label.marks.items(), identifiers.items())
        }
        _ => Ok(Vec::new(alloc)),
    }
}

// Returns the number of the item at this place, as it is written.
fn number_at(items: &[NumberedItem], place: Option<usize>) -> Option<&[u8]>
    ensures { MatchOption result (number_at items.now place ≡ None) (λ text. number_at items.now place ≡ Some text.now) }
{
    let item = items.get(place?)?;
    Some(item.number.written.bytes())
}

// Returns the word at this place.
fn word_at(words: &[Written], place: Option<usize>) -> Option<&[u8]>
    ensures { MatchOption result
        (option_and_then (slice_get words.now) place ≡ None)
        (λ text. option_and_then (slice_get words.now) place ≡ Some text.now) }
{
    let word = words.get(place?)?;
    Some(word.bytes())
}

impl Index {
    // Returns the index of a type with this label.
    fn of(alloc: Global, label: &PlainLabel) -> Result<Index, Memory>
        ensures { IfOk result (λ index. IsIndex index label.now) }
    {
        let places = places_of(alloc, &label.form)?;
        let words = words_of(alloc, label)?;
        Ok(Index { places, words })
    }

    fn place(&self, identifier: &Text) -> Option<usize>
        ensures { result ≡ get bytes_eq self.now.places identifier.now }
    {
        self.places.get(identifier).copied()
    }

    /// Returns the spelling of the item with this identifier: its number as it is written, or its word.
    pub fn item<'a>(&'a self, label: &'a PlainLabel, identifier: &Text) -> Option<&'a [u8]>
        requires { IsIndex self.now label.now }
        ensures { MatchOption result
            (rule.item_named label.now identifier.now ≡ None)
            (λ text. rule.item_named label.now identifier.now ≡ Some text.now) }
    {
        match &label.form {
            PlainForm::Numbers { items } => number_at(items.items(), self.place(identifier)),
            PlainForm::Words { .. } => word_at(&self.words, self.place(identifier)),
            _ => None,
        }
    }

    /// Returns the place of the alternative with this identifier.
    pub fn alternative(&self, label: &PlainLabel, identifier: &Text) -> Option<usize>
        requires { IsIndex self.now label.now }
        ensures { result ≡ rule.alternative_named label.now.form identifier.now }
    {
        match &label.form {
            PlainForm::Choice { .. } => self.place(identifier),
            _ => None,
        }
    }
}

/// Returns the index of a type and of each type nested in it. The time is linear in the type.
pub fn index_of(alloc: Global, node: &Tree<PlainLabel>) -> Result<Tree<Index>, Memory>
    ensures { IfOk result (λ index. Indexes index node.now) }
{
    let own = Index::of(alloc, node.label())?;
    let kids = node.kids();
    let mut indexes = Vec::with_capacity(alloc, kids.len())?;
    'kids: for kid in kids {
        indexes.push(index_of(alloc, kid)?)?;
    }
    Ok(Tree::join(own, indexes))
}

// Returns whether values at a type with this label may name items or alternatives.
fn may_name(label: &PlainLabel) -> bool
    ensures { result ≡ may_name label.now }
{
    match &label.form {
        PlainForm::Numbers { .. } => true,
        PlainForm::Words { .. } => true,
        PlainForm::Choice { .. } => has_use_union(label.marks.items()),
        PlainForm::SequenceOf { .. } => has_list(label.marks.items()),
        _ => false,
    }
}

// Returns the index of a type, if values at it may name items or alternatives.
fn kept_index(alloc: Global, node: &Tree<PlainLabel>) -> Result<Option<Tree<Index>>, Memory>
    ensures { IfOk result (λ kept. IsKept kept node.now) }
{
    if !may_name(node.label()) {
        return Ok(None);
    }
    let index = index_of(alloc, node)?;
    Ok(Some(index))
}

/// Returns the index of the type of each assignment, if values at it may name items or alternatives. The time is linear in the
/// types.
pub fn indexes_of(
    alloc: Global,
    assignments: &[PlainAssignment],
) -> Result<Vec<Option<Tree<Index>>>, Memory>
    ensures { IfOk result (λ indexes. AreIndexes indexes.items assignments.now) }
{
    let mut indexes = Vec::with_capacity(alloc, assignments.len())?;
    'assignments: for assignment in assignments {
        indexes.push(kept_index(alloc, &assignment.body)?)?;
    }
    Ok(indexes)
}
