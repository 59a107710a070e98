//! References and the assignments that they reach.
ghost use Rattle.std.specs.Prelude.{◌≡◌, ◌<◌, length, Some, None, IfOk, OnOk, IfSome, MatchOption, bytes_eq};
ghost use Rattle.indexmap.specs.IndexMap.{get};
ghost use Rattle.module_text.specs.Resolving as rule;
ghost use Rattle.module_pieces.specs.Indexed.{Indexes};
ghost use Rattle.module_check.specs.Known.{Knows, NotesReference};

use base_texts::{Memory, Text};
use base_trees::Tree;
use indexmap::IndexMap;
use module_pieces::{Index, indexes_of};
use module_text::{PlainAssignment, PlainForm, PlainLabel};
use std::alloc::Global;

/// The number of the first assignment with each reference, and the index of the type of each assignment.
#[derive(Drop)]
pub struct References {
    numbers: IndexMap<Text, usize>,
    /// None if values at the type name no items and no alternatives.
    indexes: Vec<Option<Tree<Index>>>,
}

// Adds the number of one more reference, unless it is already there.
fn note(
    alloc: Global,
    numbers: &mut IndexMap<Text, usize>,
    reference: &Text,
    i: usize,
) -> Result<(), Memory>
    ensures { OnOk result (NotesReference (get bytes_eq numbers.old) reference.now i (get bytes_eq numbers.new)) }
{
    if numbers.contains_key(reference) {
        return Ok(());
    }
    numbers.insert(reference.copy(alloc)?, i)?;
    Ok(())
}

impl References {
    /// Returns the references of these assignments.
    pub fn of(alloc: Global, assignments: &[PlainAssignment]) -> Result<References, Memory>
        ensures { IfOk result (λ table. Knows table assignments.now) }
    {
        let mut numbers = IndexMap::new(alloc);
        'assignments: for (i, assignment) in assignments.iter().enumerate() {
            note(alloc, &mut numbers, &assignment.reference, i)?;
        }
        let indexes = indexes_of(alloc, assignments)?;
        Ok(References { numbers, indexes })
    }

    /// Returns the number of the first assignment with this reference.
    pub fn number_of(&self, reference: &Text, assignments: &[PlainAssignment]) -> Option<usize>
        requires { Knows self.now assignments.now }
        ensures number { result ≡ rule.number_of assignments.now reference.now }
        ensures within { IfSome result (λ k. k < length assignments.now) }
    {
        self.numbers.get(reference).copied()
    }

    // Returns the number of the assignment that one reference reaches.
    fn next(&self, assignments: &[PlainAssignment], node: &Tree<PlainLabel>) -> Option<usize>
        requires { Knows self.now assignments.now }
        ensures { MatchOption result
            (rule.next assignments.now node.now ≡ None)
            (λ k. (k < length assignments.now) × (rule.next assignments.now node.now ≡ rule.body_at assignments.now k)) }
    {
        match &node.label().form {
            PlainForm::Ref { reference } => self.number_of(&reference.name, assignments),
            _ => None,
        }
    }

    /// Returns the number of the assignment that the references of a type reach, through four references at most. None if they
    /// reach none.
    pub fn number_meant(
        &self,
        assignments: &[PlainAssignment],
        node: &Tree<PlainLabel>,
    ) -> Option<usize>
        requires { Knows self.now assignments.now }
        ensures { MatchOption result
            (rule.resolve assignments.now node.now ≡ node.now)
            (λ k. (k < length assignments.now) × (rule.body_at assignments.now k ≡ Some (rule.resolve assignments.now node.now))) }
    {
        let mut found = None;
        let mut at = node;
        'references: for step in 0..4u32 {
            let Some(number) = self.next(assignments, at) else {
                return found;
            };
            at = &assignments[number].body;
            found = Some(number);
        }
        found
    }

    /// Returns the type that the references of a type reach, or the type itself.
    pub fn resolve<'a>(
        &self,
        assignments: &'a [PlainAssignment],
        node: &'a Tree<PlainLabel>,
    ) -> &'a Tree<PlainLabel>
        requires { Knows self.now assignments.now }
        ensures { result.now ≡ rule.resolve assignments.now node.now }
    {
        match self.number_meant(assignments, node) {
            Some(number) => &assignments[number].body,
            None => node,
        }
    }

    /// Returns the index of the type that the references reach. None if that is not the type of an assignment, or if values at it
    /// name no items and no alternatives.
    pub fn index_meant(
        &self,
        assignments: &[PlainAssignment],
        node: &Tree<PlainLabel>,
    ) -> Option<&Tree<Index>>
        requires { Knows self.now assignments.now }
        ensures { IfSome result (λ index. Indexes index.now (rule.resolve assignments.now node.now)) }
    {
        let indexes = self.indexes.as_slice();
        let number = self.number_meant(assignments, node)?;
        match &indexes[number] {
            Some(index) => Some(index),
            None => None,
        }
    }
}
