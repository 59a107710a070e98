//! The numbers of assignments in the module.
ghost use Rattle.std.specs.Prelude.{◌≡◌, ◌<◌, ◌^◌, ℕ, IfOk, length, nat_eq, All, if◌then◌else◌};
ghost use Rattle.schema_components.specs.Components.{Set};
ghost use Rattle.schema_components.specs.Linked.{IsLinked};
ghost use Rattle.map_subjects.specs.declared.subjects.Subject.{Subject};
ghost use Rattle.map_subjects.specs.Subjects.{same_subject, place_in, IsSubject};
ghost use Rattle.map_assignments.specs.Plans as plan;
ghost use Rattle.map_assignments.specs.Naming.{IsNamed};
ghost use Rattle.map_assignments.specs.Private.Placing.{place_of, number_at, HasLists, HasPlace};

use asn_types::{Form, Marks, TypeLabel};
use base_texts::Memory;
use base_trees::Tree;
use map_subjects::{NamedSubject, Subject};
use schema_components::SchemaSet;
use std::alloc::Global;

/// The number of the assignment of each subject: for each kind a list by the numbers of the subjects. `count` is the number of
/// assignments; it is returned for a subject without an assignment.
#[derive(Drop)]
pub(crate) struct Places {
    elements: Vec<u32>,
    attributes: Vec<u32>,
    simples: Vec<u32>,
    complexes: Vec<u32>,
    nillables: Vec<u32>,
    count: u32,
}

// Returns the number in the list, or this count if there is none.
fn number_at(numbers: &[u32], n: u32, count: u32) -> u32
    ensures { result ≡ number_at numbers.now n count }
{
    match numbers.get(n as usize) {
        Some(number) => *number,
        None => count,
    }
}

impl Places {
    /// Returns the number of the subject's assignment.
    pub(crate) fn of(&self, subject: Subject) -> u32
        ensures { result ≡ place_of self.now subject }
    {
        match subject {
            Subject::Element(n) => number_at(&self.elements, n, self.count),
            Subject::Attribute(n) => number_at(&self.attributes, n, self.count),
            Subject::Simple(n) => number_at(&self.simples, n, self.count),
            Subject::Complex(n) => number_at(&self.complexes, n, self.count),
            Subject::Nillable(n) => number_at(&self.nillables, n, self.count),
        }
    }

    /// Returns the type that refers to the subject's assignment.
    pub(crate) fn reference(&self, alloc: Global, subject: Subject) -> Tree<TypeLabel>
        ensures { IsNamed (place_of self.now) (plan.reference subject) result }
    {
        let form = Form::Ref {
            to: self.of(subject),
        };
        let marks = Marks::of(Vec::new(alloc));
        Tree::leaf(alloc, TypeLabel { form, marks })
    }
}

// Replaces a number in the list.
fn set_number(numbers: &mut Vec<u32>, n: u32, number: u32)
    requires { n < length numbers.old.items }
    ensures length { length numbers.new.items ≡ length numbers.old.items }
    ensures number { (m count : ℕ) → number_at numbers.new.items m count ≡ (if nat_eq n m then number else number_at numbers.old.items m count) }
{
    numbers[n as usize] = number;
}

// Returns a list of `count` times this number.
fn all(alloc: Global, count: u32, number: u32) -> Result<Vec<u32>, Memory>
    ensures length { IfOk result (λ made. length made.items ≡ count) }
    ensures number { IfOk result (λ made. (n : ℕ) → number_at made.items n number ≡ number) }
{
    let made = vec![in alloc; number; count as usize]?;
    Ok(made)
}

impl Places {
    // Returns places with the number `count` for each subject of the set.
    fn none(alloc: Global, set: &SchemaSet, count: u32) -> Result<Places, Memory>
        requires linked { IsLinked set.now }
        ensures lists { IfOk result (λ made. HasLists set.now made) }
        ensures numbers { IfOk result (λ made. (subject : Subject) → place_of made subject ≡ count) }
    {
        Ok(Places {
            elements: all(alloc, set.global_count(), count)?,
            attributes: all(alloc, set.attribute_count(), count)?,
            simples: all(alloc, set.simple_count(), count)?,
            complexes: all(alloc, set.complex_count(), count)?,
            nillables: all(alloc, set.complex_count(), count)?,
            count,
        })
    }

    // Sets the number of the subject.
    fn set(&mut self, subject: Subject, number: u32)
        requires { HasPlace self.old subject }
        ensures lists { (s : Set) → HasLists s self.old → HasLists s self.new }
        ensures number { (other : Subject) → place_of self.new other ≡ (if same_subject subject other then number else place_of self.old other) }
    {
        match subject {
            Subject::Element(n) => set_number(&mut self.elements, n, number),
            Subject::Attribute(n) => set_number(&mut self.attributes, n, number),
            Subject::Simple(n) => set_number(&mut self.simples, n, number),
            Subject::Complex(n) => set_number(&mut self.complexes, n, number),
            Subject::Nillable(n) => set_number(&mut self.nillables, n, number),
        }
    }

    /// Returns the numbers of these assignments in their order.
    pub(crate) fn of_entries(
        alloc: Global,
        set: &SchemaSet,
        entries: &[NamedSubject],
    ) -> Result<Places, Memory>
        requires linked { IsLinked set.now }
        requires few { length entries.now < 2 ^ 32 }
        requires entries { All (λ e. IsSubject set.now e.subject) entries.now }
        ensures { IfOk result (λ made. (subject : Subject) → place_of made subject ≡ place_in entries.now subject) }
    {
        let mut made = Places::none(alloc, set, entries.len() as u32)?;
        let mut left = entries.len();
        'entries: while left > 0 {
            left -= 1;
            made.set(entries[left].subject, left as u32);
        }
        Ok(made)
    }
}
