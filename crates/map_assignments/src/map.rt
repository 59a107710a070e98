//! Assignments.
ghost use Rattle.std.specs.Prelude.{◌≡◌, ◌<◌, ◌^◌, ◌++◌, ◌∷◌, [], IfOk, OnOk, All, length, unwrap_or, slice_get};
ghost use Rattle.base_trees.specs.Rose.{Allowed};
ghost use Rattle.asn_types.specs.Parts.{MayHave};
ghost use Rattle.schema_components.specs.Linked.{IsLinked};
ghost use Rattle.map_assignments.specs.Planning as plan;
ghost use Rattle.map_assignments.specs.Naming.{IsNamed};
ghost use Rattle.map_assignments.specs.Private.Placing.{place_of, references_of};
ghost use Rattle.map_subjects.specs.Subjects.{place_in, IsSubject};
ghost use Rattle.map_assignments.specs.Mapped.{assignment_marks, wanted_reference, IsMapped, AreMapped};

use crate::instructions::{push_name, push_qualified};
use crate::mapper::Mapper;
use crate::places::Places;
use crate::simple::simple_type;
use asn_names::{NameKind, Scope, convert};
use asn_types::{Assignment, Instruction, Marks, TypeLabel};
use base_texts::{Memory, Name, Text};
use base_trees::{Tree, Whole};
use map_subjects::{NamedSubject, Subject};
use schema_components::SchemaSet;
use std::alloc::Global;

// The greatest number of nested types without a name.
const LEVELS: u32 = 21;

// Returns the instructions of an assignment with this reference.
fn assignment_marks(
    alloc: Global,
    subject: Subject,
    name: &Name,
    reference: &Text,
) -> Result<Marks, Memory>
    ensures { IfOk result (λ marks. marks ≡ assignment_marks subject name.now reference.now) }
{
    let mut marks = Vec::new(alloc);
    match subject {
        Subject::Element(_) => push_qualified(alloc, &mut marks, reference, name)?,
        Subject::Attribute(_) => {
            marks.push(Instruction::Attribute)?;
            push_qualified(alloc, &mut marks, reference, name)?;
        }
        Subject::Simple(_) => push_name(alloc, &mut marks, reference, &name.local)?,
        Subject::Complex(_) => push_name(alloc, &mut marks, reference, &name.local)?,
        Subject::Nillable(_) => {}
    }
    Ok(Marks::of(marks))
}

// Returns the reference of the assignment with this number, empty if there is none.
fn reference_at(alloc: Global, made: &[Assignment], n: u32) -> Result<Text, Memory>
    ensures { IfOk result (λ text. text ≡ unwrap_or (slice_get (references_of made.now) n) []) }
{
    match made.get(n as usize) {
        Some(assignment) => assignment.reference.copy(alloc),
        None => Ok(Text::empty()),
    }
}

// Returns the name from which the reference of the next assignment after these is made.
fn wanted_reference(
    alloc: Global,
    places: &Places,
    made: &[Assignment],
    subject: Subject,
    name: &Name,
) -> Result<Text, Memory>
    ensures { IfOk result (λ text. text ≡ wanted_reference (place_of places.now) (references_of made.now) subject name.now) }
{
    let Subject::Nillable(n) = subject else {
        return convert(alloc, NameKind::Reference, &name.local);
    };
    let reference = reference_at(alloc, made, places.of(Subject::Complex(n)))?;
    let mut text = String::from_str(alloc, reference.as_str())?;
    text.push_str("-nillable")?;
    Text::from_string(text)
}

// Returns the tree as a complete one: each part has its type.
fn sealed(tree: Tree<TypeLabel>) -> Whole<TypeLabel>
    requires { Allowed MayHave tree }
    ensures { result ≡ tree }
{
    match Whole::seal(tree) {
        Ok(whole) => whole,
        Err(_) => unreachable!(),
    }
}

impl Mapper<'_> {
    // Returns the type that has an assignment.
    fn body(self, subject: Subject) -> Result<Tree<TypeLabel>, Memory>
        requires linked { IsLinked self.set.now }
        requires subject { IsSubject self.set.now subject }
        ensures { IfOk result (λ made. IsNamed (place_of self.entry.places.now) (plan.body self.entry.set.now subject) made) }
    {
        match subject {
            Subject::Element(n) => self.own_type(LEVELS, self.set.element(n)),
            Subject::Attribute(n) => self.simple_at(self.set.attribute(n).simple),
            Subject::Simple(n) => simple_type(self.alloc, &self.set.simple(n).space),
            Subject::Complex(n) => self.in_place(LEVELS, false, n),
            Subject::Nillable(n) => self.in_place(LEVELS, true, n),
        }
    }

    // Returns the assignment after these.
    fn assignment(
        self,
        scope: &mut Scope,
        made: &[Assignment],
        entry: &NamedSubject,
    ) -> Result<Assignment, Memory>
        requires linked { IsLinked self.set.now }
        requires subject { IsSubject self.set.now entry.now.subject }
        requires scope { scope.old ≡ references_of made.now }
        ensures mapped { IfOk result (λ assignment. IsMapped (place_of self.entry.places.now) self.entry.set.now (references_of made.now) entry.now assignment) }
        ensures noted { IfOk result (λ assignment. scope.new ≡ references_of made.now ++ assignment.reference ∷ []) }
    {
        let name = &entry.name;
        let wanted = wanted_reference(self.alloc, self.places, made, entry.subject, name)?;
        let reference = scope.take(NameKind::Reference, &wanted)?;
        let marks = assignment_marks(self.alloc, entry.subject, name, &reference)?;
        let tree = self.body(entry.subject)?;
        Ok(Assignment {
            reference,
            marks,
            body: sealed(tree),
        })
    }

    // Appends the assignments of these components in their order, from the first of all.
    fn push_assignments(
        self,
        scope: &mut Scope,
        made: &mut Vec<Assignment>,
        entries: &[NamedSubject],
    ) -> Result<(), Memory>
        requires linked { IsLinked self.set.now }
        requires entries { All (λ e. IsSubject self.set.now e.subject) entries.now }
        requires scope { scope.old ≡ references_of made.old.items }
        requires none { made.old.items ≡ [] }
        ensures { OnOk result (AreMapped (place_of self.entry.places.now) self.entry.set.now [] entries.now made.new.items) }
    {
        'entries: for entry in entries {
            let next = self.assignment(scope, made, entry)?;
            made.push(next)?;
        }
        Ok(())
    }
}

/// Returns the assignments of these components in this order, which is that of the module. There are fewer than 2^32 of them.
///
/// The only error is a failed allocation.
pub fn assignments(
    alloc: Global,
    set: &SchemaSet,
    entries: &[NamedSubject],
) -> Result<Vec<Assignment>, Memory>
    requires linked { IsLinked set.now }
    requires few { length entries.now < 2 ^ 32 }
    requires entries { All (λ e. IsSubject set.now e.subject) entries.now }
    ensures { IfOk result (λ made. AreMapped (place_in entries.now) set.now [] entries.now made.items) }
{
    let mut made = Vec::with_capacity(alloc, entries.len())?;
    let places = Places::of_entries(alloc, set, entries)?;
    let mut scope = Scope::new(alloc);
    let mapper = Mapper {
        alloc,
        set,
        places: &places,
    };
    mapper.push_assignments(&mut scope, &mut made, entries)?;
    Ok(made)
}
