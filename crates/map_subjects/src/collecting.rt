//! Lists the components of a set that have assignments, in their order.
ghost use Rattle.std.specs.Prelude.{◌≡◌, ◌<◌, ◌^◌, ◌++◌, ◌||◌, ℕ, nat_eq, Some, false, IfOk, OnOk, length};
ghost use Rattle.std.specs.List.Sorted.{IsPermutation, IsSorted};
ghost use Rattle.schema_components.specs.Linked.{IsLinked};
ghost use Rattle.map_subjects.specs.Subjects.{is_nillable_of, has_nillable, rank, order_of, entry_cmp, AreEntries};
ghost use Rattle.map_subjects.specs.Private.Collecting.{entries_with, entries_of, element_entries, attribute_entries, simple_entries, complex_entries, nillable_entries, declaration_entries, type_entries, collected, is_marked, HasMark};

use crate::subjects::{NamedSubject, Subject};
use base_texts::{Memory, Name};
use schema_components::{ElementDecl, SchemaSet, TypeOf};
use std::alloc::{AllocError, Global};
use std::cmp::Ordering;

fn push_entry(
    alloc: Global,
    made: &mut Vec<NamedSubject>,
    subject: Subject,
    name: &Name,
) -> Result<(), Memory>
    ensures { OnOk result (made.new.items ≡ made.old.items ++ entries_with subject (Some name.now)) }
{
    let name = name.copy(alloc)?;
    made.push(NamedSubject { subject, name })?;
    Ok(())
}

// Appends the entry of a type, if it has a name.
fn push_named(
    alloc: Global,
    made: &mut Vec<NamedSubject>,
    subject: Subject,
    name: &Option<Name>,
) -> Result<(), Memory>
    ensures { OnOk result (made.new.items ≡ made.old.items ++ entries_with subject name.now) }
{
    match name {
        Some(name) => push_entry(alloc, made, subject, name),
        None => Ok(()),
    }
}

fn push_elements(alloc: Global, set: &SchemaSet, made: &mut Vec<NamedSubject>) -> Result<(), Memory>
    requires { IsLinked set.now }
    ensures { OnOk result (made.new.items ≡ made.old.items ++ element_entries set.now) }
{
    'elements: for n in 0..set.global_count() {
        push_entry(alloc, made, Subject::Element(n), &set.element(n).name)?;
    }
    Ok(())
}

fn push_attributes(
    alloc: Global,
    set: &SchemaSet,
    made: &mut Vec<NamedSubject>,
) -> Result<(), Memory>
    ensures { OnOk result (made.new.items ≡ made.old.items ++ attribute_entries set.now) }
{
    'attributes: for n in 0..set.attribute_count() {
        push_entry(alloc, made, Subject::Attribute(n), &set.attribute(n).name)?;
    }
    Ok(())
}

fn push_simples(alloc: Global, set: &SchemaSet, made: &mut Vec<NamedSubject>) -> Result<(), Memory>
    ensures { OnOk result (made.new.items ≡ made.old.items ++ simple_entries set.now) }
{
    'simples: for n in 0..set.simple_count() {
        push_named(alloc, made, Subject::Simple(n), &set.simple(n).name)?;
    }
    Ok(())
}

fn push_complexes(
    alloc: Global,
    set: &SchemaSet,
    made: &mut Vec<NamedSubject>,
) -> Result<(), Memory>
    ensures { OnOk result (made.new.items ≡ made.old.items ++ complex_entries set.now) }
{
    'complexes: for n in 0..set.complex_count() {
        push_named(alloc, made, Subject::Complex(n), &set.complex(n).name)?;
    }
    Ok(())
}

fn is_marked(marks: &[bool], n: u32) -> bool
    ensures { result ≡ is_marked marks.now n }
{
    match marks.get(n as usize) {
        Some(mark) => *mark,
        None => false,
    }
}

fn mark(marks: &mut Vec<bool>, n: u32)
    requires { n < length marks.old.items }
    ensures length { length marks.new.items ≡ length marks.old.items }
    ensures marks { (m : ℕ) → is_marked marks.new.items m ≡ (nat_eq n m || is_marked marks.old.items m) }
{
    marks[n as usize] = true;
}

// Marks the complex type of a nillable element.
fn mark_type(marks: &mut Vec<bool>, element: &ElementDecl)
    requires { HasMark (length marks.old.items) element.now.kind }
    ensures length { length marks.new.items ≡ length marks.old.items }
    ensures marks { (n : ℕ) → is_marked marks.new.items n ≡ (is_nillable_of n element.now || is_marked marks.old.items n) }
{
    if !element.nillable {
        return;
    }
    match element.kind {
        TypeOf::Simple(_) => {}
        TypeOf::Complex(n) => mark(marks, n),
    }
}

fn unmarked(alloc: Global, count: u32) -> Result<Vec<bool>, Memory>
    ensures length { IfOk result (λ marks. length marks.items ≡ count) }
    ensures marks { IfOk result (λ marks. (n : ℕ) → is_marked marks.items n ≡ false) }
{
    let marks = vec![in alloc; false; count as usize]?;
    Ok(marks)
}

// Returns marks of the complex types that some nillable element has.
fn nillable_types(alloc: Global, set: &SchemaSet) -> Result<Vec<bool>, Memory>
    requires { IsLinked set.now }
    ensures { IfOk result (λ marks. (n : ℕ) → is_marked marks.items n ≡ has_nillable set.now n) }
{
    let mut marks = unmarked(alloc, set.complex_count())?;
    'elements: for decl in 0..set.element_count() {
        mark_type(&mut marks, set.element(decl));
    }
    Ok(marks)
}

// Appends the entry for the nillable elements of a complex type, if there are such elements and it has a name.
fn push_nillable(
    alloc: Global,
    set: &SchemaSet,
    marks: &[bool],
    made: &mut Vec<NamedSubject>,
    n: u32,
) -> Result<(), Memory>
    requires number { n < length set.now.complexes }
    requires marks { (m : ℕ) → is_marked marks.now m ≡ has_nillable set.now m }
    ensures { OnOk result (made.new.items ≡ made.old.items ++ entries_of set.now (Subject.Nillable n)) }
{
    if is_marked(marks, n) {
        push_named(alloc, made, Subject::Nillable(n), &set.complex(n).name)
    } else {
        Ok(())
    }
}

fn push_nillables(
    alloc: Global,
    set: &SchemaSet,
    made: &mut Vec<NamedSubject>,
) -> Result<(), Memory>
    requires { IsLinked set.now }
    ensures { OnOk result (made.new.items ≡ made.old.items ++ nillable_entries set.now) }
{
    let marks = nillable_types(alloc, set)?;
    'complexes: for n in 0..set.complex_count() {
        push_nillable(alloc, set, &marks, made, n)?;
    }
    Ok(())
}

fn push_declarations(
    alloc: Global,
    set: &SchemaSet,
    made: &mut Vec<NamedSubject>,
) -> Result<(), Memory>
    requires { IsLinked set.now }
    ensures { OnOk result (made.new.items ≡ made.old.items ++ declaration_entries set.now) }
{
    push_elements(alloc, set, made)?;
    push_attributes(alloc, set, made)?;
    Ok(())
}

fn push_types(alloc: Global, set: &SchemaSet, made: &mut Vec<NamedSubject>) -> Result<(), Memory>
    requires { IsLinked set.now }
    ensures { OnOk result (made.new.items ≡ made.old.items ++ type_entries set.now) }
{
    push_simples(alloc, set, made)?;
    push_complexes(alloc, set, made)?;
    push_nillables(alloc, set, made)?;
    Ok(())
}

fn collected(alloc: Global, set: &SchemaSet) -> Result<Vec<NamedSubject>, Memory>
    requires { IsLinked set.now }
    ensures { IfOk result (λ made. made.items ≡ collected set.now) }
{
    let mut made = Vec::new(alloc);
    push_declarations(alloc, set, &mut made)?;
    push_types(alloc, set, &mut made)?;
    Ok(made)
}

// Returns the rank of a component: in one namespace elements are first, then attributes, types, and types of nillable elements.
pub(crate) fn rank(subject: Subject) -> u8
    ensures { result ≡ rank subject }
{
    match subject {
        Subject::Element(_) => 0,
        Subject::Attribute(_) => 1,
        Subject::Simple(_) => 2,
        Subject::Complex(_) => 2,
        Subject::Nillable(_) => 3,
    }
}

// Compares two components of these ranks and names.
pub(crate) fn order(first: u8, a: &Name, second: u8, b: &Name) -> Ordering
    ensures { result ≡ order_of first a.now second b.now }
{
    match a.space.cmp(&b.space) {
        Ordering::Equal => match first.cmp(&second) {
            Ordering::Equal => a.local.cmp(&b.local),
            order => order,
        },
        order => order,
    }
}

fn compare(a: &NamedSubject, b: &NamedSubject) -> Ordering
    ensures { result ≡ entry_cmp a.now b.now }
{
    order(rank(a.subject), &a.name, rank(b.subject), &b.name)
}

fn sort(entries: &mut Vec<NamedSubject>) -> Result<(), AllocError>
    ensures same { IsPermutation entries.old.items entries.new.items }
    ensures sorted { OnOk result (IsSorted entry_cmp entries.new.items) }
{
    entries.sort_by(|a, b| compare(a, b))
}

/// Returns the components that have assignments in the module, in the order of the assignments. The order is by namespace. In one
/// namespace elements are first, then attributes, types, and types of nillable elements, and each of these kinds is ordered by
/// local name. Namespaces and local names are compared byte by byte. The time is that of a sort.
pub fn entries(alloc: Global, set: &SchemaSet) -> Result<Vec<NamedSubject>, Memory>
    requires { IsLinked set.now }
    ensures entries { IfOk result (λ made. AreEntries set.now made.items) }
    ensures few { IfOk result (λ made. length made.items < 2 ^ 32) }
{
    let mut made = collected(alloc, set)?;
    sort(&mut made)?;
    Ok(made)
}
