//! Counts the assignments that precede that of a global element.
ghost use Rattle.std.specs.Prelude.{◌≡◌, ◌≤◌, ◌<◌, List, Some, length};
ghost use Rattle.schema_components.specs.Linked.{IsLinked};
ghost use Rattle.map_subjects.specs.declared.subjects.NamedSubject.{NamedSubject};
ghost use Rattle.map_subjects.specs.Subjects.{is_nillable_of, has_nillable, AreEntries, place_in};
ghost use Rattle.map_subjects.specs.Private.Collecting.{entries_with, entries_of, element_entries, attribute_entries, simple_entries, complex_entries, nillable_entries, is_before, entry_with, count_before, declaration_entries, type_entries};

use crate::collecting::{order, rank};
use crate::subjects::Subject;
use base_texts::Name;
use schema_components::{ElementDecl, SchemaSet, TypeOf};

fn is_before(subject: Subject, name: &Name, element: &Name) -> bool
    ensures { result ≡ is_before element.now (entry_with subject name.now) }
{
    order(rank(subject), name, 0, element).is_lt()
}

fn before(subject: Subject, name: &Name, element: &Name) -> u32
    ensures { result ≡ count_before element.now (entries_with subject (Some name.now)) }
{
    if is_before(subject, name, element) {
        1
    } else {
        0
    }
}

// Counts the assignment of a type, if it precedes the element's. A type without a name has no assignment.
fn named_before(subject: Subject, name: &Option<Name>, element: &Name) -> u32
    ensures { result ≡ count_before element.now (entries_with subject name.now) }
{
    match name {
        Some(name) => before(subject, name, element),
        None => 0,
    }
}

fn elements_before(set: &SchemaSet, element: &Name) -> u32
    requires { IsLinked set.now }
    ensures count { result ≡ count_before element.now (element_entries set.now) }
    ensures few { result ≤ set.now.globals }
{
    let mut count = 0;
    'elements: for n in 0..set.global_count() {
        count += before(Subject::Element(n), &set.element(n).name, element);
    }
    count
}

fn attributes_before(set: &SchemaSet, element: &Name) -> u32
    ensures count { result ≡ count_before element.now (attribute_entries set.now) }
    ensures few { result ≤ length set.now.attributes }
{
    let mut count = 0;
    'attributes: for n in 0..set.attribute_count() {
        count += before(Subject::Attribute(n), &set.attribute(n).name, element);
    }
    count
}

fn simples_before(set: &SchemaSet, element: &Name) -> u32
    ensures count { result ≡ count_before element.now (simple_entries set.now) }
    ensures few { result ≤ length set.now.simples }
{
    let mut count = 0;
    'simples: for n in 0..set.simple_count() {
        count += named_before(Subject::Simple(n), &set.simple(n).name, element);
    }
    count
}

fn complexes_before(set: &SchemaSet, element: &Name) -> u32
    ensures count { result ≡ count_before element.now (complex_entries set.now) }
    ensures few { result ≤ length set.now.complexes }
{
    let mut count = 0;
    'complexes: for n in 0..set.complex_count() {
        count += named_before(Subject::Complex(n), &set.complex(n).name, element);
    }
    count
}

fn is_nillable_of(n: u32, element: &ElementDecl) -> bool
    ensures { result ≡ is_nillable_of n element.now }
{
    let nillable = element.nillable;
    match element.kind {
        TypeOf::Simple(_) => false,
        TypeOf::Complex(m) => nillable && m == n,
    }
}

// Returns whether some nillable element has the complex type.
fn has_nillable(set: &SchemaSet, n: u32) -> bool
    ensures { result ≡ has_nillable set.now n }
{
    'elements: for decl in 0..set.element_count() {
        if is_nillable_of(n, set.element(decl)) {
            return true;
        }
    }
    false
}

// Counts the assignment for nillable elements of a complex type. It compares the names first, so that in most sets it searches
// for no element.
fn nillable_before(set: &SchemaSet, n: u32, element: &Name) -> u32
    requires { n < length set.now.complexes }
    ensures { result ≡ count_before element.now (entries_of set.now (Subject.Nillable n)) }
{
    let count = named_before(Subject::Nillable(n), &set.complex(n).name, element);
    if count == 0 {
        return 0;
    }
    if has_nillable(set, n) { count } else { 0 }
}

fn nillables_before(set: &SchemaSet, element: &Name) -> u32
    ensures count { result ≡ count_before element.now (nillable_entries set.now) }
    ensures few { result ≤ length set.now.complexes }
{
    let mut count = 0;
    'complexes: for n in 0..set.complex_count() {
        count += nillable_before(set, n, element);
    }
    count
}

fn declarations_before(set: &SchemaSet, element: &Name) -> u32
    requires { IsLinked set.now }
    ensures count { result ≡ count_before element.now (declaration_entries set.now) }
    ensures few { result ≤ 131072 }
{
    let elements = elements_before(set, element);
    let attributes = attributes_before(set, element);
    elements + attributes
}

fn types_before(set: &SchemaSet, element: &Name) -> u32
    requires { IsLinked set.now }
    ensures count { result ≡ count_before element.now (type_entries set.now) }
    ensures few { result ≤ 196608 }
{
    let simples = simples_before(set, element);
    let complexes = complexes_before(set, element);
    let nillables = nillables_before(set, element);
    simples + complexes + nillables
}

/// Returns the number of assignments that precede that of the global element with this number: the number of its assignment in
/// the module, from 0.
///
/// It allocates nothing. It makes one pass over the set. It makes one more pass over the elements for each complex type with a name
/// in a namespace that precedes the element's.
pub fn number_of_element(set: &SchemaSet, element: u32) -> u32
    requires { element < set.now.globals }
    ensures { (entries : List NamedSubject) → AreEntries set.now entries → result ≡ place_in entries (Subject.Element element) }
{
    // Calling one of the set's readers makes its invariant known.
    let _ = set.element_count();
    let name = &set.element(element).name;
    let declarations = declarations_before(set, name);
    let types = types_before(set, name);
    declarations + types
}
