//! The module of a linked set.
ghost use Rattle.std.specs.Prelude.{◌≡◌, ◌<◌, List, IfOk, length};
ghost use Rattle.asn_types.specs.declared.modules.Assignment.{Assignment};
ghost use Rattle.map_subjects.specs.declared.subjects.NamedSubject.{NamedSubject};
ghost use Rattle.map_subjects.specs.Subjects.{AreEntries, place_in};
ghost use Rattle.map_subjects.specs.declared.subjects.Subject.TheVariants.{Element};
ghost use Rattle.map_assignments.specs.Mapped.{IsMapOf};

use crate::map::assignments;
use asn_types::Module;
use base_texts::Memory;
use map_subjects::{entries, number_of_element};
use schema_components::SchemaSet;
use std::alloc::Global;

/// Returns the map of a linked set (X.694): the module of the types of its components, in the order of their assignments. A set
/// has exactly one map.
///
/// The only error is a failed allocation.
pub fn map_set(alloc: Global, set: &SchemaSet) -> Result<Module, Memory>
    ensures map { IfOk result (λ made. IsMapOf set.now made) }
    ensures only { IfOk result (λ made. (other : List Assignment) → IsMapOf set.now other → other ≡ made) }
{
    // Calling one of the set's readers makes its invariant known.
    let _ = set.element_count();
    let ordered = entries(alloc, set)?;
    let made = assignments(alloc, set, &ordered)?;
    Ok(Module::of(made))
}

/// Returns the number of the assignment of a global element in the map of the set, from 0.
///
/// It allocates nothing. It makes one pass over the set. It makes one more pass over the elements for each complex type with a name
/// in a namespace that precedes the element's.
pub fn root_type(set: &SchemaSet, element: u32) -> u32
    requires { element < set.now.globals }
    ensures number { (entries : List NamedSubject) → AreEntries set.now entries → result ≡ place_in entries (Element element) }
    ensures within { (M : List Assignment) → IsMapOf set.now M → result < length M }
{
    // Calling one of the set's readers makes its invariant known.
    let _ = set.element_count();
    number_of_element(set, element)
}
