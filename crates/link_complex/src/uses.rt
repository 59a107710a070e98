//! Finds attributes of one name in a complex type.
ghost use Rattle.std.specs.Prelude.{◌≡◌, ◌++◌, List, map, IfOk};
ghost use Rattle.schema_components.specs.Documents.{doc_of};
ghost use Rattle.link_names.specs.declared.faults.LinkingFault.{LinkingFault};
ghost use Rattle.link_names.specs.Order.{IsFirstOf};
ghost use Rattle.link_names.specs.Seen.{globals_of};
ghost use Rattle.link_complex.specs.Seen.{definition_of};
ghost use Rattle.link_complex.specs.Uses.{uses_of_type, double_uses_of, double_uses};

use crate::definitions::{ComplexType, complex_types};
use base_texts::Memory;
use link_names::{LinkWhy, LinkingFault, NamedPart, Place, first_repeated};
use schema_components::RawDoc;
use std::alloc::Global;

fn uses<'a>(alloc: Global, complex: ComplexType<'a>) -> Result<Vec<NamedPart<'a>>, Memory>
    ensures { IfOk result (λ found. globals_of found.items ≡ uses_of_type (definition_of complex.entry)) }
{
    let file = complex.place.file;
    let mut found = Vec::new(alloc);
    'uses: for attribute in complex.body.uses.items() {
        found.push(NamedPart {
            name: &attribute.name,
            place: Place {
                file,
                at: attribute.at,
            },
        })?;
    }
    Ok(found)
}

// Returns the first of the fault found before and those of the attributes whose name an earlier one has.
fn first_in_type(
    alloc: Global,
    complex: ComplexType<'_>,
    found: Option<LinkingFault>,
) -> Result<Option<LinkingFault>, Memory>
    ensures { (fs : List LinkingFault) → IsFirstOf fs found → IfOk result (λ first. IsFirstOf (fs ++ double_uses_of (definition_of complex.entry)) first) }
{
    let uses = uses(alloc, complex)?;
    first_repeated(alloc, &uses, LinkWhy::DuplicateUse, found)
}

/// Returns the first attribute of a complex type whose name an earlier one has. The time grows as n log n with the number of
/// attributes, whatever their names are.
pub fn first_double_use(alloc: Global, docs: &[RawDoc]) -> Result<Option<LinkingFault>, Memory>
    ensures { IfOk result (λ found. IsFirstOf (double_uses (map doc_of docs.now)) found) }
{
    let complexes = complex_types(alloc, docs)?;
    let mut found = None;
    'complexes: for complex in &complexes {
        found = first_in_type(alloc, *complex, found)?;
    }
    Ok(found)
}
