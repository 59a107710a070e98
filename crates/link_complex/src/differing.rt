//! Finds element particles of one name whose types differ.
ghost use Rattle.std.specs.Prelude.{map, IfOk};
ghost use Rattle.schema_components.specs.Documents.{doc_of};
ghost use Rattle.link_names.specs.Order.{IsFirstSuch};
ghost use Rattle.link_complex.specs.ElementTypes.{HasOtherOf, DiffersIn, Differs};
ghost use Rattle.link_complex.specs.Private.Identities.{type_in, types_in};
ghost use Rattle.link_complex.specs.Seen.{definition_of};

use crate::definitions::{ComplexType, document_complex_types};
use crate::element_types::element_types;
use crate::identities::TypeIdentity;
use crate::leaders::first_other;
use crate::particles::typed_particles;
use base_texts::{Memory, Name};
use link_names::{LinkingFault, first_of};
use schema_components::RawDoc;
use std::alloc::Global;
use std::collections::BTreeMap;

fn first_in_type<'a>(
    alloc: Global,
    types: &BTreeMap<&'a Name, TypeIdentity<'a>>,
    doc: &'a RawDoc,
    complex: ComplexType<'a>,
) -> Result<Option<LinkingFault>, Memory>
    ensures { IfOk result (λ found. IsFirstSuch (HasOtherOf (types_in types.now doc.now) (definition_of complex.entry)) found) }
{
    let particles = typed_particles(alloc, types, doc, complex)?;
    first_other(alloc, &particles)
}

// Returns the first in the complex types of one document.
fn first_in_document<'a>(
    alloc: Global,
    types: &BTreeMap<&'a Name, TypeIdentity<'a>>,
    doc: &'a RawDoc,
) -> Result<Option<LinkingFault>, Memory>
    ensures { IfOk result (λ found. IsFirstSuch (DiffersIn (type_in types.now) (doc_of doc.now)) found) }
{
    let complexes = document_complex_types(alloc, doc)?;
    let mut found = None;
    'complexes: for complex in &complexes {
        let here = first_in_type(alloc, types, doc, *complex)?;
        found = first_of(found, here);
    }
    Ok(found)
}

/// Returns the first element particle of a content model that one of the same name and of another type precedes. Types are the
/// same if they are the same built-in type, have the same name, or are written at the same place. The time grows as n log n with
/// the number of particles, whatever their names are.
pub fn first_differing(alloc: Global, docs: &[RawDoc]) -> Result<Option<LinkingFault>, Memory>
    ensures { IfOk result (λ found. IsFirstSuch (Differs (map doc_of docs.now)) found) }
{
    let types = element_types(alloc, docs)?;
    let mut found = None;
    'docs: for doc in docs {
        let here = first_in_document(alloc, &types, doc)?;
        found = first_of(found, here);
    }
    Ok(found)
}
