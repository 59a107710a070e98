//! The complex types of several documents.
ghost use Rattle.std.specs.Prelude.{◌≡◌, ◌++◌, map, IfOk, OnOk};
ghost use Rattle.std.specs.List.{flat_map};
ghost use Rattle.schema_components.specs.Documents.{doc_of};
ghost use Rattle.link_names.specs.WalkSeen.{part_of, parts_of};
ghost use Rattle.link_complex.specs.ComplexTypes as told;
ghost use Rattle.link_complex.specs.Seen.{definitions_of};

use base_texts::{Memory, Name};
use link_names::{Part, Place, What, document_parts};
use schema_components::{RawComplex, RawDoc};
use std::alloc::Global;

/// A complex type definition of a document, at the place of its `complexType`. A definition in place has no name.
#[derive(Clone, Copy)]
pub struct ComplexType<'a> {
    pub name: Option<&'a Name>,
    pub place: Place,
    pub body: &'a RawComplex,
}

fn push_part<'a>(part: Part<'a>, out: &mut Vec<ComplexType<'a>>) -> Result<(), Memory>
    ensures { OnOk result (definitions_of out.new.items ≡ definitions_of out.old.items ++ told.of_part (part_of part.entry)) }
{
    match part.what {
        What::ComplexDefinition { name, body } => {
            out.push(ComplexType {
                name,
                place: Place {
                    file: part.file,
                    at: body.at,
                },
                body,
            })?;
            Ok(())
        }
        What::GlobalElement(_)
        | What::LocalElement(_)
        | What::ElementReference(_)
        | What::GlobalAttribute(_)
        | What::AttributeUse(_)
        | What::SimpleDefinition { .. }
        | What::Particle(_)
        | What::MixedGroup(_)
        | What::TypeReference { .. } => Ok(()),
    }
}

fn push_parts<'a>(parts: &[Part<'a>], out: &mut Vec<ComplexType<'a>>) -> Result<(), Memory>
    ensures { OnOk result (definitions_of out.new.items ≡ definitions_of out.old.items ++ flat_map told.of_part (parts_of parts.now)) }
{
    'parts: for part in parts {
        push_part(*part, out)?;
    }
    Ok(())
}

fn push_document<'a>(
    alloc: Global,
    doc: &'a RawDoc,
    out: &mut Vec<ComplexType<'a>>,
) -> Result<(), Memory>
    ensures { OnOk result (definitions_of out.new.items ≡ definitions_of out.old.items ++ told.of_document (doc_of doc.now)) }
{
    let parts = document_parts(alloc, doc)?;
    push_parts(&parts, out)
}

/// Returns the complex types of one document: those of its global elements, those with a name, and those of its local
/// declarations.
pub(crate) fn document_complex_types<'a>(
    alloc: Global,
    doc: &'a RawDoc,
) -> Result<Vec<ComplexType<'a>>, Memory>
    ensures { IfOk result (λ found. definitions_of found.items ≡ told.of_document (doc_of doc.now)) }
{
    let mut found = Vec::new(alloc);
    push_document(alloc, doc, &mut found)?;
    Ok(found)
}

/// Returns the complex types of the documents: for each one those of its global elements, those with a name, and those of its
/// local declarations.
pub fn complex_types<'a>(alloc: Global, docs: &'a [RawDoc]) -> Result<Vec<ComplexType<'a>>, Memory>
    ensures { IfOk result (λ found. definitions_of found.items ≡ told.complex_types (map doc_of docs.now)) }
{
    let mut found = Vec::new(alloc);
    'docs: for doc in docs {
        push_document(alloc, doc, &mut found)?;
    }
    Ok(found)
}
