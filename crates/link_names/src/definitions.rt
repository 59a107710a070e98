//! The simple types of several documents.
ghost use Rattle.std.specs.Prelude.{◌≡◌, ◌++◌, map, IfOk, OnOk};
ghost use Rattle.std.specs.List.{flat_map};
ghost use Rattle.schema_components.specs.Documents.{doc_of};
ghost use Rattle.link_names.specs.WalkSeen.{part_of, parts_of};
ghost use Rattle.link_names.specs.SimpleTypes as told;
ghost use Rattle.link_names.specs.CyclesSeen.{definitions_of};

use crate::parts::{Part, What};
use crate::places::Place;
use crate::walk::all_parts;
use base_texts::{Memory, Name};
use schema_components::{RawDoc, RawHow};
use std::alloc::Global;

/// A simple type definition of a document, at the place of its `simpleType`. `body` is the place of its `restriction`, `list` or
/// `union`. A definition in place has no name.
#[derive(Clone, Copy)]
pub struct SimpleType<'a> {
    pub name: Option<&'a Name>,
    pub place: Place,
    pub body: Place,
    pub how: &'a RawHow,
}

fn push_part<'a>(part: Part<'a>, out: &mut Vec<SimpleType<'a>>) -> Result<(), Memory>
    ensures { OnOk result (definitions_of out.new.items ≡ definitions_of out.old.items ++ told.of_part (part_of part.entry)) }
{
    let Part { file, at, what, .. } = part;
    match what {
        What::SimpleDefinition { name, body } => {
            out.push(SimpleType {
                name,
                place: Place { file, at },
                body: Place {
                    file,
                    at: body.body_at,
                },
                how: &body.how,
            })?;
            Ok(())
        }
        What::GlobalElement(_)
        | What::LocalElement(_)
        | What::ElementReference(_)
        | What::GlobalAttribute(_)
        | What::AttributeUse(_)
        | What::ComplexDefinition { .. }
        | What::Particle(_)
        | What::MixedGroup(_)
        | What::TypeReference { .. } => Ok(()),
    }
}

fn push_parts<'a>(parts: &[Part<'a>], out: &mut Vec<SimpleType<'a>>) -> Result<(), Memory>
    ensures { OnOk result (definitions_of out.new.items ≡ definitions_of out.old.items ++ flat_map told.of_part (parts_of parts.now)) }
{
    'parts: for part in parts {
        push_part(*part, out)?;
    }
    Ok(())
}

/// Returns the simple types of the documents: for each document those of its global elements, its attributes, its types and its
/// local declarations, each followed by those that it contains.
pub fn simple_types<'a>(alloc: Global, docs: &'a [RawDoc]) -> Result<Vec<SimpleType<'a>>, Memory>
    ensures { IfOk result (λ found. definitions_of found.items ≡ told.simple_types (map doc_of docs.now)) }
{
    let parts = all_parts(alloc, docs)?;
    let mut found = Vec::new(alloc);
    push_parts(&parts, &mut found)?;
    Ok(found)
}
