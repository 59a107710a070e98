//! Simple types with their spaces, in the order of their numbers.
ghost use Rattle.std.specs.Prelude.{◌≡◌, ◌++◌, map, IfOk, OnOk};
ghost use Rattle.simple_types.specs.Seen.{space_of};
ghost use Rattle.schema_components.specs.Documents.{doc_of};
ghost use Rattle.link_names.specs.SimpleTypes.{simple_types as simple_types_told};
ghost use Rattle.link_names.specs.CyclesSeen.{definitions_of};
ghost use Rattle.link_set.specs.Private.Made.{made_of};
ghost use Rattle.link_set.specs.Ordered.{in_order};
ghost use Rattle.link_set.specs.Sets as told;

use crate::complexes::name_copy;
use base_texts::Memory;
use link_names::{SimpleType, simple_types};
use schema_components::{RawDoc, SimpleDef};
use simple_types::{Builtin, Simple, builtin};
use std::alloc::Global;

/// A simple type with its space.
#[derive(Drop)]
pub(crate) struct MadeType<'a> {
    definition: SimpleType<'a>,
    space: Simple,
}

// Returns each definition with the space of its number. A space without a definition is dropped.
fn made_types<'a>(
    alloc: Global,
    definitions: &[SimpleType<'a>],
    spaces: Vec<Simple>,
) -> Result<Vec<MadeType<'a>>, Memory>
    ensures { IfOk result (λ made. made_of made.items ≡ told.made_types (definitions_of definitions.now) (map space_of spaces.items)) }
{
    let mut made = Vec::new(alloc);
    let mut n = 0;
    'spaces: for space in spaces {
        if n < definitions.len() {
            let definition = definitions[n];
            made.push(MadeType { definition, space })?;
            n += 1;
        }
    }
    Ok(made)
}

fn made_by_place<'a>(mut made: Vec<MadeType<'a>>) -> Result<Vec<MadeType<'a>>, Memory>
    ensures { IfOk result (λ sorted. made_of sorted.items ≡ in_order told.made_before (made_of made.entry.items)) }
{
    made.sort_by_key(|t| (t.definition.place.file, t.definition.place.at))?;
    Ok(made)
}

fn simple_defs(alloc: Global, made: Vec<MadeType<'_>>) -> Result<Vec<SimpleDef>, Memory>
    ensures { IfOk result (λ simples. told.named_spaces simples.items ≡ map told.space_of_made (made_of made.entry.items)) }
{
    let mut simples = Vec::new(alloc);
    'types: for one in made {
        let name = name_copy(alloc, one.definition.name)?;
        simples.push(SimpleDef {
            name,
            space: one.space,
        })?;
    }
    Ok(simples)
}

fn push_builtins(alloc: Global, used: &[Builtin], out: &mut Vec<SimpleDef>) -> Result<(), Memory>
    ensures { OnOk result (told.named_spaces out.new.items ≡ told.named_spaces out.old.items ++ map told.space_of_builtin used.now) }
{
    'builtins: for which in used {
        let space = builtin(alloc, *which)?;
        out.push(SimpleDef { name: None, space })?;
    }
    Ok(())
}

fn defined<'a>(
    alloc: Global,
    docs: &'a [RawDoc],
    spaces: Vec<Simple>,
) -> Result<Vec<SimpleDef>, Memory>
    ensures { IfOk result (λ simples. told.named_spaces simples.items
        ≡ map told.space_of_made (in_order told.made_before (told.made_types (simple_types_told (map doc_of docs.now)) (map space_of spaces.items)))) }
{
    let definitions = simple_types(alloc, docs)?;
    let made = made_types(alloc, &definitions, spaces)?;
    let sorted = made_by_place(made)?;
    simple_defs(alloc, sorted)
}

/// Returns the simple types: those of the documents, which have these spaces in the order of `link_names::simple_types`, and then
/// the built-in ones.
pub(crate) fn simples(
    alloc: Global,
    docs: &[RawDoc],
    spaces: Vec<Simple>,
    used: &[Builtin],
) -> Result<Vec<SimpleDef>, Memory>
    ensures { IfOk result (λ simples. told.named_spaces simples.items ≡ told.simples (simple_types_told (map doc_of docs.now)) (map space_of spaces.items) used.now) }
{
    let mut simples = defined(alloc, docs, spaces)?;
    push_builtins(alloc, used, &mut simples)?;
    Ok(simples)
}
