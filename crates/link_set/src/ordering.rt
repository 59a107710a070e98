//! Components in the order of files and places.
ghost use Rattle.std.specs.Prelude.{◌≡◌, map, IfOk};
ghost use Rattle.schema_components.specs.Documents.{doc_of};
ghost use Rattle.link_names.specs.CyclesSeen.{definitions_of as simples_of};
ghost use Rattle.link_complex.specs.Seen.{definitions_of as complexes_of};
ghost use Rattle.link_set.specs.Ordered.{in_order};
ghost use Rattle.link_set.specs.Written as told;

use base_texts::Memory;
use link_complex::{ComplexType, complex_types};
use link_names::{SimpleType, simple_types};
use schema_components::RawDoc;
use std::alloc::Global;

fn simples_by_place<'a>(mut found: Vec<SimpleType<'a>>) -> Result<Vec<SimpleType<'a>>, Memory>
    ensures { IfOk result (λ sorted. simples_of sorted.items ≡ in_order told.simple_before (simples_of found.entry.items)) }
{
    found.sort_by_key(|t| (t.place.file, t.place.at))?;
    Ok(found)
}

fn complexes_by_place<'a>(mut found: Vec<ComplexType<'a>>) -> Result<Vec<ComplexType<'a>>, Memory>
    ensures { IfOk result (λ sorted. complexes_of sorted.items ≡ in_order told.complex_before (complexes_of found.entry.items)) }
{
    found.sort_by_key(|t| (t.place.file, t.place.at))?;
    Ok(found)
}

/// Returns the simple types, in the order of their numbers.
pub(crate) fn simples_in_order<'a>(
    alloc: Global,
    docs: &'a [RawDoc],
) -> Result<Vec<SimpleType<'a>>, Memory>
    ensures { IfOk result (λ found. simples_of found.items ≡ told.simples_in_order (map doc_of docs.now)) }
{
    let found = simple_types(alloc, docs)?;
    simples_by_place(found)
}

/// Returns the complex types, in the order of their numbers.
pub(crate) fn complexes_in_order<'a>(
    alloc: Global,
    docs: &'a [RawDoc],
) -> Result<Vec<ComplexType<'a>>, Memory>
    ensures { IfOk result (λ found. complexes_of found.items ≡ told.complexes_in_order (map doc_of docs.now)) }
{
    let found = complex_types(alloc, docs)?;
    complexes_by_place(found)
}
