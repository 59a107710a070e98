//! The simple types that each is made from, by their numbers.
ghost use Rattle.std.specs.Prelude.{◌≡◌, ◌++◌, Some, cond, map, IfOk, OnOk};
ghost use Rattle.base_texts.specs.declared.texts.Name.{Name as NameOf};
ghost use Rattle.link_names.specs.declared.places.Place.{Place as PlaceOf};
ghost use Rattle.link_names.specs.Order.{place};
ghost use Rattle.schema_components.specs.Seen.{base_of, how_of, bases_in};
ghost use Rattle.std.specs.List.{position_from};
ghost use Rattle.link_names.specs.Cycles.{is_named, stands_at, named_part, part_of, parts_of, parts_of_bases, parts_in, one_of, edges, numbers_in};
ghost use Rattle.link_names.specs.Graphs.{rows_of};
ghost use Rattle.link_names.specs.CyclesSeen.{definition_of, definitions_of};
ghost use Rattle.link_names.specs.Tables.{named_in, placed_in, told_by, names};

use crate::definitions::SimpleType;
use base_texts::{Memory, Name};
use schema_components::{RawBase, RawHow, RawRef};
use std::alloc::Global;
use std::collections::BTreeMap;

/// The numbers of simple types by their names and by the places where they were written, each a file and a place in it.
#[derive(Drop)]
pub struct SimpleNumbers<'a> {
    named: BTreeMap<&'a Name, usize>,
    placed: BTreeMap<(u32, u64), usize>,
}

fn put_name<'a>(
    table: &mut BTreeMap<&'a Name, usize>,
    name: Option<&'a Name>,
    n: usize,
) -> Result<(), Memory>
    ensures { OnOk result ((a : NameOf) → named_in table.new a ≡ cond (names name.entry a) (Some n) (named_in table.old a)) }
{
    match name {
        Some(name) => {
            table.insert(name, n)?;
            Ok(())
        }
        None => Ok(()),
    }
}

// Inserts the last first, so that each name has the number of the first type that has it.
fn named<'a>(
    alloc: Global,
    definitions: &[SimpleType<'a>],
) -> Result<BTreeMap<&'a Name, usize>, Memory>
    ensures { IfOk result (λ table. (a : NameOf) → named_in table a ≡ position_from (is_named a) 0 (definitions_of definitions.now)) }
{
    let mut table = BTreeMap::new(alloc);
    let mut i = definitions.len();
    'last_first: while i > 0 {
        i -= 1;
        let definition = definitions[i];
        put_name(&mut table, definition.name, i)?;
    }
    Ok(table)
}

fn placed(
    alloc: Global,
    definitions: &[SimpleType<'_>],
) -> Result<BTreeMap<(u32, u64), usize>, Memory>
    ensures { IfOk result (λ table. (p : PlaceOf) → placed_in table p ≡ position_from (stands_at p) 0 (definitions_of definitions.now)) }
{
    let mut table = BTreeMap::new(alloc);
    let mut i = definitions.len();
    'last_first: while i > 0 {
        i -= 1;
        let definition = definitions[i];
        let place = definition.place;
        table.insert((place.file, place.at), i)?;
    }
    Ok(table)
}

impl<'a> SimpleNumbers<'a> {
    /// Returns the numbers of these simple types, from 0, in their order; of several with one name or place, that of the first.
    pub fn of(alloc: Global, definitions: &[SimpleType<'a>]) -> Result<SimpleNumbers<'a>, Memory>
        ensures { IfOk result (λ numbers. told_by numbers ≡ numbers_in (definitions_of definitions.now)) }
    {
        let named = named(alloc, definitions)?;
        let placed = placed(alloc, definitions)?;
        Ok(SimpleNumbers { named, placed })
    }

    /// Returns the number of the simple type with this name.
    pub fn number_of(&self, name: &'a Name) -> Option<usize>
        ensures { result ≡ (told_by self.now).named name.now }
    {
        match self.named.get(&name) {
            Some(n) => Some(*n),
            None => None,
        }
    }

    /// Returns the number of the simple type that was written at this place.
    pub fn number_at(&self, file: u32, at: u64) -> Option<usize>
        ensures { result ≡ (told_by self.now).placed (place file at) }
    {
        match self.placed.get(&(file, at)) {
            Some(n) => Some(*n),
            None => None,
        }
    }

    fn push_named(&self, reference: &'a RawRef, out: &mut Vec<usize>) -> Result<(), Memory>
        ensures { OnOk result (out.new.items ≡ out.old.items ++ named_part (told_by self.now) reference.now) }
    {
        match reference {
            RawRef::Builtin(_) => Ok(()),
            RawRef::Other(name) => match self.named.get(&name) {
                Some(n) => {
                    out.push(*n)?;
                    Ok(())
                }
                None => Ok(()),
            },
        }
    }

    fn push_placed(&self, file: u32, at: u64, out: &mut Vec<usize>) -> Result<(), Memory>
        ensures { OnOk result (out.new.items ≡ out.old.items ++ one_of (placed_in self.now.placed (place file at))) }
    {
        match self.placed.get(&(file, at)) {
            Some(n) => {
                out.push(*n)?;
                Ok(())
            }
            None => Ok(()),
        }
    }

    fn push_part(&self, file: u32, base: &'a RawBase, out: &mut Vec<usize>) -> Result<(), Memory>
        ensures { OnOk result (out.new.items ≡ out.old.items ++ part_of (told_by self.now) file (base_of base.now)) }
    {
        match base {
            RawBase::Named(reference) => self.push_named(reference, out),
            RawBase::Inner(body) => self.push_placed(file, body.at, out),
        }
    }

    fn push_bases(
        &self,
        file: u32,
        bases: &'a [RawBase],
        out: &mut Vec<usize>,
    ) -> Result<(), Memory>
        ensures { OnOk result (out.new.items ≡ out.old.items ++ parts_of_bases (told_by self.now) file (bases_in bases.now)) }
    {
        'bases: for base in bases {
            self.push_part(file, base, out)?;
        }
        Ok(())
    }

    fn push_parts(&self, file: u32, how: &'a RawHow, out: &mut Vec<usize>) -> Result<(), Memory>
        ensures { OnOk result (out.new.items ≡ out.old.items ++ parts_of (told_by self.now) file (how_of how.now)) }
    {
        match how {
            RawHow::Restrict { base, .. } => self.push_part(file, base, out),
            RawHow::List { item } => self.push_part(file, item, out),
            RawHow::Union { members } => self.push_bases(file, members.items(), out),
        }
    }

    fn parts(&self, alloc: Global, definition: SimpleType<'a>) -> Result<Vec<usize>, Memory>
        ensures { IfOk result (λ parts. parts.items ≡ parts_in (told_by self.now) (definition_of definition.entry)) }
    {
        let mut parts = Vec::new(alloc);
        self.push_parts(definition.place.file, definition.how, &mut parts)?;
        Ok(parts)
    }

    /// Returns for each simple type the numbers of those that it is made from.
    pub fn graph(
        &self,
        alloc: Global,
        definitions: &[SimpleType<'a>],
    ) -> Result<Vec<Vec<usize>>, Memory>
        ensures { IfOk result (λ graph. rows_of graph.items ≡ map (parts_in (told_by self.now)) (definitions_of definitions.now)) }
    {
        let mut graph = Vec::new(alloc);
        'definitions: for definition in definitions {
            let parts = self.parts(alloc, *definition)?;
            graph.push(parts)?;
        }
        Ok(graph)
    }
}

/// Returns for each simple type the numbers of those that it is made from.
pub(crate) fn graph_of<'a>(
    alloc: Global,
    definitions: &[SimpleType<'a>],
) -> Result<Vec<Vec<usize>>, Memory>
    ensures { IfOk result (λ graph. rows_of graph.items ≡ edges (definitions_of definitions.now)) }
{
    let numbers = SimpleNumbers::of(alloc, definitions)?;
    numbers.graph(alloc, definitions)
}
