//! The numbers of components, by their names and by the places where they were written.
ghost use Rattle.std.specs.Prelude.{◌≡◌, ◌+◌, ◌≤◌, Some, cond, length, IfOk, OnOk};
ghost use Rattle.base_texts.specs.declared.texts.Name.{Name as NameOf};
ghost use Rattle.simple_types.specs.declared.simples.Builtin.{Builtin as BuiltinOf};
ghost use Rattle.link_names.specs.declared.places.Place.{Place as PlaceOf};
ghost use Rattle.link_names.specs.Tables.{named_in, placed_in, names};
ghost use Rattle.link_set.specs.Builtins.{rank};
ghost use Rattle.link_set.specs.Numbering as told;
ghost use Rattle.link_set.specs.Private.Told.{entries_of, ranked_in};

use crate::builtins;
use base_texts::{Memory, Name};
use link_names::Place;
use simple_types::Builtin;
use std::alloc::Global;
use std::collections::BTreeMap;

/// A component by its name, if it has one, and by the place where it was written.
#[derive(Clone, Copy)]
pub(crate) struct NamedPlace<'a> {
    pub name: Option<&'a Name>,
    pub place: Place,
}

/// Inserts the number for the name, if there is one.
pub(crate) fn put_name<'a>(
    table: &mut BTreeMap<&'a Name, u32>,
    name: Option<&'a Name>,
    n: u32,
) -> Result<(), Memory>
    ensures { OnOk result ((a : NameOf) → named_in table.new a ≡ cond (names name.entry a) (Some n) (named_in table.old a)) }
{
    match name {
        Some(name) => {
            table.insert(name, n)?;
            Ok(())
        }
        None => Ok(()),
    }
}

/// Returns the numbers of components by their names, where that of the first is `first`. It inserts the last first, so that each
/// name has the number of the first component that has it.
pub(crate) fn by_name<'a>(
    alloc: Global,
    first: u32,
    entries: &[NamedPlace<'a>],
) -> Result<BTreeMap<&'a Name, u32>, Memory>
    requires { first + length entries.now ≤ 65536 }
    ensures { IfOk result (λ table. (a : NameOf) → named_in table a ≡ told.number_named first (entries_of entries.now) a) }
{
    let mut table = BTreeMap::new(alloc);
    let mut i = entries.len();
    'last_first: while i > 0 {
        i -= 1;
        let entry = entries[i];
        put_name(&mut table, entry.name, first + i as u32)?;
    }
    Ok(table)
}

/// Returns the numbers of components by the places where they were written, where that of the first is `first`.
pub(crate) fn by_place(
    alloc: Global,
    first: u32,
    entries: &[NamedPlace<'_>],
) -> Result<BTreeMap<(u32, u64), u32>, Memory>
    requires { first + length entries.now ≤ 65536 }
    ensures { IfOk result (λ table. (p : PlaceOf) → placed_in table p ≡ told.number_placed first (entries_of entries.now) p) }
{
    let mut table = BTreeMap::new(alloc);
    let mut i = entries.len();
    'last_first: while i > 0 {
        i -= 1;
        let entry = entries[i];
        let place = entry.place;
        table.insert((place.file, place.at), first + i as u32)?;
    }
    Ok(table)
}

/// Returns the numbers of built-in types by their ranks.
pub(crate) fn by_rank(
    alloc: Global,
    first: u32,
    used: &[Builtin],
) -> Result<BTreeMap<u32, u32>, Memory>
    requires { first + length used.now ≤ 65536 }
    ensures { IfOk result (λ table. (w : BuiltinOf) → ranked_in table w ≡ told.builtin_numbers first used.now w) }
{
    let mut table = BTreeMap::new(alloc);
    let mut i = used.len();
    'last_first: while i > 0 {
        i -= 1;
        let rank = builtins::rank(used[i]);
        table.insert(rank, first + i as u32)?;
    }
    Ok(table)
}
