//! Makes a simple type whose parts are made.
ghost use Rattle.std.specs.Prelude.{◌≡◌, ◌<◌, IfOk, true, Some, Ok};
ghost use Rattle.schema_components.specs.Seen.{base_of, how_of, bases_in};
ghost use Rattle.schema_components.specs.Varieties.{has_few_enumerations, has_member, how_varied};
ghost use Rattle.simple_types.specs.Seen.{space_of};
ghost use Rattle.simple_types.specs.Sound.{Sound};
ghost use Rattle.link_names.specs.Tables.{told_by};
ghost use Rattle.link_simple.specs.Making.{IsRestriction, IsList, IsUnion, IsLeft, part_space, part_spaces};
ghost use Rattle.link_simple.specs.Private.Parts.{entries_of, AreEntriesSound};
ghost use Rattle.link_simple.specs.Private.Leaving.{LeftBy};

use crate::parts::MadeTypes;
use crate::unions::union;
use base_texts::Memory;
use link_names::{LinkWhy, SimpleType};
use schema_components::{RawBase, RawHow};
use simple_facets::{Facet, ItemError, list_of, restrict};
use simple_types::Simple;
use std::alloc::Global;

/// The result of making a type from its parts.
#[derive(Drop)]
pub(crate) enum Left {
    Made(Simple),
    /// The type can't be made.
    Refused(LinkWhy),
    /// Some part isn't made.
    PartMissing,
}

fn restricted(alloc: Global, base: &Simple, facets: &[Facet]) -> Result<Left, Memory>
    requires sound { Sound (space_of base.now) }
    requires few { has_few_enumerations facets.now ≡ true }
    ensures { IfOk result (LeftBy (IsRestriction (Some (space_of base.now)) facets.now)) }
{
    match restrict(alloc, base, facets) {
        Ok(simple) => Ok(Left::Made(simple)),
        Err(error) => match error.why() {
            Some(why) => Ok(Left::Refused(LinkWhy::Facet(why))),
            None => Err(Memory),
        },
    }
}

fn listed(alloc: Global, item: &Simple) -> Result<Left, Memory>
    requires { Sound (space_of item.now) }
    ensures { IfOk result (LeftBy (IsList (Some (space_of item.now)))) }
{
    match list_of(alloc, item) {
        Ok(simple) => Ok(Left::Made(simple)),
        Err(ItemError::BadItem) => Ok(Left::Refused(LinkWhy::BadItem)),
        Err(ItemError::Memory) => Err(Memory),
    }
}

impl<'a> MadeTypes<'_, 'a> {
    fn restriction(self, file: u32, base: &'a RawBase, facets: &[Facet]) -> Result<Left, Memory>
        requires sound { AreEntriesSound (entries_of self.entries.now) }
        requires few { has_few_enumerations facets.now ≡ true }
        ensures { IfOk result (LeftBy (IsRestriction (part_space (told_by self.entry.numbers.now) (entries_of self.entry.entries.now) file (base_of base.now)) facets.now)) }
    {
        match self.part_of(file, base)? {
            Some(base) => restricted(self.alloc, base.simple(), facets),
            None => Ok(Left::PartMissing),
        }
    }

    fn list(self, file: u32, item: &'a RawBase) -> Result<Left, Memory>
        requires { AreEntriesSound (entries_of self.entries.now) }
        ensures { IfOk result (LeftBy (IsList (part_space (told_by self.entry.numbers.now) (entries_of self.entry.entries.now) file (base_of item.now)))) }
    {
        match self.part_of(file, item)? {
            Some(item) => listed(self.alloc, item.simple()),
            None => Ok(Left::PartMissing),
        }
    }

    fn union_of_members(self, file: u32, members: &'a [RawBase]) -> Result<Left, Memory>
        requires sound { AreEntriesSound (entries_of self.entries.now) }
        requires some { has_member (bases_in members.now) ≡ true }
        ensures { IfOk result (LeftBy (IsUnion (part_spaces (told_by self.entry.numbers.now) (entries_of self.entry.entries.now) file (bases_in members.now)))) }
    {
        match self.parts_of(file, members)? {
            Some(members) => union(self.alloc, &members),
            None => Ok(Left::PartMissing),
        }
    }

    /// Returns the result of making the type, given the types made before.
    pub(crate) fn left_of(self, definition: SimpleType<'a>) -> Result<Left, Memory>
        requires sound { AreEntriesSound (entries_of self.entries.now) }
        requires varied { how_varied (how_of definition.how.now) ≡ true }
        ensures { IfOk result (LeftBy (IsLeft (told_by self.entry.numbers.now) (entries_of self.entry.entries.now) definition.entry.place.file (how_of definition.entry.how.now))) }
    {
        let file = definition.place.file;
        match definition.how {
            RawHow::Restrict { base, facets } => self.restriction(file, base, facets.items()),
            RawHow::List { item } => self.list(file, item),
            RawHow::Union { members } => self.union_of_members(file, members.items()),
        }
    }
}
