//! The simple types that one is made from.
ghost use Rattle.std.specs.Prelude.{◌≡◌, ℕ, IfOk, IfSome};
ghost use Rattle.std.specs.Option.{option_map};
ghost use Rattle.schema_components.specs.Raw.{Named};
ghost use Rattle.schema_components.specs.Seen.{base_of, bases_in};
ghost use Rattle.simple_types.specs.Seen.{space_of};
ghost use Rattle.simple_types.specs.Sound.{Sound};
ghost use Rattle.simple_facets.specs.Making.{AreEachSound};
ghost use Rattle.link_names.specs.Tables.{told_by};
ghost use Rattle.link_simple.specs.Answering.{made_of, AreSound};
ghost use Rattle.link_simple.specs.Making.{space_at, part_space, part_spaces};
ghost use Rattle.link_simple.specs.Seen.{seen};
ghost use Rattle.link_simple.specs.Private.Parts.{entries_of, AreEntriesSound, seen_all};

use base_texts::Memory;
use link_names::SimpleNumbers;
use schema_components::{RawBase, RawRef};
use simple_types::{Simple, builtin};
use std::alloc::Global;

/// A part: a built-in type, or one that was made before.
#[derive(Drop)]
pub enum Part<'m> {
    Own(Simple),
    Lent(&'m Simple),
}

impl<'m> Part<'m> {
    /// Returns its simple type.
    pub fn simple(&self) -> &Simple
        ensures { space_of result.now ≡ seen self.now }
    {
        match self {
            Part::Own(simple) => simple,
            Part::Lent(simple) => simple,
        }
    }
}

// Returns the type with this number, if it is made.
fn lent<'m>(entries: &'m [Option<Simple>], number: Option<usize>) -> Option<&'m Simple>
    requires { AreEntriesSound (entries_of entries.now) }
    ensures space { option_map (λ s. space_of s.now) result ≡ space_at (entries_of entries.now) number }
    ensures sound { IfSome result (λ s. Sound (space_of s.now)) }
{
    let n = number?;
    if n >= entries.len() {
        return None;
    }
    match &entries[n] {
        Some(simple) => Some(simple),
        None => None,
    }
}

fn lent_part<'m>(entries: &'m [Option<Simple>], number: Option<usize>) -> Option<Part<'m>>
    requires { AreEntriesSound (entries_of entries.now) }
    ensures space { option_map seen result ≡ space_at (entries_of entries.now) number }
    ensures sound { IfSome result (λ p. Sound (seen p)) }
{
    match lent(entries, number) {
        Some(simple) => Some(Part::Lent(simple)),
        None => None,
    }
}

/// The types that were made before, by their numbers.
#[derive(Clone, Copy)]
pub(crate) struct MadeTypes<'m, 'a> {
    pub alloc: Global,
    pub numbers: &'m SimpleNumbers<'a>,
    pub entries: &'m [Option<Simple>],
}

impl<'m, 'a> MadeTypes<'m, 'a> {
    fn named_part(self, reference: &'a RawRef) -> Result<Option<Part<'m>>, Memory>
        requires { AreEntriesSound (entries_of self.entries.now) }
        ensures space { IfOk result (λ found. (file : ℕ) → option_map seen found ≡ part_space (told_by self.entry.numbers.now) (entries_of self.entry.entries.now) file (Named reference.now)) }
        ensures sound { IfOk result (λ found. IfSome found (λ p. Sound (seen p))) }
    {
        match reference {
            RawRef::Builtin(which) => {
                let simple = builtin(self.alloc, *which)?;
                Ok(Some(Part::Own(simple)))
            }
            RawRef::Other(name) => Ok(lent_part(self.entries, self.numbers.number_of(name))),
        }
    }

    /// Returns the base, the item or the member, or `None` if it isn't made.
    pub(crate) fn part_of(self, file: u32, base: &'a RawBase) -> Result<Option<Part<'m>>, Memory>
        requires { AreEntriesSound (entries_of self.entries.now) }
        ensures space { IfOk result (λ found. option_map seen found ≡ part_space (told_by self.entry.numbers.now) (entries_of self.entry.entries.now) file (base_of base.now)) }
        ensures sound { IfOk result (λ found. IfSome found (λ p. Sound (seen p))) }
    {
        match base {
            RawBase::Named(reference) => self.named_part(reference),
            RawBase::Inner(body) => {
                Ok(lent_part(self.entries, self.numbers.number_at(file, body.at)))
            }
        }
    }

    /// Returns all of these, or `None` if one isn't made.
    pub(crate) fn parts_of(
        self,
        file: u32,
        bases: &'a [RawBase],
    ) -> Result<Option<Vec<Part<'m>>>, Memory>
        requires { AreEntriesSound (entries_of self.entries.now) }
        ensures spaces { IfOk result (λ found. option_map (λ ps. seen_all ps.items) found ≡ part_spaces (told_by self.entry.numbers.now) (entries_of self.entry.entries.now) file (bases_in bases.now)) }
        ensures sound { IfOk result (λ found. IfSome found (λ ps. AreEachSound (seen_all ps.items))) }
    {
        let mut found = Vec::new(self.alloc);
        'bases: for base in bases {
            match self.part_of(file, base)? {
                Some(part) => found.push(part)?,
                None => return Ok(None),
            }
        }
        Ok(Some(found))
    }
}

fn made_at<'m>(simples: &'m [Simple], number: Option<usize>) -> Option<Part<'m>>
    requires { AreSound simples.now }
    ensures space { option_map seen result ≡ space_at (made_of simples.now) number }
    ensures sound { IfSome result (λ p. Sound (seen p)) }
{
    let n = number?;
    if n >= simples.len() {
        return None;
    }
    Some(Part::Lent(&simples[n]))
}

fn named_type<'m, 'a>(
    alloc: Global,
    numbers: &SimpleNumbers<'a>,
    simples: &'m [Simple],
    reference: &'a RawRef,
) -> Result<Option<Part<'m>>, Memory>
    requires { AreSound simples.now }
    ensures space { IfOk result (λ found. (file : ℕ) → option_map seen found ≡ part_space (told_by numbers.now) (made_of simples.now) file (Named reference.now)) }
    ensures sound { IfOk result (λ found. IfSome found (λ p. Sound (seen p))) }
{
    match reference {
        RawRef::Builtin(which) => {
            let simple = builtin(alloc, *which)?;
            Ok(Some(Part::Own(simple)))
        }
        RawRef::Other(name) => Ok(made_at(simples, numbers.number_of(name))),
    }
}

/// Returns the simple type that a component has, named or in place, if all simple types are made: `simples` has them in the order
/// of `link_names::simple_types`. `None` if the name is not that of a simple type.
pub fn made_type<'m, 'a>(
    alloc: Global,
    numbers: &SimpleNumbers<'a>,
    simples: &'m [Simple],
    file: u32,
    base: &'a RawBase,
) -> Result<Option<Part<'m>>, Memory>
    requires { AreSound simples.now }
    ensures space { IfOk result (λ found. option_map seen found ≡ part_space (told_by numbers.now) (made_of simples.now) file (base_of base.now)) }
    ensures sound { IfOk result (λ found. IfSome found (λ p. Sound (seen p))) }
{
    match base {
        RawBase::Named(reference) => named_type(alloc, numbers, simples, reference),
        RawBase::Inner(body) => Ok(made_at(simples, numbers.number_at(file, body.at))),
    }
}
