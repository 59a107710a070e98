//! Makes the types one after another, each after its parts.
ghost use Rattle.std.specs.Prelude.{◌≡◌, ◌<◌, ℕ, Bool, List, set, replicate, None, length, true, false, IsSome, IfOk, OnOk};
ghost use Rattle.link_names.specs.Order.{first_of};
ghost use Rattle.link_names.specs.Cycles.{numbers_in, edges};
ghost use Rattle.link_names.specs.SimpleTypes.{SimpleDefinition};
ghost use Rattle.link_names.specs.CyclesSeen.{definitions_of};
ghost use Rattle.link_names.specs.Tables.{told_by};
ghost use Rattle.link_simple.specs.Answering.{made_of, AnswersMakingOf};
ghost use Rattle.link_simple.specs.Making.{entry_at};
ghost use Rattle.link_simple.specs.Private.Ordering.{IsReady, IsOrder};
ghost use Rattle.link_simple.specs.Private.Parts.{entries_of, entry_of};
ghost use Rattle.link_simple.specs.Private.Told.{AreTold};
ghost use Rattle.link_simple.specs.Private.Varied.{AreVaried};
ghost use Rattle.link_simple.specs.Private.Working.{space_left, fault_left, StandsIn, FinishedIn};

use crate::leaving::Left;
use crate::making::MakingError;
use crate::parts::MadeTypes;
use base_texts::Memory;
use link_names::{LinkingFault, Place, SimpleNumbers, SimpleType, first_of};
use simple_types::Simple;
use std::alloc::Global;

/// The types made so far, by their numbers, and the first fault of those that can't be made.
#[derive(Drop)]
pub(crate) struct Work {
    entries: Vec<Option<Simple>>,
    found: Option<LinkingFault>,
}

fn simple_in(left: Left) -> Option<Simple>
    ensures { entry_of result ≡ space_left left }
{
    match left {
        Left::Made(simple) => Some(simple),
        Left::Refused(_) => None,
        Left::PartMissing => None,
    }
}

fn fault_in(left: &Left, body: Place) -> Option<LinkingFault>
    ensures { result ≡ fault_left body left.now }
{
    match left {
        Left::Refused(why) => Some(LinkingFault {
            place: body,
            why: *why,
        }),
        Left::Made(_) => None,
        Left::PartMissing => None,
    }
}

fn nothing_made(alloc: Global, count: usize) -> Result<Vec<Option<Simple>>, Memory>
    ensures { IfOk result (λ entries. entries.items ≡ replicate count None) }
{
    let mut entries = Vec::with_capacity(alloc, count)?;
    'types: for _ in 0..count {
        entries.push(None)?;
    }
    Ok(entries)
}

impl Work {
    fn of(alloc: Global, definitions: &[SimpleType<'_>]) -> Result<Work, Memory>
        ensures { IfOk result (StandsIn (definitions_of definitions.now) (replicate (length definitions.now) false)) }
    {
        let entries = nothing_made(alloc, definitions.len())?;
        Ok(Work {
            entries,
            found: None,
        })
    }

    fn put(&mut self, n: usize, body: Place, left: Left)
        requires { n < length self.now.entries.items }
        ensures entries { entries_of self.new.entries.items ≡ set (entries_of self.old.entries.items) n (space_left left) }
        ensures found { self.new.found ≡ first_of self.old.found (fault_left body left) }
    {
        self.found = first_of(self.found, fault_in(&left, body));
        self.entries[n] = simple_in(left);
    }

    // Makes the type, whose parts are done.
    fn make<'a>(
        &mut self,
        alloc: Global,
        definitions: &[SimpleType<'a>],
        numbers: &SimpleNumbers<'a>,
        n: usize,
    ) -> Result<(), Memory>
        requires numbers { told_by numbers.now ≡ numbers_in (definitions_of definitions.now) }
        requires varied { AreVaried (definitions_of definitions.now) }
        requires told { AreTold (definitions_of definitions.now) }
        requires ready { (done : List Bool) × StandsIn (definitions_of definitions.now) done self.now × IsReady (edges (definitions_of definitions.now)) done n }
        ensures { OnOk result ((done : List Bool) → StandsIn (definitions_of definitions.now) done self.old → IsReady (edges (definitions_of definitions.now)) done n
            → StandsIn (definitions_of definitions.now) (set done n true) self.new) }
    {
        let definition = definitions[n];
        let made = MadeTypes {
            alloc,
            numbers,
            entries: &self.entries,
        };
        let left = made.left_of(definition)?;
        self.put(n, definition.body, left);
        Ok(())
    }

    /// Returns the types, or the first fault.
    pub(crate) fn end(self, alloc: Global) -> Result<Vec<Simple>, MakingError>
        requires { (ds : List SimpleDefinition) × FinishedIn ds self }
        ensures { (ds : List SimpleDefinition) → FinishedIn ds self → AnswersMakingOf ds result }
    {
        match self.found {
            Some(fault) => Err(MakingError::Shown(fault)),
            None => Ok(all_made(alloc, self.entries)?),
        }
    }
}

// Returns the types, each of which is made.
fn all_made(alloc: Global, entries: Vec<Option<Simple>>) -> Result<Vec<Simple>, Memory>
    requires { (n : ℕ) → n < length entries.items → IsSome (entry_at (entries_of entries.items) n) }
    ensures { IfOk result (λ simples. entries_of entries.items ≡ made_of simples.items) }
{
    let mut simples = Vec::with_capacity(alloc, entries.len())?;
    'entries: for entry in entries {
        simples.push(entry.unwrap())?;
    }
    Ok(simples)
}

/// Makes all types, in an order in which each follows its parts.
pub(crate) fn work_in_order<'a>(
    alloc: Global,
    definitions: &[SimpleType<'a>],
    numbers: &SimpleNumbers<'a>,
    order: &[usize],
) -> Result<Work, Memory>
    requires numbers { told_by numbers.now ≡ numbers_in (definitions_of definitions.now) }
    requires varied { AreVaried (definitions_of definitions.now) }
    requires told { AreTold (definitions_of definitions.now) }
    requires order { IsOrder (edges (definitions_of definitions.now)) order.now }
    ensures { IfOk result (FinishedIn (definitions_of definitions.now)) }
{
    let mut work = Work::of(alloc, definitions)?;
    'order: for n in order {
        work.make(alloc, definitions, numbers, *n)?;
    }
    Ok(work)
}
