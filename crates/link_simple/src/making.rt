//! Makes all simple types, or finds the first fault.
ghost use Rattle.std.specs.Prelude.{◌≡◌, map, None, IfOk};
ghost use Rattle.base_texts.specs.Lists.{HasItem};
ghost use Rattle.schema_components.specs.Documents.{doc_of};
ghost use Rattle.link_names.specs.Order.{IsFirstSuch};
ghost use Rattle.link_names.specs.Resolution.{unresolved};
ghost use Rattle.link_names.specs.Cycles.{numbers_in, edges, IsCircular};
ghost use Rattle.link_names.specs.CyclesSeen.{definitions_of};
ghost use Rattle.link_names.specs.Tables.{told_by};
ghost use Rattle.link_simple.specs.Answering.{AnswersMaking, AnswersMakingOf};
ghost use Rattle.link_simple.specs.Private.Ordering.{IsAcyclic};
ghost use Rattle.link_simple.specs.Private.Told.{AreTold};
ghost use Rattle.link_simple.specs.Private.Varied.{AreVaried};
ghost use Rattle.link_simple.specs.Private.Working.{FinishedIn};

use crate::orders::order_of;
use crate::working::{Work, work_in_order};
use base_texts::Memory;
use link_names::{LinkingFault, SimpleNumbers, SimpleType, simple_types};
use schema_components::RawDoc;
use simple_types::Simple;
use std::alloc::Global;
use thiserror::Error;

/// Why the simple types aren't made.
#[derive(Clone, Copy, Debug, PartialEq, Eq, Error)]
pub enum MakingError {
    /// The first fault, at the `restriction`, `list` or `union` of a type that can't be made although its parts can.
    #[error("{0:?}")]
    Shown(LinkingFault),
    #[error("out of memory")]
    Memory,
}

impl From<Memory> for MakingError {
    ghost use Rattle.std.specs.Prelude.{◌≡◌, None};
    ghost use Rattle.link_simple.specs.Answering.{shown_by};

    ghost from_gives = { λ memory error. shown_by error ≡ None };

    fn from(_: Memory) -> MakingError {
        MakingError::Memory
    }
}

fn work<'a>(
    alloc: Global,
    definitions: &[SimpleType<'a>],
    numbers: &SimpleNumbers<'a>,
) -> Result<Work, Memory>
    requires numbers { told_by numbers.now ≡ numbers_in (definitions_of definitions.now) }
    requires varied { AreVaried (definitions_of definitions.now) }
    requires told { AreTold (definitions_of definitions.now) }
    requires acyclic { IsAcyclic (edges (definitions_of definitions.now)) }
    ensures { IfOk result (FinishedIn (definitions_of definitions.now)) }
{
    let graph = numbers.graph(alloc, definitions)?;
    let order = order_of(alloc, &graph)?;
    work_in_order(alloc, definitions, numbers, &order)
}

fn made_of<'a>(
    alloc: Global,
    definitions: &[SimpleType<'a>],
    numbers: &SimpleNumbers<'a>,
) -> Result<Vec<Simple>, MakingError>
    requires numbers { told_by numbers.now ≡ numbers_in (definitions_of definitions.now) }
    requires varied { AreVaried (definitions_of definitions.now) }
    requires told { AreTold (definitions_of definitions.now) }
    requires acyclic { IsAcyclic (edges (definitions_of definitions.now)) }
    ensures { AnswersMakingOf (definitions_of definitions.now) result }
{
    let work = work(alloc, definitions, numbers)?;
    work.end(alloc)
}

/// Returns the simple types of the documents, in the order of `link_names::simple_types`, or the first fault: at a type that
/// can't be made although its parts can. Each reference must name what it needs, and no type may be made of itself. The time
/// grows with the number of parts, and as n log n with that of names and places. In addition it takes the time of restricting by
/// facets, and grows with the size of the types.
pub fn made(alloc: Global, docs: &[RawDoc]) -> Result<Vec<Simple>, MakingError>
    requires resolved { IsFirstSuch (HasItem (unresolved (map doc_of docs.now))) None }
    requires acyclic { IsFirstSuch (IsCircular (map doc_of docs.now)) None }
    ensures { AnswersMaking (map doc_of docs.now) result }
{
    let definitions = simple_types(alloc, docs)?;
    let numbers = SimpleNumbers::of(alloc, &definitions)?;
    made_of(alloc, &definitions, &numbers)
}
