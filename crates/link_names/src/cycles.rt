//! The first simple type that is made of itself.
ghost use Rattle.std.specs.Prelude.{◌≡◌, ◌<◌, ◌≤◌, ◌↔◌, ℕ, true, length, map, slice_index, IsTrue, IfOk};
ghost use Rattle.schema_components.specs.Documents.{doc_of};
ghost use Rattle.link_names.specs.Order.{IsFirstSuch};
ghost use Rattle.link_names.specs.Cycles.{edges, IsCircularOf, IsCircular};
ghost use Rattle.link_names.specs.Private.Keeping.{Keeps, IsNext};
ghost use Rattle.link_names.specs.Graphs.{rows_of, IsEdge, IsOnCycle};
ghost use Rattle.link_names.specs.CyclesSeen.{definitions_of};

use crate::definitions::{SimpleType, simple_types};
use crate::faults::{LinkWhy, LinkingFault, earlier};
use crate::graphs::{falls_from, is_falling, is_on_cycle};
use crate::numbers::graph_of;
use crate::ranks::ranks_of;
use base_texts::Memory;
use schema_components::RawDoc;
use std::alloc::Global;

// Returns whether something was found that this fault does not precede.
fn is_kept(found: Option<LinkingFault>, fault: LinkingFault) -> bool
    ensures { result ≡ true → Keeps found fault }
{
    match found {
        Some(first) => !fault.precedes(first),
        None => false,
    }
}

/// A graph with ranks of its nodes, in which cycles are searched for.
#[derive(Clone, Copy)]
struct RankedGraph<'g> {
    alloc: Global,
    graph: &'g [Vec<usize>],
    ranks: &'g [usize],
    /// Whether every edge leads to the same or a lesser rank.
    falling: bool,
}

impl RankedGraph<'_> {
    // Returns whether a cycle goes through the node. Ranks that fall along edges rule out most nodes; only the others need a
    // search.
    fn is_circular(self, n: usize) -> Result<bool, Memory>
        requires within { n < length self.graph.now }
        requires falls { self.falling ≡ true → (a b : ℕ) → IsEdge (rows_of self.graph.now) a b → slice_index self.ranks.now b ≤ slice_index self.ranks.now a }
        ensures { IfOk result (λ cycle. IsTrue cycle ↔ IsOnCycle (rows_of self.entry.graph.now) n) }
    {
        if self.falling {
            if falls_from(self.graph, self.ranks, n) {
                return Ok(false);
            }
        }
        is_on_cycle(self.alloc, self.graph, n)
    }

    // Returns the first of what was found and the fault of this node, which it has if a cycle goes through it. No cycle is
    // searched for if that fault would not be the first.
    fn next_found(
        self,
        n: usize,
        fault: LinkingFault,
        found: Option<LinkingFault>,
    ) -> Result<Option<LinkingFault>, Memory>
        requires within { n < length self.graph.now }
        requires falls { self.falling ≡ true → (a b : ℕ) → IsEdge (rows_of self.graph.now) a b → slice_index self.ranks.now b ≤ slice_index self.ranks.now a }
        ensures { IfOk result (λ first. IsNext (IsOnCycle (rows_of self.entry.graph.now) n) found fault first) }
    {
        if is_kept(found, fault) {
            return Ok(found);
        }
        let cycle = self.is_circular(n)?;
        if cycle {
            return Ok(earlier(found, fault));
        }
        Ok(found)
    }
}

fn first_of_graph(
    alloc: Global,
    definitions: &[SimpleType<'_>],
    graph: &[Vec<usize>],
) -> Result<Option<LinkingFault>, Memory>
    requires { rows_of graph.now ≡ edges (definitions_of definitions.now) }
    ensures { IfOk result (λ found. IsFirstSuch (IsCircularOf (definitions_of definitions.now)) found) }
{
    let ranks = ranks_of(alloc, graph)?;
    let ranked = RankedGraph {
        alloc,
        graph,
        ranks: &ranks,
        falling: is_falling(graph, &ranks),
    };
    let mut found = None;
    'numbers: for n in 0..definitions.len() {
        let definition = definitions[n];
        let fault = LinkingFault {
            place: definition.place,
            why: LinkWhy::CircularType,
        };
        found = ranked.next_found(n, fault, found)?;
    }
    Ok(found)
}

/// Returns the first simple type that is made of itself. The time grows with the number n of parts of simple types, and as n log
/// n with that of names and places, if each list of a document is in the order written. It makes one more search each time a type
/// on a cycle precedes all found so far.
pub fn first_circular(alloc: Global, docs: &[RawDoc]) -> Result<Option<LinkingFault>, Memory>
    ensures { IfOk result (λ found. IsFirstSuch (IsCircular (map doc_of docs.now)) found) }
{
    let definitions = simple_types(alloc, docs)?;
    let graph = graph_of(alloc, &definitions)?;
    first_of_graph(alloc, &definitions, &graph)
}
