//! Finds whether a path along the edges of a graph leads from a node back to itself.
ghost use Rattle.std.specs.Prelude.{◌≡◌, ◌<◌, ◌≤◌, ◌↔◌, IsTrue, ℕ, Bool, List, [], ◌∷◌, ◌++◌, length, IfOk, OnOk, true, slice_index};
ghost use Rattle.link_names.specs.Graphs.{rows_of, IsEdge, IsOnCycle};
ghost use Rattle.base_texts.specs.Lists.{HasItem};
ghost use Rattle.link_names.specs.Private.Searching.{Opened};

use base_texts::Memory;
use std::alloc::Global;

// Marks the node and adds it to the waiting ones, unless it is marked. A number that is no node is ignored.
fn meet(n: usize, seen: &mut Vec<bool>, waiting: &mut Vec<usize>) -> Result<(), Memory>
    ensures { (s : List Bool) (w ns : List ℕ) → Opened s w seen.old.items waiting.old.items ns
        → OnOk result (Opened s w seen.new.items waiting.new.items (ns ++ n ∷ [])) }
{
    if n >= seen.len() {
        return Ok(());
    }
    if seen[n] {
        return Ok(());
    }
    seen[n] = true;
    waiting.push(n)?;
    Ok(())
}

fn meet_all(nodes: &[usize], seen: &mut Vec<bool>, waiting: &mut Vec<usize>) -> Result<(), Memory>
    ensures { OnOk result (Opened seen.old.items waiting.old.items seen.new.items waiting.new.items nodes.now) }
{
    'nodes: for node in nodes {
        meet(*node, seen, waiting)?;
    }
    Ok(())
}

/// Returns whether a path along edges leads from the node to itself. The time grows with the number of edges.
pub(crate) fn is_on_cycle(alloc: Global, graph: &[Vec<usize>], node: usize) -> Result<bool, Memory>
    requires { node < length graph.now }
    ensures { IfOk result (λ cycle. IsTrue cycle ↔ IsOnCycle (rows_of graph.now) node) }
{
    let mut seen = vec![in alloc; false; graph.len()]?;
    let mut waiting = Vec::new(alloc);
    meet_all(&graph[node], &mut seen, &mut waiting)?;
    'waiting: while let Some(at) = waiting.pop() {
        meet_all(&graph[at], &mut seen, &mut waiting)?;
    }
    Ok(seen[node])
}

fn rank_of(ranks: &[usize], node: usize) -> usize
    ensures { result ≡ slice_index ranks.now node }
{
    match ranks.get(node) {
        Some(rank) => *rank,
        None => 0,
    }
}

// Returns whether none of the nodes has a greater rank than this.
fn none_above(nodes: &[usize], ranks: &[usize], rank: usize) -> bool
    ensures { result ≡ true → (b : ℕ) → HasItem nodes.now b → slice_index ranks.now b ≤ rank }
{
    'nodes: for node in nodes {
        if rank < rank_of(ranks, *node) {
            return false;
        }
    }
    true
}

/// Returns whether no edge leads to a node of a greater rank.
pub(crate) fn is_falling(graph: &[Vec<usize>], ranks: &[usize]) -> bool
    ensures { result ≡ true → (a b : ℕ) → IsEdge (rows_of graph.now) a b → slice_index ranks.now b ≤ slice_index ranks.now a }
{
    'rows: for node in 0..graph.len() {
        if !none_above(&graph[node], ranks, rank_of(ranks, node)) {
            return false;
        }
    }
    true
}

/// Returns whether each edge of the node leads to one of a lesser rank.
pub(crate) fn falls_from(graph: &[Vec<usize>], ranks: &[usize], node: usize) -> bool
    requires { node < length graph.now }
    ensures { result ≡ true → (b : ℕ) → IsEdge (rows_of graph.now) node b → slice_index ranks.now b < slice_index ranks.now node }
{
    let rank = rank_of(ranks, node);
    if rank == 0 {
        return false;
    }
    none_above(&graph[node], ranks, rank - 1)
}
