//! An order of the nodes of a graph without cycles, in which each follows those that its edges lead to.
ghost use Rattle.std.specs.Prelude.{◌≡◌, ◌<◌, ◌≤◌, ◌+◌, ◌*◌, ◌∷◌, ◌++◌, [], ◌⊎◌, ℕ, true, false, length, take, replicate, set, IfOk, OnOk};
ghost use Rattle.base_texts.specs.Lists.{HasItem};
ghost use Rattle.link_names.specs.Graphs.{rows_of};
ghost use Rattle.link_names.specs.Private.Searching.{mark, unseen};
ghost use Rattle.link_simple.specs.Private.Ordering.{IsAcyclic, IsInside, IsOrder, Walked, IsHeld, IsFirstOpen, step};

use base_texts::Memory;
use std::alloc::Global;

/// A node on the current path of the traversal, and how many of its edges were followed.
#[derive(Clone, Copy)]
struct Step {
    node: usize,
    followed: usize,
}

/// A depth-first traversal along the edges.
#[derive(Drop)]
struct Walk {
    /// The path from the node where the traversal began, each node by an edge of the one before.
    way: Vec<Step>,
    /// Whether each node has its place in the order.
    done: Vec<bool>,
    order: Vec<usize>,
}

// Returns the number of the first of these nodes, from this number on, that isn't done.
fn first_open(nodes: &[usize], done: &[bool], from: usize) -> Option<usize>
    requires within { (m : ℕ) → HasItem nodes.now m → m < length done.now }
    requires followed { (m : ℕ) → HasItem (take from nodes.now) m → mark done.now m ≡ true }
    ensures { IsFirstOpen nodes.now done.now result }
{
    'nodes: for k in from..nodes.len() {
        if !done[nodes[k]] {
            return Some(k);
        }
    }
    None
}

impl Walk {
    fn of(alloc: Global, nodes: usize) -> Result<Walk, Memory>
        ensures way { IfOk result (λ walk. walk.way.items ≡ []) }
        ensures done { IfOk result (λ walk. walk.done.items ≡ replicate nodes false) }
        ensures order { IfOk result (λ walk. walk.order.items ≡ []) }
    {
        Ok(Walk {
            way: Vec::new(alloc),
            done: vec![in alloc; false; nodes]?,
            order: Vec::with_capacity(alloc, nodes)?,
        })
    }

    // Follows the edge with this number of a node on the path, to the next node.
    fn follow(&mut self, node: usize, edge: usize, next: usize) -> Result<(), Memory>
        ensures way { OnOk result (self.new.way.items ≡ self.old.way.items ++ step node edge ∷ [] ++ step next 0 ∷ []) }
        ensures done { self.new.done.items ≡ self.old.done.items }
        ensures order { self.new.order.items ≡ self.old.order.items }
    {
        self.way.push(Step {
            node,
            followed: edge,
        })?;
        self.way.push(Step {
            node: next,
            followed: 0,
        })?;
        Ok(())
    }

    // Appends the node to the order, after those that its edges lead to.
    fn finish(&mut self, node: usize) -> Result<(), Memory>
        requires { node < length self.now.done.items }
        ensures way { self.new.way.items ≡ self.old.way.items }
        ensures done { self.new.done.items ≡ set self.old.done.items node true }
        ensures order { OnOk result (self.new.order.items ≡ self.old.order.items ++ node ∷ []) }
    {
        self.done[node] = true;
        self.order.push(node)?;
        Ok(())
    }

    // Continues from the last node of the path, which was removed: to the first node that isn't done and that an edge leads to,
    // if there is one.
    fn go_on(&mut self, graph: &[Vec<usize>], step: Step) -> Result<(), Memory>
        requires inside { IsInside (rows_of graph.now) }
        requires acyclic { IsAcyclic (rows_of graph.now) }
        requires walked { Walked (rows_of graph.now) (self.now.way.items ++ step ∷ []) self.now.done.items self.now.order.items }
        ensures walked { OnOk result (Walked (rows_of graph.now) self.new.way.items self.new.done.items self.new.order.items) }
        ensures held { OnOk result ((n : ℕ) → IsHeld (self.old.way.items ++ step ∷ []) self.old.done.items n → IsHeld self.new.way.items self.new.done.items n) }
        ensures less { OnOk result (2 * unseen self.new.done.items + length self.old.way.items + 2 ≤ 2 * unseen self.old.done.items + length self.new.way.items) }
    {
        let nodes = &graph[step.node];
        match first_open(nodes, &self.done, step.followed) {
            Some(edge) => self.follow(step.node, edge, nodes[edge]),
            None => self.finish(step.node),
        }
    }

    // Traverses the graph from the node until it is done.
    fn from(&mut self, graph: &[Vec<usize>], node: usize) -> Result<(), Memory>
        requires inside { IsInside (rows_of graph.now) }
        requires acyclic { IsAcyclic (rows_of graph.now) }
        requires node { node < length graph.now }
        requires walked { Walked (rows_of graph.now) [] self.now.done.items self.now.order.items }
        requires none { self.now.way.items ≡ [] }
        ensures walked { OnOk result (Walked (rows_of graph.now) [] self.new.done.items self.new.order.items) }
        ensures none { OnOk result (self.new.way.items ≡ []) }
        ensures kept { OnOk result ((n : ℕ) → (mark self.old.done.items n ≡ true) ⊎ (node ≡ n) → mark self.new.done.items n ≡ true) }
    {
        if self.done[node] {
            return Ok(());
        }
        self.way.push(Step { node, followed: 0 })?;
        'way: while let Some(step) = self.way.pop() {
            self.go_on(graph, step)?;
        }
        Ok(())
    }
}

/// Returns all nodes, each after those that its edges lead to. The time grows with the number of nodes and edges.
pub(crate) fn order_of(alloc: Global, graph: &[Vec<usize>]) -> Result<Vec<usize>, Memory>
    requires inside { IsInside (rows_of graph.now) }
    requires acyclic { IsAcyclic (rows_of graph.now) }
    ensures { IfOk result (λ order. IsOrder (rows_of graph.now) order.items) }
{
    let mut walk = Walk::of(alloc, graph.len())?;
    'nodes: for node in 0..graph.len() {
        walk.from(graph, node)?;
    }
    Ok(walk.order)
}
