//! Ranks of the nodes of a graph, by its strongly connected components.
ghost use Rattle.std.specs.Prelude.{◌≡◌, length, IfOk};

use base_texts::Memory;
use std::alloc::Global;

/// A node on the current path of the traversal, and how many of its edges were followed.
#[derive(Clone, Copy)]
struct Step {
    node: usize,
    followed: usize,
}

/// A depth-first traversal of a graph, by Tarjan's algorithm. Nodes are numbered from 1 in the order in which the traversal
/// reaches them, and 0 means no number.
#[derive(Drop)]
struct Walk {
    /// The number of each node.
    number: Vec<usize>,
    /// The least number that the edges from each node and its descendants lead back to.
    low: Vec<usize>,
    /// The rank of each node, from 1.
    rank: Vec<usize>,
    /// The nodes without a rank, in the order of their numbers.
    held: Vec<usize>,
    way: Vec<Step>,
    numbered: usize,
    ranked: usize,
}

fn at(list: &[usize], n: usize) -> usize {
    match list.get(n) {
        Some(value) => *value,
        None => 0,
    }
}

fn put(list: &mut Vec<usize>, n: usize, value: usize)
    ensures { length list.new.items ≡ length list.old.items }
{
    if n < list.len() {
        list[n] = value;
    }
}

fn edge(graph: &[Vec<usize>], step: Step) -> Option<usize> {
    if step.node >= graph.len() {
        return None;
    }
    let row = &graph[step.node];
    if step.followed >= row.len() {
        return None;
    }
    Some(row[step.followed])
}

impl Walk {
    fn of(alloc: Global, nodes: usize) -> Result<Walk, Memory>
        ensures { IfOk result (λ walk. length walk.rank.items ≡ nodes) }
    {
        Ok(Walk {
            number: vec![in alloc; 0; nodes]?,
            low: vec![in alloc; 0; nodes]?,
            rank: vec![in alloc; 0; nodes]?,
            held: Vec::new(alloc),
            way: Vec::new(alloc),
            numbered: 0,
            ranked: 0,
        })
    }

    fn come_to(&mut self, node: usize) -> Result<(), Memory>
        ensures { length self.new.rank.items ≡ length self.old.rank.items }
    {
        self.numbered = self.numbered.saturating_add(1);
        put(&mut self.number, node, self.numbered);
        put(&mut self.low, node, self.numbered);
        self.held.push(node)?;
        Ok(())
    }

    fn lower(&mut self, node: usize, number: usize)
        ensures { length self.new.rank.items ≡ length self.old.rank.items }
    {
        if number < at(&self.low, node) {
            put(&mut self.low, node, number);
        }
    }

    // Gives a rank to the component, which consists of the nodes held from this one on.
    fn rank_from(&mut self, node: usize)
        ensures { length self.new.rank.items ≡ length self.old.rank.items }
    {
        self.ranked = self.ranked.saturating_add(1);
        'held: for _ in 0..self.held.len() {
            if let Some(other) = self.held.pop() {
                put(&mut self.rank, other, self.ranked);
                if other == node {
                    return;
                }
            }
        }
    }

    fn leave(&mut self, node: usize)
        ensures { length self.new.rank.items ≡ length self.old.rank.items }
    {
        let low = at(&self.low, node);
        if low == at(&self.number, node) {
            self.rank_from(node);
        }
        if let Some(above) = self.way.last() {
            let above = above.node;
            self.lower(above, low);
        }
    }

    fn follow(&mut self, step: Step, to: usize) -> Result<(), Memory>
        ensures { length self.new.rank.items ≡ length self.old.rank.items }
    {
        self.way.push(Step {
            node: step.node,
            followed: step.followed.saturating_add(1),
        })?;
        if at(&self.number, to) == 0 {
            self.way.push(Step {
                node: to,
                followed: 0,
            })?;
        } else if at(&self.rank, to) == 0 {
            let number = at(&self.number, to);
            self.lower(step.node, number);
        }
        Ok(())
    }

    fn go_on(&mut self, graph: &[Vec<usize>], step: Step) -> Result<(), Memory>
        ensures { length self.new.rank.items ≡ length self.old.rank.items }
    {
        if step.followed == 0 {
            self.come_to(step.node)?;
        }
        match edge(graph, step) {
            Some(to) => self.follow(step, to),
            None => {
                self.leave(step.node);
                Ok(())
            }
        }
    }

    // Traverses the graph from a node, in at most this number of steps.
    fn from(&mut self, graph: &[Vec<usize>], node: usize, most: usize) -> Result<(), Memory>
        ensures { length self.new.rank.items ≡ length self.old.rank.items }
    {
        if at(&self.number, node) != 0 {
            return Ok(());
        }
        self.way.push(Step { node, followed: 0 })?;
        'steps: for _ in 0..most {
            match self.way.pop() {
                Some(step) => self.go_on(graph, step)?,
                None => return Ok(()),
            }
        }
        Ok(())
    }
}

// Returns a number of steps in which a traversal follows each edge and leaves each node.
fn most_steps(graph: &[Vec<usize>]) -> usize {
    let mut most = graph.len().saturating_add(1);
    for row in graph {
        most = most.saturating_add(row.len());
    }
    most
}

/// Returns a rank of each node, from 1: an edge leads to a node of a lesser rank, or of the same rank if both are on one cycle.
/// The contract states only that each node has a number, so a caller that needs more must test it. The time grows with the number
/// of edges.
pub(crate) fn ranks_of(alloc: Global, graph: &[Vec<usize>]) -> Result<Vec<usize>, Memory>
    ensures { IfOk result (λ ranks. length ranks.items ≡ length graph.now) }
{
    let mut walk = Walk::of(alloc, graph.len())?;
    let most = most_steps(graph);
    'nodes: for node in 0..graph.len() {
        walk.from(graph, node, most)?;
    }
    Ok(walk.rank)
}
