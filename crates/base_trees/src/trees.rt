//! Trees of labels.
ghost use Rattle.std.specs.Prelude.{◌≡◌, ◌<◌, ◌↔◌, [], Some, IfOk, IsTrue, length, slice_get};
ghost use Rattle.base_trees.specs.Rose.{node, roses_of, label_of, kids_of, Allowed, shown_count, shown_depth};

use crate::shapes::Shape;
use base_texts::Memory;
use std::alloc::Global;
use std::marker::Model;

/// A node with its label and its children, seen as only these two: equal trees may differ in the capacities of their lists.
///
/// Dropping, copying and sealing a tree is recursive, so their stack use grows with its depth, which the type doesn't bound. With
/// a label of a few words, 8 MB of stack suffice for about 30,000 levels. A caller that builds a tree from input must bound its
/// depth.
#[derive(Drop)]
pub struct Tree<L> {
    label: L,
    kids: Vec<Tree<L>>,
}

impl<L> Model for Tree<L> {
    ghost use Rattle.std.proofs.Common.{arith};
    ghost use Rattle.base_trees.specs.Rose.{Rose, node, roses_of, node_count, coded_rose};
    ghost use Rattle.base_trees.specs.Falls.{most_le-node_count};

    ghost Value = { Rose L };

    ghost coded = { coded_rose L.code };

    ghost view = { λ a. node a.label (roses_of a.kids.items) };

    ghost size = { node_count };

    ghost size_decreases = { λ a h. omega (arith, most_le-node_count a.kids.items) };
}

impl<L> Tree<L> {
    /// Returns a node with no children. It allocates nothing.
    pub fn leaf(alloc: Global, label: L) -> Tree<L>
        ensures { result ≡ node label (roses_of []) }
    {
        Tree {
            label,
            kids: Vec::new(alloc),
        }
    }

    /// Returns a node with these children. It allocates nothing.
    pub fn join(label: L, kids: Vec<Tree<L>>) -> Tree<L>
        ensures { result ≡ node label (roses_of kids.items) }
    {
        Tree { label, kids }
    }

    /// Returns the label of the root.
    pub fn label(&self) -> &L
        ensures { result.now ≡ label_of self.now }
    {
        &self.label
    }

    /// Returns the children of the root.
    pub fn kids(&self) -> &[Tree<L>]
        ensures { result.now ≡ kids_of self.now }
    {
        &self.kids
    }

    /// Returns the child of the root with this number. The first has the number 0.
    pub fn kid(&self, i: usize) -> &Tree<L>
        requires { i < length (kids_of self.now) }
        ensures { slice_get (kids_of self.now) i ≡ Some result.now }
    {
        &self.kids()[i]
    }

    /// Returns the number of nodes, or 2^64 - 1 if there are more. It visits each node.
    pub fn count(&self) -> u64
        ensures { result ≡ shown_count self.now }
    {
        let kids = self.kids.as_slice();
        let mut count: u64 = 1;
        for kid in kids {
            count = count.saturating_add(kid.count());
        }
        count
    }

    /// Returns the number of levels, which is 1 for a leaf, or 2^32 - 1 if there are more. It visits each node.
    pub fn depth(&self) -> u32
        ensures { result ≡ shown_depth self.now }
    {
        let kids = self.kids.as_slice();
        let mut depth: u32 = 0;
        for kid in kids {
            depth = depth.max(kid.depth());
        }
        depth.saturating_add(1)
    }
}

impl<L: Shape> Tree<L> {
    /// Returns an equal tree.
    pub fn copy(&self, alloc: Global) -> Result<Tree<L>, Memory>
        ensures { IfOk result (λ tree. tree ≡ self.now) }
    {
        let label = self.label.copy(alloc)?;
        let kids = self.kids.as_slice();
        let mut copies = Vec::with_capacity(alloc, kids.len())?;
        for kid in kids {
            let copied = kid.copy(alloc)?;
            copies.push_reserved(copied);
        }
        Ok(Tree {
            label,
            kids: copies,
        })
    }

    /// Returns whether the label of each node allows its number of children.
    pub(crate) fn is_allowed(&self) -> bool
        ensures { IsTrue result ↔ Allowed L.allowed self.now }
    {
        let kids = self.kids.as_slice();
        if !self.label.allows(kids.len() as u64) {
            return false;
        }
        for kid in kids {
            if !kid.is_allowed() {
                return false;
            }
        }
        true
    }
}
