//! Flat trees whose labels determine how many children each node has.
ghost use Rattle.std.specs.Prelude.{◌≡◌};
ghost use Rattle.base_trees.specs.Rose.{Allowed, node_count};

use crate::nodes::Node;
use crate::owned::Flat;
use base_trees::Shape;
use std::marker::Model;

/// A tree in which the label of each node allows its number of children.
#[derive(Drop)]
pub struct Whole<L: Shape> {
    tree: Flat<L>,
}

impl<L: Shape> Model for Whole<L> {
    ghost use Rattle.base_trees.specs.Rose.{Rose, coded_rose, Allowed};

    ghost Value = { Rose L };

    ghost coded = { coded_rose L.code };

    ghost view = { λ a. a.tree };

    ghost invariant = { λ a. Allowed L.allowed a.tree };
}

impl<L: Shape> Whole<L> {
    /// Returns the tree, which the caller knows to be allowed. It takes constant time.
    pub fn of(tree: Flat<L>) -> Whole<L>
        requires { Allowed L.allowed tree }
        ensures { result ≡ tree }
    {
        Whole { tree }
    }

    /// Returns the root.
    pub fn root(&self) -> Node<'_, L>
        ensures root { result ≡ self.now }
        ensures allowed { Allowed L.allowed self.now }
    {
        self.tree.root()
    }

    /// Returns the number of nodes, in constant time.
    pub fn count(&self) -> usize
        ensures { result ≡ node_count self.now }
    {
        self.tree.count()
    }
}
