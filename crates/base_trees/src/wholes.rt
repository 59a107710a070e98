//! Trees whose labels determine how many children each node has.
ghost use Rattle.std.specs.Prelude.{◌≡◌, IfOk, MatchResult};
ghost use Rattle.base_trees.specs.Rose.{Allowed, shown_count, shown_depth};

use crate::shapes::Shape;
use crate::trees::Tree;
use base_texts::Memory;
use std::alloc::Global;
use std::marker::Model;

/// A tree in which the label of each node allows its number of children. Its count and its depth are computed on request.
#[derive(Drop)]
pub struct Whole<L: Shape> {
    tree: Tree<L>,
}

impl<L: Shape> Model for Whole<L> {
    ghost use Rattle.base_trees.specs.Rose.{Rose, coded_rose, Allowed};

    ghost Value = { Rose L };

    ghost coded = { coded_rose L.code };

    ghost view = { λ a. a.tree };

    ghost invariant = { λ a. Allowed L.allowed a.tree };
}

impl<L: Shape> Whole<L> {
    /// Returns the tree, which the caller knows to be allowed. It takes constant time.
    pub fn of(tree: Tree<L>) -> Whole<L>
        requires { Allowed L.allowed tree }
        ensures { result ≡ tree }
    {
        Whole { tree }
    }

    /// Tests a tree. Returns it as the error if some node's children aren't allowed.
    pub fn seal(tree: Tree<L>) -> Result<Whole<L>, Tree<L>>
        ensures { MatchResult result
            (λ whole. Allowed L.allowed tree × (whole ≡ tree))
            (λ back. (Allowed L.allowed tree → ⊥) × (back ≡ tree)) }
    {
        if tree.is_allowed() {
            Ok(Whole { tree })
        } else {
            Err(tree)
        }
    }

    /// Returns the tree.
    pub fn root(&self) -> &Tree<L>
        ensures root { result.now ≡ self.now }
        ensures allowed { Allowed L.allowed self.now }
    {
        &self.tree
    }

    /// Returns the number of nodes, or 2^64 - 1 if there are more.
    pub fn count(&self) -> u64
        ensures { result ≡ shown_count self.now }
    {
        self.tree.count()
    }

    /// Returns the number of levels, which is 1 for a leaf, or 2^32 - 1 if there are more.
    pub fn depth(&self) -> u32
        ensures { result ≡ shown_depth self.now }
    {
        self.tree.depth()
    }

    /// Returns an equal tree.
    pub fn copy(&self, alloc: Global) -> Result<Whole<L>, Memory>
        ensures { IfOk result (λ whole. whole ≡ self.now) }
    {
        let tree = self.tree.copy(alloc)?;
        Ok(Whole { tree })
    }
}
