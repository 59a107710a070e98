//! Trees that own their nodes.
ghost use Rattle.std.specs.Prelude.{◌≡◌, ◌∷◌, [], length};
ghost use Rattle.base_trees.specs.Rose.{node_count, count_all, roses_of};

use crate::entries::Entry;
use crate::nodes::{Kids, Node};
use std::iter::Iterator;
use std::marker::Model;

/// A list of trees, in one vector. They are dropped without recursion.
#[derive(Drop)]
pub struct Forest<L> {
    pub(crate) entries: Vec<Entry<L>>,
}

impl<L> Model for Forest<L> {
    ghost use Rattle.std.specs.Prelude.{List};
    ghost use Rattle.std.specs.Coded.{coded_list};
    ghost use Rattle.base_trees.specs.Rose.{Rose, coded_rose};

    ghost Value = { List (Rose L) };

    ghost coded = { coded_list (coded_rose L.code) };

    ghost use Rattle.base_flat_trees.specs.Entries.{forest, AreWhole};

    ghost view = { λ a. forest a.entries.items };

    ghost invariant = { λ a. AreWhole a.entries.items };
}

impl<L> Forest<L> {
    /// Returns the trees.
    pub fn trees(&self) -> Kids<'_, L>
        ensures { result ≡ self.now }
    {
        Kids {
            left: self.entries.as_slice(),
        }
    }

    /// Returns the number of nodes, in constant time.
    pub fn count(&self) -> usize
        ensures { result ≡ count_all (roses_of self.now) }
    {
        self.entries.len()
    }
}

/// A tree, in one vector. It is dropped without recursion.
#[derive(Drop)]
pub struct Flat<L> {
    pub(crate) trees: Forest<L>,
    ghost one: { length trees ≡ 1 },
}

impl<L> Model for Flat<L> {
    ghost use Rattle.base_trees.specs.Rose.{Rose, coded_rose};

    ghost Value = { Rose L };

    ghost coded = { coded_rose L.code };

    ghost use Rattle.base_flat_trees.specs.Only.{only};

    ghost view = { λ a. only a.trees a.one };
}

impl<L> Flat<L> {
    /// Returns the root.
    pub fn root(&self) -> Node<'_, L>
        ensures { result ≡ self.now }
    {
        let mut trees = self.trees.trees();
        match trees.next() {
            None => unreachable!(),
            Some(root) => root,
        }
    }

    /// Returns the number of nodes, in constant time.
    pub fn count(&self) -> usize
        ensures { result ≡ node_count self.now }
    {
        self.trees.count()
    }

    /// Returns the tree as a list of one tree.
    pub fn into_trees(self) -> Forest<L>
        ensures { result ≡ self ∷ [] }
    {
        self.trees
    }
}
