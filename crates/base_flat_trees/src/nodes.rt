//! Nodes of trees that are stored elsewhere, and their children.
ghost use Rattle.std.specs.Prelude.{◌≡◌, ◌<◌, ◌+◌, ◌∷◌, IsTrue, MatchBool, ◌↔◌, [], Some, length, slice_get};
ghost use Rattle.std.specs.Iterator.{YieldsFirst, item_count};
ghost use Rattle.base_trees.specs.Rose.{Rose, label_of, kids_of, shown_count};

use crate::entries::Entry;
use std::iter::Iterator;
use std::marker::Model;

/// A node, seen as the tree below it.
#[derive(Drop)]
pub struct Node<'a, L> {
    pub(crate) label: &'a L,
    pub(crate) below: &'a [Entry<L>],
}

impl<'a, L> Model for Node<'a, L> {
    ghost use Rattle.base_trees.specs.Rose.{Rose, node, roses_of, coded_rose};

    ghost Value = { Rose L };

    ghost coded = { coded_rose L.code };

    ghost use Rattle.base_flat_trees.specs.Entries.{forest, AreWhole};

    ghost view = { λ a. node a.label.now (roses_of (forest a.below.now)) };

    ghost invariant = { λ a. AreWhole a.below.now };
}

/// A list of trees, read from the first on.
#[derive(Drop)]
pub struct Kids<'a, L> {
    pub(crate) left: &'a [Entry<L>],
}

impl<'a, L> Model for Kids<'a, L> {
    ghost use Rattle.std.specs.Prelude.{List};
    ghost use Rattle.std.specs.Coded.{coded_list};
    ghost use Rattle.base_trees.specs.Rose.{Rose, coded_rose};

    ghost Value = { List (Rose L) };

    ghost coded = { coded_list (coded_rose L.code) };

    ghost use Rattle.base_flat_trees.specs.Entries.{forest, AreWhole};

    ghost view = { λ a. forest a.left.now };

    ghost invariant = { λ a. AreWhole a.left.now };
}

impl<'a, L> Node<'a, L> {
    /// Returns the label of the node.
    #[inline(always)]
    pub fn label(&self) -> &'a L
        ensures { result.now ≡ label_of self.now }
    {
        self.label
    }

    /// Returns the children of the node.
    #[inline(always)]
    pub fn kids(&self) -> Kids<'a, L>
        ensures { result ≡ kids_of self.now }
    {
        Kids { left: self.below }
    }

    /// Returns another handle to this node.
    pub fn again(&self) -> Node<'a, L>
        ensures { result ≡ self.now }
    {
        Node {
            label: self.label,
            below: self.below,
        }
    }

    /// Returns the number of nodes, or 2^64 - 1 if there are more, in constant time.
    pub fn count(&self) -> u64
        ensures { result ≡ shown_count self.now }
    {
        (self.below.len() as u64).saturating_add(1)
    }
}

impl<'a, L> Node<'a, L> {
    /// Returns the number of children. It visits each of them.
    pub fn kid_count(&self) -> usize
        ensures { result ≡ length (kids_of self.now) }
    {
        self.kids().len()
    }

    /// Returns the child of the node with this number, counted from 0. It visits the children that precede it.
    pub fn kid(&self, i: usize) -> Node<'a, L>
        requires { i < length (kids_of self.now) }
        ensures { slice_get (kids_of self.now) i ≡ Some result }
    {
        let mut kids = self.kids();
        for _ in 0..i {
            let _before = kids.next();
        }
        match kids.next() {
            None => unreachable!(),
            Some(kid) => kid,
        }
    }
}

impl<'a, L> Kids<'a, L> {
    /// Returns another handle to these trees.
    pub fn again(&self) -> Kids<'a, L>
        ensures { result ≡ self.now }
    {
        Kids { left: self.left }
    }

    // Passes the next tree, if it has this number of nodes below its root.
    #[inline(always)]
    fn pass(&mut self, below: usize) -> bool
        ensures { MatchBool result ((kid : Rose L) × (self.old ≡ kid ∷ self.new)) (self.new ≡ self.old) }
    {
        match self.left.split_first() {
            None => false,
            Some((first, later)) => {
                if first.below as usize != below {
                    return false;
                }
                let (_, left) = later.split_at(below);
                self.left = left;
                true
            }
        }
    }

    // Passes the next trees while each has this number of nodes below its root, and returns how many it passed. The place of the
    // next tree is known before its number of nodes is read, so the processor can load several at once.
    fn pass_same(&mut self, below: usize) -> usize
        ensures { length self.old ≡ result + length self.new }
    {
        let _fits = self.left.len();
        let mut count: usize = 0;
        'same: while self.pass(below) {
            count += 1;
        }
        count
    }

    /// Returns the number of trees. It visits each of them.
    pub fn len(&self) -> usize
        ensures { result ≡ length self.now }
    {
        let _fits = self.left.len();
        let mut kids = self.again();
        let mut count: usize = 0;
        'sizes: while let Some(kid) = kids.next() {
            count += 1;
            count += kids.pass_same(kid.below.len());
        }
        count
    }

    /// Returns whether no tree remains.
    pub fn is_empty(&self) -> bool
        ensures { IsTrue result ↔ (self.now ≡ []) }
    {
        self.left.is_empty()
    }
}

impl<'a, L> Iterator for Kids<'a, L> {
    type Item = Node<'a, L>;

    ghost next_gives = { YieldsFirst (λ kids. kids) };

    ghost remaining = { item_count (λ kids. kids) };

    #[inline(always)]
    fn next(&mut self) -> Option<Node<'a, L>> {
        match self.left.split_first() {
            None => None,
            Some((first, later)) => {
                let (below, left) = later.split_at(first.below as usize);
                self.left = left;
                Some(Node {
                    label: &first.label,
                    below,
                })
            }
        }
    }
}
