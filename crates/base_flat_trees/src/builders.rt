//! Trees under construction.
ghost use Rattle.std.specs.Prelude.{◌≡◌, ◌<◌, ◌∷◌, [], length, Some, IsTrue, ◌↔◌, IfOk, OnOk, OnErr};
ghost use Rattle.std.specs.Borrow.{sem};
ghost use Rattle.std.specs.Option.{option_copied};
ghost use Rattle.base_trees.specs.Rose.{node, none};
ghost use Rattle.base_flat_trees.specs.Zips.{opened, added, added_all, canceled, closed, first_label, relabeled, nothing, zip_count};

use crate::entries::{Entry, append_entries, push_entry, set_below, set_label};
use crate::owned::{Flat, Forest};
use std::alloc::{AllocError, Global};
use std::marker::Model;

/// A list of trees, the last of which may still be open: the innermost open node has the children added so far, and so has each
/// open node around it. It has room for 2^32 - 1 nodes, and reports one more as an allocation failure.
#[derive(Drop)]
pub struct Builder<L> {
    pub(crate) entries: Vec<Entry<L>>,
    // The place after the innermost open node, or 0.
    inner: u32,
    // The number of open nodes.
    level: u32,
}

impl<L> Model for Builder<L> {
    ghost use Rattle.base_flat_trees.specs.Zips.{Zip, coded_zip};

    ghost Value = { Zip L };

    ghost coded = { coded_zip L.code };

    ghost use Rattle.base_flat_trees.specs.ZipEntries.{zip_of, IsZip};

    ghost view = { λ a. zip_of a.entries.items a.inner };

    ghost invariant = { λ a. IsZip a.entries.items a.inner a.level };
}

impl<L> Builder<L> {
    ghost use Rattle.base_flat_trees.specs.Lends.{lends_innermost};

    /// Returns a builder with no trees and no open node. It allocates nothing.
    pub fn new(alloc: Global) -> Builder<L>
        ensures { result ≡ nothing }
    {
        Builder {
            entries: Vec::new(alloc),
            inner: 0,
            level: 0,
        }
    }

    /// Returns an empty builder with room for `count` nodes.
    pub fn with_capacity(alloc: Global, count: usize) -> Result<Builder<L>, AllocError>
        ensures { IfOk result (λ builder. builder ≡ nothing) }
    {
        let entries = Vec::with_capacity(alloc, count)?;
        Ok(Builder {
            entries,
            inner: 0,
            level: 0,
        })
    }

    /// Returns the number of nodes, open and closed, in constant time.
    pub fn count(&self) -> usize
        ensures { result ≡ zip_count self.now }
    {
        self.entries.len()
    }

    /// Returns whether no node is open.
    pub fn is_outside(&self) -> bool
        ensures { IsTrue result ↔ (self.now.above ≡ []) }
    {
        self.level == 0
    }

    /// Returns the label of the innermost open node.
    pub fn innermost(&self) -> Option<&L>
        ensures { option_copied result ≡ first_label self.now.above }
    {
        if self.level == 0 {
            None
        } else {
            Some(&self.entries[self.inner as usize - 1].label)
        }
    }

    /// Returns the label of the innermost open node, to be changed in place.
    #[inline(always)]
    pub fn innermost_mut(&mut self) -> &mut L
        requires { 0 < length self.old.above }
        ensures* writes_back { sem 𝓛 (lends_innermost L.row self.entry result) }
        ensures value { Some result.now ≡ first_label self.old.above }
    {
        let at = self.inner as usize - 1;
        self.entries[at].label_mut()
    }

    /// Gives the innermost open node another label, and returns its previous label.
    pub fn relabel(&mut self, label: L) -> L
        requires { 0 < length self.old.above }
        ensures before { Some result ≡ first_label self.old.above }
        ensures relabeled { self.new ≡ relabeled label self.old }
    {
        let at = self.inner as usize - 1;
        set_label(&mut self.entries, at, label)
    }

    /// Closes the innermost open node.
    #[inline(always)]
    pub fn close(&mut self)
        requires { 0 < length self.old.above }
        ensures { self.new ≡ closed self.old }
    {
        let at = self.inner as usize - 1;
        let below = (self.entries.len() - self.inner as usize) as u32;
        self.inner = set_below(&mut self.entries, at, below);
        self.level -= 1;
    }
}

impl<L> Builder<L> {
    /// Returns the trees, where no node is open.
    pub fn finish(self) -> Forest<L>
        requires { self.above ≡ [] }
        ensures { result ≡ self.kids }
    {
        Forest {
            entries: self.entries,
        }
    }

    /// Returns the tree, where no node is open and exactly one tree was built.
    pub fn finish_one(self) -> Flat<L>
        requires closed { self.above ≡ [] }
        requires one { length self.kids ≡ 1 }
        ensures { self.kids ≡ result ∷ [] }
    {
        Flat {
            trees: self.finish(),
        }
    }
}

impl<L: Drop> Builder<L> {
    /// Adds a node, which is open.
    #[inline(always)]
    pub fn open(&mut self, label: L) -> Result<(), AllocError>
        ensures ok { OnOk result (self.new ≡ opened label self.old) }
        ensures err { OnErr result (self.new ≡ self.old) }
    {
        push_entry(&mut self.entries, label, self.inner)?;
        self.inner = self.entries.len() as u32;
        self.level += 1;
        Ok(())
    }

    /// Adds a node with no children.
    #[inline(always)]
    pub fn leaf(&mut self, label: L) -> Result<(), AllocError>
        ensures ok { OnOk result (self.new ≡ added (node label none) self.old) }
        ensures err { OnErr result (self.new ≡ self.old) }
    {
        push_entry(&mut self.entries, label, 0)?;
        Ok(())
    }

    /// Removes the innermost open node with everything in it.
    pub fn cancel(&mut self)
        requires { 0 < length self.old.above }
        ensures { self.new ≡ canceled self.old }
    {
        let at = self.inner as usize - 1;
        self.inner = self.entries[at].below;
        self.entries.truncate(at);
        self.level -= 1;
    }

    /// Appends trees after those that are there.
    pub fn append(&mut self, trees: Forest<L>) -> Result<(), AllocError>
        ensures ok { OnOk result (self.new ≡ added_all trees self.old) }
        ensures err { OnErr result (self.new ≡ self.old) }
    {
        append_entries(&mut self.entries, trees.entries)?;
        Ok(())
    }
}
