//! The items of a document.
ghost use Rattle.std.specs.Prelude.{◌≡◌, IfOk};

use crate::entries::ItemEntry;
use crate::label::ItemLabel;
use crate::nodes::{ItemNode, ItemRef};
use crate::store::Store;
use base_flat_trees::Flat;
use base_texts::Memory;
use base_trees::Tree;
use std::alloc::Global;
use std::iter::Iterator;
use std::marker::Model;

/// A node with everything in it, in one vector. It is dropped without recursion.
#[derive(Drop)]
pub struct ItemTree {
    pub(crate) tree: Flat<ItemEntry>,
    pub(crate) store: Store,
}

impl Model for ItemTree {
    ghost use Rattle.base_trees.specs.Rose.{Rose, coded_rose};
    ghost use Rattle.xml_items.specs.declared.label.ItemLabel.{ItemLabel};
    ghost use Rattle.xml_items.specs.contracts.label.ItemLabel as item_label;

    ghost Value = { Rose ItemLabel };

    ghost coded = { coded_rose item_label.the_row.coded };

    ghost use Rattle.xml_items.specs.Meaning.{map_rose, meaning, FitTree};

    ghost view = { λ a. map_rose (meaning a.store) a.tree };

    ghost invariant = { λ a. FitTree a.store a.tree };
}

impl ItemTree {
    /// Returns the root.
    pub fn root(&self) -> ItemNode<'_>
        ensures { result ≡ self.now }
    {
        ItemNode {
            node: self.tree.root(),
            store: &self.store,
        }
    }

    /// Returns an equal tree with a list of children at each node. It is recursive, so its stack use grows with the depth.
    pub fn to_tree(&self, alloc: Global) -> Result<Tree<ItemLabel>, Memory>
        ensures { IfOk result (λ tree. tree ≡ self.now) }
    {
        copied(&self.root(), alloc)
    }
}

// An equal tree.
fn copied(node: &ItemNode<'_>, alloc: Global) -> Result<Tree<ItemLabel>, Memory>
    ensures { IfOk result (λ tree. tree ≡ node.now) }
{
    let mut kids = Vec::new(alloc);
    for kid in node.kids() {
        let copy = copied(&kid, alloc)?;
        kids.push(copy)?;
    }
    let label = node.label().to_label(alloc)?;
    Ok(Tree::join(label, kids))
}
