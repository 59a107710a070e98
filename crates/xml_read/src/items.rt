//! The items of a document.
ghost use Rattle.std.specs.Prelude.{◌≡◌, IfOk};
ghost use Rattle.xml_read.specs.Sound.{AreItems};

use base_texts::Memory;
use base_trees::Tree;
use std::alloc::Global;
use std::marker::Model;
use xml_items::{ItemLabel, ItemNode, ItemTree};

/// The items of a document: its root element with everything in it (XML Information Set). Names are expanded, adjacent texts are
/// joined, and comments and processing instructions are dropped.
#[derive(Drop)]
pub struct Items {
    tree: ItemTree,
}

impl Model for Items {
    ghost use Rattle.base_trees.specs.Rose.{Rose, coded_rose};
    ghost use Rattle.xml_items.specs.declared.label.ItemLabel.{ItemLabel};
    ghost use Rattle.xml_items.specs.contracts.label.ItemLabel as item_label;

    ghost Value = { Rose ItemLabel };

    ghost coded = { coded_rose item_label.the_row.coded };

    ghost use Rattle.xml_read.specs.Sound.{AreItems};

    ghost view = { λ a. a.tree };

    ghost invariant = { λ a. AreItems a.tree };
}

impl Items {
    /// Returns the items that the tree represents.
    pub fn of(tree: ItemTree) -> Items
        requires { AreItems tree }
        ensures { result ≡ tree }
    {
        Items { tree }
    }

    /// Returns the root element.
    pub fn root(&self) -> ItemNode<'_>
        ensures root { result ≡ self.now }
        ensures items { AreItems self.now }
    {
        self.tree.root()
    }

    /// Returns the items as a tree with a list of children at each node.
    pub fn to_tree(&self, alloc: Global) -> Result<Tree<ItemLabel>, Memory>
        ensures tree { IfOk result (λ tree. tree ≡ self.now) }
        ensures items { AreItems self.now }
    {
        self.tree.to_tree(alloc)
    }
}
