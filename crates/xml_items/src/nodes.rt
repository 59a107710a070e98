//! Nodes of items that are stored elsewhere, and their children.
ghost use Rattle.std.specs.Prelude.{◌≡◌, ◌≤◌, IfOk, IsTrue, ◌↔◌, [], length};
ghost use Rattle.std.specs.Iterator.{YieldsFirst, item_count};
ghost use Rattle.base_trees.specs.Rose.{label_of, kids_of, node_count};
ghost use Rattle.xml_items.specs.Labels.{item_place};
ghost use Rattle.xml_items.specs.Seen.{item_seen};

use crate::characters::Characters;
use crate::entries::ItemEntry;
use crate::label::{Attributes, Bindings, ItemLabel};
use crate::store::Store;
use base_flat_trees::{Kids, Node};
use base_texts::{Memory, Name, Text};
use std::alloc::Global;
use std::iter::Iterator;
use std::marker::Model;

/// The label of a node of a document, with the fields of `ItemLabel`.
#[derive(Drop)]
pub enum ItemRef<'a> {
    Element {
        name: &'a Name,
        attributes: &'a [(Name, Text)],
        declares: &'a [(Text, Text)],
        at: u64,
    },
    Text {
        text: Characters<'a>,
        at: u64,
    },
}

impl<'a> ItemRef<'a> {
    /// Returns the byte of the document at which the element or the text begins, from 0.
    #[inline(always)]
    pub fn place(&self) -> u64
        ensures { result ≡ item_place (item_seen self.now) }
    {
        match self {
            ItemRef::Element { at, .. } | ItemRef::Text { at, .. } => *at,
        }
    }

    /// Returns the label itself.
    pub fn to_label(self, alloc: Global) -> Result<ItemLabel, Memory>
        ensures { IfOk result (λ label. label ≡ item_seen self.entry) }
    {
        match self {
            ItemRef::Element {
                name,
                attributes,
                declares,
                at,
            } => {
                let name = name.copy(alloc)?;
                let attributes = Attributes::copy_of(alloc, attributes)?;
                let declares = Bindings::copy_of(alloc, declares)?;
                Ok(ItemLabel::Element {
                    name,
                    attributes,
                    declares,
                    at,
                })
            }
            ItemRef::Text { text, at } => {
                let text = text.to_text(alloc)?;
                Ok(ItemLabel::Text { text, at })
            }
        }
    }
}

/// A node of a document, seen as the tree below it.
#[derive(Drop)]
pub struct ItemNode<'a> {
    pub(crate) node: Node<'a, ItemEntry>,
    pub(crate) store: &'a Store,
}

impl<'a> Model for ItemNode<'a> {
    ghost use Rattle.base_trees.specs.Rose.{Rose, coded_rose};
    ghost use Rattle.xml_items.specs.declared.label.ItemLabel.{ItemLabel};
    ghost use Rattle.xml_items.specs.contracts.label.ItemLabel as item_label;

    ghost Value = { Rose ItemLabel };

    ghost coded = { coded_rose item_label.the_row.coded };

    ghost use Rattle.xml_items.specs.Meaning.{map_rose, meaning, FitTree};

    ghost view = { λ a. map_rose (meaning a.store.now) a.node };

    ghost invariant = { λ a. FitTree a.store.now a.node };
}

/// A list of nodes of a document, read from the first on.
#[derive(Drop)]
pub struct ItemKids<'a> {
    kids: Kids<'a, ItemEntry>,
    store: &'a Store,
}

impl<'a> Model for ItemKids<'a> {
    ghost use Rattle.std.specs.Prelude.{List, map};
    ghost use Rattle.std.specs.Coded.{coded_list};
    ghost use Rattle.base_trees.specs.Rose.{Rose, coded_rose};
    ghost use Rattle.xml_items.specs.declared.label.ItemLabel.{ItemLabel};
    ghost use Rattle.xml_items.specs.contracts.label.ItemLabel as item_label;

    ghost Value = { List (Rose ItemLabel) };

    ghost coded = { coded_list (coded_rose item_label.the_row.coded) };

    ghost use Rattle.xml_items.specs.Meaning.{map_rose, meaning, FitAll};

    ghost view = { λ a. map (map_rose (meaning a.store.now)) a.kids };

    ghost invariant = { λ a. FitAll a.store.now a.kids };
}

impl<'a> ItemNode<'a> {
    /// Returns the label of the node.
    #[inline(always)]
    pub fn label(&self) -> ItemRef<'a>
        ensures { item_seen result ≡ label_of self.now }
    {
        let kept = self.node.label();
        self.store.item(*kept)
    }

    /// Returns the children of the node.
    #[inline(always)]
    pub fn kids(&self) -> ItemKids<'a>
        ensures { result ≡ kids_of self.now }
    {
        let kids = self.node.kids();
        ItemKids {
            kids,
            store: self.store,
        }
    }

    /// Returns another handle to this node.
    #[inline(always)]
    pub fn again(&self) -> ItemNode<'a>
        ensures { result ≡ self.now }
    {
        ItemNode {
            node: self.node.again(),
            store: self.store,
        }
    }

    /// Returns an estimate of the number of elements in the document whose root this is, in constant time. It serves to reserve
    /// memory. Each node except a text is an element.
    pub fn element_hint(&self) -> usize
        ensures { result ≤ node_count self.now }
    {
        (self.node.count() as usize).saturating_sub(self.store.text_count())
    }
}

impl<'a> ItemKids<'a> {
    /// Returns another iterator over the nodes that are left.
    #[inline(always)]
    pub fn again(&self) -> ItemKids<'a>
        ensures { result ≡ self.now }
    {
        ItemKids {
            kids: self.kids.again(),
            store: self.store,
        }
    }

    /// Returns the number of nodes. It visits each of them.
    pub fn len(&self) -> usize
        ensures { result ≡ length self.now }
    {
        self.kids.len()
    }

    /// Returns whether no node is left.
    #[inline(always)]
    pub fn is_empty(&self) -> bool
        ensures { IsTrue result ↔ (self.now ≡ []) }
    {
        self.kids.is_empty()
    }
}

impl<'a> Iterator for ItemKids<'a> {
    type Item = ItemNode<'a>;

    ghost next_gives = { YieldsFirst (λ kids. kids) };

    ghost remaining = { item_count (λ kids. kids) };

    #[inline(always)]
    fn next(&mut self) -> Option<ItemNode<'a>> {
        match self.kids.next() {
            None => None,
            Some(node) => Some(ItemNode {
                node,
                store: self.store,
            }),
        }
    }
}
