//! Items under construction.
ghost use Rattle.std.specs.Prelude.{◌≡◌, ◌<◌, ◌∷◌, [], length, slice_get, take, Some, IfOk, OnOk, OnErr, IsUtf8, ◌≤◌};
ghost use Rattle.base_trees.specs.Rose.{node, none};
ghost use Rattle.base_flat_trees.specs.Zips.{opened, added, closed, first_label, nothing};
ghost use Rattle.xml_items.specs.declared.label.ItemLabel.TheVariants as item;
ghost use Rattle.xml_items.specs.Building.{binding_count, listed, name_at};
ghost use Rattle.xml_items.specs.Growing.{Grows};

use crate::document::Document;
use crate::entries::ItemEntry;
use crate::store::{Store, known};
use crate::tree::ItemTree;
use base_flat_trees::Builder;
use base_texts::{Memory, Name, Text};
use std::alloc::{AllocError, Global};
use std::marker::Model;

/// The number of a name among the names of a builder, seen as this number.
#[derive(Clone, Copy, Drop)]
pub struct ElementName {
    number: u32,
}

impl Model for ElementName {
    ghost use Rattle.std.specs.Prelude.{ℕ};

    ghost Value = { ℕ };

    ghost view = { λ a. a.number };

    ghost inverse = { λ number. record { number = number } };
}

/// A list of items, the last of which may still be open, and the names of their elements. It reports a place of 2^32 or more, and
/// more than 2^32 - 1 nodes, lists or names, as an allocation failure.
#[derive(Drop)]
pub struct ItemBuilder {
    builder: Builder<ItemEntry>,
    store: Store,
}

impl Model for ItemBuilder {
    ghost use Rattle.xml_items.specs.Building.{Building, coded_building};

    ghost Value = { Building };

    ghost coded = { coded_building };

    ghost use Rattle.xml_items.specs.Meaning.{map_zip, meaning, FitZip};

    ghost view = { λ a. record { zip = map_zip (meaning a.store) a.builder; names = a.store.names.items } };

    ghost invariant = { λ a. FitZip a.store a.builder };
}

impl ItemBuilder {
    /// Returns a builder without items. It allocates nothing.
    pub fn new(alloc: Global) -> ItemBuilder
        ensures { result.zip ≡ nothing }
    {
        ItemBuilder {
            builder: Builder::new(alloc),
            store: Store::new(alloc, None),
        }
    }

    /// Returns a builder without items for this document. The items share the document, so its characters aren't copied.
    pub fn of_document(alloc: Global, document: Document) -> ItemBuilder
        ensures { result.zip ≡ nothing }
    {
        ItemBuilder {
            builder: Builder::new(alloc),
            store: Store::new(alloc, Some(document)),
        }
    }

    /// Returns the number of namespaces that the innermost open element binds.
    pub fn innermost_bindings(&self) -> usize
        ensures { result ≡ binding_count (first_label self.now.zip.above) }
    {
        match self.builder.innermost() {
            None => 0,
            Some(kept) => self.store.binding_count(*kept),
        }
    }

    /// Adds an open element, and returns the number of its name.
    pub fn open_element(
        &mut self,
        name: Name,
        attributes: Vec<(Name, Text)>,
        declares: Vec<(Text, Text)>,
        at: u64,
    ) -> Result<ElementName, AllocError>
        ensures ok { OnOk result (self.new.zip ≡ opened (item.Element name attributes.items declares.items at) self.old.zip) }
        ensures err { OnErr result (self.new.zip ≡ self.old.zip) }
        ensures names { Grows self.old.names self.new.names }
        ensures number { IfOk result (λ number. slice_get self.new.names number ≡ Some name) }
    {
        let kept = self.store.keep_element(name, attributes, declares, at)?;
        self.builder.open(kept.0)?;
        Ok(ElementName { number: kept.1 })
    }

    /// Adds an open element without attributes and bindings. Its name has this number.
    #[inline(always)]
    pub fn open_known(&mut self, name: ElementName, at: u64) -> Result<(), AllocError>
        requires { name < length self.old.names }
        ensures ok { OnOk result (self.new.zip ≡ opened (item.Element (name_at self.old.names name) [] [] at) self.old.zip) }
        ensures err { OnErr result (self.new.zip ≡ self.old.zip) }
        ensures names { self.new.names ≡ self.old.names }
    {
        let kept = known(name.number, at)?;
        self.builder.open(kept)
    }

    /// Adds an element without content, and returns the number of its name.
    pub fn element(
        &mut self,
        name: Name,
        attributes: Vec<(Name, Text)>,
        declares: Vec<(Text, Text)>,
        at: u64,
    ) -> Result<ElementName, AllocError>
        ensures ok { OnOk result (self.new.zip ≡ added (node (item.Element name attributes.items declares.items at) none) self.old.zip) }
        ensures err { OnErr result (self.new.zip ≡ self.old.zip) }
        ensures names { Grows self.old.names self.new.names }
        ensures number { IfOk result (λ number. slice_get self.new.names number ≡ Some name) }
    {
        let kept = self.store.keep_element(name, attributes, declares, at)?;
        self.builder.leaf(kept.0)?;
        Ok(ElementName { number: kept.1 })
    }

    /// Adds an element without attributes, bindings and content. Its name has this number.
    #[inline(always)]
    pub fn known_element(&mut self, name: ElementName, at: u64) -> Result<(), AllocError>
        requires { name < length self.old.names }
        ensures ok { OnOk result (self.new.zip ≡ added (node (item.Element (name_at self.old.names name) [] [] at) none) self.old.zip) }
        ensures err { OnErr result (self.new.zip ≡ self.old.zip) }
        ensures names { self.new.names ≡ self.old.names }
    {
        let kept = known(name.number, at)?;
        self.builder.leaf(kept)
    }

    /// Adds a text.
    #[inline(always)]
    pub fn text(&mut self, text: Text, at: u64) -> Result<(), AllocError>
        ensures ok { OnOk result (self.new.zip ≡ added (node (item.Text text at) none) self.old.zip) }
        ensures err { OnErr result (self.new.zip ≡ self.old.zip) }
        ensures names { self.new.names ≡ self.old.names }
    {
        let kept = self.store.keep_text(text, at)?;
        self.builder.leaf(kept)
    }

    /// Adds a text: the first `len` of these bytes. They aren't copied where the document that the items share has them at this
    /// place.
    #[inline(always)]
    pub fn front(&mut self, alloc: Global, bytes: &[u8], len: usize, at: u64) -> Result<(), Memory>
        requires within { len ≤ length bytes.now }
        requires utf8 { IsUtf8 (take len bytes.now) }
        ensures ok { OnOk result (self.new.zip ≡ added (node (item.Text (take len bytes.now) at) none) self.old.zip) }
        ensures err { OnErr result (self.new.zip ≡ self.old.zip) }
        ensures names { self.new.names ≡ self.old.names }
    {
        let kept = self.store.keep_front(alloc, bytes, len, at)?;
        self.builder.leaf(kept)?;
        Ok(())
    }

    /// Replaces the attributes and bindings of the innermost open element.
    pub fn set_lists(
        &mut self,
        attributes: Vec<(Name, Text)>,
        declares: Vec<(Text, Text)>,
    ) -> Result<(), AllocError>
        requires { 0 < length self.old.zip.above }
        ensures ok { OnOk result (self.new.zip ≡ listed attributes.items declares.items self.old.zip) }
        ensures err { OnErr result (self.new.zip ≡ self.old.zip) }
        ensures names { self.new.names ≡ self.old.names }
    {
        let kept = match self.builder.innermost() {
            None => return Ok(()),
            Some(kept) => *kept,
        };
        match kept {
            ItemEntry::Element { at, .. } | ItemEntry::Listed { at, .. } => {
                let name = self.store.name_number(kept);
                let kept = self.store.keep_lists(name, attributes, declares, at)?;
                let _ = self.builder.relabel(kept);
                Ok(())
            }
            ItemEntry::Span { .. } | ItemEntry::Text { .. } => Ok(()),
        }
    }

    /// Closes the innermost open element.
    #[inline(always)]
    pub fn close(&mut self)
        requires { 0 < length self.old.zip.above }
        ensures zip { self.new.zip ≡ closed self.old.zip }
        ensures names { self.new.names ≡ self.old.names }
    {
        self.builder.close();
    }

    /// Returns the root, where no element is open and exactly one item was built.
    pub fn finish(self) -> ItemTree
        requires closed { self.zip.above ≡ [] }
        requires one { length self.zip.kids ≡ 1 }
        ensures { self.zip.kids ≡ result ∷ [] }
    {
        let tree = self.builder.finish_one();
        ItemTree {
            tree,
            store: self.store,
        }
    }
}
