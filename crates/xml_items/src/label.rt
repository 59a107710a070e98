//! The label of a node of a document's items.
ghost use Rattle.std.specs.Prelude.{◌≡◌, IfOk};
ghost use Rattle.xml_items.specs.Labels.{MayHave, item_place};

use base_texts::{Memory, Name, Text};
use base_trees::Shape;
use std::alloc::Global;
use std::marker::Model;
use std::rc::RcSlice;

/// The attributes of an element, each a name with a value, in the order written. A copy shares them.
#[derive(Drop)]
pub struct Attributes {
    entries: RcSlice<(Name, Text)>,
}

impl Model for Attributes {
    ghost use Rattle.std.specs.Prelude.{List, ℕ};
    ghost use Rattle.std.specs.Rc.{rc_slice_items};
    ghost use Rattle.base_texts.specs.declared.texts.Name.{Name};

    ghost Value = { List (Name × List ℕ) };

    ghost view = { λ a. rc_slice_items a.entries };
}

impl Attributes {
    pub fn of(entries: Vec<(Name, Text)>) -> Result<Attributes, Memory>
        ensures { IfOk result (λ attributes. attributes ≡ entries.items) }
    {
        let entries = RcSlice::from_vec(entries)?;
        Ok(Attributes { entries })
    }

    pub fn items(&self) -> &[(Name, Text)]
        ensures { result.now ≡ self.now }
    {
        self.entries.as_slice()
    }

    /// Returns attributes equal to these entries.
    pub fn copy_of(alloc: Global, entries: &[(Name, Text)]) -> Result<Attributes, Memory>
        ensures { IfOk result (λ attributes. attributes ≡ entries.now) }
    {
        let mut copies = Vec::with_capacity(alloc, entries.len())?;
        let mut rest = entries;
        'each: while let [entry, others @ ..] = rest {
            rest = others;
            let name = entry.0.copy(alloc)?;
            let value = entry.1.copy(alloc)?;
            copies.push((name, value))?;
        }
        Attributes::of(copies)
    }

    fn copy(&self) -> Result<Attributes, Memory>
        ensures { IfOk result (λ attributes. attributes ≡ self.now) }
    {
        let entries = self.entries.clone()?;
        Ok(Attributes { entries })
    }
}

/// The namespaces that an element binds, each a prefix with a namespace, in the order written. The empty prefix binds the default
/// namespace, and the empty namespace undeclares it. Copies share them.
#[derive(Drop)]
pub struct Bindings {
    entries: RcSlice<(Text, Text)>,
}

impl Model for Bindings {
    ghost use Rattle.std.specs.Prelude.{List, ℕ};
    ghost use Rattle.std.specs.Rc.{rc_slice_items};

    ghost Value = { List (List ℕ × List ℕ) };

    ghost view = { λ a. rc_slice_items a.entries };
}

impl Bindings {
    pub fn of(entries: Vec<(Text, Text)>) -> Result<Bindings, Memory>
        ensures { IfOk result (λ bindings. bindings ≡ entries.items) }
    {
        let entries = RcSlice::from_vec(entries)?;
        Ok(Bindings { entries })
    }

    pub fn items(&self) -> &[(Text, Text)]
        ensures { result.now ≡ self.now }
    {
        self.entries.as_slice()
    }

    /// Returns bindings equal to these entries.
    pub fn copy_of(alloc: Global, entries: &[(Text, Text)]) -> Result<Bindings, Memory>
        ensures { IfOk result (λ bindings. bindings ≡ entries.now) }
    {
        let mut copies = Vec::with_capacity(alloc, entries.len())?;
        let mut rest = entries;
        'each: while let [entry, others @ ..] = rest {
            rest = others;
            let prefix = entry.0.copy(alloc)?;
            let space = entry.1.copy(alloc)?;
            copies.push((prefix, space))?;
        }
        Bindings::of(copies)
    }

    fn copy(&self) -> Result<Bindings, Memory>
        ensures { IfOk result (λ bindings. bindings ≡ self.now) }
    {
        let entries = self.entries.clone()?;
        Ok(Bindings { entries })
    }
}

/// A node of a document: an element with its expanded name, its attributes and the namespaces that it binds, or a
/// text. `at` is the place in bytes from 0: of an element that of the `<` of its start tag, of a text that of its
/// first byte.
#[derive(Drop)]
pub enum ItemLabel {
    Element {
        name: Name,
        attributes: Attributes,
        declares: Bindings,
        at: u64,
    },
    Text {
        text: Text,
        at: u64,
    },
}

impl ItemLabel {
    /// Returns the byte of the document at which the element or the text begins, from 0.
    pub fn place(&self) -> u64
        ensures { result ≡ item_place self.now }
    {
        match self {
            ItemLabel::Element { at, .. } | ItemLabel::Text { at, .. } => *at,
        }
    }
}

impl Shape for ItemLabel {
    ghost allowed = { MayHave };

    fn allows(&self, kids: u64) -> bool {
        match self {
            ItemLabel::Element { .. } => true,
            ItemLabel::Text { .. } => kids == 0,
        }
    }

    fn copy(&self, alloc: Global) -> Result<ItemLabel, Memory> {
        match self {
            ItemLabel::Element {
                name,
                attributes,
                declares,
                at,
            } => {
                let name = name.copy(alloc)?;
                let attributes = attributes.copy()?;
                let declares = declares.copy()?;
                Ok(ItemLabel::Element {
                    name,
                    attributes,
                    declares,
                    at: *at,
                })
            }
            ItemLabel::Text { text, at } => {
                let text = text.copy(alloc)?;
                Ok(ItemLabel::Text { text, at: *at })
            }
        }
    }
}
