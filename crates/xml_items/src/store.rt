//! The parts of items, each with its number.
ghost use Rattle.std.specs.Prelude.{◌≡◌, ◌<◌, ◌≤◌, ◌^◌, ◌-◌, ◌++◌, ◌∷◌, [], length, slice_get, take, Some, IfOk, IfSome, IsTrue, IsUtf8, OnOk, OnErr};
ghost use Rattle.xml_items.specs.declared.label.ItemLabel.TheVariants as label;
ghost use Rattle.xml_items.specs.declared.entries.ItemEntry.TheVariants as entry;
ghost use Rattle.xml_items.specs.Building.{binding_count, name_at, IsNamed};
ghost use Rattle.xml_items.specs.Meaning.{span_in, StoreGrows, Fits, meaning};
ghost use Rattle.xml_items.specs.Seen.{item_seen};

use crate::characters::{Characters, Lying, are_fronts_same};
use crate::document::Document;
use crate::entries::ItemEntry;
use crate::nodes::ItemRef;
use base_texts::{Memory, Name, Text};
use std::alloc::{AllocError, Global};

// The number of hashes of names.
const LOOKS: usize = 64;

/// The number of an element's name, its attributes and the namespaces that it binds.
#[derive(Drop)]
pub(crate) struct Lists {
    pub(crate) name: u32,
    pub(crate) attributes: Vec<(Name, Text)>,
    pub(crate) declares: Vec<(Text, Text)>,
}

/// The parts of items. A name may occur more than once.
#[derive(Drop)]
pub(crate) struct Store {
    // The document, where it is shared.
    pub(crate) document: Option<Document>,
    pub(crate) names: Vec<Name>,
    pub(crate) lists: Vec<Lists>,
    pub(crate) texts: Vec<Text>,
    // The number of texts in the document.
    spans: usize,
    // The number of the last name with each hash.
    looks: [u32; LOOKS],
}

impl Store {
    /// Returns an empty store. It allocates nothing.
    pub(crate) fn new(alloc: Global, document: Option<Document>) -> Store
        ensures names { result.names.items ≡ [] }
    {
        Store {
            document,
            names: Vec::new(alloc),
            lists: Vec::new(alloc),
            texts: Vec::new(alloc),
            spans: 0,
            looks: [0; LOOKS],
        }
    }

    /// Returns the number of texts that were kept, or `usize::MAX` if there are more.
    pub(crate) fn text_count(&self) -> usize {
        self.texts.len().saturating_add(self.spans)
    }

    /// Returns the item that an entry represents.
    #[inline(always)]
    pub(crate) fn item(&self, kept: ItemEntry) -> ItemRef<'_>
        requires { Fits self.now kept }
        ensures { item_seen result ≡ meaning self.now kept }
    {
        match kept {
            ItemEntry::Element { name, at } => ItemRef::Element {
                name: &self.names[name as usize],
                attributes: &[],
                declares: &[],
                at: at as u64,
            },
            ItemEntry::Listed { lists, at } => self.listed(lists, at),
            ItemEntry::Span { len, at } => ItemRef::Text {
                text: self.span(at, len),
                at: at as u64,
            },
            ItemEntry::Text { text, at } => ItemRef::Text {
                text: Characters {
                    lying: Lying::Kept(&self.texts[text as usize]),
                },
                at: at as u64,
            },
        }
    }

    // An element that has lists.
    #[inline(always)]
    fn listed(&self, lists: u32, at: u32) -> ItemRef<'_>
        requires { Fits self.now (entry.Listed lists at) }
        ensures { item_seen result ≡ meaning self.now (entry.Listed lists at) }
    {
        let lists = &self.lists[lists as usize];
        ItemRef::Element {
            name: &self.names[lists.name as usize],
            attributes: lists.attributes.as_slice(),
            declares: lists.declares.as_slice(),
            at: at as u64,
        }
    }

    // The characters at this place of the document, `len` bytes.
    #[inline(always)]
    fn span(&self, at: u32, len: u32) -> Characters<'_>
        requires { Fits self.now (entry.Span len at) }
        ensures { result ≡ span_in self.now.document at len }
    {
        match &self.document {
            None => unreachable!(),
            Some(document) => Characters {
                lying: Lying::Front {
                    bytes: &document.bytes()[at as usize..],
                    len: len as usize,
                },
            },
        }
    }

    /// Returns the number of namespaces that an entry binds.
    pub(crate) fn binding_count(&self, kept: ItemEntry) -> usize
        requires { Fits self.now kept }
        ensures { result ≡ binding_count (Some (meaning self.now kept)) }
    {
        match kept {
            ItemEntry::Listed { lists, .. } => self.lists[lists as usize].declares.len(),
            _ => 0,
        }
    }

    /// Returns the number of an element's name. For a text it returns 0.
    pub(crate) fn name_number(&self, kept: ItemEntry) -> u32
        requires { Fits self.now kept }
        ensures { IsNamed self.now.names.items result (meaning self.now kept) }
    {
        match kept {
            ItemEntry::Element { name, .. } => name,
            ItemEntry::Listed { lists, .. } => self.lists[lists as usize].name,
            _ => 0,
        }
    }

    // The number of a name, if the entry of its hash has this name.
    #[inline(always)]
    fn find_name(&self, name: &Name, look: usize) -> Option<u32>
        ensures { IfSome result (λ number. slice_get self.now.names.items number ≡ Some name.now) }
    {
        let number = *self.looks.get(look)?;
        let known = self.names.get(number as usize)?;
        if known == name { Some(number) } else { None }
    }

    // The number of a name, which is added unless it is found.
    fn keep_name(&mut self, name: Name) -> Result<u32, AllocError>
        ensures grows { StoreGrows self.old self.new }
        ensures number { IfOk result (λ number. slice_get self.new.names.items number ≡ Some name) }
    {
        let look = look_of(&name);
        if let Some(number) = self.find_name(&name, look) {
            return Ok(number);
        }
        let number = push_part(&mut self.names, name)?;
        if look < LOOKS {
            self.looks[look] = number;
        }
        Ok(number)
    }

    /// Returns the entry of an element whose name has this number.
    pub(crate) fn keep_lists(
        &mut self,
        name: u32,
        attributes: Vec<(Name, Text)>,
        declares: Vec<(Text, Text)>,
        at: u32,
    ) -> Result<ItemEntry, AllocError>
        requires { name < length self.old.names.items }
        ensures grows { StoreGrows self.old self.new }
        ensures names { self.new.names.items ≡ self.old.names.items }
        ensures fits { IfOk result (λ kept. Fits self.new kept) }
        ensures meaning { IfOk result (λ kept. meaning self.new kept ≡ label.Element (name_at self.new.names.items name) attributes.items declares.items at) }
    {
        if attributes.is_empty() && declares.is_empty() {
            return Ok(ItemEntry::Element { name, at });
        }
        let lists = push_part(
            &mut self.lists,
            Lists {
                name,
                attributes,
                declares,
            },
        )?;
        Ok(ItemEntry::Listed { lists, at })
    }

    /// Returns the entry of an element, and the number of its name.
    pub(crate) fn keep_element(
        &mut self,
        name: Name,
        attributes: Vec<(Name, Text)>,
        declares: Vec<(Text, Text)>,
        at: u64,
    ) -> Result<(ItemEntry, u32), AllocError>
        ensures grows { StoreGrows self.old self.new }
        ensures fits { IfOk result (λ kept. Fits self.new kept.0) }
        ensures meaning { IfOk result (λ kept. meaning self.new kept.0 ≡ label.Element name attributes.items declares.items at) }
        ensures number { IfOk result (λ kept. slice_get self.new.names.items kept.1 ≡ Some name) }
    {
        let at = short_place(at)?;
        let name = self.keep_name(name)?;
        let kept = self.keep_lists(name, attributes, declares, at)?;
        Ok((kept, name))
    }

    /// Returns the entry of a text.
    #[inline(always)]
    pub(crate) fn keep_text(&mut self, text: Text, at: u64) -> Result<ItemEntry, AllocError>
        ensures grows { StoreGrows self.old self.new }
        ensures names { self.new.names.items ≡ self.old.names.items }
        ensures fits { IfOk result (λ kept. Fits self.new kept) }
        ensures meaning { IfOk result (λ kept. meaning self.new kept ≡ label.Text text at) }
    {
        let at = short_place(at)?;
        let text = push_part(&mut self.texts, text)?;
        Ok(ItemEntry::Text { text, at })
    }

    // Whether the document has the first `len` of these bytes at this place. The result may be false although it has them.
    #[inline(always)]
    fn lies_at(&self, at: u32, bytes: &[u8], len: usize) -> bool
        requires within { len ≤ length bytes.now }
        requires utf8 { IsUtf8 (take len bytes.now) }
        ensures fits { IsTrue result → Fits self.now (entry.Span len at) }
        ensures same { IsTrue result → span_in self.now.document at len ≡ take len bytes.now }
    {
        let Some(document) = &self.document else {
            return false;
        };
        match document.bytes().get(at as usize..) {
            None => false,
            Some(there) => are_fronts_same(there, bytes, len),
        }
    }

    /// Returns the entry of a text, the first `len` of these bytes. Where the document has them at their place, they aren't
    /// copied.
    #[inline(always)]
    pub(crate) fn keep_front(
        &mut self,
        alloc: Global,
        bytes: &[u8],
        len: usize,
        at: u64,
    ) -> Result<ItemEntry, Memory>
        requires within { len ≤ length bytes.now }
        requires utf8 { IsUtf8 (take len bytes.now) }
        ensures grows { StoreGrows self.old self.new }
        ensures names { self.new.names.items ≡ self.old.names.items }
        ensures fits { IfOk result (λ kept. Fits self.new kept) }
        ensures meaning { IfOk result (λ kept. meaning self.new kept ≡ label.Text (take len bytes.now) at) }
    {
        let place = short_place(at)?;
        if len <= u32::MAX as usize && self.lies_at(place, bytes, len) {
            self.spans = self.spans.saturating_add(1);
            return Ok(ItemEntry::Span {
                len: len as u32,
                at: place,
            });
        }
        let text = Text::of_front(alloc, bytes, len)?;
        let kept = self.keep_text(text, at)?;
        Ok(kept)
    }
}

// The hash of a name.
#[inline(always)]
fn look_of(name: &Name) -> usize {
    let local = name.local.bytes();
    match local {
        [] => 0,
        [first, .., last] => local
            .len()
            .wrapping_mul(7)
            .wrapping_add(*first as usize)
            .wrapping_add((*last as usize).wrapping_mul(3))
            % LOOKS,
        [only] => *only as usize % LOOKS,
    }
}

// Appends a part, and returns its number.
#[inline(always)]
fn push_part<T: Drop>(parts: &mut Vec<T>, part: T) -> Result<u32, AllocError>
    ensures ok { OnOk result (parts.new.items ≡ parts.old.items ++ part ∷ []) }
    ensures err { OnErr result (parts.new.items ≡ parts.old.items) }
    ensures number { IfOk result (λ number. number ≡ length parts.old.items) }
    ensures few { IfOk result (λ number. number < 2 ^ 32 - 1) }
{
    let number = parts.len();
    if number >= u32::MAX as usize {
        return Err(AllocError);
    }
    parts.push(part)?;
    Ok(number as u32)
}

// A place as it is stored, if it is below 2^32.
#[inline(always)]
fn short_place(at: u64) -> Result<u32, AllocError>
    ensures { IfOk result (λ place. place ≡ at) }
{
    if at > u32::MAX as u64 {
        return Err(AllocError);
    }
    Ok(at as u32)
}

/// Returns an element without lists, as it is stored.
#[inline(always)]
pub(crate) fn known(name: u32, at: u64) -> Result<ItemEntry, AllocError>
    ensures { IfOk result (λ kept. kept ≡ entry.Element name at) }
{
    let at = short_place(at)?;
    Ok(ItemEntry::Element { name, at })
}
