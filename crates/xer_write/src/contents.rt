//! Items as they are added, and the content of the innermost element so far.
ghost use Rattle.std.specs.Prelude.{◌≡◌, ◌∷◌, [], ◌++◌, ℕ, List, IfOk, OnOk, codes, drop, map};
ghost use Rattle.std.specs.Bool.{OnTrue};
ghost use Rattle.base_trees.specs.Rose.{none, more, roses_of};
ghost use Rattle.xml_items.specs.Mixing.{text_before};
ghost use Rattle.xer_items.specs.Items.{given, nil_name, element_of};
ghost use Rattle.xer_write.specs.declared.receiver.Open.TheVariants as open_element;
ghost use Rattle.xer_write.specs.Private.Receiving.{name_seen, IsBegun, IsTree, items_built, IsWholeOf, IsOpen, Tells, Closes};
ghost use Rattle.xer_write.specs.Private.Gaining.{Gains, GainsIn, MakesRoom, Begins, IsPlain, first_text, levels, outer_of, value_text};

use crate::receiver::{NameRef, Open, Receiver};
use crate::spelling::value_text;
use base_flat_trees::Kids;
use base_texts::{Memory, Text};
use simple_types::ValueLabel;
use std::alloc::Global;
use std::iter::Iterator;
use std::mem;
use xml_items::ItemTree;
use xml_write::OpenTag;

/// The receiver of the items so far, and the texts that precede the next of them.
#[derive(Drop)]
pub(crate) struct Contents<'a> {
    receiver: Receiver<'a>,
    // The texts that remain of each mixed type with a value in the element, the innermost last.
    texts: Vec<Kids<'a, ValueLabel>>,
}

/// What an element has so far, while an element in it is open.
#[derive(Drop)]
pub(crate) struct Outer<'a> {
    tag: Open<'a>,
    texts: Vec<Kids<'a, ValueLabel>>,
}

impl<'a> Contents<'a> {
    /// Returns an empty content.
    pub(crate) fn new(alloc: Global, receiver: Receiver<'a>) -> Contents<'a>
        ensures receiver { result.receiver ≡ receiver.entry }
        ensures texts { result.texts.items ≡ [] }
    {
        Contents {
            receiver,
            texts: Vec::new(alloc),
        }
    }

    /// Returns the tree, if there is one and no element is open.
    pub(crate) fn into_tree(self) -> ItemTree
        requires { IsTree self.receiver }
        ensures { items_built self.entry.receiver ≡ result ∷ [] }
    {
        self.receiver.into_tree()
    }

    /// Returns the text that was written, with a root of this name. None if an attribute was added too late.
    pub(crate) fn into_text(
        self,
        alloc: Global,
        name: NameRef<'a>,
    ) -> Result<Option<Vec<u8>>, Memory>
        ensures { IfOk result (λ whole. IsWholeOf self.entry.receiver (name_seen name.entry) whole) }
    {
        self.receiver.into_text(alloc, name)
    }

    /// Adds an attribute to the innermost open element.
    pub(crate) fn add_attribute(
        &mut self,
        alloc: Global,
        name: NameRef<'a>,
        text: Text,
    ) -> Result<(), Memory>
        ensures { OnOk result (Gains self.old self.new (given ((name_seen name.entry, text) ∷ []) none)) }
    {
        // Calling `as_str` makes it known that the text is UTF-8.
        let _ = text.as_str();
        self.receiver.put_attribute(alloc, name, text)
    }

    /// Adds `xsi:nil` with the value `true`.
    pub(crate) fn add_nil(&mut self, alloc: Global) -> Result<(), Memory>
        ensures { OnOk result (Gains self.old self.new (given ((nil_name, codes "true") ∷ []) none)) }
    {
        self.receiver.put_nil(alloc)
    }

    /// Adds a text, unless it is empty.
    #[cycle(texts)]
    pub(crate) fn add_text(&mut self, alloc: Global, text: Text) -> Result<(), Memory>
        ensures { OnOk result (Gains self.old self.new (given [] (text_before text none))) }
    {
        if text.as_str().is_empty() {
            return Ok(());
        }
        self.make_room(alloc)?;
        self.receiver.put_text(alloc, &text)
    }

    // Adds the next of these texts, if there is one, and returns those that remain.
    #[cycle(texts)]
    fn add_next(
        &mut self,
        alloc: Global,
        texts: Kids<'a, ValueLabel>,
    ) -> Result<Kids<'a, ValueLabel>, Memory>
        ensures left { IfOk result (λ left. left ≡ drop 1 texts.entry) }
        ensures gains { OnOk result (Gains self.old self.new (given [] (text_before (first_text (map value_text texts.entry)) none))) }
    {
        let mut texts = texts;
        if let Some(value) = texts.next() {
            let text = value_text(alloc, &value)?;
            self.add_text(alloc, text)?;
        }
        Ok(texts)
    }

    // Adds the texts that precede the next item.
    #[cycle(texts)]
    fn make_room(&mut self, alloc: Global) -> Result<(), Memory>
        ensures { OnOk result (MakesRoom self.old self.new) }
    {
        let Some(texts) = self.texts.pop() else {
            return Ok(());
        };
        let left = self.add_next(alloc, texts)?;
        self.make_room(alloc)?;
        self.texts.push(left)?;
        Ok(())
    }

    // Adds the texts that precede the next item, if there are any.
    #[inline(always)]
    fn make_room_for_one(&mut self, alloc: Global) -> Result<(), Memory>
        ensures { OnOk result (MakesRoom self.old self.new) }
    {
        if self.texts.as_slice().is_empty() {
            return Ok(());
        }
        self.make_room(alloc)
    }

    /// Adds an element of this name that contains a text. The element is empty if the text is.
    #[inline(always)]
    pub(crate) fn add_text_element(
        &mut self,
        alloc: Global,
        name: &NameRef<'a>,
        text: &Text,
    ) -> Result<(), Memory>
        ensures { OnOk result (Gains self.old self.new (given [] (more (element_of (name_seen name.now) (given [] (text_before text.now none))) none))) }
    {
        // Calling `as_str` makes it known that the text is UTF-8.
        let _ = text.as_str();
        self.make_room_for_one(alloc)?;
        self.receiver.put_text_element(alloc, name, text)
    }

    /// Adds an element of this name that contains the digits of a number.
    #[inline(always)]
    pub(crate) fn add_digits_element(
        &mut self,
        alloc: Global,
        name: &NameRef<'a>,
        digits: &str,
    ) -> Result<(), Memory>
        ensures { OnOk result (Gains self.old self.new (given [] (more (element_of (name_seen name.now) (given [] (text_before digits.now none))) none))) }
    {
        self.make_room_for_one(alloc)?;
        self.receiver.put_digits_element(alloc, name, digits)
    }

    /// Begins an element of this name. Returns what the element around it has so far.
    #[inline(always)]
    pub(crate) fn begin_element(
        &mut self,
        alloc: Global,
        name: &NameRef<'a>,
    ) -> Result<Outer<'a>, Memory>
        ensures { IfOk result (λ outer. Begins self.old self.new (name_seen name.now) outer) }
    {
        self.make_room_for_one(alloc)?;
        let tag = self.receiver.open(alloc, name)?;
        let texts = mem::replace(&mut self.texts, Vec::new(alloc));
        Ok(Outer { tag, texts })
    }

    /// Returns whether items are written, and no text precedes the next of them.
    #[inline(always)]
    pub(crate) fn is_plain(&self) -> bool
        ensures { OnTrue result (IsPlain self.now) }
    {
        self.receiver.is_written() && self.texts.as_slice().is_empty()
    }

    /// Begins an element of this name while items are written and no text precedes it. Only its tag is returned.
    #[inline(always)]
    pub(crate) fn begin_plain(
        &mut self,
        alloc: Global,
        name: &NameRef<'a>,
    ) -> Result<OpenTag<'a>, Memory>
        requires { IsPlain self.old }
        ensures { IfOk result (λ tag. Begins self.old self.new (name_seen name.now) (outer_of self.old tag)) }
    {
        self.receiver.open_tag(alloc, name)
    }

    /// Ends the innermost open element.
    #[inline(always)]
    pub(crate) fn end_element(&mut self, alloc: Global, outer: Outer<'a>) -> Result<(), Memory>
        requires { IsOpen self.old.receiver outer.tag }
        ensures receiver { OnOk result (Closes outer.entry.tag self.old.receiver self.new.receiver) }
        ensures texts { OnOk result (self.new.texts.items ≡ outer.entry.texts.items) }
    {
        let Outer { tag, texts } = outer;
        self.texts = texts;
        self.receiver.close(alloc, tag)
    }

    /// Ends the innermost open element, which is written.
    #[inline(always)]
    pub(crate) fn end_plain(&mut self, alloc: Global, tag: OpenTag<'a>) -> Result<(), Memory>
        requires { IsOpen self.old.receiver (open_element.Text tag) }
        ensures receiver { OnOk result (Closes (open_element.Text tag.entry) self.old.receiver self.new.receiver) }
        ensures texts { OnOk result (self.new.texts.items ≡ self.old.texts.items) }
    {
        self.receiver.close_tag(alloc, tag)
    }

    /// Makes each of these texts precede one of the next items that are added, until `end_mixed`.
    pub(crate) fn begin_mixed(&mut self, texts: Kids<'a, ValueLabel>) -> Result<(), Memory>
        ensures receiver { OnOk result (self.new.receiver ≡ self.old.receiver) }
        ensures texts { OnOk result (self.new.texts.items ≡ self.old.texts.items ++ texts.entry ∷ []) }
    {
        self.texts.push(texts)?;
        Ok(())
    }

    /// Adds the next text, and drops those that remain.
    pub(crate) fn end_mixed(&mut self, alloc: Global) -> Result<(), Memory>
        ensures { OnOk result ((outer : List (List (List ℕ))) (texts : List (List ℕ)) → levels self.old ≡ outer ++ texts ∷ []
            → GainsIn outer self.old self.new (given [] (text_before (first_text texts) none))) }
    {
        match self.texts.pop() {
            Some(texts) => {
                let _ = self.add_next(alloc, texts)?;
                Ok(())
            }
            None => Ok(()),
        }
    }
}
