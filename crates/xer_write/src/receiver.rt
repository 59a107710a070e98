//! The receiver of the items of a value as they are added: it builds them, or writes them as text at once.
ghost use Rattle.std.specs.Prelude.{◌≡◌, ◌∷◌, [], codes, IfOk, OnOk, IfSome};
ghost use Rattle.std.specs.Bool.{OnTrue};
ghost use Rattle.base_trees.specs.Rose.{node, none};
ghost use Rattle.xml_items.specs.declared.label.ItemLabel.TheVariants as item;
ghost use Rattle.asn_types.specs.Names as names;
ghost use Rattle.xer_items.specs.Items.{nil_name};

use asn_types::{Assignment, Component};
use base_texts::{Memory, Name, Text, XSI_SPACE};
use std::alloc::Global;
use std::mem;
use xml_items::{ItemBuilder, ItemTree};
use xml_write::{OpenTag, TextBuilder};

/// An XML name, borrowed from a module. Without a namespace it is in none.
#[derive(Clone, Copy)]
pub(crate) struct NameRef<'a> {
    space: Option<&'a Text>,
    local: &'a Text,
}

impl<'a> NameRef<'a> {
    ghost use Rattle.xer_write.specs.Private.Receiving.{name_seen};

    /// Returns the name of the element or attribute that a component represents.
    #[inline(always)]
    pub(crate) fn of_part(part: &'a Component) -> NameRef<'a>
        ensures { name_seen result ≡ names.name_of_part part.now }
    {
        NameRef {
            space: part.marks.namespace(),
            local: part.marks.local_name(&part.identifier),
        }
    }

    /// Returns the name of the element that an assignment represents.
    pub(crate) fn of_assignment(assignment: &'a Assignment) -> NameRef<'a>
        ensures { name_seen result ≡ names.name_told assignment.now.reference assignment.now.marks }
    {
        NameRef {
            space: assignment.marks.namespace(),
            local: assignment.marks.local_name(&assignment.reference),
        }
    }

    #[inline(always)]
    fn space(&self) -> &'a [u8]
        ensures { result.now ≡ (name_seen self.now).space }
    {
        match self.space {
            Some(space) => space.bytes(),
            None => &[],
        }
    }

    #[inline(always)]
    fn local(&self) -> &'a [u8]
        ensures { result.now ≡ (name_seen self.now).local }
    {
        self.local.bytes()
    }

    fn to_name(&self, alloc: Global) -> Result<Name, Memory>
        ensures { IfOk result (λ name. name ≡ name_seen self.now) }
    {
        let space = match self.space {
            Some(space) => space.copy(alloc)?,
            None => Text::empty(),
        };
        let local = self.local.copy(alloc)?;
        Ok(Name { space, local })
    }
}

/// Items that are built, with the attributes of the innermost open element.
#[derive(Drop)]
pub(crate) struct Built {
    builder: ItemBuilder,
    attributes: Vec<(Name, Text)>,
}

/// Receives items as they are added.
#[derive(Drop)]
pub(crate) enum Receiver<'a> {
    Items(Built),
    Text(TextBuilder<'a>),
}

/// An open element: the attributes of the element around it, or its own tag.
#[derive(Drop)]
pub(crate) enum Open<'a> {
    Items(Vec<(Name, Text)>),
    Text(OpenTag<'a>),
}

impl<'a> Receiver<'a> {
    ghost use Rattle.xer_write.specs.declared.receiver.Open.TheVariants as open_element;
    ghost use Rattle.xer_write.specs.Private.Receiving.{name_seen, IsBegun, IsBuilder, IsTree, IsWritten, items_built, IsWholeOf, Tells, Opens, IsOpen, Closes};
    ghost use Rattle.xer_write.specs.Private.Gaining.{TakesElement, text_item};

    /// Returns a receiver that builds items.
    pub(crate) fn of_items(alloc: Global) -> Receiver<'a>
        ensures begun { IsBegun result }
        ensures items { IsBuilder result }
    {
        Receiver::Items(Built {
            builder: ItemBuilder::new(alloc),
            attributes: Vec::new(alloc),
        })
    }

    /// Returns a receiver that writes items.
    pub(crate) fn of_text(alloc: Global) -> Result<Receiver<'a>, Memory>
        ensures { IfOk result IsBegun }
    {
        let text = TextBuilder::new(alloc)?;
        Ok(Receiver::Text(text))
    }

    /// Returns the tree that was built, if there is one and no element is open.
    pub(crate) fn into_tree(self) -> ItemTree
        requires { IsTree self }
        ensures { items_built self.entry ≡ result ∷ [] }
    {
        match self {
            Receiver::Items(built) => built.builder.finish(),
            Receiver::Text(_) => unreachable!(),
        }
    }

    /// Returns the text that was written, with a root of this name. None if an attribute was added too late, or if items are built.
    pub(crate) fn into_text(
        self,
        alloc: Global,
        name: NameRef<'a>,
    ) -> Result<Option<Vec<u8>>, Memory>
        ensures { IfOk result (λ whole. IsWholeOf self.entry (name_seen name.entry) whole) }
    {
        match self {
            Receiver::Items(_) => Ok(None),
            Receiver::Text(text) => text.finish(alloc, name.space(), name.local()),
        }
    }

    /// Returns whether items are written.
    #[inline(always)]
    pub(crate) fn is_written(&self) -> bool
        ensures { OnTrue result (IsWritten self.now) }
    {
        match self {
            Receiver::Items(_) => false,
            Receiver::Text(_) => true,
        }
    }

    /// Adds an attribute to the innermost open element.
    pub(crate) fn put_attribute(
        &mut self,
        alloc: Global,
        name: NameRef<'a>,
        text: Text,
    ) -> Result<(), Memory>
        ensures { OnOk result (Tells self.old self.new ((name_seen name.entry, text) ∷ []) []) }
    {
        match self {
            Receiver::Items(built) => {
                let name = name.to_name(alloc)?;
                built.attributes.push((name, text))?;
                Ok(())
            }
            Receiver::Text(out) => {
                out.attribute(name.space(), name.local(), text.bytes())?;
                Ok(())
            }
        }
    }

    /// Adds `xsi:nil` with the value `true`.
    pub(crate) fn put_nil(&mut self, alloc: Global) -> Result<(), Memory>
        ensures { OnOk result (Tells self.old self.new ((nil_name, codes "true") ∷ []) []) }
    {
        match self {
            Receiver::Items(built) => {
                let space = Text::from_str(alloc, XSI_SPACE)?;
                let local = Text::from_str(alloc, "nil")?;
                let text = Text::from_str(alloc, "true")?;
                built.attributes.push((Name { space, local }, text))?;
                Ok(())
            }
            Receiver::Text(out) => {
                out.attribute(XSI_SPACE.as_bytes(), b"nil", b"true")?;
                Ok(())
            }
        }
    }

    /// Adds a text.
    pub(crate) fn put_text(&mut self, alloc: Global, text: &Text) -> Result<(), Memory>
        ensures { OnOk result (Tells self.old self.new [] (node (item.Text text.now 0) none ∷ [])) }
    {
        match self {
            Receiver::Items(built) => {
                let text = text.copy(alloc)?;
                built.builder.text(text, 0)?;
                Ok(())
            }
            Receiver::Text(out) => {
                out.text(text.bytes())?;
                Ok(())
            }
        }
    }

    // Builds an element of this name that contains a text. The element is empty if the text is.
    #[inline(never)]
    fn build_text_element(
        &mut self,
        alloc: Global,
        name: &NameRef<'a>,
        text: &Text,
    ) -> Result<(), Memory>
        ensures { OnOk result (TakesElement self.old self.new (name_seen name.now) [] (text_item text.now)) }
    {
        let tag = self.open(alloc, name)?;
        if !text.bytes().is_empty() {
            self.put_text(alloc, text)?;
        }
        self.close(alloc, tag)
    }

    /// Adds an element of this name that contains a text. The element is empty if the text is.
    #[inline(always)]
    pub(crate) fn put_text_element(
        &mut self,
        alloc: Global,
        name: &NameRef<'a>,
        text: &Text,
    ) -> Result<(), Memory>
        ensures { OnOk result (TakesElement self.old self.new (name_seen name.now) [] (text_item text.now)) }
    {
        match self {
            Receiver::Items(_) => self.build_text_element(alloc, name, text),
            Receiver::Text(out) => {
                out.text_element(alloc, name.space, name.local(), text.bytes())?;
                Ok(())
            }
        }
    }

    // Builds an element of this name that contains these bytes.
    #[inline(never)]
    fn build_digits_element(
        &mut self,
        alloc: Global,
        name: &NameRef<'a>,
        digits: &str,
    ) -> Result<(), Memory>
        ensures { OnOk result (TakesElement self.old self.new (name_seen name.now) [] (text_item digits.now)) }
    {
        let text = Text::from_str(alloc, digits)?;
        self.build_text_element(alloc, name, &text)
    }

    /// Adds an element of this name that contains the digits of a number. No text is made if items are written.
    #[inline(always)]
    pub(crate) fn put_digits_element(
        &mut self,
        alloc: Global,
        name: &NameRef<'a>,
        digits: &str,
    ) -> Result<(), Memory>
        ensures { OnOk result (TakesElement self.old self.new (name_seen name.now) [] (text_item digits.now)) }
    {
        match self {
            Receiver::Items(_) => self.build_digits_element(alloc, name, digits),
            Receiver::Text(out) => {
                out.text_element(alloc, name.space, name.local(), digits.as_bytes())?;
                Ok(())
            }
        }
    }

    /// Begins an element of this name.
    #[inline(always)]
    pub(crate) fn open(&mut self, alloc: Global, name: &NameRef<'a>) -> Result<Open<'a>, Memory>
        ensures { IfOk result (λ tag. Opens self.old self.new (name_seen name.now) tag) }
    {
        match self {
            Receiver::Items(built) => {
                let name = name.to_name(alloc)?;
                let _ = built
                    .builder
                    .open_element(name, Vec::new(alloc), Vec::new(alloc), 0)?;
                let outer = mem::replace(&mut built.attributes, Vec::new(alloc));
                Ok(Open::Items(outer))
            }
            Receiver::Text(out) => {
                let tag = out.open(alloc, name.space, name.local())?;
                Ok(Open::Text(tag))
            }
        }
    }

    /// Begins an element of this name, while items are written.
    #[inline(always)]
    pub(crate) fn open_tag(
        &mut self,
        alloc: Global,
        name: &NameRef<'a>,
    ) -> Result<OpenTag<'a>, Memory>
        requires { IsWritten self.old }
        ensures { IfOk result (λ tag. Opens self.old self.new (name_seen name.now) (open_element.Text tag)) }
    {
        match self {
            Receiver::Items(_) => unreachable!(),
            Receiver::Text(out) => {
                let opened = out.open(alloc, name.space, name.local())?;
                Ok(opened)
            }
        }
    }

    /// Ends the innermost open element.
    #[inline(always)]
    pub(crate) fn close(&mut self, alloc: Global, tag: Open<'a>) -> Result<(), Memory>
        requires { IsOpen self.old tag }
        ensures { OnOk result (Closes tag.entry self.old self.new) }
    {
        match (self, tag) {
            (Receiver::Items(built), Open::Items(outer)) => {
                let own = mem::replace(&mut built.attributes, outer);
                built.builder.set_lists(own, Vec::new(alloc))?;
                built.builder.close();
                Ok(())
            }
            (Receiver::Text(out), Open::Text(tag)) => {
                out.close(alloc, tag)?;
                Ok(())
            }
            _ => unreachable!(),
        }
    }

    /// Ends the innermost open element, while items are written.
    #[inline(always)]
    pub(crate) fn close_tag(&mut self, alloc: Global, tag: OpenTag<'a>) -> Result<(), Memory>
        requires { IsOpen self.old (open_element.Text tag) }
        ensures { OnOk result (Closes (open_element.Text tag.entry) self.old self.new) }
    {
        match self {
            Receiver::Items(_) => unreachable!(),
            Receiver::Text(out) => {
                out.close(alloc, tag)?;
                Ok(())
            }
        }
    }
}
