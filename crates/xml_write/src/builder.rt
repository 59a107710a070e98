//! Writes the text of items that are added one after another.
ghost use Rattle.std.specs.Prelude.{◌≡◌, ◌++◌, ◌∷◌, ◌||◌, [], not, IfOk, OnOk};
ghost use Rattle.base_trees.specs.Rose.{node, none};
ghost use Rattle.xml_items.specs.declared.label.ItemLabel.TheVariants as item;
ghost use Rattle.xml_write.specs.Private.Binding.{qualifier_text};

use crate::elements::{write_byte, write_end_tag, write_start_tag, write_text_element};
use crate::prefixes::{Prefixes, Qualifier};
use crate::root::{declarations, front_len};
use crate::splicing::insert;
use crate::writing::{CharacterPlace, XML_DECLARATION, write_escaped, write_value};
use base_texts::{Memory, Text};
use std::alloc::{AllocError, Global};

/// The text of a document while its items are added in document order: an element, its attributes, its content, and its end. Each
/// item is written at once, and none is kept.
///
/// An attribute that is added after content of its element is too late: then `finish` returns no text.
#[derive(Drop)]
pub struct TextBuilder<'a> {
    prefixes: Prefixes<'a>,
    // The text without the declarations of namespaces, which are known only at the end.
    text: Vec<u8>,
    // Whether the last start tag is still without its end.
    in_tag: bool,
    late: bool,
}

/// An element that is open: its name as it is written.
#[derive(Drop)]
pub struct OpenTag<'a> {
    qualifier: Qualifier,
    local: &'a [u8],
}

impl<'a> TextBuilder<'a> {
    ghost use Rattle.xml_write.specs.Telling.{space_of, words_in, IsBegun, Tells, Begins, Closes, IsWhole, EndsTag};

    /// Returns a builder without items.
    pub fn new(alloc: Global) -> Result<TextBuilder<'a>, Memory>
        ensures { IfOk result IsBegun }
    {
        let text = Vec::from_slice(alloc, XML_DECLARATION)?;
        Ok(TextBuilder {
            prefixes: Prefixes::new(alloc),
            text,
            in_tag: false,
            late: false,
        })
    }

    // Ends the last start tag, before content is written.
    #[inline(always)]
    fn end_tag(&mut self) -> Result<(), AllocError>
        ensures { OnOk result (EndsTag self.old self.new) }
    {
        if self.in_tag {
            write_byte(&mut self.text, b'>')?;
            self.in_tag = false;
        }
        Ok(())
    }

    /// Adds an attribute to the innermost open element.
    pub fn attribute(
        &mut self,
        space: &'a [u8],
        local: &[u8],
        value: &[u8],
    ) -> Result<(), AllocError>
        ensures told { OnOk result (Tells self.old self.new ((record { space = space.now; local = local.now }, value.now) ∷ []) []) }
        ensures late { OnOk result (self.new.late ≡ (self.old.late || not self.old.in_tag)) }
    {
        if !self.in_tag {
            self.late = true;
            return Ok(());
        }
        let qualifier = self.prefixes.declared(space)?;
        self.text.push(b' ')?;
        write_qualified(&mut self.text, qualifier, local)?;
        write_value(&mut self.text, value)
    }

    /// Adds a text.
    pub fn text(&mut self, text: &[u8]) -> Result<(), AllocError>
        ensures told { OnOk result (Tells self.old self.new [] (node (item.Text text.now 0) none ∷ [])) }
        ensures late { OnOk result (self.new.late ≡ self.old.late) }
    {
        self.end_tag()?;
        write_escaped(&mut self.text, CharacterPlace::Content, text)
    }

    /// Adds an element without attributes that has only a text, or no content if the text is empty.
    #[inline(always)]
    pub fn text_element(
        &mut self,
        alloc: Global,
        space: Option<&'a Text>,
        local: &[u8],
        text: &[u8],
    ) -> Result<(), AllocError>
        ensures told { OnOk result (Tells self.old self.new [] (node (item.Element (record { space = space_of space.entry; local = local.now }) [] [] 0) (words_in text.now) ∷ [])) }
        ensures late { OnOk result (self.new.late ≡ self.old.late) }
    {
        self.end_tag()?;
        let qualifier = self.prefixes.declared_text(space)?;
        write_text_element(alloc, &mut self.text, qualifier, local, text)
    }

    /// Begins an element.
    #[inline(always)]
    pub fn open(
        &mut self,
        alloc: Global,
        space: Option<&'a Text>,
        local: &'a [u8],
    ) -> Result<OpenTag<'a>, AllocError>
        ensures told { IfOk result (λ tag. Begins self.old self.new (record { space = space_of space.entry; local = local.now }) tag) }
        ensures late { OnOk result (self.new.late ≡ self.old.late) }
    {
        self.end_tag()?;
        let qualifier = self.prefixes.declared_text(space)?;
        write_start_tag(alloc, &mut self.text, qualifier, local)?;
        self.in_tag = true;
        Ok(OpenTag { qualifier, local })
    }

    /// Ends an element. If it has no content, it is written as an empty tag.
    #[inline(always)]
    pub fn close(&mut self, alloc: Global, tag: OpenTag<'a>) -> Result<(), AllocError>
        ensures { OnOk result (Closes tag.entry self.old self.new) }
    {
        if self.in_tag {
            self.in_tag = false;
            return self.text.extend_from_slice(b"/>");
        }
        write_end_tag(alloc, &mut self.text, tag.qualifier, tag.local)
    }

    /// Returns the text of the document, whose root has this name. `None` if an attribute was added too late.
    pub fn finish(
        self,
        alloc: Global,
        space: &[u8],
        local: &[u8],
    ) -> Result<Option<Vec<u8>>, Memory>
        ensures { IfOk result (λ whole. IsWhole self.entry (record { space = space.now; local = local.now }) whole) }
    {
        if self.late {
            return Ok(None);
        }
        let begun = front_len(alloc, &self.prefixes, space, local)?;
        let declared = declarations(alloc, &self.prefixes)?;
        let mut out = self.text;
        out.push(b'\n')?;
        let at = begun.min(out.as_slice().len());
        insert(&mut out, at, &declared)?;
        Ok(Some(out))
    }
}

// A local name after its qualifier.
#[inline(always)]
fn write_qualified(out: &mut Vec<u8>, qualifier: Qualifier, local: &[u8]) -> Result<(), AllocError>
    ensures { OnOk result (out.new.items ≡ out.old.items ++ (qualifier_text qualifier ++ local.now)) }
{
    qualifier.write(out)?;
    out.extend_from_slice(local)
}
