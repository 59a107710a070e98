//! Element and attribute declarations with the numbers of their types.
ghost use Rattle.std.specs.Prelude.{◌≡◌, ◌++◌, Some, cond, map, IfOk, OnOk};
ghost use Rattle.std.specs.Option.{option_map};
ghost use Rattle.base_texts.specs.declared.texts.Name.{Name as NameOf};
ghost use Rattle.base_texts.specs.Names.{name_eq};
ghost use Rattle.schema_components.specs.declared.components.GlobalAttribute.{GlobalAttribute as GlobalAttributeOf};
ghost use Rattle.link_set.specs.Private.Seen.{written_of, elements_of, told_attribute, attributes_of};
ghost use Rattle.link_set.specs.Sets as told;
ghost use Rattle.link_set.specs.Private.Told.{attribute_in, found_in, listed_by, told_by};

use crate::listing::Listed;
use crate::tables::ComponentNumbers;
use crate::written::{WrittenAttribute, WrittenElement};
use base_texts::{Memory, Name};
use schema_components::{ElementDecl, GlobalAttribute};
use std::alloc::Global;
use std::collections::BTreeMap;

impl<'a> ComponentNumbers<'a> {
    fn element(&self, alloc: Global, written: WrittenElement<'a>) -> Result<ElementDecl, Memory>
        ensures { IfOk result (λ declaration. declaration ≡ told.element (told_by self.now) (written_of written.entry)) }
    {
        let name = written.element.name.copy(alloc)?;
        Ok(ElementDecl {
            name,
            nillable: written.element.nillable,
            kind: self.type_of_kind(written.file, &written.element.kind),
        })
    }

    fn push_elements(
        &self,
        alloc: Global,
        elements: &[WrittenElement<'a>],
        out: &mut Vec<ElementDecl>,
    ) -> Result<(), Memory>
        ensures { OnOk result (out.new.items ≡ out.old.items ++ map (told.element (told_by self.now)) (elements_of elements.now)) }
    {
        'elements: for written in elements {
            let declaration = self.element(alloc, *written)?;
            out.push(declaration)?;
        }
        Ok(())
    }

    /// Returns the element declarations: the global ones, and then the local ones.
    pub(crate) fn elements(
        &self,
        alloc: Global,
        listed: &Listed<'a>,
    ) -> Result<Vec<ElementDecl>, Memory>
        ensures { IfOk result (λ elements. elements.items ≡ told.elements (told_by self.now) (listed_by listed.now)) }
    {
        let mut elements = Vec::new(alloc);
        self.push_elements(alloc, &listed.elements.globals, &mut elements)?;
        self.push_elements(alloc, &listed.elements.locals, &mut elements)?;
        Ok(elements)
    }

    fn attribute(
        &self,
        alloc: Global,
        written: WrittenAttribute<'a>,
    ) -> Result<GlobalAttribute, Memory>
        ensures { IfOk result (λ declaration. declaration ≡ told.attribute (told_by self.now) (told_attribute written.entry)) }
    {
        let name = written.attribute.name.copy(alloc)?;
        let standard = written.attribute.standard.copy(alloc)?;
        Ok(GlobalAttribute {
            name,
            simple: self.simple_of_base(written.file, &written.attribute.kind),
            standard,
        })
    }

    /// Returns the global attributes, with the texts of their default and fixed values as written.
    pub(crate) fn attributes(
        &self,
        alloc: Global,
        attributes: &[WrittenAttribute<'a>],
    ) -> Result<Vec<GlobalAttribute>, Memory>
        ensures { IfOk result (λ made. made.items ≡ told.attributes (told_by self.now) (attributes_of attributes.now)) }
    {
        let mut made = Vec::new(alloc);
        'attributes: for written in attributes {
            let declaration = self.attribute(alloc, *written)?;
            made.push(declaration)?;
        }
        Ok(made)
    }
}

/// Global attributes by their names: for each name, the first.
#[derive(Drop)]
pub(crate) struct AttributeNames<'a, 'm> {
    named: BTreeMap<&'a Name, &'m GlobalAttribute>,
}

fn put_attribute<'a, 'm>(
    table: &mut BTreeMap<&'a Name, &'m GlobalAttribute>,
    name: &'a Name,
    attribute: &'m GlobalAttribute,
) -> Result<(), Memory>
    ensures { OnOk result ((a : NameOf) → attribute_in table.new a ≡ cond (name_eq name.now a) (Some attribute.now) (attribute_in table.old a)) }
{
    table.insert(name, attribute)?;
    Ok(())
}

impl<'a, 'm> AttributeNames<'a, 'm> {
    /// Returns the names of these attributes, which were made from those written. It inserts the last first, so that each name
    /// has the first attribute that has it.
    pub(crate) fn of(
        alloc: Global,
        written: &[WrittenAttribute<'a>],
        attributes: &'m [GlobalAttribute],
    ) -> Result<AttributeNames<'a, 'm>, Memory>
        requires { map (λ (g : GlobalAttributeOf). g.name) attributes.now ≡ map told.written_name (attributes_of written.now) }
        ensures { IfOk result (λ names. found_in names ≡ told.named_attribute attributes.now) }
    {
        let mut named = BTreeMap::new(alloc);
        let mut i = attributes.len();
        'last_first: while i > 0 {
            i -= 1;
            let one = written[i];
            put_attribute(&mut named, &one.attribute.name, &attributes[i])?;
        }
        Ok(AttributeNames { named })
    }

    /// Returns the first attribute of this name.
    pub(crate) fn first(&self, name: &'a Name) -> Option<&'m GlobalAttribute>
        ensures { option_map (λ g. g.now) result ≡ found_in self.now name.now }
    {
        match self.named.get(&name) {
            Some(found) => Some(*found),
            None => None,
        }
    }
}
