//! Attributes, and what a document says of all its declarations.
ghost use Rattle.std.specs.Prelude.{◌≡◌, IfOk, option_map};
ghost use Rattle.base_trees.specs.Rose.{label_of, kids_of, roses_of};
ghost use Rattle.schema_read.specs.Names.{referred};
ghost use Rattle.schema_read.specs.SimpleTypes.{declared_type};
ghost use Rattle.schema_components.specs.Seen.{attribute_of, use_of, uses_of};
ghost use Rattle.schema_syntax.specs.Scopes.{bindings_in};
ghost use Rattle.schema_read.specs.Attributes as attributes;

use crate::names::{declared_name, empty_text, referred, value_or_empty};
use crate::reader::Reader;
use crate::simple_definitions::declared_type;
use base_texts::{Memory, Name, Text};
use base_trees::Tree;
use schema_components::{RawAttribute, RawUse, RawUses};
use schema_syntax::{ChildSet, NamespaceScope, is_in, own_attributes, qualification_of, value_of};
use simple_types::Standard;
use std::alloc::Global;
use xml_read::ItemLabel;

/// What a document says of all its declarations.
#[derive(Clone, Copy)]
pub(crate) struct Setting<'a> {
    pub file: u32,
    pub target: &'a Text,
    pub elements_qualified: bool,
    pub attributes_qualified: bool,
}

/// Whether the attribute of this name says `qualified`, or else the default.
pub(crate) fn is_qualified(name: &str, own: &[(Text, Text)], default: bool) -> bool
    ensures { result ≡ attributes.is_qualified name.now own.now default }
{
    match value_of(name, own) {
        Some(value) => qualification_of(value.as_str()).unwrap_or(false),
        None => default,
    }
}

/// The name of a local declaration, in the target namespace where it is qualified.
pub(crate) fn local_name(
    alloc: Global,
    target: &Text,
    default: bool,
    own: &[(Text, Text)],
) -> Result<Name, Memory>
    ensures { IfOk result (λ name. name ≡ attributes.local_name target.now default own.now) }
{
    let space = if is_qualified("form", own, default) {
        target.copy(alloc)?
    } else {
        empty_text(alloc)
    };
    let local = value_or_empty(alloc, "name", own)?;
    Ok(Name { space, local })
}

// Whether the use of an attribute is this.
fn has_use(how: &str, own: &[(Text, Text)]) -> bool
    ensures { result ≡ attributes.has_use how.now own.now }
{
    match value_of("use", own) {
        Some(value) => value.bytes() == how.as_bytes(),
        None => false,
    }
}

fn fixed_of(alloc: Global, own: &[(Text, Text)]) -> Result<Standard, Memory>
    ensures { IfOk result (λ standard. standard ≡ attributes.fixed_of own.now) }
{
    match value_of("fixed", own) {
        Some(text) => {
            let text = text.copy(alloc)?;
            Ok(Standard::Fixed(text))
        }
        None => Ok(Standard::Free),
    }
}

// The default or fixed value, with the text as written.
fn standard_of(alloc: Global, own: &[(Text, Text)]) -> Result<Standard, Memory>
    ensures { IfOk result (λ standard. standard ≡ attributes.standard_of own.now) }
{
    match value_of("default", own) {
        Some(text) => {
            let text = text.copy(alloc)?;
            Ok(Standard::Default(text))
        }
        None => fixed_of(alloc, own),
    }
}

impl<'s, 'a, 'b> Reader<'s, 'a, 'b> {
    fn use_to(self, text: &str, at: u64, own: &[(Text, Text)]) -> Result<RawUse, Memory>
        ensures { IfOk result (λ made. use_of made ≡ attributes.use_to (referred (bindings_in self.entry.scope.now) text.now) own.now at) }
    {
        let name = referred(self.alloc, self.scope, text)?;
        let standard = standard_of(self.alloc, own)?;
        Ok(RawUse {
            name,
            reference: true,
            kind: None,
            standard,
            required: has_use("required", own),
            at,
        })
    }

    fn own_use(
        self,
        at: u64,
        own: &[(Text, Text)],
        kids: &'a [Tree<ItemLabel>],
    ) -> Result<RawUse, Memory>
        ensures { IfOk result (λ made. use_of made ≡ attributes.own_use (attributes.local_name self.entry.setting.target.now self.entry.setting.attributes_qualified own.now)
            (declared_type (bindings_in self.entry.scope.now) own.now (roses_of kids.now)) own.now at) }
    {
        let default = self.setting.attributes_qualified;
        let name = local_name(self.alloc, self.setting.target, default, own)?;
        let kind = declared_type(self.alloc, self.scope, own, kids)?;
        let standard = standard_of(self.alloc, own)?;
        Ok(RawUse {
            name,
            reference: false,
            kind: Some(kind),
            standard,
            required: has_use("required", own),
            at,
        })
    }

    fn use_by(
        self,
        at: u64,
        own: &[(Text, Text)],
        kids: &'a [Tree<ItemLabel>],
    ) -> Result<RawUse, Memory>
        ensures { IfOk result (λ made. use_of made ≡ attributes.use_by self.entry.setting.target.now self.entry.setting.attributes_qualified at (bindings_in self.entry.scope.now) own.now kids.now) }
    {
        match value_of("ref", own) {
            Some(reference) => self.use_to(reference.as_str(), at, own),
            None => self.own_use(at, own, kids),
        }
    }

    // Reads the attribute that the element declares, unless it is prohibited.
    fn use_at(self, tree: &'a Tree<ItemLabel>) -> Result<Option<RawUse>, Memory>
        ensures { IfOk result (λ found. option_map use_of found ≡ attributes.use_at self.entry.setting.target.now self.entry.setting.attributes_qualified (bindings_in self.entry.scope.now) (label_of tree.now) (kids_of tree.now)) }
    {
        let ItemLabel::Element {
            attributes,
            declares,
            at,
            ..
        } = tree.label()
        else {
            return Ok(None);
        };
        if !is_in(ChildSet::Attributes, tree.label()) {
            return Ok(None);
        }
        let own = own_attributes(self.alloc, attributes.items())?;
        if has_use("prohibited", &own) {
            return Ok(None);
        }
        let inside = NamespaceScope::inside(self.alloc, declares, self.scope)?;
        let reader = Reader {
            scope: &inside,
            ..self
        };
        let found = reader.use_by(*at, &own, tree.kids())?;
        Ok(Some(found))
    }

    /// Reads the attributes that these declare, in the order written, without those that are prohibited.
    pub(crate) fn uses_among(self, kids: &'a [Tree<ItemLabel>]) -> Result<RawUses, Memory>
        ensures { IfOk result (λ uses. uses_of uses ≡ attributes.uses_among self.entry.setting.target.now self.entry.setting.attributes_qualified (bindings_in self.entry.scope.now) kids.now) }
    {
        let mut uses = Vec::new(self.alloc);
        for kid in kids {
            if let Some(found) = self.use_at(kid)? {
                uses.push(found)?;
            }
        }
        Ok(RawUses::of(uses))
    }

    fn attribute_by(
        self,
        at: u64,
        own: &[(Text, Text)],
        kids: &'a [Tree<ItemLabel>],
    ) -> Result<RawAttribute, Memory>
        ensures { IfOk result (λ made. attribute_of made ≡ attributes.attribute_by self.entry.setting.target.now at (bindings_in self.entry.scope.now) own.now kids.now) }
    {
        let kind = declared_type(self.alloc, self.scope, own, kids)?;
        let name = declared_name(self.alloc, self.setting.target, own)?;
        let standard = standard_of(self.alloc, own)?;
        Ok(RawAttribute {
            name,
            kind,
            standard,
            at,
        })
    }

    /// Reads the global attribute that the element declares.
    pub(crate) fn global_attribute(
        self,
        tree: &'a Tree<ItemLabel>,
    ) -> Result<Option<RawAttribute>, Memory>
        ensures { IfOk result (λ found. option_map attribute_of found ≡ attributes.global_attribute self.entry.setting.target.now (bindings_in self.entry.scope.now) (label_of tree.now) (kids_of tree.now)) }
    {
        let ItemLabel::Element {
            attributes,
            declares,
            at,
            ..
        } = tree.label()
        else {
            return Ok(None);
        };
        let own = own_attributes(self.alloc, attributes.items())?;
        let inside = NamespaceScope::inside(self.alloc, declares, self.scope)?;
        let reader = Reader {
            scope: &inside,
            ..self
        };
        let found = reader.attribute_by(*at, &own, tree.kids())?;
        Ok(Some(found))
    }
}
