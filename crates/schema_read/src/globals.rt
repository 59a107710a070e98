//! The global declarations of a document.
ghost use Rattle.std.specs.Prelude.{[], IfOk, OnOk, length};
ghost use Rattle.base_trees.specs.Rose.{label_of, kids_of};
ghost use Rattle.schema_syntax.specs.Scopes.{bindings_in};
ghost use Rattle.schema_read.specs.Attributes as attributes;
ghost use Rattle.schema_read.specs.Names.{declared_name};
ghost use Rattle.schema_read.specs.Particles as parts;
ghost use Rattle.schema_read.specs.SimpleTypes as simple;
ghost use Rattle.schema_read.specs.Settings.{said};
ghost use Rattle.schema_read.specs.Raw as raw;
ghost use Rattle.schema_read.specs.Raw.{Adds, Are};
ghost use Rattle.schema_read.specs.Private.Held.{PartsHeld};

use crate::names::declared_name;
use crate::reader::{Reader, StartTag};
use crate::simple_definitions::simple_type;
use base_texts::{Memory, Text};
use base_trees::Tree;
use schema_components::{RawComponents, RawType};
use schema_syntax::{NamespaceScope, is_schema_name, own_attributes};
use xml_read::ItemLabel;

impl<'s, 'a, 'b> Reader<'s, 'a, 'b> {
    // Adds a global element.
    fn add_element(
        self,
        tag: StartTag<'_>,
        kids: &'a [Tree<ItemLabel>],
        globals: &mut RawComponents,
    ) -> Result<(), Memory>
        requires { PartsHeld globals.old.locals.items (raw.element_parts (raw.global_element (said self.setting) (length globals.old.locals.items) tag.at (bindings_in self.scope.now) tag.own.now kids.now)) }
        ensures { OnOk result (Adds globals.old globals.new (raw.element_parts
            (raw.global_element (said self.entry.setting) (length globals.old.locals.items) tag.entry.at (bindings_in self.entry.scope.now) tag.entry.own.now kids.now))) }
    {
        let name = declared_name(self.alloc, self.setting.target, tag.own)?;
        let element = self.element_of(name, tag, kids, &mut globals.locals)?;
        globals.elements.push(element)?;
        Ok(())
    }

    fn add_attribute(
        self,
        tree: &'a Tree<ItemLabel>,
        globals: &mut RawComponents,
    ) -> Result<(), Memory>
        ensures { OnOk result (Adds globals.old globals.new (raw.attribute_parts
            (attributes.global_attribute (said self.entry.setting).target (bindings_in self.entry.scope.now) (label_of tree.now) (kids_of tree.now)))) }
    {
        let found = self.global_attribute(tree)?;
        if let Some(attribute) = found {
            globals.attributes.push(attribute)?;
        }
        Ok(())
    }

    fn add_simple_type(
        self,
        own: &[(Text, Text)],
        tree: &'a Tree<ItemLabel>,
        globals: &mut RawComponents,
    ) -> Result<(), Memory>
        ensures { OnOk result (Adds globals.old globals.new (raw.simple_type_parts
            (declared_name (said self.entry.setting).target own.now) (simple.simple_type (bindings_in self.entry.scope.now) tree.now))) }
    {
        let name = declared_name(self.alloc, self.setting.target, own)?;
        let found = simple_type(self.alloc, tree, self.scope)?;
        if let Some(body) = found {
            globals.types.push(RawType::Simple { name, body })?;
        }
        Ok(())
    }

    fn add_complex_type(
        self,
        own: &[(Text, Text)],
        tree: &'a Tree<ItemLabel>,
        globals: &mut RawComponents,
    ) -> Result<(), Memory>
        requires { PartsHeld globals.old.locals.items (raw.complex_type_parts
            (declared_name (said self.setting).target own.now) (parts.complex_type (said self.setting) (bindings_in self.scope.now) (length globals.old.locals.items) tree.now)) }
        ensures { OnOk result (Adds globals.old globals.new (raw.complex_type_parts
            (declared_name (said self.entry.setting).target own.now) (parts.complex_type (said self.entry.setting) (bindings_in self.entry.scope.now) (length globals.old.locals.items) tree.now))) }
    {
        let name = declared_name(self.alloc, self.setting.target, own)?;
        let found = self.complex_type(tree, &mut globals.locals)?;
        if let Some(body) = found {
            globals.types.push(RawType::Complex { name, body })?;
        }
        Ok(())
    }

    // Adds the components that a child of `schema` with this start tag declares. `inside` is the scope in it.
    fn add_named(
        self,
        inside: &'b NamespaceScope<'a, 'b>,
        tag: StartTag<'_>,
        tree: &'a Tree<ItemLabel>,
        globals: &mut RawComponents,
    ) -> Result<(), Memory>
        requires { PartsHeld globals.old.locals.items (raw.parts_named (said self.setting) (bindings_in self.scope.now) (length globals.old.locals.items) tag.name.now tag.own.now (bindings_in inside.now) tag.at tree.now) }
        ensures { OnOk result (Adds globals.old globals.new (raw.parts_named (said self.entry.setting) (bindings_in self.entry.scope.now) (length globals.old.locals.items)
            tag.entry.name.now tag.entry.own.now (bindings_in inside.now) tag.entry.at tree.now)) }
    {
        match tag.name {
            "element" => {
                let reader = Reader {
                    scope: inside,
                    ..self
                };
                reader.add_element(tag, tree.kids(), globals)
            }
            "attribute" => self.add_attribute(tree, globals),
            "simpleType" => self.add_simple_type(tag.own, tree, globals),
            "complexType" => self.add_complex_type(tag.own, tree, globals),
            _ => Ok(()),
        }
    }

    // Adds what a child of `schema` declares.
    fn add(self, tree: &'a Tree<ItemLabel>, globals: &mut RawComponents) -> Result<(), Memory>
        requires { PartsHeld globals.old.locals.items (raw.parts_by (said self.setting) (bindings_in self.scope.now) (length globals.old.locals.items) (label_of tree.now) tree.now) }
        ensures { OnOk result (Adds globals.old globals.new (raw.parts_by (said self.entry.setting) (bindings_in self.entry.scope.now) (length globals.old.locals.items) (label_of tree.now) tree.now)) }
    {
        let ItemLabel::Element {
            name,
            attributes,
            declares,
            at,
        } = tree.label()
        else {
            return Ok(());
        };
        if !is_schema_name(name) {
            return Ok(());
        }
        let own = own_attributes(self.alloc, attributes.items())?;
        let inside = NamespaceScope::inside(self.alloc, declares, self.scope)?;
        let tag = StartTag {
            name: name.local.as_str(),
            at: *at,
            own: &own,
        };
        self.add_named(&inside, tag, tree, globals)
    }

    /// What the children of `schema` declare, in their order.
    pub(crate) fn globals_among(self, kids: &'a [Tree<ItemLabel>]) -> Result<RawComponents, Memory>
        requires { PartsHeld [] (raw.parts_among (said self.setting) (bindings_in self.scope.now) 0 kids.now) }
        ensures { IfOk result (λ globals. Are globals (raw.parts_among (said self.entry.setting) (bindings_in self.entry.scope.now) 0 kids.now)) }
    {
        let mut globals = RawComponents {
            elements: Vec::new(self.alloc),
            attributes: Vec::new(self.alloc),
            types: Vec::new(self.alloc),
            locals: Vec::new(self.alloc),
        };
        for kid in kids {
            self.add(kid, &mut globals)?;
        }
        Ok(globals)
    }
}
