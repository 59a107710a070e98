//! The parts of a type as they are made.
ghost use Rattle.std.specs.Prelude.{◌≡◌, ◌++◌, ◌∷◌, [], IfOk, OnOk, not};
ghost use Rattle.base_trees.specs.Rose.{node, roses_of};
ghost use Rattle.simple_types.specs.declared.standards.Standard.TheVariants.{Free};
ghost use Rattle.asn_names.specs.declared.conversion.NameKind.TheVariants.{Identifier};
ghost use Rattle.asn_names.specs.Taking.{IsTaken};
ghost use Rattle.map_assignments.specs.Plans as plan;
ghost use Rattle.map_assignments.specs.Naming.{type_label, identifier_of, qualified_marks};
ghost use Rattle.map_assignments.specs.Private.Building.{AddsPart, Adds, Takes};

use crate::instructions::push_qualified;
use asn_names::{NameKind, Scope, convert};
use asn_types::{Component, Components, Form, Instruction, Marks, TypeLabel};
use base_texts::{Memory, Name, Text};
use base_trees::Tree;
use schema_components::AttributeUse;
use simple_types::Standard;
use std::alloc::Global;

/// The parts of a SEQUENCE or a CHOICE so far, with their types. Their identifiers are distinct.
#[derive(Drop)]
pub(crate) struct PartList {
    alloc: Global,
    scope: Scope,
    components: Vec<Component>,
    kids: Vec<Tree<TypeLabel>>,
}

// Returns the instructions of a part for an attribute.
fn attribute_marks(alloc: Global, identifier: &Text, name: &Name) -> Result<Marks, Memory>
    ensures { IfOk result (λ marks. marks ≡ Instruction.Attribute ∷ qualified_marks identifier.now name.now) }
{
    let mut marks = vec![in alloc; Instruction::Attribute]?;
    push_qualified(alloc, &mut marks, identifier, name)?;
    Ok(Marks::of(marks))
}

// Returns the instructions of a part for an element.
fn element_marks(alloc: Global, identifier: &Text, name: &Name) -> Result<Marks, Memory>
    ensures { IfOk result (λ marks. marks ≡ qualified_marks identifier.now name.now) }
{
    let mut marks = Vec::new(alloc);
    push_qualified(alloc, &mut marks, identifier, name)?;
    Ok(Marks::of(marks))
}

impl PartList {
    pub(crate) fn new(alloc: Global) -> PartList
        ensures scope { result.scope ≡ [] }
        ensures components { result.components.items ≡ [] }
        ensures kids { result.kids.items ≡ [] }
    {
        PartList {
            alloc,
            scope: Scope::new(alloc),
            components: Vec::new(alloc),
            kids: Vec::new(alloc),
        }
    }

    /// Returns the allocator of the parts.
    pub(crate) fn alloc(&self) -> Global {
        self.alloc
    }

    // Reserves and returns an identifier made from this word.
    fn take_word(&mut self, word: &str) -> Result<Text, Memory>
        ensures taken { IfOk result (λ identifier. IsTaken Identifier self.old.scope word.now identifier) }
        ensures noted { IfOk result (λ identifier. self.new.scope ≡ self.old.scope ++ identifier ∷ []) }
        ensures components { self.new.components ≡ self.old.components }
        ensures kids { self.new.kids ≡ self.old.kids }
    {
        let name = Text::from_str(self.alloc, word)?;
        self.scope.take(NameKind::Identifier, &name)
    }

    // Reserves and returns an identifier made from this name.
    fn take_for(&mut self, name: &Name) -> Result<Text, Memory>
        ensures taken { IfOk result (λ identifier. IsTaken Identifier self.old.scope (identifier_of name.now.local) identifier) }
        ensures noted { IfOk result (λ identifier. self.new.scope ≡ self.old.scope ++ identifier ∷ []) }
        ensures components { self.new.components ≡ self.old.components }
        ensures kids { self.new.kids ≡ self.old.kids }
    {
        let converted = convert(self.alloc, NameKind::Identifier, &name.local)?;
        self.scope.take(NameKind::Identifier, &converted)
    }

    // Returns a part for an attribute. Its identifier is reserved, but the part isn't added yet.
    fn attribute_part(&mut self, attribute: &AttributeUse) -> Result<Component, Memory>
        ensures { IfOk result (λ part. Takes self.old self.new (plan.attribute attribute.now.name attribute.now.standard) (not attribute.now.required) part) }
    {
        let identifier = self.take_for(&attribute.name)?;
        let marks = attribute_marks(self.alloc, &identifier, &attribute.name)?;
        let standard = attribute.standard.copy(self.alloc)?;
        Ok(Component {
            identifier,
            optional: !attribute.required,
            standard,
            marks,
        })
    }

    // Returns a part for an element. Its identifier is reserved, but the part isn't added yet.
    fn element_part(&mut self, name: &Name, optional: bool) -> Result<Component, Memory>
        ensures { IfOk result (λ part. Takes self.old self.new (plan.element name.now) optional part) }
    {
        let identifier = self.take_for(name)?;
        let marks = element_marks(self.alloc, &identifier, name)?;
        Ok(Component {
            identifier,
            optional,
            standard: Standard::Free,
            marks,
        })
    }

    // Adds a part whose identifier is reserved.
    fn add(&mut self, part: Component, kid: Tree<TypeLabel>) -> Result<(), Memory>
        ensures scope { OnOk result (self.new.scope ≡ self.old.scope) }
        ensures component { OnOk result (self.new.components.items ≡ self.old.components.items ++ part ∷ []) }
        ensures kid { OnOk result (self.new.kids.items ≡ self.old.kids.items ++ kid ∷ []) }
    {
        self.components.push(part)?;
        self.kids.push(kid)?;
        Ok(())
    }

    /// Adds a part for an attribute.
    pub(crate) fn push_attribute(
        &mut self,
        attribute: &AttributeUse,
        kid: Tree<TypeLabel>,
    ) -> Result<(), Memory>
        ensures { OnOk result (Adds self.old self.new (plan.attribute attribute.now.name attribute.now.standard) (not attribute.now.required) kid) }
    {
        let part = self.attribute_part(attribute)?;
        self.add(part, kid)
    }

    /// Adds a part for an element.
    pub(crate) fn push_element(
        &mut self,
        name: &Name,
        optional: bool,
        kid: Tree<TypeLabel>,
    ) -> Result<(), Memory>
        ensures { OnOk result (Adds self.old self.new (plan.element name.now) optional kid) }
    {
        let part = self.element_part(name, optional)?;
        self.add(part, kid)
    }

    /// Adds a part with an identifier made from this word, and with these instructions.
    pub(crate) fn push_marked(
        &mut self,
        word: &str,
        optional: bool,
        marks: Marks,
        kid: Tree<TypeLabel>,
    ) -> Result<(), Memory>
        ensures { OnOk result (AddsPart self.old self.new word.now Free (λ identifier. marks) optional kid) }
    {
        let identifier = self.take_word(word)?;
        let part = Component {
            identifier,
            optional,
            standard: Standard::Free,
            marks,
        };
        self.add(part, kid)
    }

    /// Returns a SEQUENCE of the parts, with these instructions.
    pub(crate) fn into_sequence(self, marks: Marks) -> Tree<TypeLabel>
        ensures { result ≡ node (type_label (Form.Sequence self.components.items) marks) (roses_of self.kids.items) }
    {
        let form = Form::Sequence {
            parts: Components::of(self.components),
        };
        Tree::join(TypeLabel { form, marks }, self.kids)
    }

    /// Returns a CHOICE of the parts, with these instructions.
    pub(crate) fn into_choice(self, marks: Marks) -> Tree<TypeLabel>
        ensures { result ≡ node (type_label (Form.Choice self.components.items) marks) (roses_of self.kids.items) }
    {
        let form = Form::Choice {
            parts: Components::of(self.components),
        };
        Tree::join(TypeLabel { form, marks }, self.kids)
    }
}
