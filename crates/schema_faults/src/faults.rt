//! The first fault of a schema document.
ghost use Rattle.std.specs.Prelude.{◌≡◌, Some, IfOk, IfSome};
ghost use Rattle.base_trees.specs.Rose.{Rose, label_of, roses_of};
ghost use Rattle.xml_items.specs.declared.label.ItemLabel.{ItemLabel};
ghost use Rattle.schema_syntax.specs.Scopes.{bindings_in};
ghost use Rattle.schema_faults.specs.Faults as faults;

use crate::checker::Checker;
use crate::limits::level_inside;
use crate::reasons::reason_against_text;
use base_texts::{Memory, Name, Text};
use base_trees::Tree;
use schema_syntax::{
    ElementRole, NamespaceScope, Placement, Position, SchemaWhy, is_schema_name, own_attributes,
    placement_in,
};
use std::alloc::Global;
use xml_read::ItemLabel;

/// The first reason against an element or a text, with its place in bytes from 0.
#[derive(Clone, Copy, Debug, PartialEq, Eq)]
pub struct DocumentFault {
    /// The byte of the `<` of the element's start tag, or the first byte of the text.
    pub at: u64,
    /// The first reason there, in the order of `SchemaWhy`.
    pub why: SchemaWhy,
}

fn fault_if(at: u64, found: Option<SchemaWhy>) -> Option<DocumentFault>
    ensures { result ≡ faults.fault_if at found }
{
    match found {
        Some(why) => Some(DocumentFault { at, why }),
        None => None,
    }
}

// Returns the position of the nearest element up to this node.
fn position_behind(
    parent: ElementRole,
    before: Option<Position>,
    label: &ItemLabel,
) -> Option<Position>
    ensures { result ≡ faults.position_behind parent before label.now }
{
    match label {
        ItemLabel::Text { .. } => before,
        ItemLabel::Element { name, .. } => match placement_in(parent, before, name) {
            Placement::Placed(part) => Some(part.position),
            _ => before,
        },
    }
}

fn is_composition(role: ElementRole) -> bool
    ensures { result ≡ faults.is_composition role }
{
    matches!(role, ElementRole::Composition)
}

impl<'a, 'b> Checker<'a, 'b> {
    // Returns the reason against an element that has this role, without its children.
    fn own_reason(
        self,
        role: ElementRole,
        attributes: &[(Name, Text)],
        kids: &[Tree<ItemLabel>],
    ) -> Result<Option<SchemaWhy>, Memory>
        ensures { IfOk result (λ found. found ≡ faults.own_reason role (bindings_in self.entry.scope.now) self.entry.level attributes.now kids.now) }
    {
        let own = own_attributes(self.alloc, attributes)?;
        self.reason_against(role, &own, kids)
    }

    // Returns the first fault of an element of this role, or else in its content.
    #[cycle(faults)]
    fn fault_of(
        self,
        tree: &'a Tree<ItemLabel>,
        role: ElementRole,
    ) -> Result<Option<DocumentFault>, Memory>
        ensures { IfOk result (λ found. found ≡ faults.first_fault (faults.reasons_of role (bindings_in self.entry.scope.now) self.entry.level tree.now)) }
    {
        let ItemLabel::Element {
            attributes,
            declares,
            at,
            ..
        } = tree.label()
        else {
            return Ok(None);
        };
        let inside = NamespaceScope::inside(self.alloc, declares, self.scope)?;
        let own = Checker {
            alloc: self.alloc,
            scope: &inside,
            level: self.level,
        };
        let found = own.own_reason(role, attributes.items(), tree.kids())?;
        if found.is_some() {
            return Ok(fault_if(*at, found));
        }
        if is_composition(role) {
            return Ok(None);
        }
        let below = Checker {
            alloc: self.alloc,
            scope: &inside,
            level: level_inside(role, self.level),
        };
        below.fault_among(tree.kids(), role)
    }

    // Returns the first fault at a node, or else in its content.
    #[cycle(faults)]
    fn fault_at(
        self,
        tree: &'a Tree<ItemLabel>,
        parent: ElementRole,
        before: Option<Position>,
    ) -> Result<Option<DocumentFault>, Memory>
        ensures { IfOk result (λ found. found ≡ faults.first_fault (faults.reasons_at parent before (bindings_in self.entry.scope.now) self.entry.level tree.now)) }
    {
        match tree.label() {
            ItemLabel::Text { text, at } => Ok(fault_if(*at, reason_against_text(text))),
            ItemLabel::Element { name, at, .. } => match placement_in(parent, before, name) {
                Placement::Skipped => Ok(None),
                Placement::Refused(why) => Ok(fault_if(*at, Some(why))),
                Placement::Placed(part) => self.fault_of(tree, part.role),
            },
        }
    }

    // Returns the first fault among the children of an element of this role.
    #[cycle(faults)]
    fn fault_among(
        self,
        kids: &'a [Tree<ItemLabel>],
        parent: ElementRole,
    ) -> Result<Option<DocumentFault>, Memory>
        ensures { IfOk result (λ found. found ≡ faults.first_fault (faults.reasons_among parent None (bindings_in self.entry.scope.now) self.entry.level (roses_of kids.now))) }
    {
        let mut before = None;
        for kid in kids {
            let found = self.fault_at(kid, parent, before)?;
            if found.is_some() {
                return Ok(found);
            }
            before = position_behind(parent, before, kid.label());
        }
        Ok(None)
    }
}

fn is_schema(label: &ItemLabel) -> bool
    ensures { result ≡ faults.is_schema label.now }
{
    match label {
        ItemLabel::Element { name, .. } => {
            is_schema_name(name) && name.local.bytes() == b"schema".as_slice()
        }
        ItemLabel::Text { .. } => false,
    }
}

/// Returns the fault of a document whose root has this label, if it isn't the root of a schema.
pub fn root_fault(label: &ItemLabel) -> Option<DocumentFault>
    ensures { (root : Rose ItemLabel) → label_of root ≡ label.now → IfSome result (λ found. faults.first_fault (faults.reasons root) ≡ Some found) }
{
    if is_schema(label) {
        None
    } else {
        fault_if(label.place(), Some(SchemaWhy::NotASchema))
    }
}

/// Returns the first fault of a schema document with this root, in the order of the document. `None` if it is a schema.
///
/// The time grows with the size of the document, and for each element and each reference with the logarithm of the number of
/// bindings of the open elements.
pub fn first_fault(alloc: Global, root: &Tree<ItemLabel>) -> Result<Option<DocumentFault>, Memory>
    ensures { IfOk result (λ found. found ≡ faults.first_fault (faults.reasons root.now)) }
{
    if !is_schema(root.label()) {
        return Ok(fault_if(root.label().place(), Some(SchemaWhy::NotASchema)));
    }
    let outside = NamespaceScope::Document;
    let checker = Checker {
        alloc,
        scope: &outside,
        level: 0,
    };
    checker.fault_of(root, ElementRole::Schema)
}
