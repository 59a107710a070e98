//! The parts of a type with their roles.
ghost use Rattle.std.specs.Prelude.{◌≡◌, ◌<◌, IfSome, MatchOption, Some, None, length, slice_get};
ghost use Rattle.asn_types.specs.Parts.{is_leaf, parts_of};
ghost use Rattle.asn_types.specs.Roles as roles;

use crate::roles::Role;
use crate::types::{Component, Form, TypeLabel};

impl Form {
    /// Returns whether the type is neither a reference nor has components, so that its values have no child nodes.
    #[inline(always)]
    pub fn is_leaf(&self) -> bool
        ensures { result ≡ is_leaf self.now }
    {
        match self {
            Form::Bool
            | Form::Int { .. }
            | Form::Numbers { .. }
            | Form::Words { .. }
            | Form::Order { .. }
            | Form::Utf8 { .. } => true,
            Form::Sequence { .. }
            | Form::Choice { .. }
            | Form::SequenceOf { .. }
            | Form::Ref { .. } => false,
        }
    }

    // Returns the component with this number.
    #[inline(always)]
    fn part(&self, i: usize) -> Option<&Component>
        ensures { MatchOption result (slice_get (parts_of self.now) i ≡ None) (λ part. slice_get (parts_of self.now) i ≡ Some part.now) }
    {
        match self {
            Form::Sequence { parts } => parts.items().get(i),
            Form::Choice { parts } => parts.items().get(i),
            Form::SequenceOf { part, .. } if i == 0 => Some(part),
            _ => None,
        }
    }
}

/// Returns the role of the part with this number, from 0. The root of a value has the role of an element.
#[inline(always)]
pub fn role(node: &TypeLabel, part: u32) -> Role
    requires { part < length (parts_of node.now.form) }
    ensures { IfSome (slice_get (parts_of node.now.form) part) (λ component. result ≡ roles.role_of node.now part component) }
{
    match node.form.part(part as usize) {
        Some(component) => node.role_of(part as usize, component),
        None => Role::Element,
    }
}

impl TypeLabel {
    /// Returns the role of the part with this number, which is this component.
    #[inline(always)]
    pub fn role_of(&self, i: usize, component: &Component) -> Role
        requires { i < length (parts_of self.now.form) }
        ensures { result ≡ roles.role_of self.now i component.now }
    {
        if component.marks.has_attribute() {
            Role::Attribute
        } else if component.marks.has_untagged() {
            Role::Group
        } else if self.is_content(i) {
            Role::Content
        } else if i == 0 && self.marks.has_embed_values() {
            Role::Embed
        } else if self.is_order(i) {
            Role::Order
        } else if self.is_item(component) {
            Role::Item
        } else if self.marks.has_use_union() {
            Role::Alternative
        } else {
            Role::Element
        }
    }

    // Returns whether the part with this number is the last of a USE-NIL type.
    #[inline(always)]
    fn is_content(&self, i: usize) -> bool
        requires { i < length (parts_of self.now.form) }
        ensures { result ≡ roles.is_content self.now i }
    {
        self.marks.has_use_nil() && self.form.part_count() - i == 1
    }

    // Returns whether the part with this number is the order of a USE-ORDER type.
    #[inline(always)]
    fn is_order(&self, i: usize) -> bool
        ensures { result ≡ roles.is_order self.now i }
    {
        i == usize::from(self.marks.has_embed_values()) && self.marks.has_use_order()
    }

    // Returns whether this part is an item without a name.
    #[inline(always)]
    fn is_item(&self, component: &Component) -> bool
        ensures { result ≡ roles.is_item self.now.form component.now }
    {
        match self.form {
            Form::SequenceOf { .. } => component.identifier.as_str().is_empty(),
            _ => false,
        }
    }
}
