//! The parts of types, and their roles.
ghost use Rattle.std.specs.Prelude.{◌≡◌, ◌<◌, length};
ghost use Rattle.asn_types.specs.Refs as refs;
ghost use Rattle.module_text.specs.Texts as texts;
ghost use Rattle.module_text.specs.Resolving as roles;
ghost use Rattle.module_text.specs.Orders as orders;
ghost use Rattle.module_check.specs.Roles.{AreRoles};

use asn_types::Role;
use module_pieces::{
    has_attribute, has_embed_values, has_untagged, has_use_nil, has_use_order, has_use_union,
    part_count,
};
use module_text::{PlainForm, PlainLabel, PlainPart};
use std::slice;

/// What a type states of the roles of its parts. It is read once for all of them, because a type may have many instructions.
#[derive(Clone, Copy)]
pub struct Roles {
    /// The number of parts.
    pub count: usize,
    pub use_nil: bool,
    pub embed_values: bool,
    pub use_order: bool,
    pub use_union: bool,
}

/// Returns what the type states of the roles of its parts.
pub fn roles_of(label: &PlainLabel) -> Roles
    ensures { AreRoles result label.now }
{
    let marks = label.marks.items();
    Roles {
        count: part_count(&label.form),
        use_nil: has_use_nil(marks),
        embed_values: has_embed_values(marks),
        use_order: has_use_order(marks),
        use_union: has_use_union(marks),
    }
}

// Returns whether the part is the item of a SEQUENCE OF that has no identifier.
fn is_item(form: &PlainForm, part: &PlainPart) -> bool
    ensures { result ≡ roles.is_item form.now part.now }
{
    match form {
        PlainForm::SequenceOf { .. } => part.identifier.bytes().is_empty(),
        _ => false,
    }
}

// Returns the role of the part with this number.
fn role_of(own: Roles, label: &PlainLabel, i: usize, part: &PlainPart) -> Role
    requires own { AreRoles own label.now }
    requires within { i < length (texts.parts_of label.now.form) }
    ensures { result ≡ roles.role_of label.now i part.now }
{
    let marks = part.marks.items();
    if has_attribute(marks) {
        Role::Attribute
    } else if has_untagged(marks) {
        Role::Group
    } else if own.use_nil && own.count - i == 1 {
        Role::Content
    } else if i == 0 && own.embed_values {
        Role::Embed
    } else if i == usize::from(own.embed_values) && own.use_order {
        Role::Order
    } else if is_item(&label.form, part) {
        Role::Item
    } else if own.use_union {
        Role::Alternative
    } else {
        Role::Element
    }
}

/// Returns the components of a SEQUENCE, the alternatives of a CHOICE, or the item of a SEQUENCE OF.
pub fn parts_of(form: &PlainForm) -> &[PlainPart]
    ensures { result.now ≡ texts.parts_of form.now }
{
    match form {
        PlainForm::Sequence { parts } => parts.items(),
        PlainForm::Choice { parts } => parts.items(),
        PlainForm::SequenceOf { part, .. } => slice::from_ref(part),
        _ => &[],
    }
}

/// Returns whether the part with this number has the role of an element.
pub fn is_element(own: Roles, label: &PlainLabel, i: usize, part: &PlainPart) -> bool
    requires own { AreRoles own label.now }
    requires within { i < length (texts.parts_of label.now.form) }
    ensures { result ≡ refs.is_element (roles.role_of label.now i part.now) }
{
    matches!(role_of(own, label, i, part), Role::Element)
}

/// Returns whether the part with this number has UNTAGGED.
pub fn is_group(own: Roles, label: &PlainLabel, i: usize, part: &PlainPart) -> bool
    requires own { AreRoles own label.now }
    requires within { i < length (texts.parts_of label.now.form) }
    ensures { result ≡ orders.is_group (roles.role_of label.now i part.now) }
{
    matches!(role_of(own, label, i, part), Role::Group)
}

/// Returns whether the part with this number has the order of others.
pub fn is_order(own: Roles, label: &PlainLabel, i: usize, part: &PlainPart) -> bool
    requires own { AreRoles own label.now }
    requires within { i < length (texts.parts_of label.now.form) }
    ensures { result ≡ orders.is_order (roles.role_of label.now i part.now) }
{
    matches!(role_of(own, label, i, part), Role::Order)
}
