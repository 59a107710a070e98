//! References, and the roles of parts.
ghost use Rattle.std.specs.Prelude.{◌≡◌, ◌<◌, length};
ghost use Rattle.module_text.specs.Texts.{parts_of};
ghost use Rattle.module_text.specs.Resolving as rule;

use crate::part_marks::{has_attribute, has_untagged};
use crate::type_marks::{has_embed_values, has_use_nil, has_use_order, has_use_union};
use asn_types::Role;
use module_text::{PlainForm, PlainLabel, PlainPart};

/// Returns the number of parts.
pub fn part_count(form: &PlainForm) -> usize
    ensures { result ≡ length (parts_of form.now) }
{
    match form {
        PlainForm::Sequence { parts } => parts.items().len(),
        PlainForm::Choice { parts } => parts.items().len(),
        PlainForm::SequenceOf { .. } => 1,
        _ => 0,
    }
}

fn is_item(form: &PlainForm, part: &PlainPart) -> bool
    ensures { result ≡ rule.is_item form.now part.now }
{
    match form {
        PlainForm::SequenceOf { .. } => part.identifier.bytes().is_empty(),
        _ => false,
    }
}

/// Returns the role of the part with this number.
pub fn role_of(label: &PlainLabel, i: usize, part: &PlainPart) -> Role
    requires { i < length (parts_of label.now.form) }
    ensures { result ≡ rule.role_of label.now i part.now }
{
    let (parts, own) = (part.marks.items(), label.marks.items());
    if has_attribute(parts) {
        Role::Attribute
    } else if has_untagged(parts) {
        Role::Group
    } else if has_use_nil(own) && part_count(&label.form) - i == 1 {
        Role::Content
    } else if i == 0 && has_embed_values(own) {
        Role::Embed
    } else if i == usize::from(has_embed_values(own)) && has_use_order(own) {
        Role::Order
    } else if is_item(&label.form, part) {
        Role::Item
    } else if has_use_union(own) {
        Role::Alternative
    } else {
        Role::Element
    }
}
