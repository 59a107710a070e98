//! The types whose values are texts.
ghost use Rattle.std.specs.Prelude.{◌≡◌, IfOk};
ghost use Rattle.xer_items.specs.Spelling as textual;
ghost use Rattle.xer_write.specs.Private.Gaining.{value_text};

use asn_types::{Form, TypeLabel};
use base_flat_trees::Node;
use base_texts::{Memory, Text};
use simple_types::ValueLabel;
use std::alloc::Global;

// Returns whether the type has no parts.
#[inline(always)]
fn is_leaf(form: &Form) -> bool
    ensures { result ≡ textual.is_leaf form.now }
{
    match form {
        Form::Sequence { .. } => false,
        Form::Choice { .. } => false,
        Form::SequenceOf { .. } => false,
        Form::Order { .. } => false,
        Form::Ref { .. } => false,
        _ => true,
    }
}

/// Returns whether the values of the type are texts. The instructions of a type without parts, such as the many TEXT of an
/// ENUMERATED, are not visited.
#[inline(always)]
pub(crate) fn is_textual(label: &TypeLabel) -> bool
    ensures { result ≡ textual.is_textual label.now }
{
    is_leaf(&label.form) || label.marks.has_list() || label.marks.has_use_union()
}

/// Returns the text of a UTF8String.
pub(crate) fn value_text(alloc: Global, value: &Node<'_, ValueLabel>) -> Result<Text, Memory>
    ensures { IfOk result (λ text. text ≡ value_text value.now) }
{
    match value.label() {
        ValueLabel::Utf8(text) => text.copy(alloc),
        _ => Ok(Text::empty()),
    }
}
