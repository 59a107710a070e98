//! What EMBED-VALUES and USE-NIL require of a type, and tests of its parts.
ghost use Rattle.std.specs.Prelude.{◌≡◌};
ghost use Rattle.base_trees.specs.Rose.{roses_of};
ghost use Rattle.module_text.specs.Orders as rule;

use base_trees::Tree;
use module_text::{Absence, PlainForm, PlainLabel};
use simple_types::Class;

/// Returns whether the type is a SEQUENCE.
pub fn is_sequence(form: &PlainForm) -> bool
    ensures { result ≡ rule.is_sequence form.now }
{
    matches!(form, PlainForm::Sequence { .. })
}

/// Returns whether the type is a SEQUENCE OF.
pub fn is_sequence_of(form: &PlainForm) -> bool
    ensures { result ≡ rule.is_sequence_of form.now }
{
    matches!(form, PlainForm::SequenceOf { .. })
}

/// Returns whether the type is a CHOICE.
pub fn is_choice(form: &PlainForm) -> bool
    ensures { result ≡ rule.is_choice form.now }
{
    matches!(form, PlainForm::Choice { .. })
}

/// Returns whether a part with this absence may be absent.
pub fn may_be_absent(absence: &Absence) -> bool
    ensures { result ≡ rule.may_be_absent absence.now }
{
    !matches!(absence, Absence::Never)
}

fn is_any(class: Class) -> bool
    ensures { result ≡ rule.is_any class }
{
    matches!(class, Class::Any)
}

// Returns whether the type is UTF8String without constraints.
fn is_any_text(form: &PlainForm) -> bool
    ensures { result ≡ rule.is_any_text form.now }
{
    match form {
        PlainForm::Utf8 { size: None, class } => is_any(*class),
        _ => false,
    }
}

/// Returns whether the type is a SEQUENCE OF without a size.
pub fn is_any_list(form: &PlainForm) -> bool
    ensures { result ≡ rule.is_any_list form.now }
{
    matches!(form, PlainForm::SequenceOf { size: None, .. })
}

// Returns whether the type is a SEQUENCE OF UTF8String, both without constraints.
fn is_text_list(node: &Tree<PlainLabel>) -> bool
    ensures { result ≡ rule.is_text_list node.now }
{
    match node.kids().first() {
        Some(kid) => is_any_list(&node.label().form) && is_any_text(&kid.label().form),
        None => false,
    }
}

/// Returns whether the type is a SEQUENCE whose first part is a list of texts.
pub fn has_texts(form: &PlainForm, kids: &[Tree<PlainLabel>]) -> bool
    ensures { result ≡ rule.has_texts form.now (roses_of kids.now) }
{
    match kids.first() {
        Some(kid) => is_sequence(form) && is_text_list(kid),
        None => false,
    }
}

/// Returns whether the type is a SEQUENCE whose last part may be absent.
pub fn has_content(form: &PlainForm) -> bool
    ensures { result ≡ rule.has_content form.now }
{
    match form {
        PlainForm::Sequence { parts } => match parts.items().last() {
            Some(part) => may_be_absent(&part.absence),
            None => false,
        },
        _ => false,
    }
}
