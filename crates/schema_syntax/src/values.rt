//! The values of attributes of schema documents.
ghost use Rattle.std.specs.Prelude.{◌≡◌, ◌||◌, ◌&&◌, not, bytes_eq};
ghost use Rattle.std.specs.List.{list_any, list_all};
ghost use Rattle.std.specs.Option.{is_some};
ghost use Rattle.base_texts.specs.Entries.{beside};
ghost use Rattle.base_texts.specs.WhiteSpace.{words_of};
ghost use Rattle.schema_syntax.specs.References.{type_name};
ghost use Rattle.schema_syntax.specs.Scopes.{bindings_in};
ghost use Rattle.schema_syntax.specs.Values as table;

use crate::attributes::value_of;
use crate::numbers::{is_over, is_zero, small_number};
use crate::references::{resolve, type_of};
use crate::roles::ElementRole;
use crate::scopes::NamespaceScope;
use base_texts::{
    SCHEMA_SPACE, Text, XMLNS_SPACE, XSI_SPACE, first_word, is_ncname, is_numeral, is_short_part,
    is_short_space,
};
use simple_types::boolean_of;

/// The form of an attribute's value.
#[derive(Clone, Copy, Debug, PartialEq, Eq)]
pub enum ValueForm {
    /// A truth value (Part 2, section 3.2.2.1).
    Truth,
    /// `qualified` or `unqualified`.
    Qualification,
    /// `use` of an attribute.
    Prescription,
    /// A number of occurrences.
    Digits,
    /// A number of occurrences, or `unbounded`.
    DigitsOrUnbounded,
    /// A name that is declared: an NCName of at most 255 bytes.
    NcName,
    /// A QName whose prefix is bound.
    Reference,
    /// The QName of a type.
    TypeName,
    /// QNames of types, with white space between them.
    TypeNames,
    /// A namespace for the components of the document.
    TargetNamespace,
}

// Returns the form of the value of the attribute with this name, if it has one.
fn form_of(name: &str) -> Option<ValueForm>
    ensures { result ≡ beside name.now table.forms }
{
    match name {
        "targetNamespace" => Some(ValueForm::TargetNamespace),
        "elementFormDefault" | "attributeFormDefault" | "form" => Some(ValueForm::Qualification),
        "name" => Some(ValueForm::NcName),
        "ref" => Some(ValueForm::Reference),
        "type" | "base" | "itemType" => Some(ValueForm::TypeName),
        "memberTypes" => Some(ValueForm::TypeNames),
        "nillable" | "abstract" | "mixed" => Some(ValueForm::Truth),
        "use" => Some(ValueForm::Prescription),
        "minOccurs" => Some(ValueForm::Digits),
        "maxOccurs" => Some(ValueForm::DigitsOrUnbounded),
        _ => None,
    }
}

/// Returns whether the text is `qualified`, if it is that or `unqualified`.
pub fn qualification_of(text: &str) -> Option<bool>
    ensures { result ≡ beside text.now table.qualifications }
{
    match text {
        "qualified" => Some(true),
        "unqualified" => Some(false),
        _ => None,
    }
}

fn is_prescription(text: &str) -> bool
    ensures { result ≡ list_any (bytes_eq text.now) table.prescriptions }
{
    matches!(text, "optional" | "required" | "prohibited")
}

fn is_declared_name(text: &Text) -> bool
    ensures { result ≡ table.is_declared_name text.now }
{
    is_ncname(text) && is_short_part(text.bytes())
}

fn is_target(space: &[u8]) -> bool
    ensures { result ≡ table.is_target space.now }
{
    !space.is_empty()
        && is_short_space(space)
        && space != SCHEMA_SPACE.as_bytes()
        && space != XSI_SPACE.as_bytes()
        && space != XMLNS_SPACE.as_bytes()
}

// Returns whether each word is the name of a type.
fn are_type_names(scope: &NamespaceScope<'_, '_>, text: &str) -> bool
    ensures { result ≡ list_all (λ word. is_some (type_name (bindings_in scope.now) word)) (words_of text.now) }
{
    let mut rest = text;
    'words: while let Some((word, behind)) = first_word(rest) {
        if type_of(scope, word).is_none() {
            return false;
        }
        rest = behind;
    }
    true
}

// Returns whether the value has the form.
fn has_form(scope: &NamespaceScope<'_, '_>, form: ValueForm, value: &Text) -> bool
    ensures { result ≡ table.has_form (bindings_in scope.now) form value.now }
{
    match form {
        ValueForm::Truth => boolean_of(value.as_str()).is_some(),
        ValueForm::Qualification => qualification_of(value.as_str()).is_some(),
        ValueForm::Prescription => is_prescription(value.as_str()),
        ValueForm::Digits => is_numeral(value.bytes()),
        ValueForm::DigitsOrUnbounded => {
            is_numeral(value.bytes()) || value.bytes() == b"unbounded".as_slice()
        }
        ValueForm::NcName => is_declared_name(value),
        ValueForm::Reference => resolve(scope, value.as_str()).is_some(),
        ValueForm::TypeName => type_of(scope, value.as_str()).is_some(),
        ValueForm::TypeNames => are_type_names(scope, value.as_str()),
        ValueForm::TargetNamespace => is_target(value.bytes()),
    }
}

// Returns whether the value of the attribute has the form that it must have.
#[tactic(auto, unfolding(crate::specs::Values::is_well_formed))]
fn is_well_formed(scope: &NamespaceScope<'_, '_>, name: &str, value: &Text) -> bool
    ensures { result ≡ table.is_well_formed (bindings_in scope.now) name.now value.now }
{
    match form_of(name) {
        Some(form) => has_form(scope, form, value),
        None => true,
    }
}

fn has_malformed(scope: &NamespaceScope<'_, '_>, own: &[(Text, Text)]) -> bool
    ensures { result ≡ table.has_malformed (bindings_in scope.now) own.now }
{
    own.iter().any(|attribute| !is_well_formed(scope, attribute.0.as_str(), &attribute.1))
}

// Returns whether this declares an attribute of the name `xmlns`.
fn declares_xmlns(role: ElementRole, own: &[(Text, Text)]) -> bool
    ensures { result ≡ table.declares_xmlns role own.now }
{
    match role {
        ElementRole::GlobalAttribute | ElementRole::LocalAttribute => match value_of("name", own) {
            Some(name) => name.bytes() == b"xmlns".as_slice(),
            None => false,
        },
        _ => false,
    }
}

// Returns the number of occurrences of this name as written, or else one.
fn digits_of<'a>(name: &str, own: &'a [(Text, Text)]) -> &'a [u8]
    ensures { result.now ≡ table.digits_of name.now own.now }
{
    match value_of(name, own) {
        Some(value) => value.bytes(),
        None => b"1",
    }
}

// Returns whether its least number of occurrences is over its greatest.
fn is_crossed(own: &[(Text, Text)]) -> bool
    ensures { result ≡ table.is_crossed own.now }
{
    is_over(digits_of("minOccurs", own), digits_of("maxOccurs", own))
}

// Returns the number of occurrences that the text gives, if it is below 2^32.
fn occurrences(text: &[u8]) -> Option<u32>
    ensures { result ≡ table.occurrences text.now }
{
    if is_numeral(text) {
        small_number(text)
    } else {
        None
    }
}

/// Returns the least number of occurrences.
pub fn least_of(own: &[(Text, Text)]) -> u32
    ensures { result ≡ table.least_of own.now }
{
    occurrences(digits_of("minOccurs", own)).unwrap_or(1)
}

/// Returns the greatest number of occurrences, or `None` if it is unbounded.
pub fn most_of(own: &[(Text, Text)]) -> Option<u32>
    ensures { result ≡ table.most_of own.now }
{
    occurrences(digits_of("maxOccurs", own))
}

/// Returns whether it may not occur: its greatest number of occurrences is zero.
pub fn never_occurs(own: &[(Text, Text)]) -> bool
    ensures { result ≡ table.never_occurs own.now }
{
    match value_of("maxOccurs", own) {
        Some(value) => is_zero(value.bytes()),
        None => false,
    }
}

// Returns whether it may occur more than once.
fn recurs(own: &[(Text, Text)]) -> bool
    ensures { result ≡ table.recurs own.now }
{
    match most_of(own) {
        Some(most) => most > 1,
        None => true,
    }
}

// Returns whether it is an `all`, or an element in one, that may occur more than once or must occur more than once, or an `all`
// that never occurs.
fn is_no_all(role: ElementRole, own: &[(Text, Text)]) -> bool
    ensures { result ≡ table.is_no_all role own.now }
{
    match role {
        ElementRole::All => {
            never_occurs(own) || recurs(own) || is_over(digits_of("minOccurs", own), b"1")
        }
        ElementRole::AllElement => recurs(own),
        _ => false,
    }
}

/// Returns whether a value isn't of its form, or two values contradict each other, or the occurrences of an `all` are not
/// allowed.
pub fn has_bad_value(
    role: ElementRole,
    scope: &NamespaceScope<'_, '_>,
    own: &[(Text, Text)],
) -> bool
    ensures { result ≡ table.has_bad_value role (bindings_in scope.now) own.now }
{
    has_malformed(scope, own)
        || declares_xmlns(role, own)
        || is_crossed(own)
        || is_no_all(role, own)
}
