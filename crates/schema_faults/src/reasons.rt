//! The first reason against an element whose name may appear in its place.
ghost use Rattle.std.specs.Prelude.{◌≡◌, IfOk};
ghost use Rattle.std.specs.List.{list_any};
ghost use Rattle.base_trees.specs.Rose.{label_of};
ghost use Rattle.base_texts.specs.Entries.{first_true};
ghost use Rattle.base_texts.specs.WhiteSpace.{words_of};
ghost use Rattle.schema_syntax.specs.Scopes.{bindings_in};
ghost use Rattle.schema_faults.specs.Reasons as reason;

use crate::checker::Checker;
use crate::limits::is_over_limit;
use crate::requirements::{has_both_forms, is_untyped, lacks_required};
use base_texts::{Memory, Text, first_word, is_blank};
use base_trees::Tree;
use schema_syntax::{
    ChildSet, ElementRole, NamespaceScope, SchemaWhy, TypeName, has_attribute, has_bad_value,
    has_unknown, is_in, least_of, never_occurs, own_attributes, type_of, value_of,
};
use simple_types::boolean_of;
use std::alloc::Global;
use xml_read::ItemLabel;

// Returns whether the attribute of this name is true.
fn is_true(name: &str, own: &[(Text, Text)]) -> bool
    ensures { result ≡ reason.is_true name.now own.now }
{
    match value_of(name, own) {
        Some(value) => boolean_of(value.as_str()).unwrap_or(false),
        None => false,
    }
}

fn has_default(own: &[(Text, Text)]) -> bool
    ensures { result ≡ reason.has_default own.now }
{
    has_attribute("default", own) || has_attribute("fixed", own)
}

fn is_element(role: ElementRole) -> bool
    ensures { result ≡ reason.is_element role }
{
    matches!(
        role,
        ElementRole::GlobalElement | ElementRole::LocalElement | ElementRole::AllElement
    )
}

fn is_all(role: ElementRole) -> bool
    ensures { result ≡ reason.is_all role }
{
    matches!(role, ElementRole::All)
}

fn is_attribute(role: ElementRole) -> bool
    ensures { result ≡ reason.is_attribute role }
{
    matches!(
        role,
        ElementRole::GlobalAttribute | ElementRole::LocalAttribute
    )
}

// Returns the first reason among those that precede the reasons of datatypes.
fn early_reason(
    role: ElementRole,
    scope: &NamespaceScope<'_, '_>,
    level: u32,
    own: &[(Text, Text)],
    kids: &[Tree<ItemLabel>],
) -> Option<SchemaWhy>
    ensures { result ≡ first_true (reason.early_tests role (bindings_in scope.now) level own.now kids.now) }
{
    if has_unknown(role, own) {
        Some(SchemaWhy::UnknownAttribute)
    } else if lacks_required(role, own, kids) {
        Some(SchemaWhy::MissingAttribute)
    } else if has_bad_value(role, scope, own) {
        Some(SchemaWhy::BadValue)
    } else if is_over_limit(role, level, own, kids) {
        Some(SchemaWhy::Limit)
    } else {
        left_out_attribute(role, own)
    }
}

fn left_out_attribute(role: ElementRole, own: &[(Text, Text)]) -> Option<SchemaWhy>
    ensures { result ≡ first_true (reason.left_out_attributes role own.now) }
{
    if has_attribute("substitutionGroup", own) {
        Some(SchemaWhy::SubstitutionGroup)
    } else if is_true("abstract", own) {
        Some(SchemaWhy::Abstract)
    } else if is_element(role) && has_default(own) {
        Some(SchemaWhy::ElementDefault)
    } else if is_all(role) && least_of(own) == 0 {
        Some(SchemaWhy::OptionalAll)
    } else {
        None
    }
}

// Returns the place of an unsupported datatype in the order of the reasons.
fn rank(why: SchemaWhy) -> u8
    ensures { result ≡ reason.rank why }
{
    match why {
        SchemaWhy::Decimal => 1,
        SchemaWhy::Float => 2,
        SchemaWhy::Double => 3,
        SchemaWhy::Duration => 4,
        SchemaWhy::DateTime => 5,
        SchemaWhy::Time => 6,
        SchemaWhy::Date => 7,
        SchemaWhy::GYearMonth => 8,
        SchemaWhy::GYear => 9,
        SchemaWhy::GMonthDay => 10,
        SchemaWhy::GDay => 11,
        SchemaWhy::GMonth => 12,
        SchemaWhy::HexBinary => 13,
        SchemaWhy::Base64Binary => 14,
        SchemaWhy::QName => 15,
        SchemaWhy::NOTATION => 16,
        SchemaWhy::ID => 17,
        SchemaWhy::IDREF => 18,
        SchemaWhy::IDREFS => 19,
        SchemaWhy::ENTITY => 20,
        SchemaWhy::ENTITIES => 21,
        SchemaWhy::AnySimpleType => 22,
        SchemaWhy::AnyType => 23,
        _ => 0,
    }
}

// Returns the first of two in the order of the reasons.
fn earlier(a: Option<SchemaWhy>, b: Option<SchemaWhy>) -> Option<SchemaWhy>
    ensures { result ≡ reason.earlier a b }
{
    match (a, b) {
        (None, _) => b,
        (Some(_), None) => a,
        (Some(x), Some(y)) => { if rank(x) <= rank(y) { a } else { b } }
    }
}

// Returns why the datatype of this name is not supported, if it isn't.
fn left_out_type(scope: &NamespaceScope<'_, '_>, text: &str) -> Option<SchemaWhy>
    ensures { result ≡ reason.left_out_type (bindings_in scope.now) text.now }
{
    match type_of(scope, text) {
        Some(TypeName::LeftOut(why)) => Some(why),
        _ => None,
    }
}

// Returns the first reason among those of several names.
fn left_out_types(scope: &NamespaceScope<'_, '_>, text: &str) -> Option<SchemaWhy>
    ensures { result ≡ reason.earliest None (bindings_in scope.now) (words_of text.now) }
{
    let mut found = None;
    let mut rest = text;
    'words: while let Some((word, behind)) = first_word(rest) {
        found = earlier(found, left_out_type(scope, word));
        rest = behind;
    }
    found
}

fn left_out_value(
    name: &str,
    scope: &NamespaceScope<'_, '_>,
    own: &[(Text, Text)],
) -> Option<SchemaWhy>
    ensures { result ≡ reason.left_out_value name.now (bindings_in scope.now) own.now }
{
    match value_of(name, own) {
        Some(value) => left_out_types(scope, value.as_str()),
        None => None,
    }
}

// Returns the first of the unsupported datatypes that it refers to.
#[tactic(auto, unfolding(crate::specs::Reasons::left_out_reference))]
fn left_out_reference(scope: &NamespaceScope<'_, '_>, own: &[(Text, Text)]) -> Option<SchemaWhy>
    ensures { result ≡ reason.left_out_reference (bindings_in scope.now) own.now }
{
    left_out_value("type", scope, own)
        .or(left_out_value("base", scope, own))
        .or(left_out_value("itemType", scope, own))
        .or(left_out_value("memberTypes", scope, own))
}

// Returns the unsupported datatype of a declaration without a type.
fn untyped(role: ElementRole, own: &[(Text, Text)], kids: &[Tree<ItemLabel>]) -> Option<SchemaWhy>
    ensures { result ≡ reason.untyped role own.now kids.now }
{
    if !is_untyped(role, own, kids) {
        return None;
    }
    if is_element(role) {
        Some(SchemaWhy::AnyType)
    } else if is_attribute(role) {
        Some(SchemaWhy::AnySimpleType)
    } else {
        None
    }
}

// Returns whether the node is a particle that may occur.
fn occurs(alloc: Global, label: &ItemLabel) -> Result<bool, Memory>
    ensures { IfOk result (λ occurs. occurs ≡ reason.occurs label.now) }
{
    let ItemLabel::Element { attributes, .. } = label else {
        return Ok(false);
    };
    if !is_in(ChildSet::Particles, label) {
        return Ok(false);
    }
    let own = own_attributes(alloc, attributes.items())?;
    Ok(!never_occurs(&own))
}

// Returns whether one of the children is a particle that may occur.
fn one_occurs(alloc: Global, kids: &[Tree<ItemLabel>]) -> Result<bool, Memory>
    ensures { IfOk result (λ found. found ≡ list_any (λ kid. reason.occurs (label_of kid)) kids.now) }
{
    for kid in kids {
        if occurs(alloc, kid.label())? {
            return Ok(true);
        }
    }
    Ok(false)
}

fn is_choice(role: ElementRole) -> bool
    ensures { result ≡ reason.is_choice role }
{
    matches!(role, ElementRole::Choice)
}

// Returns whether it is a choice that may occur, without an alternative that may occur.
fn is_empty_choice(
    alloc: Global,
    role: ElementRole,
    own: &[(Text, Text)],
    kids: &[Tree<ItemLabel>],
) -> Result<bool, Memory>
    ensures { IfOk result (λ empty. empty ≡ reason.is_empty_choice role own.now kids.now) }
{
    if !is_choice(role) || never_occurs(own) {
        return Ok(false);
    }
    let found = one_occurs(alloc, kids)?;
    Ok(!found)
}

impl Checker<'_, '_> {
    /// Returns the first reason against an element of this role, by its attributes, its children, the bindings in scope and the
    /// number of groups of the same content model around it.
    #[tactic(auto, unfolding(crate::specs::Reasons::reason_against))]
    pub(crate) fn reason_against(
        self,
        role: ElementRole,
        own: &[(Text, Text)],
        kids: &[Tree<ItemLabel>],
    ) -> Result<Option<SchemaWhy>, Memory>
        ensures { IfOk result (λ found. found ≡ reason.reason_against role (bindings_in self.entry.scope.now) self.entry.level own.now kids.now) }
    {
        let early = early_reason(role, self.scope, self.level, own, kids)
            .or(left_out_reference(self.scope, own))
            .or(untyped(role, own, kids));
        if early.is_some() {
            return Ok(early);
        }
        if has_both_forms(role, own, kids) {
            return Ok(Some(SchemaWhy::BothForms));
        }
        if is_empty_choice(self.alloc, role, own, kids)? {
            return Ok(Some(SchemaWhy::EmptyChoice));
        }
        Ok(None)
    }
}

/// Returns the reason against a text: it may consist of white space only.
pub fn reason_against_text(text: &Text) -> Option<SchemaWhy>
    ensures { result ≡ reason.reason_against_text text.now }
{
    if is_blank(text.bytes()) {
        None
    } else {
        Some(SchemaWhy::Misplaced)
    }
}
