//! What an element requires, and which forms exclude each other.
ghost use Rattle.std.specs.Prelude.{◌≡◌};
ghost use Rattle.schema_faults.specs.Requirements as rule;

use base_texts::Text;
use base_trees::Tree;
use schema_syntax::{ChildSet, ElementRole, has_attribute, has_child, value_of};
use xml_read::ItemLabel;

// Returns whether an element of this role has a type in place, instead of naming one.
fn has_inner_type(role: ElementRole, kids: &[Tree<ItemLabel>]) -> bool
    ensures { result ≡ rule.has_inner_type role kids.now }
{
    match role {
        ElementRole::GlobalElement | ElementRole::LocalElement | ElementRole::AllElement => {
            has_child(ChildSet::Types, kids)
        }
        ElementRole::GlobalAttribute
        | ElementRole::LocalAttribute
        | ElementRole::Restriction
        | ElementRole::List => { has_child(ChildSet::SimpleTypes, kids) }
        _ => false,
    }
}

// Returns whether a union names a member.
fn names_members(own: &[(Text, Text)]) -> bool
    ensures { result ≡ rule.names_members own.now }
{
    match value_of("memberTypes", own) {
        Some(value) => !value.bytes().is_empty(),
        None => false,
    }
}

/// Returns whether an attribute, both of two, or a child is missing.
pub fn lacks_required(role: ElementRole, own: &[(Text, Text)], kids: &[Tree<ItemLabel>]) -> bool
    ensures { result ≡ rule.lacks_required role own.now kids.now }
{
    match role {
        ElementRole::GlobalElement
        | ElementRole::GlobalAttribute
        | ElementRole::GlobalComplexType => !has_attribute("name", own),
        ElementRole::LocalElement | ElementRole::AllElement | ElementRole::LocalAttribute => {
            !has_attribute("name", own) && !has_attribute("ref", own)
        }
        ElementRole::GlobalSimpleType => !has_attribute("name", own)
            || !has_child(ChildSet::Varieties, kids),
        ElementRole::InnerSimpleType => !has_child(ChildSet::Varieties, kids),
        ElementRole::Restriction => !has_attribute("base", own) && !has_inner_type(role, kids),
        ElementRole::List => !has_attribute("itemType", own) && !has_inner_type(role, kids),
        ElementRole::Union => !names_members(own) && !has_child(ChildSet::SimpleTypes, kids),
        ElementRole::Facet => !has_attribute("value", own),
        ElementRole::SimpleContent => !has_child(ChildSet::Derivations, kids),
        ElementRole::Extension => !has_attribute("base", own),
        ElementRole::Schema
        | ElementRole::Composition
        | ElementRole::InnerComplexType
        | ElementRole::Sequence
        | ElementRole::Choice
        | ElementRole::All => { false }
    }
}

// Returns whether it names a type.
fn names_type(own: &[(Text, Text)]) -> bool
    ensures { result ≡ rule.names_type own.now }
{
    has_attribute("type", own) || has_attribute("base", own) || has_attribute("itemType", own)
}

// Returns whether it has an attribute that only a declaration of its own may have.
fn declares(own: &[(Text, Text)]) -> bool
    ensures { result ≡ rule.declares own.now }
{
    has_attribute("name", own)
        || has_attribute("type", own)
        || has_attribute("nillable", own)
        || has_attribute("form", own)
}

fn is_optional(own: &[(Text, Text)]) -> bool
    ensures { result ≡ rule.is_optional own.now }
{
    match value_of("use", own) {
        Some(value) => value.bytes() == b"optional".as_slice(),
        None => true,
    }
}

// Returns whether it has a default value that never applies.
fn has_idle_default(own: &[(Text, Text)]) -> bool
    ensures { result ≡ rule.has_idle_default own.now }
{
    has_attribute("default", own) && (has_attribute("fixed", own) || !is_optional(own))
}

fn has_both_values(role: ElementRole, own: &[(Text, Text)]) -> bool
    ensures { result ≡ rule.has_both_values role own.now }
{
    match role {
        ElementRole::GlobalAttribute | ElementRole::LocalAttribute => has_idle_default(own),
        _ => false,
    }
}

/// Returns whether it has two forms that exclude each other.
pub fn has_both_forms(role: ElementRole, own: &[(Text, Text)], kids: &[Tree<ItemLabel>]) -> bool
    ensures { result ≡ rule.has_both_forms role own.now kids.now }
{
    let inner = has_inner_type(role, kids);
    (has_attribute("ref", own) && (declares(own) || inner))
        || (names_type(own) && inner)
        || has_both_values(role, own)
}

/// Returns whether it has no type: by its name, in place or by a reference.
pub fn is_untyped(role: ElementRole, own: &[(Text, Text)], kids: &[Tree<ItemLabel>]) -> bool
    ensures { result ≡ rule.is_untyped role own.now kids.now }
{
    !has_attribute("ref", own) && !has_attribute("type", own) && !has_inner_type(role, kids)
}
