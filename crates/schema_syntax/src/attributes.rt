//! The attributes of elements of schema documents.
ghost use Rattle.std.specs.Prelude.{◌≡◌, ◌||◌, bytes_eq, IfOk, option_map};
ghost use Rattle.std.specs.List.{list_any};
ghost use Rattle.base_texts.specs.Entries.{beside};
ghost use Rattle.schema_syntax.specs.Attributes as table;

use crate::roles::ElementRole;
use base_texts::{Memory, Name, Text, WhiteSpace, treat};
use std::alloc::Global;

fn is_kept_as_written(name: &str) -> bool
    ensures { result ≡ list_any (bytes_eq name.now) table.kept_as_written }
{
    matches!(name, "value" | "default" | "fixed")
}

// Returns the value as it is used, with its white space treated.
fn in_use(alloc: Global, name: &Text, value: &Text) -> Result<Text, Memory>
    ensures { IfOk result (λ used. used ≡ table.in_use name.now value.now) }
{
    if is_kept_as_written(name.as_str()) {
        value.copy(alloc)
    } else {
        treat(alloc, WhiteSpace::Collapse, value)
    }
}

/// Returns the attributes without a namespace, each by its name with its value as it is used, in the order written.
pub fn own_attributes(
    alloc: Global,
    attributes: &[(Name, Text)],
) -> Result<Vec<(Text, Text)>, Memory>
    ensures { IfOk result (λ own. own.items ≡ table.own_attributes attributes.now) }
{
    let mut own = Vec::new(alloc);
    for (name, value) in attributes {
        if name.space.bytes().is_empty() {
            let used = in_use(alloc, &name.local, value)?;
            let local = name.local.copy(alloc)?;
            own.push((local, used))?;
        }
    }
    Ok(own)
}

/// Returns the value of the attribute of this name.
pub fn value_of<'a>(name: &str, own: &'a [(Text, Text)]) -> Option<&'a Text>
    ensures { option_map (λ value. value.now) result ≡ beside name.now own.now }
{
    for (written, value) in own {
        if written.bytes() == name.as_bytes() {
            return Some(value);
        }
    }
    None
}

/// Returns whether the element has the attribute of this name.
pub fn has_attribute(name: &str, own: &[(Text, Text)]) -> bool
    ensures { result ≡ table.has name.now own.now }
{
    value_of(name, own).is_some()
}

fn is_common(name: &str) -> bool
    ensures { result ≡ list_any (bytes_eq name.now) table.common_attributes }
{
    matches!(
        name,
        "id" | "version" | "block" | "final" | "blockDefault" | "finalDefault"
    )
}

fn is_of_schema(name: &str) -> bool
    ensures { result ≡ list_any (bytes_eq name.now) (table.attributes_of ElementRole.Schema) }
{
    matches!(
        name,
        "targetNamespace" | "elementFormDefault" | "attributeFormDefault"
    )
}

fn is_of_global_element(name: &str) -> bool
    ensures { result ≡ list_any (bytes_eq name.now) table.global_element_attributes }
{
    matches!(
        name,
        "name" | "type" | "nillable" | "abstract" | "substitutionGroup" | "default" | "fixed"
    )
}

fn is_of_local_element(name: &str) -> bool
    ensures { result ≡ list_any (bytes_eq name.now) table.local_element_attributes }
{
    matches!(
        name,
        "name"
            | "ref"
            | "type"
            | "nillable"
            | "form"
            | "minOccurs"
            | "maxOccurs"
            | "default"
            | "fixed"
    )
}

fn is_of_global_attribute(name: &str) -> bool
    ensures { result ≡ list_any (bytes_eq name.now) (table.attributes_of ElementRole.GlobalAttribute) }
{
    matches!(name, "name" | "type" | "default" | "fixed")
}

fn is_of_local_attribute(name: &str) -> bool
    ensures { result ≡ list_any (bytes_eq name.now) table.local_attribute_attributes }
{
    matches!(
        name,
        "name" | "ref" | "type" | "use" | "form" | "default" | "fixed"
    )
}

fn is_of_global_complex_type(name: &str) -> bool
    ensures { result ≡ list_any (bytes_eq name.now) (table.attributes_of ElementRole.GlobalComplexType) }
{
    matches!(name, "name" | "mixed" | "abstract")
}

fn is_of_group(name: &str) -> bool
    ensures { result ≡ list_any (bytes_eq name.now) (table.attributes_of ElementRole.Sequence) }
{
    matches!(name, "minOccurs" | "maxOccurs")
}

// Returns whether an element of this role has such an attribute, in addition to those that every element has.
fn is_of(role: ElementRole, name: &str) -> bool
    ensures { result ≡ list_any (bytes_eq name.now) (table.attributes_of role) }
{
    match role {
        ElementRole::Schema => is_of_schema(name),
        ElementRole::Composition => matches!(name, "schemaLocation" | "namespace"),
        ElementRole::GlobalElement => is_of_global_element(name),
        ElementRole::LocalElement | ElementRole::AllElement => is_of_local_element(name),
        ElementRole::GlobalAttribute => is_of_global_attribute(name),
        ElementRole::LocalAttribute => is_of_local_attribute(name),
        ElementRole::GlobalSimpleType => name == "name",
        ElementRole::Restriction | ElementRole::Extension => name == "base",
        ElementRole::List => name == "itemType",
        ElementRole::Union => name == "memberTypes",
        ElementRole::Facet => matches!(name, "value" | "fixed"),
        ElementRole::GlobalComplexType => is_of_global_complex_type(name),
        ElementRole::InnerComplexType => matches!(name, "mixed" | "abstract"),
        ElementRole::Sequence | ElementRole::Choice | ElementRole::All => is_of_group(name),
        ElementRole::InnerSimpleType | ElementRole::SimpleContent => false,
    }
}

fn is_listed(role: ElementRole, name: &str) -> bool
    ensures { result ≡ table.is_listed role name.now }
{
    is_common(name) || is_of(role, name)
}

/// Returns whether one of the attributes isn't of an element of this role.
pub fn has_unknown(role: ElementRole, own: &[(Text, Text)]) -> bool
    ensures { result ≡ table.has_unknown role own.now }
{
    own.iter()
        .any(|attribute| !is_listed(role, attribute.0.as_str()))
}
