//! The elements of schema documents.
ghost use Rattle.std.specs.Prelude.{◌≡◌, bytes_eq};
ghost use Rattle.std.specs.List.{list_any};
ghost use Rattle.base_texts.specs.Entries.{beside};
ghost use Rattle.schema_syntax.specs.Elements as table;

use crate::roles::{ElementRole, Part, Position, child_of};
use crate::why::SchemaWhy;
use base_texts::{Name, SCHEMA_SPACE};

/// The result of looking up an element in its parent.
#[derive(Clone, Copy, Debug, PartialEq, Eq)]
pub enum Placement {
    /// An annotation, which is skipped.
    Skipped,
    /// It is not supported, or may not appear here.
    Refused(SchemaWhy),
    /// It may appear here.
    Placed(Part),
}

fn left_out_element(name: &str) -> Option<SchemaWhy>
    ensures { result ≡ beside name.now table.left_out_elements }
{
    match name {
        "any" | "anyAttribute" => Some(SchemaWhy::Wildcard),
        "redefine" => Some(SchemaWhy::Redefine),
        "notation" => Some(SchemaWhy::NotationElement),
        "key" | "keyref" | "unique" => Some(SchemaWhy::IdentityConstraint),
        "group" | "attributeGroup" => Some(SchemaWhy::Group),
        "complexContent" => Some(SchemaWhy::ComplexContent),
        "pattern" => Some(SchemaWhy::Pattern),
        "totalDigits" => Some(SchemaWhy::TotalDigits),
        "fractionDigits" => Some(SchemaWhy::FractionDigits),
        _ => None,
    }
}

// Returns why an element of this name is not supported in this parent, if it isn't.
fn left_out(parent: ElementRole, name: &str) -> Option<SchemaWhy>
    ensures { result ≡ table.left_out parent name.now }
{
    match parent {
        ElementRole::SimpleContent if "restriction" == name => Some(
            SchemaWhy::SimpleContentRestriction,
        ),
        _ => left_out_element(name),
    }
}

fn is_known(name: &str) -> bool
    ensures { result ≡ list_any (bytes_eq name.now) table.element_names }
{
    matches!(
        name,
        "schema"
            | "include"
            | "import"
            | "element"
            | "attribute"
            | "simpleType"
            | "restriction"
            | "list"
            | "union"
            | "length"
            | "minLength"
            | "maxLength"
            | "minInclusive"
            | "maxInclusive"
            | "minExclusive"
            | "maxExclusive"
            | "enumeration"
            | "whiteSpace"
            | "complexType"
            | "simpleContent"
            | "extension"
            | "sequence"
            | "choice"
            | "all"
    )
}

// Returns whether an element of this position may follow the one before.
fn may_stand(before: Option<Position>, position: Position) -> bool
    ensures { result ≡ table.may_stand before position }
{
    match (before, position) {
        (None, _) => true,
        (Some(Position::Alone), _) => false,
        (Some(_), Position::Anywhere) => true,
        (Some(_), _) => false,
    }
}

fn placed(before: Option<Position>, found: Option<Part>) -> Placement
    ensures { result ≡ table.placed before found }
{
    match found {
        Some(part) if may_stand(before, part.position) => Placement::Placed(part),
        _ => Placement::Refused(SchemaWhy::Misplaced),
    }
}

/// Returns whether the name is of the namespace of schema documents.
pub fn is_schema_name(name: &Name) -> bool
    ensures { result ≡ table.is_schema_name name.now }
{
    name.space.bytes() == SCHEMA_SPACE.as_bytes()
}

// Returns the placement of an element of the schema namespace other than an annotation.
fn placement_of(parent: ElementRole, before: Option<Position>, name: &str) -> Placement
    ensures { result ≡ table.placement_of parent before name.now }
{
    if let Some(why) = left_out(parent, name) {
        return Placement::Refused(why);
    }
    if !is_known(name) {
        return Placement::Refused(SchemaWhy::UnknownElement);
    }
    placed(before, child_of(parent, name))
}

/// Returns the placement of an element of this name in a parent of this role, after an element of position `before`, if there is
/// one.
pub fn placement_in(parent: ElementRole, before: Option<Position>, name: &Name) -> Placement
    ensures { result ≡ table.placement parent before name.now }
{
    if !is_schema_name(name) {
        Placement::Refused(SchemaWhy::UnknownElement)
    } else if name.local.bytes() == b"annotation".as_slice() {
        Placement::Skipped
    } else {
        placement_of(parent, before, name.local.as_str())
    }
}

/// Returns whether the limit of components counts an element of this name.
pub fn is_counted(name: &Name) -> bool
    ensures { result ≡ table.is_counted name.now }
{
    is_schema_name(name)
        && matches!(
            name.local.as_str(),
            "element" | "attribute" | "simpleType" | "complexType" | "sequence" | "choice" | "all"
        )
}

/// Returns whether the children of an element of this name are checked.
pub fn is_looked_into(name: &Name) -> bool
    ensures { result ≡ table.is_looked_into name.now }
{
    !matches!(name.local.as_str(), "annotation" | "include" | "import")
}
