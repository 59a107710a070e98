//! The roles of the elements of a schema document.
ghost use Rattle.std.specs.Prelude.{◌≡◌, Some};
ghost use Rattle.base_texts.specs.Entries.{beside};
ghost use Rattle.schema_syntax.specs.Elements as table;

/// The role of an element of the schema namespace, by its name and its parent. A declaration or definition in `schema` is global;
/// other declarations are local, and other types are inner ones.
#[derive(Clone, Copy, Debug, PartialEq, Eq)]
pub enum ElementRole {
    /// `schema`, the root.
    Schema,
    /// `include` and `import`.
    Composition,
    /// `element` in `schema`.
    GlobalElement,
    /// `element` in a sequence or a choice: a declaration or a reference.
    LocalElement,
    /// `element` in an `all`: a declaration or a reference.
    AllElement,
    /// `attribute` in `schema`.
    GlobalAttribute,
    /// `attribute` in a complex type or an extension: a declaration or a reference.
    LocalAttribute,
    /// `simpleType` in `schema`.
    GlobalSimpleType,
    /// `simpleType` elsewhere.
    InnerSimpleType,
    /// `restriction` of a simple type.
    Restriction,
    /// `list` of a simple type.
    List,
    /// `union` of a simple type.
    Union,
    /// A facet of a restriction that this profile has.
    Facet,
    /// `complexType` in `schema`.
    GlobalComplexType,
    /// `complexType` in an element.
    InnerComplexType,
    /// `simpleContent` of a complex type.
    SimpleContent,
    /// `extension` in simple content.
    Extension,
    /// `sequence`, a group.
    Sequence,
    /// `choice`, a group.
    Choice,
    /// `all`, a group that is in no other.
    All,
}

/// Where an element may appear among the elements of its parent.
#[derive(Clone, Copy, Debug, PartialEq, Eq)]
pub enum Position {
    /// Anywhere, except after an element that must be the last.
    Anywhere,
    /// Before all others.
    First,
    /// Before all others, and none may follow it.
    Alone,
}

/// An element that may appear in its parent.
#[derive(Clone, Copy, Debug, PartialEq, Eq)]
pub struct Part {
    /// Its role there.
    pub role: ElementRole,
    /// Where it may appear among the elements of the parent.
    pub position: Position,
}

impl Part {
    fn of(role: ElementRole, position: Position) -> Option<Part>
        ensures { result ≡ Some (table.part role position) }
    {
        Some(Part { role, position })
    }
}

fn child_of_schema(name: &str) -> Option<Part>
    ensures { result ≡ beside name.now table.schema_children }
{
    match name {
        "include" | "import" => Part::of(ElementRole::Composition, Position::Anywhere),
        "element" => Part::of(ElementRole::GlobalElement, Position::Anywhere),
        "attribute" => Part::of(ElementRole::GlobalAttribute, Position::Anywhere),
        "simpleType" => Part::of(ElementRole::GlobalSimpleType, Position::Anywhere),
        "complexType" => Part::of(ElementRole::GlobalComplexType, Position::Anywhere),
        _ => None,
    }
}

fn child_of_element(name: &str) -> Option<Part>
    ensures { result ≡ beside name.now table.element_children }
{
    match name {
        "simpleType" => Part::of(ElementRole::InnerSimpleType, Position::Alone),
        "complexType" => Part::of(ElementRole::InnerComplexType, Position::Alone),
        _ => None,
    }
}

// A list has the same children.
fn child_of_attribute(name: &str) -> Option<Part>
    ensures { result ≡ beside name.now table.attribute_children }
{
    match name {
        "simpleType" => Part::of(ElementRole::InnerSimpleType, Position::Alone),
        _ => None,
    }
}

fn child_of_simple_type(name: &str) -> Option<Part>
    ensures { result ≡ beside name.now table.simple_type_children }
{
    match name {
        "restriction" => Part::of(ElementRole::Restriction, Position::Alone),
        "list" => Part::of(ElementRole::List, Position::Alone),
        "union" => Part::of(ElementRole::Union, Position::Alone),
        _ => None,
    }
}

fn child_of_restriction(name: &str) -> Option<Part>
    ensures { result ≡ beside name.now table.restriction_children }
{
    match name {
        "simpleType" => Part::of(ElementRole::InnerSimpleType, Position::First),
        "length"
        | "minLength"
        | "maxLength"
        | "minInclusive"
        | "maxInclusive"
        | "minExclusive"
        | "maxExclusive"
        | "enumeration"
        | "whiteSpace" => { Part::of(ElementRole::Facet, Position::Anywhere) }
        _ => None,
    }
}

fn child_of_union(name: &str) -> Option<Part>
    ensures { result ≡ beside name.now table.union_children }
{
    match name {
        "simpleType" => Part::of(ElementRole::InnerSimpleType, Position::Anywhere),
        _ => None,
    }
}

fn child_of_complex_type(name: &str) -> Option<Part>
    ensures { result ≡ beside name.now table.complex_type_children }
{
    match name {
        "simpleContent" => Part::of(ElementRole::SimpleContent, Position::Alone),
        "sequence" => Part::of(ElementRole::Sequence, Position::First),
        "choice" => Part::of(ElementRole::Choice, Position::First),
        "all" => Part::of(ElementRole::All, Position::First),
        "attribute" => Part::of(ElementRole::LocalAttribute, Position::Anywhere),
        _ => None,
    }
}

fn child_of_simple_content(name: &str) -> Option<Part>
    ensures { result ≡ beside name.now table.simple_content_children }
{
    match name {
        "extension" => Part::of(ElementRole::Extension, Position::Alone),
        _ => None,
    }
}

fn child_of_extension(name: &str) -> Option<Part>
    ensures { result ≡ beside name.now table.extension_children }
{
    match name {
        "attribute" => Part::of(ElementRole::LocalAttribute, Position::Anywhere),
        _ => None,
    }
}

fn child_of_group(name: &str) -> Option<Part>
    ensures { result ≡ beside name.now table.group_children }
{
    match name {
        "element" => Part::of(ElementRole::LocalElement, Position::Anywhere),
        "sequence" => Part::of(ElementRole::Sequence, Position::Anywhere),
        "choice" => Part::of(ElementRole::Choice, Position::Anywhere),
        _ => None,
    }
}

fn child_of_all(name: &str) -> Option<Part>
    ensures { result ≡ beside name.now table.all_children }
{
    match name {
        "element" => Part::of(ElementRole::AllElement, Position::Anywhere),
        _ => None,
    }
}

/// Returns the part that an element of this name is in a parent of this role, if it may appear there.
pub(crate) fn child_of(parent: ElementRole, name: &str) -> Option<Part>
    ensures { result ≡ beside name.now (table.children parent) }
{
    match parent {
        ElementRole::Schema => child_of_schema(name),
        ElementRole::GlobalElement | ElementRole::LocalElement | ElementRole::AllElement =>
            child_of_element(name),
        ElementRole::GlobalAttribute | ElementRole::LocalAttribute | ElementRole::List =>
            child_of_attribute(name),
        ElementRole::GlobalSimpleType | ElementRole::InnerSimpleType => child_of_simple_type(name),
        ElementRole::Restriction => child_of_restriction(name),
        ElementRole::Union => child_of_union(name),
        ElementRole::GlobalComplexType | ElementRole::InnerComplexType => child_of_complex_type(
            name,
        ),
        ElementRole::SimpleContent => child_of_simple_content(name),
        ElementRole::Extension => child_of_extension(name),
        ElementRole::Sequence | ElementRole::Choice => child_of_group(name),
        ElementRole::All => child_of_all(name),
        ElementRole::Composition | ElementRole::Facet => None,
    }
}
