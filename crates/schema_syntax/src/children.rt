//! The children of an element that a rule counts or requires.
ghost use Rattle.std.specs.Prelude.{◌≡◌, bytes_eq};
ghost use Rattle.std.specs.List.{list_any};
ghost use Rattle.schema_syntax.specs.Children as children;

use crate::elements::is_schema_name;
use base_trees::Tree;
use xml_read::ItemLabel;

/// Elements that a rule treats alike, by their names. Elements that are not supported are included if they replace supported
/// ones.
#[derive(Clone, Copy, Debug, PartialEq, Eq)]
pub enum ChildSet {
    /// `simpleType` and `complexType`.
    Types,
    /// `simpleType`.
    SimpleTypes,
    /// The varieties of a simple type: a restriction, a list or a union.
    Varieties,
    /// The derivations of simple content.
    Derivations,
    /// The particles of a group.
    Particles,
    /// The particles of the profile: those above without the unsupported ones.
    TakenParticles,
    /// `attribute`.
    Attributes,
    /// The facet `enumeration`.
    Enumerations,
}

fn is_particle(name: &str) -> bool
    ensures { result ≡ list_any (bytes_eq name.now) (children.names_in ChildSet.Particles) }
{
    matches!(
        name,
        "element" | "sequence" | "choice" | "any" | "group" | "all"
    )
}

fn is_taken_particle(name: &str) -> bool
    ensures { result ≡ list_any (bytes_eq name.now) (children.names_in ChildSet.TakenParticles) }
{
    matches!(name, "element" | "sequence" | "choice" | "all")
}

fn is_variety(name: &str) -> bool
    ensures { result ≡ list_any (bytes_eq name.now) (children.names_in ChildSet.Varieties) }
{
    matches!(name, "restriction" | "list" | "union")
}

fn belongs(set: ChildSet, name: &str) -> bool
    ensures { result ≡ list_any (bytes_eq name.now) (children.names_in set) }
{
    match set {
        ChildSet::Types => matches!(name, "simpleType" | "complexType"),
        ChildSet::SimpleTypes => name == "simpleType",
        ChildSet::Varieties => is_variety(name),
        ChildSet::Derivations => matches!(name, "extension" | "restriction"),
        ChildSet::Particles => is_particle(name),
        ChildSet::TakenParticles => is_taken_particle(name),
        ChildSet::Attributes => name == "attribute",
        ChildSet::Enumerations => name == "enumeration",
    }
}

/// Returns whether the node is one of the set.
pub fn is_in(set: ChildSet, label: &ItemLabel) -> bool
    ensures { result ≡ children.is_in set label.now }
{
    match label {
        ItemLabel::Element { name, .. } => {
            is_schema_name(name) && belongs(set, name.local.as_str())
        }
        ItemLabel::Text { .. } => false,
    }
}

/// Returns whether one of the children is of the set.
pub fn has_child(set: ChildSet, kids: &[Tree<ItemLabel>]) -> bool
    ensures { result ≡ children.has_child set kids.now }
{
    kids.iter().any(|kid| is_in(set, kid.label()))
}

/// Returns the number of children that are of the set.
pub fn child_count(set: ChildSet, kids: &[Tree<ItemLabel>]) -> usize
    ensures { result ≡ children.child_count set kids.now }
{
    kids.iter().filter(|kid| is_in(set, kid.label())).count()
}
