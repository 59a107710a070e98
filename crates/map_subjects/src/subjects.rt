//! The components that have assignments in the module.
use base_texts::Name;

/// A component of a set by its number, from 0, among those of its kind.
#[derive(Clone, Copy, PartialEq, Eq)]
pub enum Subject {
    /// A global element.
    Element(u32),
    /// A global attribute.
    Attribute(u32),
    /// A simple type with a name.
    Simple(u32),
    /// A complex type with a name.
    Complex(u32),
    /// The type of nillable elements that have a complex type with a name, by the number of that type.
    Nillable(u32),
}

/// An assignment of the module: its component, and the name of that component.
#[derive(Drop)]
pub struct NamedSubject {
    pub subject: Subject,
    pub name: Name,
}
