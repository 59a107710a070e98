//! The components of a linked set of schemas, with numbers instead of names (XML Schema Part 1, section 2.2).
ghost use Rattle.std.specs.Prelude.{◌≡◌};

use base_texts::Name;
use content_models::Particle;
use simple_types::{Simple, Standard};
use std::marker::Model;

/// The type definition of an element, by its number among the simple or the complex ones.
#[derive(Clone, Copy, PartialEq, Eq)]
pub enum TypeOf {
    Simple(u32),
    Complex(u32),
}

/// An element declaration (section 3.3).
#[derive(Drop)]
pub struct ElementDecl {
    pub name: Name,
    pub nillable: bool,
    pub kind: TypeOf,
}

/// An attribute use (section 3.5). `simple` is the number of its simple type. `standard` is its value constraint, or else that of
/// the global declaration that it names. A required use has no default value, because it is never absent.
#[derive(Drop)]
pub struct AttributeUse {
    pub name: Name,
    pub simple: u32,
    pub required: bool,
    pub standard: Standard,
}

/// The attribute uses of a complex type.
#[derive(Drop)]
pub struct Uses {
    entries: Vec<AttributeUse>,
}

impl Model for Uses {
    ghost use Rattle.std.specs.Prelude.{List};
    ghost use Rattle.schema_components.specs.declared.components.AttributeUse.{AttributeUse};

    ghost Value = { List AttributeUse };

    ghost view = { λ a. a.entries.items };
}

impl Uses {
    pub fn of(entries: Vec<AttributeUse>) -> Uses
        ensures { result ≡ entries.items }
    {
        Uses { entries }
    }

    pub fn items(&self) -> &[AttributeUse]
        ensures { result.now ≡ self.now }
    {
        &self.entries
    }

    /// Returns the uses themselves.
    pub fn into_items(self) -> Vec<AttributeUse>
        ensures { result.items ≡ self }
    {
        self.entries
    }
}

/// A simple type, by its space. A built-in one, and one that was written in place, has no name.
#[derive(Drop)]
pub struct SimpleDef {
    pub name: Option<Name>,
    pub space: Simple,
}

/// The content that an element of a complex type may have (section 3.4.2).
#[derive(Drop)]
pub enum Content {
    Empty,
    /// A text of the simple type with this number.
    Simple(u32),
    ElementOnly(Particle),
    Mixed(Particle),
}

/// A complex type definition (section 3.4). One that was written in place has no name.
#[derive(Drop)]
pub struct ComplexDef {
    pub name: Option<Name>,
    pub uses: Uses,
    pub content: Content,
}

/// A global attribute declaration (section 3.2). `simple` is the number of its simple type, and `standard` its value
/// constraint.
#[derive(Drop)]
pub struct GlobalAttribute {
    pub name: Name,
    pub simple: u32,
    pub standard: Standard,
}
