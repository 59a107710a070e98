//! Declarations and complex type definitions as a schema document writes them (XML Schema Part 1, sections 3.2 to 3.4).
//! Places are in bytes from 0.
ghost use Rattle.std.specs.Prelude.{◌≡◌};
ghost use Rattle.schema_components.specs.Seen.{uses_of, uses_in};

use crate::attribute_uses::RawUse;
use crate::simple_definitions::{RawBase, RawRef, RawSimple};
use base_texts::Name;
use content_models::Particle;
use simple_types::Standard;

/// The attributes of a complex type, in the order written.
#[derive(Drop)]
pub struct RawUses {
    entries: Vec<RawUse>,
}

impl RawUses {
    pub fn of(entries: Vec<RawUse>) -> RawUses
        ensures { uses_of result ≡ uses_in entries.items }
    {
        RawUses { entries }
    }

    pub fn items(&self) -> &[RawUse]
        ensures { uses_in result.now ≡ uses_of self.now }
    {
        &self.entries
    }
}

/// The content that an element of a complex type may have.
#[derive(Drop)]
pub enum RawContent {
    Empty,
    /// A text of the simple type that an `extension` at this place names.
    Simple { base: RawRef, at: u64 },
    ElementOnly(Particle),
    Mixed(Particle),
}

/// A complex type definition.
#[derive(Drop)]
pub struct RawComplex {
    pub at: u64,
    pub uses: RawUses,
    pub content: RawContent,
}

/// The type of an element.
#[derive(Drop)]
pub enum RawKind {
    Named(RawRef),
    Simple(RawSimple),
    Complex(RawComplex),
}

/// An element declaration with a type.
#[derive(Drop)]
pub struct RawElement {
    pub name: Name,
    pub nillable: bool,
    pub kind: RawKind,
    pub at: u64,
}

/// An element of a content model: a reference to a global declaration, or a declaration of its own.
#[derive(Drop)]
pub enum RawLocal {
    Reference { name: Name, at: u64 },
    Own(RawElement),
}

/// A global attribute declaration.
#[derive(Drop)]
pub struct RawAttribute {
    pub name: Name,
    pub kind: RawBase,
    /// Its `default` or `fixed`, with the text as written.
    pub standard: Standard,
    pub at: u64,
}

/// A type definition with a name.
#[derive(Drop)]
pub enum RawType {
    Simple { name: Name, body: RawSimple },
    Complex { name: Name, body: RawComplex },
}
