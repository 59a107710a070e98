//! A part of a schema document, and its kind.
use base_texts::Name;
use content_models::ParticleLabel;
use schema_components::{RawAttribute, RawComplex, RawElement, RawRef, RawSimple, RawUse};

/// Where a reference to a type is used.
#[derive(Clone, Copy, Debug, PartialEq, Eq)]
pub enum TypeRole {
    /// The type of an element, which may be complex.
    Element,
    /// The type of an attribute.
    Attribute,
    /// The type of the text of an element, by the `extension` of a simple content.
    Content,
    /// The base, the item or a member of a simple type.
    SimpleType,
}

/// The kind of a part of a schema document.
#[derive(Clone, Copy)]
pub enum What<'a> {
    GlobalElement(&'a RawElement),
    /// An element declaration in a content model.
    LocalElement(&'a RawElement),
    /// An element in a content model that is a reference to a global one by its name.
    ElementReference(&'a Name),
    GlobalAttribute(&'a RawAttribute),
    /// An attribute of a complex type, or a reference to a global one.
    AttributeUse(&'a RawUse),
    /// A definition in place has no name.
    SimpleDefinition {
        name: Option<&'a Name>,
        body: &'a RawSimple,
    },
    /// A definition in place has no name.
    ComplexDefinition {
        name: Option<&'a Name>,
        body: &'a RawComplex,
    },
    /// A group, or an element particle, which has the place of its declaration.
    Particle(&'a ParticleLabel),
    /// The group of mixed content without elements, which may have been written without one.
    MixedGroup(&'a ParticleLabel),
    /// The name of a type, at the place of the element that has it.
    TypeReference {
        role: TypeRole,
        name: &'a RawRef,
    },
}

/// A part of a schema document: the number of the file, its place, and the place of the part that contains it. No part contains
/// the global components of a document, nor its local elements, which the places of their particles locate.
#[derive(Clone, Copy)]
pub struct Part<'a> {
    pub file: u32,
    pub within: Option<u64>,
    pub at: u64,
    pub what: What<'a>,
}
