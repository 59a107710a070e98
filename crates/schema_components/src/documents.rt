//! One schema document.
ghost use Rattle.std.specs.Prelude.{◌≡◌, ◌<◌, ◌^◌, Some, length, map, slice_get};
ghost use Rattle.schema_components.specs.Parts.{parts_of};
ghost use Rattle.std.specs.Prelude.{true};
ghost use Rattle.schema_components.specs.Seen.{element_of, attribute_of, type_of, local_of};
ghost use Rattle.schema_components.specs.Bounds.{all_fit, ascend};
ghost use Rattle.schema_components.specs.DeclaredNames.{all_named};
ghost use Rattle.schema_components.specs.Varieties.{all_varied};
ghost use Rattle.schema_components.specs.Places.{all_ascend, places_in, StandAmong};
ghost use Rattle.schema_components.specs.Inward.{all_inward};
ghost use Rattle.schema_components.specs.Chains.{AreShort};
ghost use Rattle.schema_components.specs.Coherent.{IsCoherent};

use crate::declarations::{RawAttribute, RawElement, RawLocal, RawType};
use base_texts::Text;

/// The components of one schema document, with unresolved references.
#[derive(Drop)]
pub struct RawComponents {
    /// The global elements, in the order written.
    pub elements: Vec<RawElement>,
    /// The global attributes, in the order written.
    pub attributes: Vec<RawAttribute>,
    /// The types with a name, in the order written.
    pub types: Vec<RawType>,
    /// The local declarations, by their numbers from 0.
    pub locals: Vec<RawLocal>,
}

/// The declarations of one schema document, with names instead of the components that they name. Particles and attributes that
/// may not occur, with `maxOccurs` 0 or a prohibited use, are dropped.
///
/// The `decl` of an element particle numbers the local declarations of the document from 0, in the order written. Each local
/// declaration belongs to one particle, which has its name, and declarations nested in it have greater numbers. Each particle has
/// the number of the file and may occur, and each content model has at most 17 levels. Each declared name may be declared; a
/// reference may have any name. Each restriction has at most 10,000 enumerations, and each union has a member. The components of
/// each kind, local ones too, are in the order of their places, and each element, attribute, type and group has a place of its
/// own among those that are counted. Each part is after the part that contains it, and an element particle has the place of its
/// declaration. A chain of complex types, each in a declaration of the content model of the one before, has at most 21.
#[derive(Drop)]
pub struct RawDoc {
    file: u32,
    target: Text,
    elements: Vec<RawElement>,
    attributes: Vec<RawAttribute>,
    types: Vec<RawType>,
    locals: Vec<RawLocal>,
    counted: Vec<u64>,
    ghost numbered: { length locals.items < 2 ^ 32 },
    ghost fitting: { all_fit (map element_of elements.items) (map type_of types.items) (map local_of locals.items) ≡ true },
    ghost ascending: { ascend counted.items ≡ true },
    ghost named: { all_named (map element_of elements.items) (map attribute_of attributes.items) (map type_of types.items) (map local_of locals.items) ≡ true },
    ghost varied: { all_varied (map element_of elements.items) (map attribute_of attributes.items) (map type_of types.items) (map local_of locals.items) ≡ true },
    ghost ordered: { all_ascend (map element_of elements.items) (map attribute_of attributes.items) (map type_of types.items) (map local_of locals.items) ≡ true },
    ghost all_counted: { StandAmong (places_in (map element_of elements.items) (map attribute_of attributes.items) (map type_of types.items) (map local_of locals.items)) counted.items },
    ghost inward: { all_inward (map element_of elements.items) (map attribute_of attributes.items) (map type_of types.items) (map local_of locals.items) ≡ true },
    ghost short: { ∥ AreShort (map element_of elements.items) (map type_of types.items) (map local_of locals.items) ∥₁ },
    ghost coherent: { ∥ IsCoherent (parts_of file target elements.items attributes.items types.items locals.items counted.items) ∥₁ },
}

impl RawDoc {
    ghost use Rattle.schema_components.specs.Documents.{doc_of};

    /// Returns a document of these components. There are fewer than 2^32 local declarations, which are consistent with the content
    /// models, and each content model has at most 17 levels of particles that may occur. The places ascend. Each declared name
    /// may be declared; no restriction has more than 10,000 enumerations, and each union has a member. The components of each
    /// kind are in the order of their places, each part is counted, and it is after the part that contains it. At most 21 complex
    /// types are nested. It allocates nothing.
    pub fn of(file: u32, target: Text, components: RawComponents, counted: Vec<u64>) -> RawDoc
        requires few { length components.locals.items < 2 ^ 32 }
        requires fitting { all_fit (map element_of components.elements.items) (map type_of components.types.items) (map local_of components.locals.items) ≡ true }
        requires ascending { ascend counted.items ≡ true }
        requires named { all_named (map element_of components.elements.items) (map attribute_of components.attributes.items) (map type_of components.types.items) (map local_of components.locals.items) ≡ true }
        requires varied { all_varied (map element_of components.elements.items) (map attribute_of components.attributes.items) (map type_of components.types.items) (map local_of components.locals.items) ≡ true }
        requires ordered { all_ascend (map element_of components.elements.items) (map attribute_of components.attributes.items) (map type_of components.types.items) (map local_of components.locals.items) ≡ true }
        requires all_counted { StandAmong (places_in (map element_of components.elements.items) (map attribute_of components.attributes.items) (map type_of components.types.items) (map local_of components.locals.items)) counted.items }
        requires inward { all_inward (map element_of components.elements.items) (map attribute_of components.attributes.items) (map type_of components.types.items) (map local_of components.locals.items) ≡ true }
        requires short { AreShort (map element_of components.elements.items) (map type_of components.types.items) (map local_of components.locals.items) }
        requires coherent { IsCoherent (parts_of file target components.elements.items components.attributes.items components.types.items components.locals.items counted.items) }
        ensures { doc_of result ≡ parts_of file target components.elements.items components.attributes.items components.types.items components.locals.items counted.items }
    {
        let RawComponents {
            elements,
            attributes,
            types,
            locals,
        } = components;
        RawDoc {
            file,
            target,
            elements,
            attributes,
            types,
            locals,
            counted,
        }
    }

    /// Returns the number of the file in the set, from 1.
    pub fn file(&self) -> u32
        ensures { result ≡ (doc_of self.now).file }
    {
        self.file
    }

    /// Returns the target namespace, empty if there is none.
    pub fn target(&self) -> &Text
        ensures { result.now ≡ (doc_of self.now).target }
    {
        &self.target
    }

    /// Returns the global elements, in the order written.
    pub fn elements(&self) -> &[RawElement]
        ensures { map element_of result.now ≡ (doc_of self.now).elements }
    {
        &self.elements
    }

    /// Returns the global attributes, in the order written.
    pub fn attributes(&self) -> &[RawAttribute]
        ensures { map attribute_of result.now ≡ (doc_of self.now).attributes }
    {
        &self.attributes
    }

    /// Returns the types with a name, in the order written.
    pub fn types(&self) -> &[RawType]
        ensures { map type_of result.now ≡ (doc_of self.now).types }
    {
        &self.types
    }

    /// Returns the places of all that the limit of 10,000 components counts, ascending: each `element`, `attribute`,
    /// `simpleType`, `complexType`, `sequence`, `choice` and `all`, even if it may not occur.
    pub fn counted(&self) -> &[u64]
        ensures { result.now ≡ (doc_of self.now).counted }
    {
        &self.counted
    }

    /// Returns the number of local declarations.
    pub fn local_count(&self) -> u32
        ensures count { result ≡ length (doc_of self.now).locals }
        ensures ascending { ascend (doc_of self.now).counted ≡ true }
        ensures named { all_named (doc_of self.now).elements (doc_of self.now).attributes (doc_of self.now).types (doc_of self.now).locals ≡ true }
        ensures varied { all_varied (doc_of self.now).elements (doc_of self.now).attributes (doc_of self.now).types (doc_of self.now).locals ≡ true }
        ensures ordered { all_ascend (doc_of self.now).elements (doc_of self.now).attributes (doc_of self.now).types (doc_of self.now).locals ≡ true }
        ensures all_counted { StandAmong (places_in (doc_of self.now).elements (doc_of self.now).attributes (doc_of self.now).types (doc_of self.now).locals) (doc_of self.now).counted }
        ensures inward { all_inward (doc_of self.now).elements (doc_of self.now).attributes (doc_of self.now).types (doc_of self.now).locals ≡ true }
        ensures fitting { all_fit (doc_of self.now).elements (doc_of self.now).types (doc_of self.now).locals ≡ true }
        ensures short { ∥ AreShort (doc_of self.now).elements (doc_of self.now).types (doc_of self.now).locals ∥₁ }
        ensures coherent { ∥ IsCoherent (doc_of self.now) ∥₁ }
    {
        self.locals.len() as u32
    }

    /// Returns the local declaration with this number, from 0.
    pub fn local(&self, n: u32) -> &RawLocal
        requires { n < length (doc_of self.now).locals }
        ensures { slice_get (doc_of self.now).locals n ≡ Some (local_of result.now) }
    {
        &self.locals[n as usize]
    }
}
