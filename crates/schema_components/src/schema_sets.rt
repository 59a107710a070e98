//! Linked sets of schemas.
ghost use Rattle.std.specs.Prelude.{◌≡◌, ◌<◌, ◌≤◌, Some, length, slice_get};
ghost use Rattle.schema_components.specs.Components.{components, global_elements};
ghost use Rattle.schema_components.specs.Linked.{IsLinked};

use crate::components::{ComplexDef, ElementDecl, GlobalAttribute, SimpleDef};
use std::marker::Model;

/// Several schema documents as one set, in which each name is resolved. Components have numbers from 0, separately for each kind;
/// the global elements have the first numbers of the elements.
///
/// The names of the components of one kind are distinct. Each content model is unambiguous without lookahead, and its element
/// particles of one name have one type. A default or fixed value of an attribute is the canonical spelling of a value of its
/// type, and no required attribute has a default value.
#[derive(Drop)]
pub struct SchemaSet {
    elements: Vec<ElementDecl>,
    globals: u32,
    simples: Vec<SimpleDef>,
    complexes: Vec<ComplexDef>,
    attributes: Vec<GlobalAttribute>,
}

impl Model for SchemaSet {
    ghost use Rattle.std.specs.Coded.{codes};
    ghost use Rattle.simple_types.specs.contracts.simples.Simple as simple;
    ghost use Rattle.schema_components.specs.contracts.components.ComplexDef as complex;
    ghost use Rattle.schema_components.specs.Components.{Set, components};
    ghost use Rattle.schema_components.specs.Linked.{IsLinked};

    ghost Value = { Set };

    ghost coded = { Prim.hlevel (codes, simple.the_row.coded, complex.the_row.coded) };

    ghost view = { λ a. components a.elements.items a.globals a.simples.items a.complexes.items a.attributes.items };

    ghost invariant = { λ a. IsLinked (components a.elements.items a.globals a.simples.items a.complexes.items a.attributes.items) };
}

impl SchemaSet {
    /// Returns the set of these components. The first `globals` elements are the global ones. It allocates nothing.
    pub fn of(
        elements: Vec<ElementDecl>,
        globals: u32,
        simples: Vec<SimpleDef>,
        complexes: Vec<ComplexDef>,
        attributes: Vec<GlobalAttribute>,
    ) -> SchemaSet
        requires { IsLinked (components elements.items globals simples.items complexes.items attributes.items) }
        ensures { result ≡ components elements.items globals simples.items complexes.items attributes.items }
    {
        SchemaSet {
            elements,
            globals,
            simples,
            complexes,
            attributes,
        }
    }

    /// Returns the number of element declarations, global and local.
    pub fn element_count(&self) -> u32
        ensures count { result ≡ length self.now.elements }
        ensures linked { IsLinked self.now }
    {
        self.elements.len() as u32
    }

    /// Returns the number of global element declarations.
    pub fn global_count(&self) -> u32
        ensures { result ≡ self.now.globals }
    {
        self.globals
    }

    pub fn simple_count(&self) -> u32
        ensures { result ≡ length self.now.simples }
    {
        self.simples.len() as u32
    }

    pub fn complex_count(&self) -> u32
        ensures { result ≡ length self.now.complexes }
    {
        self.complexes.len() as u32
    }

    /// Returns the number of global attributes.
    pub fn attribute_count(&self) -> u32
        ensures { result ≡ length self.now.attributes }
    {
        self.attributes.len() as u32
    }

    pub fn element(&self, n: u32) -> &ElementDecl
        requires { n < length self.now.elements }
        ensures { slice_get self.now.elements n ≡ Some result.now }
    {
        &self.elements[n as usize]
    }

    pub fn simple(&self, n: u32) -> &SimpleDef
        requires { n < length self.now.simples }
        ensures { slice_get self.now.simples n ≡ Some result.now }
    {
        &self.simples[n as usize]
    }

    pub fn complex(&self, n: u32) -> &ComplexDef
        requires { n < length self.now.complexes }
        ensures { slice_get self.now.complexes n ≡ Some result.now }
    {
        &self.complexes[n as usize]
    }

    pub fn attribute(&self, n: u32) -> &GlobalAttribute
        requires { n < length self.now.attributes }
        ensures { slice_get self.now.attributes n ≡ Some result.now }
    {
        &self.attributes[n as usize]
    }

    pub(crate) fn global_elements(&self) -> &[ElementDecl]
        ensures elements { result.now ≡ global_elements self.now }
        ensures few { length (global_elements self.now) ≤ 65536 }
    {
        &self.elements[..self.globals as usize]
    }
}
