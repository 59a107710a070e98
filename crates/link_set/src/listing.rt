//! The components of several documents, each kind in the order of its numbers.
ghost use Rattle.std.specs.Prelude.{◌≡◌, map, IfOk};
ghost use Rattle.schema_components.specs.Documents.{doc_of};
ghost use Rattle.link_names.specs.CyclesSeen.{definitions_of as simples_of};
ghost use Rattle.link_complex.specs.Seen.{definitions_of as complexes_of};
ghost use Rattle.link_set.specs.Private.Seen.{elements_of};
ghost use Rattle.link_set.specs.NamedBuiltins as named_told;
ghost use Rattle.link_set.specs.Written as told;
ghost use Rattle.link_set.specs.Private.Told.{listed_by};

use crate::builtins::named_builtins;
use crate::ordering::{complexes_in_order, simples_in_order};
use crate::written::{
    WrittenAttribute, WrittenElement, global_attributes, push_globals, push_locals,
};
use base_texts::Memory;
use link_complex::ComplexType;
use link_names::SimpleType;
use schema_components::RawDoc;
use simple_types::Builtin;
use std::alloc::Global;

/// The elements.
#[derive(Drop)]
pub(crate) struct ListedElements<'a> {
    pub globals: Vec<WrittenElement<'a>>,
    pub locals: Vec<WrittenElement<'a>>,
}

/// The types.
#[derive(Drop)]
pub(crate) struct ListedTypes<'a> {
    pub simples: Vec<SimpleType<'a>>,
    pub complexes: Vec<ComplexType<'a>>,
    /// The built-in types that elements, attributes and extensions name, once for each time that they are named.
    pub named: Vec<Builtin>,
}

/// The components of each kind.
#[derive(Drop)]
pub(crate) struct Listed<'a> {
    pub elements: ListedElements<'a>,
    pub attributes: Vec<WrittenAttribute<'a>>,
    pub types: ListedTypes<'a>,
}

impl<'a> ListedElements<'a> {
    fn of(alloc: Global, docs: &'a [RawDoc]) -> Result<ListedElements<'a>, Memory>
        ensures { IfOk result (λ listed. (elements_of listed.globals.items ≡ told.global_elements (map doc_of docs.now)) × (elements_of listed.locals.items ≡ told.local_elements (map doc_of docs.now))) }
    {
        let mut globals = Vec::new(alloc);
        let mut locals = Vec::new(alloc);
        'docs: for doc in docs {
            push_globals(doc, &mut globals)?;
            push_locals(doc, &mut locals)?;
        }
        Ok(ListedElements { globals, locals })
    }
}

impl<'a> ListedTypes<'a> {
    fn of(alloc: Global, docs: &'a [RawDoc]) -> Result<ListedTypes<'a>, Memory>
        ensures { IfOk result (λ listed. (simples_of listed.simples.items ≡ told.simples_in_order (map doc_of docs.now)) × (complexes_of listed.complexes.items ≡ told.complexes_in_order (map doc_of docs.now)) × (listed.named.items ≡ named_told.named_builtins (map doc_of docs.now))) }
    {
        let simples = simples_in_order(alloc, docs)?;
        let complexes = complexes_in_order(alloc, docs)?;
        let named = named_builtins(alloc, docs)?;
        Ok(ListedTypes {
            simples,
            complexes,
            named,
        })
    }
}

impl<'a> Listed<'a> {
    /// Returns the components of the documents.
    pub(crate) fn of(alloc: Global, docs: &'a [RawDoc]) -> Result<Listed<'a>, Memory>
        ensures { IfOk result (λ listed. listed_by listed ≡ told.lists_of (map doc_of docs.now)) }
    {
        let elements = ListedElements::of(alloc, docs)?;
        let attributes = global_attributes(alloc, docs)?;
        let types = ListedTypes::of(alloc, docs)?;
        Ok(Listed {
            elements,
            attributes,
            types,
        })
    }
}
