//! The types of global elements, by their names.
ghost use Rattle.std.specs.Prelude.{◌≡◌, ◌++◌, map, IfOk, OnOk};
ghost use Rattle.base_texts.specs.declared.texts.Name.{Name};
ghost use Rattle.schema_components.specs.Documents.{doc_of};
ghost use Rattle.link_complex.specs.ElementTypes as told;
ghost use Rattle.link_complex.specs.Private.Identities.{elements_of, type_in};

use crate::identities::TypeIdentity;
use base_texts::{Memory, Name};
use schema_components::RawDoc;
use std::alloc::Global;
use std::collections::BTreeMap;

#[derive(Clone, Copy)]
pub(crate) struct TypedElement<'a> {
    name: &'a Name,
    kind: TypeIdentity<'a>,
}

fn push_elements<'a>(doc: &'a RawDoc, out: &mut Vec<TypedElement<'a>>) -> Result<(), Memory>
    ensures { OnOk result (elements_of out.new.items ≡ elements_of out.old.items ++ map (told.typed_element (doc_of doc.now).file) (doc_of doc.now).elements) }
{
    let file = doc.file();
    'elements: for element in doc.elements() {
        out.push(TypedElement {
            name: &element.name,
            kind: TypeIdentity::of(file, &element.kind),
        })?;
    }
    Ok(())
}

fn typed_elements<'a>(alloc: Global, docs: &'a [RawDoc]) -> Result<Vec<TypedElement<'a>>, Memory>
    ensures { IfOk result (λ found. elements_of found.items ≡ told.typed_elements (map doc_of docs.now)) }
{
    let mut found = Vec::new(alloc);
    'docs: for doc in docs {
        push_elements(doc, &mut found)?;
    }
    Ok(found)
}

// Returns the type of the first element of each name.
fn first_types<'a>(
    alloc: Global,
    elements: &[TypedElement<'a>],
) -> Result<BTreeMap<&'a Name, TypeIdentity<'a>>, Memory>
    ensures { IfOk result (λ types. (a : Name) → type_in types a ≡ told.type_named (elements_of elements.now) a) }
{
    let mut types = BTreeMap::new(alloc);
    let mut i = elements.len();
    'last_first: while i > 0 {
        i -= 1;
        let element = elements[i];
        types.insert(element.name, element.kind)?;
    }
    Ok(types)
}

/// Returns the types of the global elements of the documents, by their names.
pub(crate) fn element_types<'a>(
    alloc: Global,
    docs: &'a [RawDoc],
) -> Result<BTreeMap<&'a Name, TypeIdentity<'a>>, Memory>
    ensures { IfOk result (λ types. (a : Name) → type_in types a ≡ told.type_named (told.typed_elements (map doc_of docs.now)) a) }
{
    let elements = typed_elements(alloc, docs)?;
    first_types(alloc, &elements)
}
