//! The components of several documents.
ghost use Rattle.std.specs.Prelude.{◌≡◌, ◌++◌, map, IfOk, OnOk};
ghost use Rattle.std.specs.List.{flat_map};
ghost use Rattle.schema_components.specs.Documents.{doc_of};
ghost use Rattle.schema_components.specs.Seen.{local_of};
ghost use Rattle.link_set.specs.Written as told;
ghost use Rattle.link_set.specs.Private.Seen.{elements_of, attributes_of};

use base_texts::Memory;
use schema_components::{RawAttribute, RawDoc, RawElement, RawLocal};
use std::alloc::Global;

/// An element declaration, and the number of the file in which it was written.
#[derive(Clone, Copy)]
pub(crate) struct WrittenElement<'a> {
    pub file: u32,
    pub element: &'a RawElement,
}

/// A global attribute declaration, and the number of its file.
#[derive(Clone, Copy)]
pub(crate) struct WrittenAttribute<'a> {
    pub file: u32,
    pub attribute: &'a RawAttribute,
}

/// Appends the global elements of a document.
pub(crate) fn push_globals<'a>(
    doc: &'a RawDoc,
    out: &mut Vec<WrittenElement<'a>>,
) -> Result<(), Memory>
    ensures { OnOk result (elements_of out.new.items ≡ elements_of out.old.items ++ map (told.written_element (doc_of doc.now).file) (doc_of doc.now).elements) }
{
    let file = doc.file();
    'elements: for element in doc.elements() {
        out.push(WrittenElement { file, element })?;
    }
    Ok(())
}

fn push_local<'a>(
    file: u32,
    local: &'a RawLocal,
    out: &mut Vec<WrittenElement<'a>>,
) -> Result<(), Memory>
    ensures { OnOk result (elements_of out.new.items ≡ elements_of out.old.items ++ told.declared_by file (local_of local.now)) }
{
    match local {
        RawLocal::Reference { .. } => Ok(()),
        RawLocal::Own(element) => {
            out.push(WrittenElement { file, element })?;
            Ok(())
        }
    }
}

/// Appends the local elements of a document that aren't references.
pub(crate) fn push_locals<'a>(
    doc: &'a RawDoc,
    out: &mut Vec<WrittenElement<'a>>,
) -> Result<(), Memory>
    ensures { OnOk result (elements_of out.new.items ≡ elements_of out.old.items ++ flat_map (told.declared_by (doc_of doc.now).file) (doc_of doc.now).locals) }
{
    let file = doc.file();
    'locals: for n in 0..doc.local_count() {
        push_local(file, doc.local(n), out)?;
    }
    Ok(())
}

fn push_attributes<'a>(doc: &'a RawDoc, out: &mut Vec<WrittenAttribute<'a>>) -> Result<(), Memory>
    ensures { OnOk result (attributes_of out.new.items ≡ attributes_of out.old.items ++ map (told.written_attribute (doc_of doc.now).file) (doc_of doc.now).attributes) }
{
    let file = doc.file();
    'attributes: for attribute in doc.attributes() {
        out.push(WrittenAttribute { file, attribute })?;
    }
    Ok(())
}

/// Returns the global attributes.
pub(crate) fn global_attributes<'a>(
    alloc: Global,
    docs: &'a [RawDoc],
) -> Result<Vec<WrittenAttribute<'a>>, Memory>
    ensures { IfOk result (λ found. attributes_of found.items ≡ told.global_attributes (map doc_of docs.now)) }
{
    let mut found = Vec::new(alloc);
    'docs: for doc in docs {
        push_attributes(doc, &mut found)?;
    }
    Ok(found)
}
