//! The global elements of schema documents, each of which may be the root of a document.
ghost use Rattle.std.specs.Prelude.{◌≤◌, length};

use base_texts::{Memory, Name};
use schema_components::RawDoc;
use schema_read::read_schema;
use std::alloc::Global;
use xml_read::read_document;

// The greatest length of a file in bytes.
const LIMIT: usize = 16_777_216;

// Returns the schema document in the bytes, if they are one.
fn document_of(alloc: Global, bytes: &[u8]) -> Option<RawDoc>
    requires { length bytes.now ≤ 16777216 }
{
    let items = read_document(alloc, bytes).ok()?;
    read_schema(alloc, &items, 1).ok()
}

// Appends the names of the global elements of the document.
fn add_names(alloc: Global, names: &mut Vec<Name>, document: &RawDoc) -> Result<(), Memory> {
    for element in document.elements() {
        names.push(element.name.copy(alloc)?)?;
    }
    Ok(())
}

/// Returns the names of the global elements of the schema documents with these contents, in their order. It skips what is no schema document.
pub fn global_names(alloc: Global, files: &[Vec<u8>]) -> Result<Vec<Name>, Memory> {
    let mut names = Vec::new(alloc);
    for bytes in files {
        if bytes.len() > LIMIT {
            continue;
        }
        if let Some(document) = document_of(alloc, bytes) {
            add_names(alloc, &mut names, &document)?;
        }
    }
    Ok(names)
}
