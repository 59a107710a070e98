//! The path to an element of a text that may be a document.
ghost use Rattle.std.specs.Prelude.{IfOk, string_bytes};
ghost use Rattle.people_complaints.specs.DocumentPaths.{IsDocumentPath};

use crate::text_paths::path_of;
use base_texts::Memory;
use std::alloc::Global;
use xml_read::{DocError, read_document};

// The greatest length of a document in bytes.
const LIMIT: usize = 16_777_216;

/// Returns the path to the element at the byte of the document that the text is. It is empty if the text is no document, or is too
/// long for one.
pub fn document_path(alloc: Global, text: &[u8], at: u64) -> Result<String, Memory>
    ensures { IfOk result (λ path. IsDocumentPath text.now at (string_bytes path)) }
{
    if text.len() > LIMIT {
        return Ok(String::new(alloc));
    }
    match read_document(alloc, text) {
        Ok(items) => path_of(alloc, items.root(), at),
        Err(DocError::Syntax { .. }) => Ok(String::new(alloc)),
        Err(DocError::Memory) => Err(Memory),
    }
}
