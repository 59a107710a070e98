//! The path to a fault of a document.
ghost use Rattle.std.specs.Prelude.{IfOk, string_bytes};
ghost use Rattle.people_complaints.specs.Complaints.{IsPathIn};

use crate::text_paths::path_of;
use base_texts::Memory;
use std::alloc::Global;
use xml_read::read_document;

// The greatest length of a document in bytes.
const LIMIT: usize = 16_777_216;

/// Returns the path to the element at the byte of the document in the text. It is empty if the text is no document, is too long for
/// one, or memory is missing.
pub fn path_at(alloc: Global, text: &[u8], at: u64) -> Result<String, Memory>
    ensures { IfOk result (λ path. IsPathIn text.now at (string_bytes path)) }
{
    if text.len() > LIMIT {
        return Ok(String::new(alloc));
    }
    match read_document(alloc, text) {
        Ok(items) => path_of(alloc, items.root(), at),
        Err(_) => Ok(String::new(alloc)),
    }
}
