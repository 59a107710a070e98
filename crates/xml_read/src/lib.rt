//! Reads the text of an XML document into items, or reports the first fault of its text.
//!
//! Read first: docs/reference/XML.md, `specs/Documents` (`DocOf`, `BrokenAt`), then `read_document` in `src/reader.rt`.
#![tactic(auto)]

mod builder;
mod error;
mod items;
mod laws;
mod notes;
mod past;
mod reader;
mod tags;

pub use error::{DocError, DocWhy};
pub use items::Items;
pub use laws::{document_items, one_answer};
pub use reader::{read_document, read_shared};
pub use xml_items::{
    Attributes, Bindings, Document, ItemKids, ItemLabel, ItemNode, ItemRef, ItemTree,
};
