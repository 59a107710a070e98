//! Writes items as XML text, of a complete document or as they come, with the law that the text reads back.
//!
//! Read first: `specs/Written` (the text), the law in `src/laws.rt`, then `write_document` in `src/writing.rt`.
#![tactic(auto)]

mod builder;
mod elements;
mod laws;
mod prefixes;
mod root;
mod splicing;
mod writing;

pub use builder::{OpenTag, TextBuilder};
pub use laws::same_items;
pub use writing::write_document;
