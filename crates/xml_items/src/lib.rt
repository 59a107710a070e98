//! Keeps the items of a document, its elements with their attributes and texts, as small entries in one vector.
//!
//! Read first: `specs/Meaning`, then `specs/Building`; of items without places `specs/Plain`, then the law in
//! `src/mixed_laws.rt`.
#![tactic(auto)]

mod builder;
mod characters;
mod document;
mod entries;
mod label;
mod mixed_laws;
mod nodes;
mod store;
mod tree;

pub use builder::{ElementName, ItemBuilder};
pub use characters::Characters;
pub use document::Document;
pub use label::{Attributes, Bindings, ItemLabel};
pub use mixed_laws::mixed_kids;
pub use nodes::{ItemKids, ItemNode, ItemRef};
pub use tree::ItemTree;
