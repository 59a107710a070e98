//! Defines schema components: those of one schema document, with unresolved references, and those of a linked set.
//!
//! Read first: docs/reference/SCHEMAS.md, `specs/Raw` (one document) and `specs/Linked` (a set), then `src/documents.rt` and
//! `src/schema_sets.rt`.
#![tactic(auto)]

mod attribute_uses;
mod components;
mod crossing;
mod declarations;
mod documents;
mod laws;
mod roots;
mod schema_sets;
mod simple_definitions;

pub use attribute_uses::RawUse;
pub use components::{
    AttributeUse, ComplexDef, Content, ElementDecl, GlobalAttribute, SimpleDef, TypeOf, Uses,
};
pub use crossing::set_crosses;
pub use declarations::{
    RawAttribute, RawComplex, RawContent, RawElement, RawKind, RawLocal, RawType, RawUses,
};
pub use documents::{RawComponents, RawDoc};
pub use laws::uses_are_typed;
pub use roots::find_root;
pub use schema_sets::SchemaSet;
pub use simple_definitions::{RawBase, RawBases, RawHow, RawRef, RawSimple};
