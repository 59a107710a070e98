//! Reads the items of a schema document into its components, or reports its first fault.
//!
//! Read first: `specs/Raw` (`raw_of`), then `read_schema` in `src/documents.rt`.
#![tactic(auto)]

mod complex_types;
mod contents;
mod declarations;
mod documents;
mod error;
mod globals;
mod laws;
mod names;
mod particles;
mod reader;
mod simple_definitions;

pub use documents::read_schema;
pub use error::SchemaError;
pub use laws::one_name_rule;
pub use schema_syntax::SchemaWhy;
