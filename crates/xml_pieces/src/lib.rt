//! Reads one piece of XML text at a time: tags, character data, comments, and names with the namespaces in scope.
//!
//! Read first: `specs/Pieces` (the productions of XML 1.0), then `read_piece` in `src/piece.rt`; `specs/Namespaces` (Namespaces
//! in XML 1.0), then `BindingsInScope` in `src/scope.rt`.
#![tactic(auto)]

mod duplicates;
mod found;
mod markup;
mod piece;
mod qnames;
mod reason;
mod reference;
mod scope;
mod short_lists;
mod tag;
mod text;
mod value;
mod written_names;

pub use duplicates::has_duplicate;
pub use found::{Attribute, Element, Found, Value};
pub use piece::read_piece;
pub use qnames::{is_qname, local_of, prefix_of};
pub use reason::{NoneWhy, plain_run, why_none};
pub use scope::BindingsInScope;
pub use short_lists::push;
pub use text::is_ascii_ncname;
pub use written_names::{binds, bound_prefix, is_ascii_name_alone, is_long, is_reserved};
