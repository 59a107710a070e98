//! Converts many messages over schema files that are read once.
//!
//! Read first: `specs/Messages`, then `src/schema_files.rt` and `src/converting.rt`. `Prepared` of `transcode_core` is what
//! both this crate and `run` prepare.
#![tactic(auto)]

mod converting;
mod lent;
mod schema_files;
mod shared;

pub use converting::{First, Message, check, decode, encode, next};
pub use schema_files::{AddError, SchemaFiles};
pub use shared::Shared;
pub use transcode_core::Prepared;
pub use transcode_words::asked::{Root, RootName};
pub use transcode_words::{Outcome, Syntax, line_of};
