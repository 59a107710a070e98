//! Proves that documents in which no pass finds a fault have a linked set.
//!
//! Read first: the law in `src/laws.rt`, over `Passes` and `Sets` of `link_schemas`.
#![tactic(auto)]

mod laws;

pub use laws::sets_of_documents;
