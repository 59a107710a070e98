//! Implements the environment over the system: a source over a reader, a sink over a writer, a library over files.
//!
//! Read first: the traits in `src/sources.rt`, `src/sinks.rt` and `src/libraries.rt` of `base_texts`, then `src/adapters.rt`.
#![tactic(auto)]

mod adapters;
mod buffered;

pub use adapters::{Folder, Reading, Writing};
pub use buffered::Buffered;
