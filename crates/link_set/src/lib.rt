//! Builds the linked set of several schema documents in which no fault was found.
//!
//! Read first: `specs/Sets` (`set_of`), then `set_parts` in `src/parts.rt`.
#![tactic(auto)]

mod builtins;
mod complexes;
mod elements;
mod listing;
mod numbers;
mod ordering;
mod parts;
mod references;
mod simples;
mod spelling;
mod tables;
mod written;

pub use parts::{SetParts, set_parts};
