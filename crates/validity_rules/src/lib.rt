//! Defines which elements are valid against a linked set, and the first fault of the others.
//!
//! Read first: docs/reference/VALIDITY.md, `specs/Valid` and `specs/Faults` (`FirstFault`), then the laws in `src/laws.rt`.
#![tactic(auto)]

mod laws;
mod why;

pub use laws::{at_least_one, at_most_one, own_kids, same_validity, treated_again, treated_kids};
pub use why::InvalidWhy;
