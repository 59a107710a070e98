//! Finds the first fault of a schema document, by the order of the reasons.
//!
//! Read first: `specs/Reasons` and `specs/Faults`, then `first_fault` in `src/faults.rt`.
#![tactic(auto)]

mod checker;
mod faults;
mod laws;
mod limits;
mod reasons;
mod requirements;

pub use faults::{DocumentFault, first_fault, root_fault};
pub use laws::{first_is_shown, one_answer};
