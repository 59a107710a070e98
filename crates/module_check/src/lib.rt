//! Finds the first fault of a printed module.
//!
//! Read first: docs/reference/MODULE-READ.md, `Faults` in the specs of `module_text`, then `src/type_faults.rt`.
#![tactic(auto)]

mod attributes;
mod chains;
mod context;
mod finding;
mod forms;
mod orders;
mod part_faults;
mod parts;
mod references;
mod type_faults;
mod type_marks;

pub use finding::first_fault;
pub use references::References;
