//! Makes the simple types of several schema documents, and checks the default and fixed values of their attributes.
//!
//! Read first: `specs/Making`, then `made` in `src/making.rt`; `specs/Spellings` and `specs/Standards`, then `first_misfit` in
//! `src/judging.rt`.
#![tactic(auto)]

mod declared;
mod judging;
mod laws;
mod leaving;
mod making;
mod orders;
mod parts;
mod spellings;
mod tables;
mod unions;
mod working;

pub use judging::first_misfit;
pub use laws::{one_making, one_restriction};
pub use making::{MakingError, made};
pub use parts::{Part, made_type};
pub use spellings::in_spelling;
