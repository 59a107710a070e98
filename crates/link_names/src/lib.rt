//! Lists the declarations of several schema documents and reports faults of names: duplicates, unresolved references, circular
//! simple types.
//!
//! Read first: `specs/Parts` (all components in one list), `specs/Order` (which fault is first) and `specs/References`, then
//! `first_unresolved` in `src/resolution.rt`; `specs/Cycles`, then `first_circular` in `src/cycles.rt`.
#![tactic(auto)]

mod cycles;
mod definitions;
mod duplicates;
mod faults;
mod global_names;
mod graphs;
mod limits;
mod name_tables;
mod numbers;
mod parts;
mod places;
mod ranks;
mod references;
mod resolution;
mod walk;

pub use cycles::first_circular;
pub use definitions::{SimpleType, simple_types};
pub use duplicates::{first_duplicate, first_repeated};
pub use faults::{LinkWhy, LinkingFault, earlier, first_of};
pub use global_names::NamedPart;
pub use limits::first_beyond_limit;
pub use numbers::SimpleNumbers;
pub use parts::{Part, TypeRole, What};
pub use places::Place;
pub use resolution::first_unresolved;
pub use walk::{all_parts, content_parts, document_parts};
