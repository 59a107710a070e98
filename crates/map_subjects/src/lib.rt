//! Lists the components of a linked set that have assignments in its module, in their order.
//!
//! Read first: `specs/Subjects`, then `entries` in `src/collecting.rt`.
#![tactic(auto)]

mod collecting;
mod counting;
mod subjects;

pub use collecting::entries;
pub use counting::number_of_element;
pub use subjects::{NamedSubject, Subject};
