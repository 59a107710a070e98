//! Links several schema documents: the passes that find faults, in their order, and the set that results.
//!
//! Read first: `specs/Passes` and `specs/Sets` (`Links`), then `link` in `src/linking.rt`.
#![tactic(auto)]

mod laws;
mod linking;
mod passes;

pub use laws::{one_answer, one_set};
pub use link_names::LinkWhy;
pub use linking::{are_numbered, link};
pub use passes::{LinkError, check_content, check_names, make_simple_types};
