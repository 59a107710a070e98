//! Builds a value node by node, in document order, and counts its nodes.
//!
//! If only the count is needed, a list is read word by word, and no value of a word is kept. So a list of millions of items costs
//! no memory.
//!
//! Read first: `specs/Built`, then `src/builder.rt`; `count` in `src/counting.rt`, over `Reading` of `simple_types`.
#![tactic(auto)]

mod builder;
mod counting;
mod items;
mod lists;
mod unions;

pub use builder::ValueBuilder;
pub use counting::count;
