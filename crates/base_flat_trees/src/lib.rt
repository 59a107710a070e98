//! Keeps a tree of labels in one vector, in document order, each node with the number of nodes below it.
//!
//! Read first: `specs/Zips` (a tree while it is built), then the clauses of `Node` and `Kids` in `src/nodes.rt` and of
//! `Builder` in `src/builders.rt`.
#![tactic(auto)]

mod builders;
mod entries;
mod nodes;
mod owned;
mod shaped;

pub use builders::Builder;
pub use nodes::{Kids, Node};
pub use owned::{Flat, Forest};
pub use shaped::Whole;
