//! Defines trees of labels, with their count of nodes and their depth.
//!
//! Read first: `specs/Rose` (a label and a list of trees), then `src/shapes.rt`.
#![tactic(auto)]

mod shapes;
mod trees;
mod wholes;

pub use shapes::Shape;
pub use trees::Tree;
pub use wholes::Whole;
