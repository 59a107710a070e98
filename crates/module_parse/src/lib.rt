//! Reads the text of a printed module into a tree, or reports its first error.
//!
//! Each function reads one thing at a place of the bytes, as `module_grammar` defines it. It returns the thing and the place after
//! it. Otherwise it returns the longest prefix that begins a text, or the place of a type or a value that is nested too deep.
//!
//! Read first: `specs/Parsed`, then `parse` in `src/modules.rt`.
#![tactic(auto)]

mod bounds;
mod endings;
mod forms;
mod items;
mod marks;
mod modules;
mod names;
mod parts;
mod steps;
mod values;

pub use modules::{Finding, parse};
