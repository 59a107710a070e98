//! Defines how a printed module is read from bytes: readers of words and their composition, with the law of the longest prefix.
//!
//! Such a reader accepts exactly the texts of its language. Of other bytes it gives the longest prefix that begins such a text,
//! or where a node is nested too deep.
//!
//! Read first: `specs/Reading` and `specs/Laws`, then `specs/Nested`, a small language.
#![tactic(auto)]

mod laws;
mod reach;
mod text_laws;
mod words;

pub use laws::{
    bounds_are_read, marks_are_read, modules_are_read, names_are_read, texts_are_read,
    values_are_read,
};
pub use reach::{Reach, Stop, later};
pub use text_laws::nested_exact;
pub use words::word;
