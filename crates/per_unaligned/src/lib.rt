//! Names the definitions and calls of unaligned PER (X.691), and proves its fields clause by clause.
//!
//! Read first: `specs/Unaligned` and `specs/Fields`, then `src/calls.rt` and `src/laws.rt`.
#![tactic(auto)]

mod calls;
mod laws;

pub use calls::{decode_unaligned, encode_unaligned};
pub use laws::{fields, first_stop};
