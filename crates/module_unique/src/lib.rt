//! Proves that no two printable modules print alike, and that each print is read back.
//!
//! Read first: the laws, `specs/Alike` and `specs/Faultless`, then `proofs/Telling` (what the print of a module determines).
#![tactic(auto)]

mod laws;

pub use laws::{printable_has_no_fault, prints_differ, told_exactly};
