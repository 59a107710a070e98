//! Proves that the module of a linked set can be printed and read back.
//!
//! Read first: `specs/Maps`.
#![tactic(auto)]

mod fixed_octets;
mod laws;

pub use fixed_octets::see_fixed_octets;
pub use laws::{maps_are_notation, maps_are_printable};
