//! Proves laws about the faults of printed modules.
//!
//! Read first: docs/reference/MODULE-READ.md, then `specs/Laws`.
#![tactic(auto)]

mod laws;

pub use laws::{least_is_first, no_fault_is_printable};
