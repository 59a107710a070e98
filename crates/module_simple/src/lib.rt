//! Finds the simple type that a printed type stands for, and the values written at it.
//!
//! Read first: docs/reference/MODULE-READ.md, `Simple` and `Defaults` in the specs of `module_text`, then `src/simple.rt`.
#![tactic(auto)]

mod defaults;
mod simple;

pub use defaults::{
    absence_fault, canonical_value, default_told, fixed_fault, octets_of, spelling_told,
};
pub use simple::{is_order_item, item_spot, simple_told};
