//! Encodes values in canonical PER, aligned or unaligned (X.691).
//!
//! Read first: `specs/Encoding` of `per_fields`, then `encode_by` in `src/encoding.rt`.
#![tactic(auto)]

mod encoding;
mod flags;
mod lengths;
mod nodes;
mod numbers;
mod texts;
mod whole_numbers;

pub use encoding::{encode, encode_by};
