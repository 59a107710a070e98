//! Decodes values from canonical PER, aligned or unaligned (X.691), and takes no octet before it is needed.
//!
//! Read first: `specs/Answers`, then `decode_by` in `src/decoding.rt`.
#![tactic(auto)]

mod decoded;
mod decoding;
mod errors;
mod faults;
mod leaves;
mod lengths;
mod nodes;
mod numbers;
mod places;
mod plain;
mod run;
mod texts;
mod wholes;

pub use decoded::Decoded;
pub use decoding::{decode, decode_by};
pub use errors::DecodeError;
pub use per_fields::Why as PerWhy;
