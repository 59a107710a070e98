//! Decodes values from DER (X.690).
//!
//! Read first: `specs/Answers`, then `decode_der` in `src/decoding.rt`.
#![tactic(auto)]

mod decoded;
mod decoding;
mod errors;
mod faults;
mod fields;
mod heads;
mod identifiers;
mod leaves;
mod nodes;
mod places;
mod rules;
mod wholes;

pub use decoded::Decoded;
pub use decoding::decode_der;
pub use der_fields::Why as DerWhy;
pub use errors::DecodeError;
