//! Encodes values in DER (X.690).
//!
//! Octets are written from the last to the first, so that each length is known when it is written, and reversed at the end.
//!
//! Read first: `specs/Encoding` of `der_fields`, then `encode_der` in `src/encoding.rt`.
#![tactic(auto)]

mod encoding;
mod nodes;
mod octets;

pub use encoding::encode_der;
