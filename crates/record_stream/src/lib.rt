//! Reads encodings that follow one another in canonical aligned PER (X.691), one record at a time.
//!
//! Read first: `specs/Next`, then `Records::next` in `src/records.rt`; of the values of octets `specs/Cuts`, with its law in
//! `src/laws.rt`.
#![tactic(auto)]

mod ahead;
mod errors;
mod laws;
mod records;

pub use errors::RecordError;
pub use laws::{one_cut, one_list};
pub use records::Records;
