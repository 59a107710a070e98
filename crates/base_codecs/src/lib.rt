//! Writes bits to octets, reads bits from a source of octets, and composes such readers and writers with their laws.
//!
//! The highest bit of an octet is the first.
//!
//! Read first: `specs/Bits` and `specs/Cursors`, then `src/bit_source.rt`; of the readers and writers of lists `specs/Codec`,
//! then `specs/Reading` and `specs/Sequences`.
#![tactic(auto)]

mod bit_sink;
mod bit_source;
mod fetch;
mod gather;
mod spots;

pub use bit_sink::BitSink;
pub use bit_source::BitSource;
pub use fetch::CursorError;
pub use spots::Spot;
