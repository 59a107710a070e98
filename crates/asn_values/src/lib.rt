//! Defines the values of an ASN.1 type, and the rules that exclude values that no document has.
//!
//! Read first: docs/reference/VALUES.md, `specs/Values` (`Own`, `Kept`, `Fits`, `In`), then `src/rules.rt`.
#![tactic(auto)]

mod keeping;
mod levels;
mod orders;
mod places;
mod rules;
mod spellings;

pub use keeping::kept;
pub use levels::below;
pub use orders::ordered_flags;
pub use rules::own;
pub use spellings::spelling;
