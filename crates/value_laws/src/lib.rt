//! Proves the theorem of one value: each valid document has exactly one value, and the items of that value are its own.
//!
//! Read first: docs/internals/ONE-VALUE.md, `specs/Statements`, then `src/laws.rt`; the laws in `src/existence_laws.rt` and
//! `src/sound_laws.rt`, the second over `specs/SoundItems`.
#![tactic(auto)]

mod existence_laws;
mod laws;
mod sound_laws;

pub use existence_laws::values_of_items;
pub use laws::{items_of_values, one_value, one_value_of_same};
pub use sound_laws::{documents_of_values, items_are_sound};
