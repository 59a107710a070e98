//! Writes the items of a value, as items or as XML text.
//!
//! Read first: `specs/Items` of `xer_items`, then `items_of` in `src/items.rt`.
#![tactic(auto)]

mod contents;
mod gathering;
mod items;
mod keeping;
mod ordering;
mod presence;
mod receiver;
mod spelling;

pub use items::{items_of, text_of};
