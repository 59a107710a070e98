//! Maps the components of a linked set to ASN.1 types and assignments, after ITU-T X.694.
//!
//! Read first: docs/reference/MAPPING.md, `specs/Plans` and `Planning`, `Naming`, `Mapped` (`IsMapOf`), then `map_set` in
//! `src/modules.rt` and `src/map.rt`.
#![tactic(auto)]

mod attributes;
mod content;
mod instructions;
mod map;
mod mapper;
mod modules;
mod orders;
mod particles;
mod parts;
mod places;
mod simple;
mod words;

pub use map::assignments;
pub use modules::{map_set, root_type};
