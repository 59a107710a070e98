//! Makes simple types from others: restrictions by facets, lists and unions.
//!
//! Read first: `specs/Applying` and `specs/Restricting` (XML Schema Part 2, clause 4.3), then `restrict` in
//! `src/restricting.rt`.
#![tactic(auto)]

mod bases;
mod constraints;
mod enumerating;
mod facet_texts;
mod making;
mod narrowing;
mod refusals;
mod restricting;

pub use making::{ItemError, UnionError, list_of, union_of, union_of_lent};
pub use refusals::{FacetError, FacetWhy};
pub use restricting::restrict;
pub use simple_types::{
    Builtin, Class, Facet, Facets, Flags, NumberList, Simple, SimpleError, SimpleList, Standard,
    TextList, Value, ValueLabel, accept, builtin, holds, spell,
};
