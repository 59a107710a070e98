//! Defines simple types and their values: value spaces, the built-in types, the texts that each accepts, and the canonical
//! spelling of each value.
//!
//! Read first: docs/reference/SIMPLE-TYPES.md, `specs/Space` and `specs/Builtins`, then `src/simples.rt`; `specs/Lexical` and
//! `specs/Reading`, then `accept` in `src/accepting.rt`.
#![tactic(auto)]

mod accepting;
mod builtins;
mod classes;
mod copying;
mod facets;
mod holding;
mod integers;
mod labels;
mod laws;
mod lists;
mod numbers;
mod reading;
mod simples;
mod spelling;
mod standards;
mod unions;

pub use accepting::{accept, accept_front_into, accept_into, accept_label};
pub use builtins::builtin;
pub use classes::{char_count, has_characters, is_at_most};
pub use copying::{append_copies, copy};
pub use facets::{Facet, Facets};
pub use holding::holds;
pub use integers::Integer;
pub use labels::{Value, ValueLabel};
pub use laws::{accepted_holds, chain_ends, one_reading, one_spelling, spelled_in_xml_characters};
pub use lists::{Flags, NumberList, TextList};
pub use numbers::{Whole, boolean_of, collapsed_number, only_word};
pub use reading::{SimpleError, is_within, place_of, place_of_word};
pub use simples::{Builtin, Class, Simple, SimpleList};
pub use spelling::{
    choice_of, spell, word_of, write_boolean, write_number, write_text, write_whole, write_word,
};
pub use standards::Standard;
pub use unions::{has_list, is_union};
