//! Defines texts, names and byte places, a counter of steps, and the traits of the environment: sources, sinks and libraries of
//! files.
//!
//! Read first: `specs/Characters`, `WhiteSpace` and `Digits` (tables of the standards), then the traits in
//! `src/sources.rt`, `src/sinks.rt` and `src/libraries.rt`.
#![tactic(auto)]

mod characters;
mod digits;
mod libraries;
mod limits;
mod moves;
mod namespaces;
mod reasons;
mod sinks;
mod sources;
mod steps;
mod texts;
mod white_space;

pub use characters::{
    is_name_char, is_name_start, is_name_text, is_ncname, is_ncname_text, is_xml_char,
};
pub use digits::{are_digits, is_digit, is_numeral};
pub use libraries::{Entry, Library, LoadError, MemoryLibrary, SureLibrary};
pub use limits::{is_short_part, is_short_space};
pub use moves::{ReadError, read_all, write_all};
pub use namespaces::{SCHEMA_SPACE, XML_SPACE, XMLNS_SPACE, XSI_SPACE};
pub use reasons::Reason;
pub use sinks::{MemorySink, Sink, SureSink};
pub use sources::{Failed, MemorySource, Source, SureSource};
pub use steps::Steps;
pub use texts::{Memory, Name, ROOM, Text, TextError, utf8_text};
pub use white_space::{
    WhiteSpace, first_word, is_blank, is_str_treated, is_treated, is_white_space, treat,
};
