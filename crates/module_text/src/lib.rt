//! Defines the texts that have the form of a printed module, the faults of such a text, and what it is read back to.
//!
//! Everything is kept as written, with the place of each thing at which a fault may be reported. Types nest, so `Box` keeps the
//! stack small.
//!
//! Read first: docs/reference/MODULE-READ.md, `src/types.rt`, `specs/Texts` (the text of a tree) and `specs/Plain` (which trees have one
//! in the grammar), then `specs/Printable`, `specs/Faults` and `specs/ReadBack`; `src/boxes.rt` before `src/made.rt`.
#![tactic(auto)]

mod bounds;
mod boxes;
mod fault_laws;
mod laws;
mod made;
mod marks;
mod modules;
mod names;
mod reasons;
mod spots;
mod types;
mod values;
mod written;

pub use bounds::{PlainEnds, PlainNumber, PlainRange};
pub use boxes::Boxed;
pub use fault_laws::no_assignments;
pub use laws::places_are_no_text;
pub use made::{BoxedForm, PartHead, Parts, join};
pub use marks::{NameAs, PartMark, PartMarkKind, TypeMark, TypeMarkKind};
pub use modules::PlainAssignment;
pub use names::{identifier_text, reference_text};
pub use reasons::{ModuleError, ModuleWhy, TextFault};
pub use spots::{Alone, Spot};
pub use types::{NumberedItem, PlainForm, PlainLabel, PlainName, PlainPart};
pub use values::{Absence, PlainOctets, PlainValue, PlainValueLabel};
pub use written::{PlainList, Written};
