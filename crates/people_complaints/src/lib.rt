//! Explains an outcome to people: file, line and column, the line itself, the reason and its remedy.
//!
//! Read first: `specs/Subjects`, `specs/Complaints` and `specs/Places`, then `src/composing.rt`; `specs/Lines`, `specs/Excerpts` and `specs/Paths`,
//! then `src/places.rt`.
#![tactic(auto)]

mod complaining;
mod composing;
mod document_paths;
mod excerpts;
mod lines;
mod paths;
mod places;
mod roots;
mod subjects;
mod text_paths;

pub use complaining::{complain, complain_line, complain_usage};
pub use composing::{NamedText, complaint, root_complaint};
pub use document_paths::document_path;
pub use lines::{Spot, spot_at};
pub use subjects::Subjects;
