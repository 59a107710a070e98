//! Reads printed modules back and lists their assignments.
//!
//! Read first: docs/reference/MODULE-READ.md, `ReadBack` and `Meaning` in the specs of `module_text`, then `read_module` in
//! `src/reading.rt`; `specs/Ready` (what is required of a text), then `src/types.rt`.
#![tactic(auto)]

mod forms;
mod laws;
mod lines;
mod marks;
mod modules;
mod parts;
mod reading;
mod types;

pub use laws::{one_answer, some_answer};
pub use lines::summary;
pub use module_text::{ModuleError, ModuleWhy};
pub use modules::make;
pub use reading::read_module;
