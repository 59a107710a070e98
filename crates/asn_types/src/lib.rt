//! Defines ASN.1 types with their encoding instructions, and modules of them.
//!
//! Read first: docs/reference/VALUES.md, `specs/Modules` (`IsModule`) and `Roles`, then `src/types.rt`.
#![tactic(auto)]

mod bounds;
mod crossing;
mod laws;
mod marks;
mod modules;
mod names;
mod parts;
mod resolving;
mod roles;
mod said;
mod simples;
mod types;

pub use crossing::module_crosses;
pub use laws::{references, types_of_modules};
pub use marks::{Instruction, Marks};
pub use modules::{Assignment, Module};
pub use parts::role;
pub use resolving::{follow_reference, resolve};
pub use roles::Role;
pub use simples::{simple_at, simple_of};
pub use types::{Component, Components, Form, TypeLabel};
