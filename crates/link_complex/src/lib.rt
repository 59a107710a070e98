//! Reports what the attributes and the content models of complex types may not have.
//!
//! Read first: `specs/Uses`, `ElementTypes` and `Content`, one for each of the three passes, then `src/content.rt`.
#![tactic(auto)]

mod content;
mod definitions;
mod differing;
mod element_types;
mod identities;
mod leaders;
mod particles;
mod uses;

pub use content::first_unclear;
pub use definitions::{ComplexType, complex_types};
pub use differing::first_differing;
pub use uses::first_double_use;
