//! Converts XML names to ASN.1 names, keeps them distinct in a scope, and restores the XML name.
//!
//! Read first: docs/reference/NAMES.md, `specs/Conversion`, then `src/scope.rt`.
#![tactic(auto)]

mod conversion;
mod reserved;
mod restoration;
mod scope;

pub use conversion::{NameKind, convert};
pub use reserved::is_reserved;
pub use restoration::{NameForm, is_capitalized, is_uncapitalized, restoring};
pub use scope::Scope;
