//! Lists the elements of schema documents, where each may appear, its attributes and their values.
//!
//! Read first: the tables of docs/reference/SCHEMAS.md as data: `specs/Elements`, `Attributes`, `Children`, `Values`.
#![tactic(auto)]

mod attributes;
mod children;
mod elements;
mod numbers;
mod references;
mod roles;
mod scopes;
mod values;
mod why;

pub use attributes::{has_attribute, has_unknown, own_attributes, value_of};
pub use children::{ChildSet, child_count, has_child, is_in};
pub use elements::{Placement, is_counted, is_looked_into, is_schema_name, placement_in};
pub use numbers::{is_large, is_zero};
pub use references::{Resolved, TypeName, resolve, type_of};
pub use roles::{ElementRole, Part, Position};
pub use scopes::{Declared, NamespaceScope};
pub use values::{has_bad_value, least_of, most_of, never_occurs, qualification_of};
pub use why::SchemaWhy;
