//! What the faults of types depend on.
use crate::orders::Content;
use crate::references::References;
use module_text::PlainAssignment;
use simple_types::Simple;
use std::alloc::Global;

/// What the faults of types depend on.
#[derive(Clone, Copy)]
pub struct Context<'a> {
    pub alloc: Global,
    /// All assignments.
    pub assignments: &'a [PlainAssignment],
    pub references: &'a References,
    /// For each assignment, the simple type that its type represents.
    pub simples: &'a [Option<Simple>],
    /// For each assignment, the elements of its type, if this may be the content of a type with their order.
    pub contents: &'a [Content<'a>],
}
