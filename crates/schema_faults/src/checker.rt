//! The context in which the elements of a schema document are checked.
use schema_syntax::NamespaceScope;
use std::alloc::Global;

/// Checks elements with the same bindings in scope and at the same level of groups.
#[derive(Clone, Copy)]
pub(crate) struct Checker<'a, 'b> {
    pub alloc: Global,
    /// The bindings in scope.
    pub scope: &'b NamespaceScope<'a, 'b>,
    /// The number of groups of the same content model around the elements.
    pub level: u32,
}
