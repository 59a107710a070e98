//! What is read: a node of a value, and a component of a SEQUENCE.
use asn_types::{Component, Module, TypeLabel};
use base_trees::Tree;
use std::alloc::Global;

/// A place in a value: the type of its node, what that type resolves to, and the nesting depth.
#[derive(Clone, Copy)]
pub(crate) struct Place<'m> {
    pub(crate) alloc: Global,
    pub(crate) module: &'m Module,
    pub(crate) depth: u32,
    pub(crate) node: &'m Tree<TypeLabel>,
    pub(crate) found: &'m Tree<TypeLabel>,
}

/// A component of a SEQUENCE that is present, and its place.
#[derive(Clone, Copy)]
pub(crate) struct Part<'m> {
    pub(crate) component: &'m Component,
    pub(crate) place: Place<'m>,
}

/// The bits from one to another, of a field or a node.
#[derive(Clone, Copy)]
pub(crate) struct Span {
    pub(crate) begin: u64,
    pub(crate) end: u64,
}
