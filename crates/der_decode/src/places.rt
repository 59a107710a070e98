//! What is read, and from where: the input, a node of a value, and a component.
use asn_types::{Component, Module, TypeLabel};
use base_codecs::Spot;
use base_trees::Tree;
use std::alloc::Global;

/// The octets that may be read, and the spot from which they are read.
#[derive(Clone, Copy)]
pub(crate) struct Input<'o> {
    pub(crate) octets: &'o [u8],
    pub(crate) spot: Spot,
}

/// A place in a value: the type of its node, what that type resolves to, its tag and its nesting depth.
#[derive(Clone, Copy)]
pub(crate) struct Place<'m> {
    pub(crate) alloc: Global,
    pub(crate) module: &'m Module,
    pub(crate) depth: u32,
    pub(crate) tag: Option<u32>,
    pub(crate) node: &'m Tree<TypeLabel>,
    pub(crate) found: &'m Tree<TypeLabel>,
}

/// A component, and its place.
#[derive(Clone, Copy)]
pub(crate) struct Part<'m> {
    pub(crate) component: &'m Component,
    pub(crate) place: Place<'m>,
}
