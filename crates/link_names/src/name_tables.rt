//! Tables of the names of global components.
use base_texts::Name;
use std::collections::BTreeSet;

/// The names of the types, and those of the complex ones.
#[derive(Drop)]
pub(crate) struct TypeNames<'a> {
    pub all: BTreeSet<&'a Name>,
    pub complexes: BTreeSet<&'a Name>,
}

/// The names of the global components of each kind.
#[derive(Drop)]
pub(crate) struct NameTable<'a> {
    pub elements: BTreeSet<&'a Name>,
    pub attributes: BTreeSet<&'a Name>,
    pub types: TypeNames<'a>,
}
