//! The table of the global attributes of several documents.
ghost use Rattle.link_simple.specs.StandardsSeen.{declared_of, HasNames};

use base_texts::Name;
use schema_components::RawAttribute;
use std::collections::BTreeMap;

/// A global attribute, and the number of the file in which it was written.
#[derive(Clone, Copy)]
pub(crate) struct Declared<'a> {
    pub file: u32,
    pub attribute: &'a RawAttribute,
}

/// The global attributes, and for each name the number of the first that has it.
#[derive(Drop)]
pub(crate) struct DeclaredNames<'a> {
    pub(crate) declared: Vec<Declared<'a>>,
    pub(crate) named: BTreeMap<&'a Name, usize>,
    ghost within: { HasNames named (declared_of declared.items) },
}
