//! The context in which the types of components are made.
use crate::places::Places;
use schema_components::SchemaSet;
use std::alloc::Global;

/// Makes the types of the components of a set, with references to the assignments at these places.
#[derive(Clone, Copy)]
pub(crate) struct Mapper<'a> {
    pub alloc: Global,
    pub set: &'a SchemaSet,
    /// The numbers of the assignments.
    pub places: &'a Places,
}
