//! Assignments.
use crate::marks::PartMark;
use crate::types::PlainLabel;
use crate::written::PlainList;
use base_texts::Text;
use base_trees::Tree;

/// A type with a name. A complete text is a list of these.
#[derive(Drop)]
pub struct PlainAssignment {
    /// The offset of its first byte.
    pub at: u64,
    pub reference: Text,
    pub marks: PlainList<PartMark>,
    pub body: Tree<PlainLabel>,
}
