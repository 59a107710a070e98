//! Types as trees.
use crate::bounds::{PlainEnds, PlainNumber, PlainRange};
use crate::marks::{PartMark, TypeMark};
use crate::values::{Absence, PlainOctets};
use crate::written::PlainList;
use base_texts::Text;
use simple_types::Class;

/// An identifier or a reference, with its place.
#[derive(Drop)]
pub struct PlainName {
    /// The offset of its first byte.
    pub at: u64,
    pub name: Text,
}

/// An item of an ENUMERATED with its number in parentheses.
#[derive(Drop)]
pub struct NumberedItem {
    pub identifier: PlainName,
    pub number: PlainNumber,
}

/// A component of a SEQUENCE, an alternative of a CHOICE or the item of a SEQUENCE OF, without its type.
#[derive(Drop)]
pub struct PlainPart {
    /// The offset of its first byte.
    pub at: u64,
    /// Empty if there is none.
    pub identifier: Text,
    pub marks: PlainList<PartMark>,
    /// A fixed value, only in a component.
    pub fixed: Option<PlainOctets>,
    /// `Never` except in a component.
    pub absence: Absence,
}

/// A type without the types of its parts.
#[derive(Drop)]
pub enum PlainForm {
    /// BOOLEAN.
    Bool,
    /// INTEGER.
    Int {
        range: Option<PlainRange>,
    },
    /// ENUMERATED of items with numbers.
    Numbers {
        items: PlainList<NumberedItem>,
    },
    /// ENUMERATED of items without numbers.
    Words {
        identifiers: PlainList<PlainName>,
    },
    /// UTF8String.
    Utf8 {
        size: Option<PlainEnds>,
        class: Class,
    },
    /// SEQUENCE.
    Sequence {
        parts: PlainList<PlainPart>,
    },
    /// CHOICE.
    Choice {
        parts: PlainList<PlainPart>,
    },
    /// SEQUENCE OF.
    SequenceOf {
        size: Option<PlainEnds>,
        part: PlainPart,
    },
    /// The type of the assignment with this reference.
    Ref {
        reference: PlainName,
    },
}

/// A type with its encoding instructions, without the types of its parts, which are its children.
#[derive(Drop)]
pub struct PlainLabel {
    /// The offset of its first byte: that of its first instruction, or else of its word.
    pub at: u64,
    pub marks: PlainList<TypeMark>,
    pub form: PlainForm,
}
