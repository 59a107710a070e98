//! Encoding instructions as they are written.
use crate::written::Written;
use base_texts::Text;

/// How a name or a text is given next to the identifier or the reference.
#[derive(Drop)]
pub enum NameAs {
    /// CAPITALIZED.
    Capitalized,
    /// UNCAPITALIZED.
    Uncapitalized,
    /// In quotation marks. Quotation marks inside are not doubled here.
    Quoted { name: Written },
}

/// An instruction of a part or of an assignment.
#[derive(Drop)]
pub enum PartMarkKind {
    Attribute,
    Untagged,
    Name { name: NameAs },
    Namespace { space: Written },
}

/// An instruction of a part or of an assignment, with its place.
#[derive(Drop)]
pub struct PartMark {
    /// The offset of its opening bracket.
    pub at: u64,
    pub kind: PartMarkKind,
}

/// An instruction of a type.
#[derive(Drop)]
pub enum TypeMarkKind {
    UseNil,
    EmbedValues,
    UseOrder,
    List,
    UseUnion,
    UseNumber,
    /// WHITESPACE REPLACE.
    Replace,
    /// WHITESPACE COLLAPSE.
    Collapse,
    /// TEXT of the item with this identifier.
    Text { identifier: Text, text: NameAs },
}

/// An instruction of a type, with its place.
#[derive(Drop)]
pub struct TypeMark {
    /// The offset of its opening bracket.
    pub at: u64,
    pub kind: TypeMarkKind,
}
