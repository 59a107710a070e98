//! The piece found at the start of a text.

/// A text of the document: borrowed if nothing in it had to be replaced.
#[derive(Drop)]
pub enum Value<'a> {
    Borrowed(&'a [u8]),
    Owned(Vec<u8>),
}

/// An attribute: its Name as written, and its value, with references replaced and white space normalised (XML 1.0, section
/// 3.3.3).
#[derive(Drop)]
pub struct Attribute<'a> {
    pub name: &'a [u8],
    pub value: Value<'a>,
}

/// A start tag or an empty tag: its Name as written, and its attributes in their order.
#[derive(Drop)]
pub struct Element<'a> {
    pub name: &'a [u8],
    pub attributes: Vec<Attribute<'a>>,
}

/// A piece.
#[derive(Drop)]
pub enum Found<'a> {
    /// The XML declaration.
    Declaration,
    Start(Element<'a>),
    Empty(Element<'a>),
    /// An end tag, by its Name as written.
    End(&'a [u8]),
    Comment,
    Instruction,
    /// A CDATA section, by its text.
    CData(Value<'a>),
    /// A reference to a character, by the character.
    Reference(char),
    /// A literal character. A line end of any form is `\n`.
    Character(char),
}
