//! What a part of a type represents in a document.

/// What a component, an alternative or an item represents in a document.
#[derive(Clone, Copy, PartialEq, Eq)]
pub enum Role {
    /// An attribute, by ATTRIBUTE.
    Attribute,
    /// An element.
    Element,
    /// Its content appears next to the parts around it, by UNTAGGED.
    Group,
    /// The content of an element that may be nil: the last part of a USE-NIL type.
    Content,
    /// The texts between the child elements: the first part of an EMBED-VALUES type.
    Embed,
    /// The order of the child elements: the part of a USE-ORDER type after that of EMBED-VALUES, or else its first part.
    Order,
    /// An item without a name, as those of a LIST.
    Item,
    /// An alternative of a USE-UNION type.
    Alternative,
}
