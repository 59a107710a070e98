//! Items as they are stored.

/// An item as it is stored: the numbers of its parts in a store, and its place in the document.
#[derive(Clone, Copy, Drop)]
pub(crate) enum ItemEntry {
    /// An element without attributes and bindings, by the number of its name.
    Element { name: u32, at: u32 },
    /// An element with attributes or bindings, by the number of its lists.
    Listed { lists: u32, at: u32 },
    /// Characters of the document at their place, by their length in bytes.
    Span { len: u32, at: u32 },
    /// A text, by its number.
    Text { text: u32, at: u32 },
}
