//! The reader of a schema document, and the start tags that it reads.
use crate::declarations::Setting;
use base_texts::Text;
use schema_syntax::NamespaceScope;
use std::alloc::Global;

/// Reads elements of a schema document in which these bindings are in scope.
#[derive(Clone, Copy)]
pub(crate) struct Reader<'s, 'a, 'b> {
    pub alloc: Global,
    /// What the document says of all its declarations.
    pub setting: Setting<'s>,
    /// The bindings in scope.
    pub scope: &'b NamespaceScope<'a, 'b>,
}

/// The start tag of an element of a schema document.
#[derive(Clone, Copy)]
pub(crate) struct StartTag<'t> {
    /// The local name of the element.
    pub name: &'t str,
    /// The offset of the tag, in bytes from 0.
    pub at: u64,
    /// The attributes without a namespace.
    pub own: &'t [(Text, Text)],
}
