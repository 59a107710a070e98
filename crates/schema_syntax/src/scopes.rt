//! The namespaces in scope at an element.
ghost use Rattle.std.specs.Prelude.{◌≡◌, ◌++◌, IfOk, option_map};
ghost use Rattle.base_texts.specs.Entries.{beside};
ghost use Rattle.schema_syntax.specs.Private.Finding.{Finds};
ghost use Rattle.schema_syntax.specs.Scopes.{bindings_in};

use base_texts::{Memory, Text, XML_SPACE};
use std::alloc::Global;
use std::collections::BTreeMap;
use std::marker::Model;
use xml_read::Bindings;

/// The namespaces that one element binds, each a prefix with a namespace, in the order written.
#[derive(Drop)]
pub struct Declared<'a> {
    bindings: &'a [(Text, Text)],
    // The namespace of each prefix.
    spaces: BTreeMap<&'a [u8], &'a str>,
}

impl<'a> Model for Declared<'a> {
    ghost use Rattle.std.specs.Prelude.{List, ℕ};
    ghost use Rattle.schema_syntax.specs.Private.Finding.{Finds};

    ghost Value = { List (List ℕ × List ℕ) };

    ghost view = { λ a. a.bindings.now };

    ghost invariant = { λ a. Finds a.bindings.now a.spaces };
}

// Returns the namespace of each prefix: that of its first binding.
fn spaces_of<'a>(
    alloc: Global,
    bindings: &'a [(Text, Text)],
) -> Result<BTreeMap<&'a [u8], &'a str>, Memory>
    ensures { IfOk result (Finds bindings.now) }
{
    let mut spaces = BTreeMap::new(alloc);
    let mut i = bindings.len();
    'last_first: while i > 0 {
        i -= 1;
        let binding = &bindings[i];
        spaces.insert(binding.0.bytes(), binding.1.as_str())?;
    }
    Ok(spaces)
}

impl<'a> Declared<'a> {
    fn of(alloc: Global, bindings: &'a [(Text, Text)]) -> Result<Declared<'a>, Memory>
        ensures { IfOk result (λ declared. declared ≡ bindings.now) }
    {
        let spaces = spaces_of(alloc, bindings)?;
        Ok(Declared { bindings, spaces })
    }

    fn bound_to(&self, prefix: &[u8]) -> Option<&'a str>
        ensures { option_map (λ space. space.now) result ≡ beside prefix.now self.now }
    {
        self.spaces.get(prefix).copied()
    }
}

/// The bindings of the elements that are open, the innermost first, each a prefix with a namespace. The document lends them for
/// `'a`, and the elements are open for `'b`.
#[derive(Drop)]
pub enum NamespaceScope<'a, 'b> {
    /// Outside the root, where only `xml` is bound.
    Document,
    /// In an element, with the scope around it.
    Element(Declared<'a>, &'b NamespaceScope<'a, 'b>),
}

// Returns the namespace that a prefix is bound to outside the root.
fn outside<'a>(prefix: &[u8]) -> Option<&'a str>
    ensures { option_map (λ space. space.now) result ≡ beside prefix.now (bindings_in NamespaceScope.Document) }
{
    if prefix == b"xml".as_slice() {
        Some(XML_SPACE)
    } else {
        None
    }
}

impl<'a, 'b> NamespaceScope<'a, 'b> {
    /// Returns the scope in an element with these bindings, where `outer` is the scope around the element. It sorts the bindings
    /// once, so that each prefix is then found in logarithmic time.
    pub fn inside(
        alloc: Global,
        bindings: &'a Bindings,
        outer: &'b NamespaceScope<'a, 'b>,
    ) -> Result<NamespaceScope<'a, 'b>, Memory>
        ensures { IfOk result (λ scope. bindings_in scope ≡ bindings.now ++ bindings_in outer.now) }
    {
        let declared = Declared::of(alloc, bindings.items())?;
        Ok(NamespaceScope::Element(declared, outer))
    }

    /// Returns the namespace that the prefix is bound to. The time grows with the number of open elements, and for each of them
    /// with the logarithm of the number of its bindings.
    pub fn bound_to(&self, prefix: &[u8]) -> Option<&'a str>
        ensures { option_map (λ space. space.now) result ≡ beside prefix.now (bindings_in self.now) }
    {
        match self {
            NamespaceScope::Document => outside(prefix),
            NamespaceScope::Element(declared, outer) => match declared.bound_to(prefix) {
                Some(space) => Some(space),
                None => outer.bound_to(prefix),
            },
        }
    }
}
