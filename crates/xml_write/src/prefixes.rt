//! The prefixes under which the namespaces of a document are declared.
ghost use Rattle.std.specs.Prelude.{◌≡◌, ◌∷◌, ◌++◌, [], true, false, map, IfOk, IfSome, OnOk, MatchOption, bytes_eq};
ghost use Rattle.std.specs.Option.{option_map};
ghost use Rattle.std.specs.Map.{lookup};
ghost use Rattle.xml_write.specs.Spaces.{attribute_spaces, label_spaces, spaces};
ghost use Rattle.xml_items.specs.Seen.{item_seen};
ghost use Rattle.xml_write.specs.Telling.{space_of};
ghost use Rattle.xml_write.specs.Private.Binding.{prefix_text, qualifier_text, before_local, entry_of, next_prefix, is_bound, with_space, with_spaces};

use base_texts::{Name, Text, XML_SPACE, XSI_SPACE};
use itoa::Buffer;
use std::alloc::{AllocError, Global};
use std::collections::BTreeMap;
use std::marker::Model;
use xml_items::{ItemNode, ItemRef};

// `xsi`, or `n` with a number.
#[derive(Clone, Copy)]
pub(crate) enum Prefix {
    Xsi,
    Numbered(usize),
}

// The qualifier of a name, which precedes its local part: nothing, a prefix with a colon, or only the colon where a namespace has
// no prefix.
#[derive(Clone, Copy)]
pub(crate) enum Qualifier {
    Absent,
    Xml,
    Declared(Prefix),
    Unknown,
}

// The namespaces found so far, each with its prefix, in the order found. That of XML and the absent one have no entry. A
// namespace is found in time logarithmic in their number, even for hostile input.
#[derive(Drop)]
pub(crate) struct Prefixes<'a> {
    found: Vec<(&'a [u8], Prefix)>,
    by_space: BTreeMap<&'a [u8], Prefix>,
    // The last namespace that was looked up without adding an entry, and the qualifier of its names.
    last: Option<(&'a Text, Qualifier)>,
}

impl<'a> Model for Prefixes<'a> {
    ghost use Rattle.std.specs.Prelude.{List, ℕ, map};
    ghost use Rattle.xml_write.specs.Private.Binding.{entry_of, Indexed};

    ghost Value = { List (List ℕ × List ℕ) };

    ghost view = { λ a. map entry_of a.found.items };

    ghost invariant = { λ a. Indexed a.found.items a.by_space a.last };
}

impl<'a> Prefixes<'a> {
    pub(crate) fn new(alloc: Global) -> Prefixes<'a>
        ensures { result ≡ [] }
    {
        Prefixes {
            found: Vec::new(alloc),
            by_space: BTreeMap::new(alloc),
            last: None,
        }
    }

    // The namespaces with their prefixes.
    pub(crate) fn entries(&self) -> &[(&'a [u8], Prefix)]
        ensures { map entry_of result.now ≡ self.now }
    {
        self.found.as_slice()
    }

    // The prefix under which a namespace is declared. Most names are in the namespace that was found first.
    #[inline(always)]
    fn get(&self, space: &[u8]) -> Option<Prefix>
        ensures { option_map prefix_text result ≡ lookup (bytes_eq space.now) self.now }
    {
        if let Some((first, prefix)) = self.found.first() {
            if space == *first {
                return Some(*prefix);
            }
        }
        self.by_space.get(space).copied()
    }

    // Whether a namespace needs no new entry.
    #[inline(always)]
    fn is_bound(&self, space: &[u8]) -> bool
        ensures { result ≡ is_bound self.now space.now }
    {
        space.is_empty() || space == XML_SPACE.as_bytes() || self.get(space).is_some()
    }

    // The prefix of a new namespace.
    fn next(&self, space: &[u8]) -> Prefix
        ensures { prefix_text result ≡ next_prefix self.now space.now }
    {
        if space == XSI_SPACE.as_bytes() {
            return Prefix::Xsi;
        }
        let xsi_count = usize::from(self.get(XSI_SPACE.as_bytes()).is_some());
        Prefix::Numbered(self.found.len() + 1 - xsi_count)
    }

    pub(crate) fn bind(&mut self, space: &'a [u8]) -> Result<(), AllocError>
        ensures { OnOk result (self.new ≡ with_space self.old space.now) }
    {
        if self.is_bound(space) {
            return Ok(());
        }
        let prefix = self.next(space);
        self.last = None;
        self.found.push((space, prefix))?;
        match self.by_space.insert(space, prefix) {
            Ok(_) => Ok(()),
            Err(_) => {
                // The prefix is removed.
                let _ = self.found.pop();
                Err(AllocError)
            }
        }
    }

    fn bind_attributes(&mut self, attributes: &'a [(Name, Text)]) -> Result<(), AllocError>
        ensures { OnOk result (self.new ≡ with_spaces self.old (attribute_spaces attributes.now)) }
    {
        'attributes: for (name, _) in attributes {
            self.bind(name.space.bytes())?;
        }
        Ok(())
    }

    fn bind_label(&mut self, label: ItemRef<'a>) -> Result<(), AllocError>
        ensures { OnOk result (self.new ≡ with_spaces self.old (label_spaces (item_seen label.entry))) }
    {
        match label {
            ItemRef::Element {
                name,
                attributes,
                ..
            } => {
                self.bind(name.space.bytes())?;
                self.bind_attributes(attributes)
            }
            ItemRef::Text { .. } => Ok(()),
        }
    }

    // The namespaces of all names of the tree.
    pub(crate) fn bind_tree(&mut self, tree: &ItemNode<'a>) -> Result<(), AllocError>
        ensures { OnOk result (self.new ≡ with_spaces self.old (spaces tree.now)) }
    {
        self.bind_label(tree.label())?;
        'kids: for kid in tree.kids() {
            self.bind_tree(&kid)?;
        }
        Ok(())
    }

    // The qualifier of a name in this namespace, if it needs no new entry.
    #[inline(always)]
    fn known(&self, space: &[u8]) -> Option<Qualifier>
        ensures { MatchOption result (is_bound self.now space.now ≡ false) (λ q. (is_bound self.now space.now ≡ true) × (qualifier_text q ≡ before_local self.now space.now)) }
    {
        if space.is_empty() {
            return Some(Qualifier::Absent);
        }
        if space == XML_SPACE.as_bytes() {
            return Some(Qualifier::Xml);
        }
        match self.get(space) {
            Some(prefix) => Some(Qualifier::Declared(prefix)),
            None => None,
        }
    }

    // The qualifier of a name in this namespace. An entry is added if it is needed.
    #[inline(always)]
    pub(crate) fn declared(&mut self, space: &'a [u8]) -> Result<Qualifier, AllocError>
        ensures table { OnOk result (self.new ≡ with_space self.old space.now) }
        ensures qualifier { IfOk result (λ q. qualifier_text q ≡ before_local self.new space.now) }
    {
        if let Some(qualifier) = self.known(space) {
            return Ok(qualifier);
        }
        self.bind(space)?;
        Ok(self.qualifier(space))
    }

    // Returns the qualifier of a name in this namespace, which may be absent. A namespace without an entry gets one. Most names
    // are in the namespace of the name before.
    #[inline(always)]
    pub(crate) fn declared_text(&mut self, space: Option<&'a Text>) -> Result<Qualifier, AllocError>
        ensures table { OnOk result (self.new ≡ with_space self.old (space_of space.entry)) }
        ensures qualifier { IfOk result (λ q. qualifier_text q ≡ before_local self.new (space_of space.entry)) }
    {
        let Some(space) = space else {
            return Ok(Qualifier::Absent);
        };
        if let Some((last, qualifier)) = self.last {
            if *last == *space {
                return Ok(qualifier);
            }
        }
        self.declared_anew(space)
    }

    // Returns the qualifier of a name in this namespace, where the name before is in another one. A namespace without an entry
    // gets one.
    #[inline(never)]
    fn declared_anew(&mut self, space: &'a Text) -> Result<Qualifier, AllocError>
        ensures table { OnOk result (self.new ≡ with_space self.old space.now) }
        ensures qualifier { IfOk result (λ q. qualifier_text q ≡ before_local self.new space.now) }
    {
        let qualifier = self.declared(space.bytes())?;
        self.last = Some((space, qualifier));
        Ok(qualifier)
    }

    // The qualifier of a name in this namespace.
    #[inline(always)]
    pub(crate) fn qualifier(&self, space: &[u8]) -> Qualifier
        ensures { qualifier_text result ≡ before_local self.now space.now }
    {
        if space.is_empty() {
            return Qualifier::Absent;
        }
        if space == XML_SPACE.as_bytes() {
            return Qualifier::Xml;
        }
        match self.get(space) {
            Some(prefix) => Qualifier::Declared(prefix),
            None => Qualifier::Unknown,
        }
    }
}

impl Prefix {
    pub(crate) fn write(self, out: &mut Vec<u8>) -> Result<(), AllocError>
        ensures { OnOk result (out.new.items ≡ out.old.items ++ prefix_text self) }
    {
        match self {
            Prefix::Xsi => out.extend_from_slice(b"xsi"),
            Prefix::Numbered(number) => {
                let mut buffer = Buffer::new();
                out.push(b'n')?;
                out.extend_from_slice(buffer.format(number).as_bytes())
            }
        }
    }

    // The digit, if the prefix is `n` with one digit, as most are.
    #[inline(always)]
    fn digit(self) -> Option<u8>
        ensures { IfSome result (λ digit. prefix_text self ++ 58 ∷ [] ≡ 110 ∷ digit ∷ 58 ∷ []) }
    {
        match self {
            Prefix::Numbered(number) if number < 10 => Some(b'0' + number as u8),
            _ => None,
        }
    }

    // Writes the prefix and a colon. A prefix of one digit, as most are, is written in one step.
    #[inline(always)]
    fn write_before_colon(self, out: &mut Vec<u8>) -> Result<(), AllocError>
        ensures { OnOk result (out.new.items ≡ out.old.items ++ (prefix_text self ++ 58 ∷ [])) }
    {
        match self {
            Prefix::Numbered(number) if number < 10 => {
                out.extend_from_slice(&[b'n', b'0' + number as u8, b':'])
            }
            _ => {
                self.write(out)?;
                out.extend_from_slice(b":")
            }
        }
    }

    // Writes the beginning of a start tag of a name with this prefix.
    #[inline(always)]
    fn write_start(self, out: &mut Vec<u8>) -> Result<(), AllocError>
        ensures { OnOk result (out.new.items ≡ out.old.items ++ 60 ∷ (prefix_text self ++ 58 ∷ [])) }
    {
        match self {
            Prefix::Numbered(number) if number < 10 => {
                out.extend_from_slice(&[b'<', b'n', b'0' + number as u8, b':'])
            }
            _ => {
                out.push(b'<')?;
                self.write_before_colon(out)
            }
        }
    }

    // Writes the beginning of an end tag of a name with this prefix.
    #[inline(always)]
    fn write_end(self, out: &mut Vec<u8>) -> Result<(), AllocError>
        ensures { OnOk result (out.new.items ≡ out.old.items ++ 60 ∷ 47 ∷ (prefix_text self ++ 58 ∷ [])) }
    {
        match self {
            Prefix::Numbered(number) if number < 10 => {
                out.extend_from_slice(&[b'<', b'/', b'n', b'0' + number as u8, b':'])
            }
            _ => {
                out.extend_from_slice(b"</")?;
                self.write_before_colon(out)
            }
        }
    }
}

impl Qualifier {
    // The digit of its prefix, if that is `n` with one digit.
    #[inline(always)]
    pub(crate) fn digit(self) -> Option<u8>
        ensures { IfSome result (λ digit. qualifier_text self ≡ 110 ∷ digit ∷ 58 ∷ []) }
    {
        match self {
            Qualifier::Declared(prefix) => prefix.digit(),
            _ => None,
        }
    }

    #[inline(always)]
    pub(crate) fn write(self, out: &mut Vec<u8>) -> Result<(), AllocError>
        ensures { OnOk result (out.new.items ≡ out.old.items ++ qualifier_text self) }
    {
        match self {
            Qualifier::Absent => Ok(()),
            Qualifier::Xml => out.extend_from_slice(b"xml:"),
            Qualifier::Declared(prefix) => prefix.write_before_colon(out),
            Qualifier::Unknown => out.extend_from_slice(b":"),
        }
    }

    // Writes the beginning of a start tag.
    #[inline(always)]
    pub(crate) fn write_start(self, out: &mut Vec<u8>) -> Result<(), AllocError>
        ensures { OnOk result (out.new.items ≡ out.old.items ++ 60 ∷ qualifier_text self) }
    {
        match self {
            Qualifier::Declared(prefix) => prefix.write_start(out),
            _ => {
                out.push(b'<')?;
                self.write(out)
            }
        }
    }

    // Writes the beginning of an end tag.
    #[inline(always)]
    pub(crate) fn write_end(self, out: &mut Vec<u8>) -> Result<(), AllocError>
        ensures { OnOk result (out.new.items ≡ out.old.items ++ 60 ∷ 47 ∷ qualifier_text self) }
    {
        match self {
            Qualifier::Declared(prefix) => prefix.write_end(out),
            _ => {
                out.extend_from_slice(b"</")?;
                self.write(out)
            }
        }
    }
}
