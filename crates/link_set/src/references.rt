//! Types and elements by their numbers.
ghost use Rattle.std.specs.Prelude.{◌≡◌, map};
ghost use Rattle.schema_components.specs.Documents.{doc_of};
ghost use Rattle.schema_components.specs.Seen.{base_of, kind_of, local_of};
ghost use Rattle.link_names.specs.Order.{place};
ghost use Rattle.link_names.specs.Tables.{named_in, placed_in};
ghost use Rattle.link_set.specs.Sets as told;
ghost use Rattle.link_set.specs.Private.Told.{ranked_in, told_types, told_by};

use crate::builtins::rank;
use crate::tables::{ComponentNumbers, TypeNumbers};
use base_texts::Name;
use schema_components::{RawBase, RawDoc, RawKind, RawLocal, RawRef, TypeOf};
use simple_types::Builtin;
use std::collections::BTreeMap;

/// Returns the number for the name.
pub(crate) fn number_named<'a>(table: &BTreeMap<&'a Name, u32>, name: &'a Name) -> Option<u32>
    ensures { result ≡ named_in table.now name.now }
{
    match table.get(&name) {
        Some(n) => Some(*n),
        None => None,
    }
}

fn number_placed(table: &BTreeMap<(u32, u64), u32>, file: u32, at: u64) -> Option<u32>
    ensures { result ≡ placed_in table.now (place file at) }
{
    match table.get(&(file, at)) {
        Some(n) => Some(*n),
        None => None,
    }
}

fn number_ranked(table: &BTreeMap<u32, u32>, which: Builtin) -> Option<u32>
    ensures { result ≡ ranked_in table.now which }
{
    match table.get(&rank(which)) {
        Some(n) => Some(*n),
        None => None,
    }
}

/// Returns the number, or 0 if there is none.
pub(crate) fn or_zero(number: Option<u32>) -> u32
    ensures { result ≡ told.or_zero number }
{
    match number {
        Some(n) => n,
        None => 0,
    }
}

fn simple_or_complex(simple: Option<u32>, complex: u32) -> TypeOf
    ensures { result ≡ told.simple_or_complex simple complex }
{
    match simple {
        Some(n) => TypeOf::Simple(n),
        None => TypeOf::Complex(complex),
    }
}

impl<'a> TypeNumbers<'a> {
    fn at_name(&self, name: &'a Name) -> Option<u32>
        ensures { result ≡ (told_types self.now).named name.now }
    {
        number_named(&self.named, name)
    }

    fn at_place(&self, file: u32, at: u64) -> u32
        ensures { result ≡ told.or_zero ((told_types self.now).placed (place file at)) }
    {
        or_zero(number_placed(&self.placed, file, at))
    }
}

impl<'a> ComponentNumbers<'a> {
    fn builtin(&self, which: Builtin) -> u32
        ensures { result ≡ told.or_zero ((told_by self.now).builtins which) }
    {
        or_zero(number_ranked(&self.types.builtins, which))
    }

    fn type_of_reference(&self, reference: &'a RawRef) -> TypeOf
        ensures { result ≡ told.type_of_reference (told_by self.now) reference.now }
    {
        match reference {
            RawRef::Builtin(which) => TypeOf::Simple(self.builtin(*which)),
            RawRef::Other(name) => simple_or_complex(
                self.types.simples.at_name(name),
                or_zero(self.types.complexes.at_name(name)),
            ),
        }
    }

    /// Returns the type of an element of the file.
    pub(crate) fn type_of_kind(&self, file: u32, kind: &'a RawKind) -> TypeOf
        ensures { result ≡ told.type_of_kind (told_by self.now) file (kind_of kind.now) }
    {
        match kind {
            RawKind::Named(reference) => self.type_of_reference(reference),
            RawKind::Simple(body) => TypeOf::Simple(self.types.simples.at_place(file, body.at)),
            RawKind::Complex(body) => TypeOf::Complex(self.types.complexes.at_place(file, body.at)),
        }
    }

    /// Returns the number of the simple type that is named.
    pub(crate) fn simple_of_reference(&self, reference: &'a RawRef) -> u32
        ensures { result ≡ told.simple_of_reference (told_by self.now) reference.now }
    {
        match reference {
            RawRef::Builtin(which) => self.builtin(*which),
            RawRef::Other(name) => or_zero(self.types.simples.at_name(name)),
        }
    }

    /// Returns the number of the simple type that is named, or in place in the file.
    pub(crate) fn simple_of_base(&self, file: u32, base: &'a RawBase) -> u32
        ensures { result ≡ told.simple_of_base (told_by self.now) file (base_of base.now) }
    {
        match base {
            RawBase::Named(reference) => self.simple_of_reference(reference),
            RawBase::Inner(body) => self.types.simples.at_place(file, body.at),
        }
    }

    fn number_of_local(&self, file: u32, local: &'a RawLocal) -> u32
        ensures { result ≡ told.number_of_local (told_by self.now) file (local_of local.now) }
    {
        match local {
            RawLocal::Reference { name, .. } => or_zero(number_named(&self.elements.globals, name)),
            RawLocal::Own(element) => {
                or_zero(number_placed(&self.elements.locals, file, element.at))
            }
        }
    }

    fn number_in_document(&self, doc: &'a RawDoc, file: u32, n: u32) -> u32
        ensures { result ≡ told.number_in (told_by self.now) file (doc_of doc.now) n }
    {
        if n < doc.local_count() {
            return self.number_of_local(file, doc.local(n));
        }
        0
    }

    /// Returns the number of the element that the local declaration with this number in its file is.
    pub(crate) fn number_of_declaration(&self, docs: &'a [RawDoc], file: u32, n: u32) -> u32
        ensures { result ≡ told.number_of_declaration (told_by self.now) (map doc_of docs.now) file n }
    {
        match docs.get(file.saturating_sub(1) as usize) {
            Some(doc) => self.number_in_document(doc, file, n),
            None => 0,
        }
    }
}
