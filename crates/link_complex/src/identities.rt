//! The identity of types.
ghost use Rattle.std.specs.Prelude.{◌≡◌, ◌↔◌, IsTrue};
ghost use Rattle.schema_components.specs.Seen.{kind_of};
ghost use Rattle.link_complex.specs.ElementTypes.{identity, BuiltIn, ByName, InPlace};
ghost use Rattle.link_complex.specs.Private.Identities.{identity_of, type_of};

use base_texts::Name;
use link_names::Place;
use schema_components::{RawKind, RawRef};
use simple_types::Builtin;

/// A type by its definition: a built-in one, the one of this name, or one in place.
#[derive(Clone, Copy)]
pub(crate) enum TypeIdentity<'a> {
    Builtin(Builtin),
    Named(&'a Name),
    InPlace(Place),
}

impl<'a> TypeIdentity<'a> {
    /// Returns the identity of the type of an element of the file.
    pub(crate) fn of(file: u32, kind: &'a RawKind) -> TypeIdentity<'a>
        ensures { identity_of result ≡ identity file (kind_of kind.now) }
    {
        match kind {
            RawKind::Named(RawRef::Builtin(which)) => TypeIdentity::Builtin(*which),
            RawKind::Named(RawRef::Other(name)) => TypeIdentity::Named(name),
            RawKind::Simple(body) => TypeIdentity::InPlace(Place { file, at: body.at }),
            RawKind::Complex(body) => TypeIdentity::InPlace(Place { file, at: body.at }),
        }
    }

    fn is_builtin(self, which: Builtin) -> bool
        ensures { IsTrue result ↔ (identity_of self.entry ≡ BuiltIn which) }
    {
        match self {
            TypeIdentity::Builtin(own) => own == which,
            TypeIdentity::Named(_) => false,
            TypeIdentity::InPlace(_) => false,
        }
    }

    fn is_named(self, name: &Name) -> bool
        ensures { IsTrue result ↔ (identity_of self.entry ≡ ByName name.now) }
    {
        match self {
            TypeIdentity::Builtin(_) => false,
            TypeIdentity::Named(own) => *own == *name,
            TypeIdentity::InPlace(_) => false,
        }
    }

    fn is_in_place(self, place: Place) -> bool
        ensures { IsTrue result ↔ (identity_of self.entry ≡ InPlace place) }
    {
        match self {
            TypeIdentity::Builtin(_) => false,
            TypeIdentity::Named(_) => false,
            TypeIdentity::InPlace(own) => own == place,
        }
    }

    /// Returns whether both are one definition.
    fn is(self, other: TypeIdentity<'a>) -> bool
        ensures { IsTrue result ↔ (identity_of self.entry ≡ identity_of other.entry) }
    {
        match other {
            TypeIdentity::Builtin(which) => self.is_builtin(which),
            TypeIdentity::Named(name) => self.is_named(name),
            TypeIdentity::InPlace(place) => self.is_in_place(place),
        }
    }
}

/// Returns whether both are one definition, or both are absent.
pub(crate) fn is_same<'a>(one: Option<TypeIdentity<'a>>, other: Option<TypeIdentity<'a>>) -> bool
    ensures { IsTrue result ↔ (type_of one.entry ≡ type_of other.entry) }
{
    match one {
        Some(own) => match other {
            Some(type_of_other) => own.is(type_of_other),
            None => false,
        },
        None => other.is_none(),
    }
}
