//! Simple type definitions as a schema document writes them (XML Schema Part 1, section 3.14).
ghost use Rattle.std.specs.Prelude.{◌≡◌};
ghost use Rattle.schema_components.specs.Seen.{bases_of, bases_in};

use base_texts::Name;
use simple_types::{Builtin, Facets};

/// A reference to a type by its name.
#[derive(Drop)]
pub enum RawRef {
    /// A built-in datatype.
    Builtin(Builtin),
    /// A type that some document of the set has to define.
    Other(Name),
}

/// A simple type that another component is made from, named or written in place.
#[derive(Drop)]
#[cycle(raw_simple)]
pub enum RawBase {
    Named(RawRef),
    Inner(Box<RawSimple>),
}

/// Simple types, in the order written.
#[derive(Drop)]
#[cycle(raw_simple)]
pub struct RawBases {
    entries: Vec<RawBase>,
}

impl RawBases {
    pub fn of(entries: Vec<RawBase>) -> RawBases
        ensures { bases_of result ≡ bases_in entries.items }
    {
        RawBases { entries }
    }

    pub fn items(&self) -> &[RawBase]
        ensures { bases_in result.now ≡ bases_of self.now }
    {
        &self.entries
    }
}

/// How a simple type is made: the `restriction`, `list` or `union` of its definition.
#[derive(Drop)]
#[cycle(raw_simple)]
pub enum RawHow {
    Restrict { base: RawBase, facets: Facets },
    List { item: RawBase },
    Union { members: RawBases },
}

/// A simple type definition. `at` is the place of its `simpleType`, and `body_at` that of the `restriction`, `list` or
/// `union` in it, both in bytes from 0.
#[derive(Drop)]
#[cycle(raw_simple)]
pub struct RawSimple {
    pub at: u64,
    pub body_at: u64,
    pub how: RawHow,
}
