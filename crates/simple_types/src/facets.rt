//! Facets as a schema writes them.
ghost use Rattle.std.specs.Prelude.{◌≡◌};

use base_texts::Text;
use std::marker::Model;

/// A constraining facet of XML Schema Part 2, section 4.3, with its value as written.
#[derive(Drop)]
pub enum Facet {
    Length(Text),
    MinLength(Text),
    MaxLength(Text),
    MinInclusive(Text),
    MaxInclusive(Text),
    MinExclusive(Text),
    MaxExclusive(Text),
    Enumeration(Text),
    WhiteSpace(Text),
}

/// Facets, in the order of the document.
#[derive(Drop)]
pub struct Facets {
    entries: Vec<Facet>,
}

impl Model for Facets {
    ghost use Rattle.std.specs.Prelude.{List};
    ghost use Rattle.simple_types.specs.declared.facets.Facet.{Facet};

    ghost Value = { List Facet };

    ghost view = { λ a. a.entries.items };
}

impl Facets {
    pub fn of(entries: Vec<Facet>) -> Facets
        ensures { result ≡ entries.items }
    {
        Facets { entries }
    }

    pub fn items(&self) -> &[Facet]
        ensures { result.now ≡ self.now }
    {
        &self.entries
    }
}
