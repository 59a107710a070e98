//! Attribute uses as a schema document writes them (XML Schema Part 1, section 3.5).
ghost use Rattle.std.specs.Prelude.{◌≡◌};
ghost use Rattle.std.specs.Option.{is_none};

use crate::simple_definitions::RawBase;
use base_texts::Name;
use simple_types::Standard;

/// An attribute of a complex type: a declaration of its own, or a reference to a global one, which has the type.
#[derive(Drop)]
pub struct RawUse {
    pub name: Name,
    pub reference: bool,
    /// `None` if and only if it is a reference.
    pub kind: Option<RawBase>,
    /// Its own `default` or `fixed`, with the text as written. A reference without one uses that of the global declaration.
    pub standard: Standard,
    pub required: bool,
    pub at: u64,
    ghost typed: { reference ≡ is_none kind },
}
