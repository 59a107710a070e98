//! The laws that the maps of sets are printable.
ghost use Rattle.map_printable.specs.Maps.{MapsArePrintable, MapsAreNotation};

use map_laws::{maps_are_bounded, maps_are_modules};

/// States that the map of a linked set within the widths of numbers is printable.
pub fn maps_are_printable()
    ensures { MapsArePrintable }
{
    maps_are_modules();
    maps_are_bounded();
}

/// States that the names in the map of a linked set are those of ASN.1, so that its print without encoding instructions is known.
pub fn maps_are_notation()
    ensures { MapsAreNotation }
{
    maps_are_modules();
}
