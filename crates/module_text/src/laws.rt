//! Laws of texts. Each is proved for all trees.
ghost use Rattle.module_text.specs.Laws.{PlacesAreNoText};

/// States that places make no difference to a text.
pub fn places_are_no_text()
    ensures { PlacesAreNoText }
{}
