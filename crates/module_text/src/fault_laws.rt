//! Laws of texts without faults.
ghost use Rattle.std.specs.Prelude.{◌≡◌, []};
ghost use Rattle.module_text.specs.Faults.{faults};
ghost use Rattle.module_text.specs.Meaning.{module_meant};

/// States that a text without assignments has no fault, and that its module has no assignments.
pub fn no_assignments()
    ensures faults { faults [] ≡ [] }
    ensures module { module_meant [] ≡ [] }
{}
