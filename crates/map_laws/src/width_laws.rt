//! The laws of the widths of maps. Each is proved for all sets.
ghost use Rattle.std.specs.Prelude.{List};
ghost use Rattle.schema_components.specs.Components.{Set};
ghost use Rattle.schema_components.specs.Linked.{IsLinked};
ghost use Rattle.asn_types.specs.declared.modules.Assignment.{Assignment};
ghost use Rattle.asn_types.specs.Modules.{IsModule};
ghost use Rattle.asn_types.specs.Bounds.{IsBounded};
ghost use Rattle.map_assignments.specs.Mapped.{IsMapOf};
ghost use Rattle.map_laws.specs.Widths.{HasWidths};

/// States that the map of a linked set is a module.
pub fn maps_are_modules()
    ensures { (s : Set) (M : List Assignment) → IsLinked s → IsMapOf s M → IsModule M }
{}

/// States that, if a set is within the widths of the code's numbers and sizes, so is its map.
pub fn maps_are_bounded()
    ensures { (s : Set) (M : List Assignment) → HasWidths s → IsMapOf s M → IsBounded M }
{}
