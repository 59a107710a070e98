//! Global elements by their names.
ghost use Rattle.std.specs.Prelude.{◌≡◌, MatchOption, IsSomeAnd, false, slice_get};
ghost use Rattle.std.specs.List.{list_any};
ghost use Rattle.base_texts.specs.Names.{name_eq};
ghost use Rattle.schema_components.specs.Components.{global_elements};

use crate::schema_sets::SchemaSet;
use base_texts::Name;

/// Returns the number of the global element of this name. `None` if no global element has it.
pub fn find_root(set: &SchemaSet, name: &Name) -> Option<u32>
    ensures { MatchOption result
        (list_any (λ e. name_eq e.name name.now) (global_elements set.now) ≡ false)
        (λ n. IsSomeAnd (slice_get (global_elements set.now) n) (λ e. e.name ≡ name.now)) }
{
    let elements = set.global_elements();
    'elements: for (n, element) in elements.iter().enumerate() {
        if element.name == *name {
            return Some(n as u32);
        }
    }
    None
}
