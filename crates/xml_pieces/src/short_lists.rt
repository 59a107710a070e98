//! Lists that mostly stay short.
ghost use Rattle.std.specs.Prelude.{◌≡◌, ◌≤◌, ◌∷◌, ◌++◌, [], OnOk};

use base_texts::Memory;

/// Appends an item. An empty list reserves room for exactly this number of items.
#[inline(always)]
pub fn push<T: Drop>(list: &mut Vec<T>, room: usize, item: T) -> Result<(), Memory>
    requires { 1 ≤ room }
    ensures { OnOk result (list.new.items ≡ list.old.items ++ item ∷ []) }
{
    if list.as_slice().is_empty() {
        list.reserve_exact(room)?;
    } else {
        list.reserve(1)?;
    }
    list.push_reserved(item);
    Ok(())
}
