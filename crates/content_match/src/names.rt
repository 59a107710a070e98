//! Compares names.
ghost use Rattle.std.specs.Prelude.{◌≡◌};
ghost use Rattle.base_texts.specs.Names.{name_eq};

use base_texts::Name;

// Whether the names are equal. The names of one schema are mostly in one namespace, so their local names are compared first.
#[inline(always)]
pub(crate) fn is_same(one: &Name, other: &Name) -> bool
    ensures { result ≡ name_eq one.now other.now }
{
    one.local == other.local && one.space == other.space
}
