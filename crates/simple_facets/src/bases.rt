//! The properties of a base type that its facets are compared with.
ghost use Rattle.std.specs.Prelude.{◌≡◌};
ghost use Rattle.simple_types.specs.Seen.{space_of};
ghost use Rattle.simple_facets.specs.Applying as rule;

use base_texts::WhiteSpace;
use simple_types::Simple;

/// Returns whether the base has the four bounds as facets.
#[tactic(auto, unfolding(simple_types::specs::Seen::space_of))]
pub(crate) fn has_bounds(base: &Simple) -> bool
    ensures { result ≡ rule.has_bounds (space_of base.now) }
{
    match base {
        Simple::Whole { .. } => true,
        Simple::Numbers(_) => true,
        _ => false,
    }
}

/// Returns whether the base has the three lengths as facets.
#[tactic(auto, unfolding(simple_types::specs::Seen::space_of))]
pub(crate) fn has_lengths(base: &Simple) -> bool
    ensures { result ≡ rule.has_lengths (space_of base.now) }
{
    match base {
        Simple::Words { .. } => true,
        Simple::Chars { .. } => true,
        Simple::List { .. } => true,
        _ => false,
    }
}

/// Returns the base's treatment of the white space of a text. `None` for a union.
#[tactic(auto, unfolding(simple_types::specs::Seen::space_of))]
pub(crate) fn treatment(base: &Simple) -> Option<WhiteSpace>
    ensures { result ≡ rule.base_treatment (space_of base.now) }
{
    match base {
        Simple::Union(_) => None,
        Simple::Words { space, .. } => Some(*space),
        Simple::Chars { space, .. } => Some(*space),
        _ => Some(WhiteSpace::Collapse),
    }
}

#[tactic(auto, unfolding(simple_types::specs::Seen::space_of))]
pub(crate) fn least(base: &Simple) -> Option<i128>
    ensures { result ≡ rule.base_least (space_of base.now) }
{
    match base {
        Simple::Whole { lo, .. } => *lo,
        _ => None,
    }
}

#[tactic(auto, unfolding(simple_types::specs::Seen::space_of))]
pub(crate) fn greatest(base: &Simple) -> Option<i128>
    ensures { result ≡ rule.base_greatest (space_of base.now) }
{
    match base {
        Simple::Whole { hi, .. } => *hi,
        _ => None,
    }
}

/// Returns the least length of the base's values, in code points of a text or in items of a list.
#[tactic(auto, unfolding(simple_types::specs::Seen::space_of))]
pub(crate) fn min_length(base: &Simple) -> u32
    ensures { result ≡ rule.base_min_length (space_of base.now) }
{
    match base {
        Simple::Chars { min, .. } => *min,
        Simple::List { min, .. } => *min,
        _ => 0,
    }
}

#[tactic(auto, unfolding(simple_types::specs::Seen::space_of))]
pub(crate) fn max_length(base: &Simple) -> Option<u32>
    ensures { result ≡ rule.base_max_length (space_of base.now) }
{
    match base {
        Simple::Chars { max, .. } => *max,
        Simple::List { max, .. } => *max,
        _ => None,
    }
}
