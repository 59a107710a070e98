//! Unions, and types with a list among their members.
ghost use Rattle.std.specs.Prelude.{◌≡◌};
ghost use Rattle.simple_types.specs.Seen.{space_of, spaces_in};
ghost use Rattle.simple_types.specs.Sound.{is_union, has_list, have_list};

use crate::simples::Simple;

/// Returns whether a type is a union.
#[tactic(auto, unfolding(crate::specs::Seen::space_of))]
pub fn is_union(simple: &Simple) -> bool
    ensures { result ≡ is_union (space_of simple.now) }
{
    matches!(simple, Simple::Union(_))
}

// Whether one of these types is a list, or has one among its members.
#[cycle(listing)]
fn have_list(members: &[Simple]) -> bool
    ensures { result ≡ have_list (spaces_in members.now) }
{
    'members: for member in members {
        if has_list(member) {
            return true;
        }
    }
    false
}

/// Returns whether a type is a list, or a union with a list among its members.
#[cycle(listing)]
#[tactic(auto, unfolding(crate::specs::Seen::space_of))]
pub fn has_list(simple: &Simple) -> bool
    ensures { result ≡ has_list (space_of simple.now) }
{
    match simple {
        Simple::List { .. } => true,
        Simple::Union(members) => have_list(members.items()),
        Simple::Bool => false,
        Simple::Whole { .. } => false,
        Simple::Numbers(_) => false,
        Simple::Words { .. } => false,
        Simple::Chars { .. } => false,
    }
}
