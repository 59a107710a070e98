//! The path to a leaf of a content model.
ghost use Rattle.std.specs.Prelude.{◌≡◌, ◌<◌, MatchOption, length};
ghost use Rattle.content_models.specs.Spots.{here, inside};
ghost use Rattle.content_match.specs.Private.Standing.{spot_of};
ghost use Rattle.value_contents.specs.Private.Moves.{turn_in, inner_in};

use content_match::Turn;

/// The path to a leaf of a content model: the occurrences of the particles from the top to it. Between each two of them is the
/// place of the lower in its group, from 0. Before the first leaf the path is empty.
#[derive(Clone, Copy)]
pub struct Path<'a> {
    pub turns: &'a [Turn],
    pub kids: &'a [u32],
}

// The child of a group that is on the path, and the path from there.
#[derive(Clone, Copy)]
pub(crate) struct Lower<'a> {
    pub kid: u32,
    pub path: Path<'a>,
}

// Returns the number of the uppermost particle's occurrence that is on the path, from 0.
pub(crate) fn turn_of(path: Path<'_>) -> u32
    ensures { result ≡ turn_in (spot_of path.entry.turns.now path.entry.kids.now) }
{
    match path.turns.first() {
        None => 0,
        Some(turn) => turn.turn,
    }
}

// Returns the child of the uppermost group that is on the path, if the path continues below the group.
pub(crate) fn below<'a>(path: Path<'a>) -> Option<Lower<'a>>
    ensures { MatchOption result
        (inner_in (spot_of path.entry.turns.now path.entry.kids.now) ≡ here)
        (λ lower. (inner_in (spot_of path.entry.turns.now path.entry.kids.now) ≡ inside lower.kid (spot_of lower.path.turns.now lower.path.kids.now))
        × (length lower.path.turns.now < length path.entry.turns.now)) }
{
    match (path.turns.split_first(), path.kids.split_first()) {
        (Some((_, turns)), Some((kid, kids))) => Some(Lower {
            kid: *kid,
            path: Path { turns, kids },
        }),
        _ => None,
    }
}
