//! Unions. The value of a member is known by its spelling.
ghost use Rattle.std.specs.Prelude.{◌<◌, Err, IfOk, MatchResult, length};
ghost use Rattle.simple_types.specs.Seen.{space_of, spaces_in};
ghost use Rattle.simple_types.specs.Sound.{Sound, AreSound};
ghost use Rattle.simple_types.specs.Space.{UnionOf};
ghost use Rattle.simple_types.specs.Answering.{AnswersReading};
ghost use Rattle.simple_types.specs.Reading.{reads, taken_by};
ghost use Rattle.value_builder.specs.Private.Kept.{IsCount, IsKept, IsTaken};

use crate::lists::keep_list;
use base_texts::Text;
use simple_types::{Simple, SimpleError, accept, spell};
use std::alloc::Global;

/// What is kept of a value: the number of its nodes, and its spelling.
#[derive(Drop)]
pub(crate) struct MemberReading {
    pub(crate) nodes: u64,
    pub(crate) spelling: Text,
}

// Returns what is kept of the value that a member gives to the text.
fn keep(alloc: Global, member: &Simple, text: &Text) -> Result<MemberReading, SimpleError>
    requires { Sound (space_of member.now) }
    ensures { MatchResult result
        (IsKept (space_of member.now) text.now)
        (λ error. AnswersReading (Err error) (reads (space_of member.now) text.now)) }
{
    match member {
        Simple::List { item, min, max } => keep_list(alloc, item, *min, *max, text.as_str()),
        _ => {
            let value = accept(alloc, member, text)?;
            let spelling = spell(alloc, member, &value.root())?;
            Ok(MemberReading {
                nodes: value.root().count(),
                spelling,
            })
        }
    }
}

// Returns the number of the first member that accepts the text or finds its number too wide, with what is kept of its value.
fn take(
    alloc: Global,
    members: &[Simple],
    text: &Text,
) -> Result<(usize, MemberReading), SimpleError>
    requires { AreSound (spaces_in members.now) }
    ensures bound { IfOk result (λ taken. taken.0 < length members.now) }
    ensures taken { MatchResult result
        (λ taken. IsTaken (spaces_in members.now) text.now taken.0 taken.1)
        (λ error. AnswersReading (Err error) (taken_by (spaces_in members.now) text.now)) }
{
    'members: for i in 0..members.len() {
        match keep(alloc, &members[i], text) {
            Ok(kept) => return Ok((i, kept)),
            Err(SimpleError::BadText) => {}
            Err(SimpleError::TooWide) => return Err(SimpleError::TooWide),
            Err(SimpleError::Memory) => return Err(SimpleError::Memory),
        }
    }
    Err(SimpleError::BadText)
}

/// Returns the number of nodes of the value of the union of these members.
pub(crate) fn count_union(
    alloc: Global,
    members: &[Simple],
    text: &Text,
) -> Result<u64, SimpleError>
    requires { AreSound (spaces_in members.now) }
    ensures { MatchResult result
        (IsCount (UnionOf (spaces_in members.now)) text.now)
        (λ error. AnswersReading (Err error) (reads (UnionOf (spaces_in members.now)) text.now)) }
{
    let (mut member, mut kept) = take(alloc, members, text)?;
    let mut turns = members.len();
    'turns: while 0 < turns {
        let (next, again) = take(alloc, members, &kept.spelling)?;
        if next == member {
            return Ok(kept.nodes.saturating_add(1));
        }
        member = next;
        kept = again;
        turns -= 1;
    }
    Err(SimpleError::BadText)
}
