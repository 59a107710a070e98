//! A step in an all, whose children match names in any order, each at most one.
ghost use Rattle.std.specs.Prelude.{◌≡◌, ℕ, ◌+◌, ◌^◌, ◌<◌, ◌≤◌, None, length, IfOk, MatchOption};
ghost use Rattle.std.specs.Vec.{vec_capacity};
ghost use Rattle.content_models.specs.Clear.{AreSingle};
ghost use Rattle.content_models.specs.SpotLaws.{step_from};
ghost use Rattle.content_match.specs.Private.Alls.{whole, kids_in, levels_in, needed, wanted_in, no_marks, IsAllPlan, IsMarked, AreMarks, KidTaken};
ghost use Rattle.content_match.specs.Private.Plans.{count_of};
ghost use Rattle.content_match.specs.Private.Standing.{AreWithin, spot_among, IsLeafAt, SamePlace};

use crate::places::{Leaf, Position};
use crate::plans::{AllPlan, PlanLabel};
use base_texts::{Memory, Name, Steps};
use base_trees::Tree;
use std::alloc::Global;
use std::sync::ledger::Ledger;

// The number of these children that may not be empty.
pub(crate) fn count_needed(kids: &[Tree<PlanLabel>]) -> u32
    requires { length kids.now < 2 ^ 32 }
    ensures { result ≡ wanted_in (needed kids.now) }
{
    let mut count = 0;
    'kids: for kid in kids {
        if kid.label().is_needed() {
            count += 1;
        }
    }
    count
}

// A mark for each child, which is not set.
#[inline(never)]
pub(crate) fn unmarked(alloc: Global, all: &AllPlan) -> Result<Vec<bool>, Memory>
    ensures { IfOk result (λ marks. marks.items ≡ no_marks all.now.kids.items) }
{
    let marks = vec![in alloc; false; all.kids.len()]?;
    Ok(marks)
}

// Matches a name with the child, unless it has a mark.
fn take_kid(all: &AllPlan, position: &mut Position, kid: u32) -> Option<Leaf>
    requires plan { IsAllPlan all.now }
    requires single { AreSingle (kids_in all.now) }
    requires kid { kid < count_of (kids_in all.now) }
    requires room { (2 ≤ vec_capacity position.old.turns) × (1 ≤ vec_capacity position.old.kids) }
    requires marked { IsMarked (kids_in all.now) (needed all.now.kids.items) position.old.marks.items position.old.wanted }
    ensures capacity { (vec_capacity position.new.turns ≡ vec_capacity position.old.turns) × (vec_capacity position.new.kids ≡ vec_capacity position.old.kids) }
    ensures marked { IsMarked (kids_in all.now) (needed all.now.kids.items) position.new.marks.items position.new.wanted }
    ensures taken { KidTaken all.now kid position.old position.new result }
{
    if position.is_marked(kid) {
        return None;
    }
    let label = all.kids[kid as usize].label();
    position.mark(kid, label.is_needed());
    position.stand_on(kid, label.number);
    label.leaf()
}

// Moves to the leaf of the child that has the name, if it has no mark.
#[inline(never)]
pub(crate) fn take<L: Ledger>(
    all: &AllPlan,
    position: &mut Position,
    name: &Name,
    steps: &mut Steps<L>,
) -> Option<Leaf>
    requires plan { IsAllPlan all.now }
    requires single { AreSingle (kids_in all.now) }
    requires room { (levels_in all.now ≤ vec_capacity position.old.turns) × (levels_in all.now ≤ vec_capacity position.old.kids) }
    requires marked { IsMarked (kids_in all.now) (needed all.now.kids.items) position.old.marks.items position.old.wanted }
    requires marks { AreMarks (kids_in all.now) position.old.kids.items position.old.marks.items }
    ensures ticks { steps.new ≡ steps.old + 1 }
    ensures capacity { (vec_capacity position.new.turns ≡ vec_capacity position.old.turns) × (vec_capacity position.new.kids ≡ vec_capacity position.old.kids) }
    ensures marked { IsMarked (kids_in all.now) (needed all.now.kids.items) position.new.marks.items position.new.wanted }
    ensures marks { AreMarks (kids_in all.now) position.new.kids.items position.new.marks.items }
    ensures small { (greatest : ℕ) → AreWithin greatest position.old.turns.items → AreWithin (greatest + 1) position.new.turns.items }
    ensures gone { MatchOption result
        ((step_from (whole (kids_in all.now)) (spot_among position.old.kids.items position.old.marks.items) name.now ≡ None) × SamePlace position.old position.new)
        (λ leaf. (step_from (whole (kids_in all.now)) (spot_among position.old.kids.items position.old.marks.items) name.now ≡ spot_among position.new.kids.items position.new.marks.items)
        × IsLeafAt (whole (kids_in all.now)) (spot_among position.new.kids.items position.new.marks.items) position.new.turns.items leaf) }
{
    steps.tick();
    match all.group.find(0, name) {
        None => None,
        Some(kid) => take_kid(all, position, kid),
    }
}
