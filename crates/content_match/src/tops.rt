//! A step and the end of a content model, whether it is an all or not.
ghost use Rattle.std.specs.Prelude.{◌≡◌, ℕ, ◌+◌, ◌-◌, ◌*◌, ◌^◌, ◌<◌, ◌≤◌, [], IfOk};
ghost use Rattle.content_models.specs.Clear.{Clear, empties};
ghost use Rattle.content_models.specs.SpotLaws.{may_end};
ghost use Rattle.content_match.specs.Private.Standing.{AreWithin};
ghost use Rattle.content_match.specs.Private.Tops.{particle_of_top, height_of, marks_of, required_of, IsTop, HasRoom, StandsAt, spot_at, Gone};

use crate::alls::{take, unmarked};
use crate::ends::may_end;
use crate::going::go_on;
use crate::places::{Leaf, Position};
use crate::plans::TopPlan;
use base_texts::{Memory, Name, Steps};
use std::alloc::Global;
use std::sync::ledger::Ledger;

impl TopPlan {
    // For each child of an all a mark, which is not set.
    #[inline(always)]
    pub(crate) fn marks(&self, alloc: Global) -> Result<Vec<bool>, Memory>
        ensures { IfOk result (λ marks. marks.items ≡ marks_of self.now) }
    {
        match self {
            TopPlan::Tree(_) => Ok(Vec::new(alloc)),
            TopPlan::All(all) => unmarked(alloc, all),
        }
    }

    // The number of children of an all that may not be empty.
    #[inline(always)]
    pub(crate) fn required(&self) -> u32
        ensures { result ≡ required_of self.now }
    {
        match self {
            TopPlan::Tree(_) => 0,
            TopPlan::All(all) => all.required,
        }
    }

    // Moves to the next leaf, if the name leads to one.
    #[inline(always)]
    pub(crate) fn advance<L: Ledger>(
        &self,
        position: &mut Position,
        name: &Name,
        steps: &mut Steps<L>,
    ) -> Option<Leaf>
        requires plan { IsTop self.now }
        requires clear { Clear (particle_of_top self.now) [] }
        requires room { HasRoom self.now position.old }
        requires stands { StandsAt self.now position.old }
        requires small { AreWithin (2 ^ 32 - 2) position.old.turns.items }
        ensures ticks { (steps.old + 1 ≤ steps.new) × (steps.new ≤ steps.old + 4 * height_of self.now) }
        ensures room { HasRoom self.now position.new }
        ensures stands { StandsAt self.now position.new }
        ensures small { (greatest : ℕ) → AreWithin greatest position.old.turns.items → AreWithin (greatest + 1) position.new.turns.items }
        ensures gone { Gone self.now position.old position.new name.now result }
    {
        match self {
            TopPlan::Tree(tree) => {
                go_on(tree, &mut position.turns, &mut position.kids, name, steps)
            }
            TopPlan::All(all) => take(all, position, name, steps),
        }
    }

    // Whether nothing more is needed.
    pub(crate) fn may_end<L: Ledger>(
        &self,
        empty: bool,
        position: &Position,
        steps: &mut Steps<L>,
    ) -> bool
        requires plan { IsTop self.now }
        requires empty { empty ≡ empties (particle_of_top self.now) }
        requires stands { StandsAt self.now position.now }
        ensures ticks { (steps.old ≤ steps.new) × (steps.new ≤ steps.old + height_of self.now) }
        ensures ends { result ≡ may_end (particle_of_top self.now) (spot_at self.now position.now) }
    {
        match self {
            TopPlan::Tree(tree) => { may_end(tree, empty, &position.turns, &position.kids, steps) }
            TopPlan::All(_) => position.wanted == 0,
        }
    }
}
