//! The next leaf where the last one is a child of the top: mostly this child once more, or the child after it.
ghost use Rattle.std.specs.Prelude.{◌≡◌, ℕ, ◌+◌, ◌-◌, ◌^◌, ◌<◌, ◌≤◌, MatchOption, IfSome, true, length, vec_len};
ghost use Rattle.std.specs.Vec.{vec_capacity};
ghost use Rattle.base_trees.specs.Rose.{height, kids_of};
ghost use Rattle.content_models.specs.Particle.{Particle};
ghost use Rattle.content_models.specs.SpotLaws.{step_from};
ghost use Rattle.content_match.specs.Private.Nearby.{IsOrdered, IsNamedKid, LiesBeside, LiesBehind};
ghost use Rattle.content_match.specs.Private.Plans.{IsPlan};
ghost use Rattle.content_match.specs.Private.Standing.{Stands, AreWithin, Entered, OnWay, spot_now};

use crate::names::is_same;
use crate::places::{Leaf, Turn};
use crate::plans::{PlanKind, PlanLabel};
use crate::ways::again_at;
use base_texts::Name;
use base_trees::Tree;

// A leaf that is a child of the top: the child, and which of its occurrences.
#[derive(Clone, Copy)]
pub(crate) struct Beside {
    pub(crate) kid: u32,
    pub(crate) turn: u32,
    pub(crate) leaf: Leaf,
}

// Whether it is a sequence.
#[inline(always)]
fn is_ordered(plan: &Tree<PlanLabel>) -> bool
    ensures { result ≡ true → IsOrdered plan.now }
{
    match &plan.label().kind {
        PlanKind::Leaf { .. } => false,
        PlanKind::Group(group) => group.ordered,
    }
}

// The leaf of the child at this place, if there is one and it is an element of this name.
#[inline(always)]
fn named_kid(plan: &Tree<PlanLabel>, place: usize, name: &Name) -> Option<Leaf>
    ensures { IfSome result (λ leaf. IsNamedKid (kids_of plan.now) place name.now leaf) }
{
    let label = match plan.kids().get(place) {
        None => return None,
        Some(kid) => kid.label(),
    };
    match &label.kind {
        PlanKind::Group(_) => None,
        PlanKind::Leaf { decl, name: own } => {
            if is_same(name, own) {
                Some(Leaf {
                    particle: label.number,
                    decl: *decl,
                })
            } else {
                None
            }
        }
    }
}

// The leaf after this child of a sequence, if it has the name.
#[inline(always)]
fn leaf_behind(plan: &Tree<PlanLabel>, kid: u32, name: &Name) -> Option<Beside>
    ensures { IfSome result (λ beside. LiesBehind plan.now kid name.now beside) }
{
    if kid == u32::MAX || !is_ordered(plan) {
        return None;
    }
    match named_kid(plan, kid as usize + 1, name) {
        None => None,
        Some(leaf) => Some(Beside {
            kid: kid + 1,
            turn: 0,
            leaf,
        }),
    }
}

// The next leaf where the last leaf is this child at this turn: the same child once more, or the leaf after it, if the name leads
// there.
#[inline(always)]
pub(crate) fn leaf_beside(
    plan: &Tree<PlanLabel>,
    kid: u32,
    turn: u32,
    name: &Name,
) -> Option<Beside>
    requires kid { kid < length (kids_of plan.now) }
    requires turn { turn < 2 ^ 32 - 1 }
    ensures { IfSome result (λ beside. LiesBeside plan.now kid turn name.now beside) }
{
    let below = plan.kids();
    let label = below[kid as usize].label();
    match &label.kind {
        PlanKind::Group(_) => None,
        PlanKind::Leaf { decl, name: own } => {
            match again_at(label, own, turn, name) {
                Some(_) => Some(Beside {
                    kid,
                    turn: turn + 1,
                    leaf: Leaf {
                        particle: label.number,
                        decl: *decl,
                    },
                }),
                None => {
                    if label.may_stop(turn) {
                        leaf_behind(plan, kid, name)
                    } else {
                        None
                    }
                }
            }
        }
    }
}

// Moves to the leaf next to the last one, if that is a child of the top and the name leads there.
#[inline(always)]
pub(crate) fn go_beside(
    plan: &Tree<PlanLabel>,
    turns: &mut [Turn],
    kids: &mut [u32],
    name: &Name,
) -> Option<Leaf>
    requires stands { OnWay turns.old kids.old plan.now }
    requires small { AreWithin (2 ^ 32 - 2) turns.old }
    ensures small { (greatest : ℕ) → AreWithin greatest turns.old → AreWithin (greatest + 1) turns.new }
    ensures gone { MatchOption result
        ((turns.new ≡ turns.old) × (kids.new ≡ kids.old))
        (λ leaf. ((n : ℕ) (p : Particle) → IsPlan n p plan.now → step_from p (spot_now turns.old kids.old) name.now ≡ spot_now turns.new kids.new)
        × Stands turns.new kids.new plan.now leaf) }
{
    if turns.len() != 2 {
        return None;
    }
    match leaf_beside(plan, kids[0], turns[1].turn, name) {
        None => None,
        Some(beside) => {
            turns[1] = Turn {
                particle: beside.leaf.particle,
                turn: beside.turn,
            };
            kids[0] = beside.kid;
            Some(beside.leaf)
        }
    }
}

// Enters the top at its first child, if that is a leaf of this name. The turns and the child are appended to the lists.
#[inline(always)]
pub(crate) fn enter_first(
    plan: &Tree<PlanLabel>,
    name: &Name,
    turns: &mut Vec<Turn>,
    kids: &mut Vec<u32>,
) -> Option<Leaf>
    requires turns { vec_len turns.old + height plan.now ≤ vec_capacity turns.old }
    requires kids { vec_len kids.old + height plan.now ≤ vec_capacity kids.old }
    ensures capacity { (vec_capacity turns.new ≡ vec_capacity turns.old) × (vec_capacity kids.new ≡ vec_capacity kids.old) }
    ensures entered { MatchOption result
        ((turns.new ≡ turns.old) × (kids.new ≡ kids.old))
        (λ leaf. (n : ℕ) (p : Particle) → IsPlan n p plan.now
        → Entered p plan.now 0 name.now turns.old.items turns.new.items kids.old.items kids.new.items leaf) }
{
    match named_kid(plan, 0, name) {
        None => None,
        Some(leaf) => {
            turns.push_reserved(Turn {
                particle: plan.label().number,
                turn: 0,
            });
            turns.push_reserved(Turn {
                particle: leaf.particle,
                turn: 0,
            });
            kids.push_reserved(0);
            Some(leaf)
        }
    }
}
