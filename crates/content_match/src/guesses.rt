//! The child of a group that a name begins, which is mostly the first one that may come.
ghost use Rattle.std.specs.Prelude.{◌≡◌, ℕ, ◌<◌, ◌^◌, slice_get, true, false, IsTrue};
ghost use Rattle.base_trees.specs.Rose.{label_of, kids_of};
ghost use Rattle.content_models.specs.Particle.{Particle};
ghost use Rattle.content_match.specs.Private.Plans.{IsPlan, found_in, is_leaf_of, is_kid_of};
ghost use Rattle.content_match.specs.declared.plans.PlanKind.TheVariants as kind;

use crate::names::is_same;
use crate::plans::{Group, PlanKind, PlanLabel};
use base_texts::Name;
use base_trees::Tree;

// Whether it is an element of this name.
fn is_leaf_of(label: &PlanLabel, name: &Name) -> bool
    ensures { result ≡ is_leaf_of label.now.kind name.now }
{
    match &label.kind {
        PlanKind::Leaf { name: own, .. } => is_same(name, own),
        PlanKind::Group(_) => false,
    }
}

// Whether the child at this place, if there is one, is an element of this name.
fn is_kid_of(plan: &Tree<PlanLabel>, place: usize, name: &Name) -> bool
    ensures few { IsTrue result → place < 2 ^ 32 }
    ensures kid { IsTrue result → is_kid_of (slice_get (kids_of plan.now) place) name.now ≡ true }
{
    if place > u32::MAX as usize {
        return false;
    }
    match plan.kids().get(place) {
        None => false,
        Some(kid) => is_leaf_of(kid.label(), name),
    }
}

// The child of a group that the name begins, from this child on, where those between may be empty. Most names are that of this
// child, and then no table is looked up.
pub(crate) fn find_kid(
    plan: &Tree<PlanLabel>,
    group: &Group,
    from: usize,
    name: &Name,
) -> Option<u32>
    requires plan { (n : ℕ) × (p : Particle) × IsPlan n p plan.now }
    requires group { (label_of plan.now).kind ≡ kind.Group group.now }
    requires from { group.now.ordered ≡ false → from ≡ 0 }
    ensures { result ≡ found_in group.now from name.now }
{
    if is_kid_of(plan, from, name) {
        Some(from as u32)
    } else {
        group.find(from, name)
    }
}
