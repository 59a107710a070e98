//! Moves from one leaf of a particle to the next.
ghost use Rattle.std.specs.Prelude.{◌≡◌, ◌^◌, ◌<◌, length, Some, OnOk};
ghost use Rattle.base_trees.specs.Rose.{node_count, count_all, roses_of};
ghost use Rattle.base_texts.specs.declared.texts.Name.{Name};
ghost use Rattle.content_models.specs.Seen.{seen, all_seen};
ghost use Rattle.content_models.specs.Spots as spots;
ghost use Rattle.content_match.specs.Private.Standing.{spot_of};
ghost use Rattle.value_builder.specs.Built.{Puts};
ghost use Rattle.value_contents.specs.Private.Empty.{term_of};
ghost use Rattle.value_contents.specs.Private.Moves.{inner_in, moved, moved_term, moved_order};

use crate::emptying::put_empty_parts;
use crate::ending::{end, end_term};
use crate::entering::{enter, enter_term};
use crate::kinds::are_single;
use crate::paths::{Lower, Path, below, turn_of};
use base_texts::Memory;
use base_trees::Tree;
use content_models::{ParticleKind, ParticleLabel};
use value_builder::ValueBuilder;

// Moves among the parts of a content model. Most often both leaves are parts themselves, and neither is in a group of its own.
#[inline(always)]
pub(crate) fn step_parts(
    particles: &[Tree<ParticleLabel>],
    from: Path<'_>,
    to: Path<'_>,
    values: &mut ValueBuilder,
) -> Result<(), Memory>
    requires few { count_all (roses_of particles.now) < 2 ^ 31 }
    requires leads { (a : Name) × (spots.next_order (all_seen (roses_of particles.now)) (inner_in (spot_of from.turns.now from.kids.now)) a ≡ Some (inner_in (spot_of to.turns.now to.kids.now))) }
    ensures { OnOk result (Puts (moved_order (all_seen (roses_of particles.now)) (inner_in (spot_of from.entry.turns.now from.entry.kids.now)) (inner_in (spot_of to.entry.turns.now to.entry.kids.now))) values.old values.new) }
{
    if from.kids.len() == 1 && to.kids.len() == 1 {
        step_beside(particles, from, to, values)
    } else {
        step_order(particles, from, to, values)
    }
}

// Moves between leaves that are themselves particles of a sequence. It writes nothing for one particle again, and only a flag from
// a single particle to the next one, if that is single too.
#[inline(always)]
fn step_beside(
    particles: &[Tree<ParticleLabel>],
    from: Path<'_>,
    to: Path<'_>,
    values: &mut ValueBuilder,
) -> Result<(), Memory>
    requires few { count_all (roses_of particles.now) < 2 ^ 31 }
    requires leads { (a : Name) × (spots.next_order (all_seen (roses_of particles.now)) (inner_in (spot_of from.turns.now from.kids.now)) a ≡ Some (inner_in (spot_of to.turns.now to.kids.now))) }
    requires beside { (length from.kids.now ≡ 1) × (length to.kids.now ≡ 1) }
    ensures { OnOk result (Puts (moved_order (all_seen (roses_of particles.now)) (inner_in (spot_of from.entry.turns.now from.entry.kids.now)) (inner_in (spot_of to.entry.turns.now to.entry.kids.now))) values.old values.new) }
{
    let old = from.kids[0] as usize;
    let new = to.kids[0] as usize;
    if old == new {
        return Ok(());
    }
    if new - old == 1 && are_single(particles[old].label(), particles[new].label()) {
        return values.part(true);
    }
    step_order(particles, from, to, values)
}

// Moves to a leaf in one particle.
#[cycle(moving)]
pub(crate) fn step(
    particle: &Tree<ParticleLabel>,
    from: Path<'_>,
    to: Path<'_>,
    values: &mut ValueBuilder,
) -> Result<(), Memory>
    requires few { node_count particle.now < 2 ^ 31 }
    requires leads { (a : Name) × (spots.next (seen particle.now) (spot_of from.turns.now from.kids.now) a ≡ Some (spot_of to.turns.now to.kids.now)) }
    ensures { OnOk result (Puts (moved (seen particle.now) (spot_of from.entry.turns.now from.entry.kids.now) (spot_of to.entry.turns.now to.entry.kids.now)) values.old values.new) }
{
    if turn_of(from) == turn_of(to) {
        return step_term(particle, from, to, values);
    }
    end_term(particle, from, values)?;
    enter_term(particle, to, values)
}

// Moves to a leaf in one occurrence.
#[cycle(moving)]
fn step_term(
    particle: &Tree<ParticleLabel>,
    from: Path<'_>,
    to: Path<'_>,
    values: &mut ValueBuilder,
) -> Result<(), Memory>
    requires few { node_count particle.now < 2 ^ 31 }
    requires leads { (a : Name) × (spots.next_term (term_of particle.now) (inner_in (spot_of from.turns.now from.kids.now)) a ≡ Some (inner_in (spot_of to.turns.now to.kids.now))) }
    ensures { OnOk result (Puts (moved_term (term_of particle.now) (inner_in (spot_of from.entry.turns.now from.entry.kids.now)) (inner_in (spot_of to.entry.turns.now to.entry.kids.now))) values.old values.new) }
{
    match particle.label().kind {
        ParticleKind::Element { .. } => unreachable!(),
        ParticleKind::Sequence => step_order(particle.kids(), from, to, values),
        ParticleKind::Choice => match (below(from), below(to)) {
            (Some(old), Some(new)) => step(
                &particle.kids()[old.kid as usize],
                old.path,
                new.path,
                values,
            ),
            _ => unreachable!(),
        },
        ParticleKind::All => unreachable!(),
    }
}

// Moves to a leaf among the particles of one sequence.
#[cycle(moving)]
pub(crate) fn step_order(
    particles: &[Tree<ParticleLabel>],
    from: Path<'_>,
    to: Path<'_>,
    values: &mut ValueBuilder,
) -> Result<(), Memory>
    requires few { count_all (roses_of particles.now) < 2 ^ 31 }
    requires leads { (a : Name) × (spots.next_order (all_seen (roses_of particles.now)) (inner_in (spot_of from.turns.now from.kids.now)) a ≡ Some (inner_in (spot_of to.turns.now to.kids.now))) }
    ensures { OnOk result (Puts (moved_order (all_seen (roses_of particles.now)) (inner_in (spot_of from.entry.turns.now from.entry.kids.now)) (inner_in (spot_of to.entry.turns.now to.entry.kids.now))) values.old values.new) }
{
    match (below(from), below(to)) {
        (Some(old), Some(new)) => {
            if old.kid == new.kid {
                step(&particles[old.kid as usize], old.path, new.path, values)
            } else {
                step_over(particles, old, new, values)
            }
        }
        _ => unreachable!(),
    }
}

// Moves to a leaf in a later particle of a sequence. The particles between are empty.
fn step_over(
    particles: &[Tree<ParticleLabel>],
    from: Lower<'_>,
    to: Lower<'_>,
    values: &mut ValueBuilder,
) -> Result<(), Memory>
    requires few { count_all (roses_of particles.now) < 2 ^ 31 }
    requires later { from.kid < to.kid }
    requires leads { (a : Name) × (spots.next_order (all_seen (roses_of particles.now)) (spots.inside from.kid (spot_of from.path.turns.now from.path.kids.now)) a ≡ Some (spots.inside to.kid (spot_of to.path.turns.now to.path.kids.now))) }
    ensures { OnOk result (Puts (moved_order (all_seen (roses_of particles.now)) (spots.inside from.entry.kid (spot_of from.entry.path.turns.now from.entry.path.kids.now)) (spots.inside to.entry.kid (spot_of to.entry.path.turns.now to.entry.path.kids.now))) values.old values.new) }
{
    let old = from.kid as usize;
    let new = to.kid as usize;
    end(&particles[old], false, from.path, values)?;
    put_empty_parts(&particles[old + 1..new], values)?;
    values.part(true)?;
    enter(&particles[new], false, to.path, values)
}
