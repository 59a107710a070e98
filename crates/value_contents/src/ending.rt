//! Closes what is open after a leaf.
ghost use Rattle.std.specs.Prelude.{◌≡◌, ◌^◌, ◌<◌, length, true, OnOk};
ghost use Rattle.base_trees.specs.Rose.{node_count, count_all, roses_of};
ghost use Rattle.content_models.specs.Seen.{seen, all_seen};
ghost use Rattle.content_models.specs.Spots.{finishes_term, finishes_order};
ghost use Rattle.content_match.specs.Private.Standing.{spot_of};
ghost use Rattle.value_builder.specs.Built.{Puts};
ghost use Rattle.value_contents.specs.Bounds as bounds;
ghost use Rattle.value_contents.specs.Private.Empty.{term_of};
ghost use Rattle.value_contents.specs.Private.Moves.{inner_in, items_closed, ended, ended_term, ended_order};

use crate::emptying::put_empty_parts;
use crate::kinds::is_single;
use crate::paths::{Path, below};
use base_texts::Memory;
use base_trees::Tree;
use content_models::{ParticleKind, ParticleLabel};
use value_builder::ValueBuilder;

// Closes the SEQUENCE OF of a particle that isn't single.
fn close_items(label: &ParticleLabel, in_choice: bool, values: &mut ValueBuilder)
    ensures { Puts (items_closed (bounds.is_single in_choice label.now.min label.now.max)) values.old values.new }
{
    if !is_single(label, in_choice) {
        values.close();
    }
}

// Closes what is open of a particle that has no more child elements.
#[cycle(ending)]
pub(crate) fn end(
    particle: &Tree<ParticleLabel>,
    in_choice: bool,
    from: Path<'_>,
    values: &mut ValueBuilder,
) -> Result<(), Memory>
    requires few { node_count particle.now < 2 ^ 31 }
    requires done { finishes_term (term_of particle.now) (inner_in (spot_of from.turns.now from.kids.now)) ≡ true }
    ensures { OnOk result (Puts (ended in_choice (seen particle.now) (spot_of from.entry.turns.now from.entry.kids.now)) values.old values.new) }
{
    end_term(particle, from, values)?;
    close_items(particle.label(), in_choice, values);
    Ok(())
}

// Closes what is open of one occurrence.
#[cycle(ending)]
pub(crate) fn end_term(
    particle: &Tree<ParticleLabel>,
    from: Path<'_>,
    values: &mut ValueBuilder,
) -> Result<(), Memory>
    requires few { node_count particle.now < 2 ^ 31 }
    requires done { finishes_term (term_of particle.now) (inner_in (spot_of from.turns.now from.kids.now)) ≡ true }
    ensures { OnOk result (Puts (ended_term (term_of particle.now) (inner_in (spot_of from.entry.turns.now from.entry.kids.now))) values.old values.new) }
{
    match particle.label().kind {
        ParticleKind::Element { .. } => Ok(()),
        ParticleKind::Sequence => {
            end_order(particle.kids(), from, values)?;
            values.close();
            Ok(())
        }
        ParticleKind::Choice => match below(from) {
            None => unreachable!(),
            Some(lower) => {
                end(
                    &particle.kids()[lower.kid as usize],
                    true,
                    lower.path,
                    values,
                )?;
                values.close();
                Ok(())
            }
        },
        ParticleKind::All => unreachable!(),
    }
}

// Closes what is open among the particles of a sequence, and writes those after the path as empty.
#[cycle(ending)]
pub(crate) fn end_order(
    particles: &[Tree<ParticleLabel>],
    from: Path<'_>,
    values: &mut ValueBuilder,
) -> Result<(), Memory>
    requires few { count_all (roses_of particles.now) < 2 ^ 31 }
    requires done { finishes_order (all_seen (roses_of particles.now)) (inner_in (spot_of from.turns.now from.kids.now)) ≡ true }
    ensures { OnOk result (Puts (ended_order (all_seen (roses_of particles.now)) (inner_in (spot_of from.entry.turns.now from.entry.kids.now))) values.old values.new) }
{
    match below(from) {
        None => unreachable!(),
        Some(lower) => {
            let kid = lower.kid as usize;
            end(&particles[kid], false, lower.path, values)?;
            put_empty_parts(&particles[kid + 1..], values)
        }
    }
}

// Does what `end_order` does. Most often the leaf is the last particle itself and single, and nothing is written.
#[inline(always)]
pub(crate) fn end_parts(
    particles: &[Tree<ParticleLabel>],
    from: Path<'_>,
    values: &mut ValueBuilder,
) -> Result<(), Memory>
    requires few { count_all (roses_of particles.now) < 2 ^ 31 }
    requires done { finishes_order (all_seen (roses_of particles.now)) (inner_in (spot_of from.turns.now from.kids.now)) ≡ true }
    ensures { OnOk result (Puts (ended_order (all_seen (roses_of particles.now)) (inner_in (spot_of from.entry.turns.now from.entry.kids.now))) values.old values.new) }
{
    if from.kids.len() == 1 {
        end_beside(particles, from, values)
    } else {
        end_order(particles, from, values)
    }
}

// The leaf is itself a particle of a sequence.
#[inline(always)]
fn end_beside(
    particles: &[Tree<ParticleLabel>],
    from: Path<'_>,
    values: &mut ValueBuilder,
) -> Result<(), Memory>
    requires few { count_all (roses_of particles.now) < 2 ^ 31 }
    requires done { finishes_order (all_seen (roses_of particles.now)) (inner_in (spot_of from.turns.now from.kids.now)) ≡ true }
    requires beside { length from.kids.now ≡ 1 }
    ensures { OnOk result (Puts (ended_order (all_seen (roses_of particles.now)) (inner_in (spot_of from.entry.turns.now from.entry.kids.now))) values.old values.new) }
{
    let kid = from.kids[0] as usize;
    let behind = particles.len() - kid;
    if behind == 1 && is_single(particles[kid].label(), false) {
        return Ok(());
    }
    end_order(particles, from, values)
}
