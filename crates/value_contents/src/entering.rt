//! Opens the path into a particle.
ghost use Rattle.std.specs.Prelude.{◌≡◌, ◌^◌, ◌<◌, length, Some, OnOk};
ghost use Rattle.base_trees.specs.Rose.{node_count, count_all, roses_of};
ghost use Rattle.base_texts.specs.declared.texts.Name.{Name};
ghost use Rattle.content_models.specs.Seen.{seen, all_seen};
ghost use Rattle.content_models.specs.Spots as spots;
ghost use Rattle.content_match.specs.Private.Standing.{spot_of, enter_at};
ghost use Rattle.value_builder.specs.Built.{Puts};
ghost use Rattle.value_contents.specs.Bounds as bounds;
ghost use Rattle.value_contents.specs.Private.Empty.{term_of};
ghost use Rattle.value_contents.specs.Private.Moves.{inner_in, items_opened, entered, entered_term, entered_order};

use crate::emptying::put_empty_parts;
use crate::kinds::is_single;
use crate::paths::{Path, below};
use base_texts::Memory;
use base_trees::Tree;
use content_models::{ParticleKind, ParticleLabel};
use simple_types::{Flags, ValueLabel};
use value_builder::ValueBuilder;

// Opens the SEQUENCE OF for a particle that isn't single.
fn open_items(
    label: &ParticleLabel,
    in_choice: bool,
    values: &mut ValueBuilder,
) -> Result<(), Memory>
    ensures { OnOk result (Puts (items_opened (bounds.is_single in_choice label.now.min label.now.max)) values.old values.new) }
{
    if is_single(label, in_choice) {
        return Ok(());
    }
    values.open(ValueLabel::SequenceOf)
}

// Opens the path into a particle to the first leaf of a name.
#[cycle(entering)]
pub(crate) fn enter(
    particle: &Tree<ParticleLabel>,
    in_choice: bool,
    to: Path<'_>,
    values: &mut ValueBuilder,
) -> Result<(), Memory>
    requires few { node_count particle.now < 2 ^ 31 }
    requires leads { (a : Name) × (spots.enter_term (term_of particle.now) a ≡ Some (inner_in (spot_of to.turns.now to.kids.now))) }
    ensures { OnOk result (Puts (entered in_choice (seen particle.now) (spot_of to.entry.turns.now to.entry.kids.now)) values.old values.new) }
{
    open_items(particle.label(), in_choice, values)?;
    enter_term(particle, to, values)
}

// Opens the path within one occurrence of a particle.
#[cycle(entering)]
pub(crate) fn enter_term(
    particle: &Tree<ParticleLabel>,
    to: Path<'_>,
    values: &mut ValueBuilder,
) -> Result<(), Memory>
    requires few { node_count particle.now < 2 ^ 31 }
    requires leads { (a : Name) × (spots.enter_term (term_of particle.now) a ≡ Some (inner_in (spot_of to.turns.now to.kids.now))) }
    ensures { OnOk result (Puts (entered_term (term_of particle.now) (inner_in (spot_of to.entry.turns.now to.entry.kids.now))) values.old values.new) }
{
    match particle.label().kind {
        ParticleKind::Element { .. } => Ok(()),
        ParticleKind::Sequence => {
            values.open(ValueLabel::Sequence {
                present: Flags::none(),
            })?;
            enter_order(particle.kids(), to, values)
        }
        ParticleKind::Choice => match below(to) {
            None => unreachable!(),
            Some(lower) => {
                values.open(ValueLabel::Choice(lower.kid))?;
                enter(
                    &particle.kids()[lower.kid as usize],
                    true,
                    lower.path,
                    values,
                )
            }
        },
        ParticleKind::All => unreachable!(),
    }
}

// Opens the path among the particles of a sequence, and writes those before it as empty.
#[cycle(entering)]
pub(crate) fn enter_order(
    particles: &[Tree<ParticleLabel>],
    to: Path<'_>,
    values: &mut ValueBuilder,
) -> Result<(), Memory>
    requires few { count_all (roses_of particles.now) < 2 ^ 31 }
    requires leads { (a : Name) × (spots.enter_order (all_seen (roses_of particles.now)) a ≡ Some (inner_in (spot_of to.turns.now to.kids.now))) }
    ensures { OnOk result (Puts (entered_order (all_seen (roses_of particles.now)) (inner_in (spot_of to.entry.turns.now to.entry.kids.now))) values.old values.new) }
{
    match below(to) {
        None => unreachable!(),
        Some(lower) => {
            let kid = lower.kid as usize;
            put_empty_parts(&particles[..kid], values)?;
            values.part(true)?;
            enter(&particles[kid], false, lower.path, values)
        }
    }
}

// Does what `enter_order` does. Most often the leaf is the first particle itself and single, and only a flag is written.
#[inline(always)]
pub(crate) fn enter_parts(
    particles: &[Tree<ParticleLabel>],
    to: Path<'_>,
    values: &mut ValueBuilder,
) -> Result<(), Memory>
    requires few { count_all (roses_of particles.now) < 2 ^ 31 }
    requires leads { (a : Name) × (spots.enter_order (all_seen (roses_of particles.now)) a ≡ Some (inner_in (spot_of to.turns.now to.kids.now))) }
    ensures { OnOk result (Puts (entered_order (all_seen (roses_of particles.now)) (inner_in (spot_of to.entry.turns.now to.entry.kids.now))) values.old values.new) }
{
    if to.kids.len() == 1 {
        enter_beside(particles, to, values)
    } else {
        enter_order(particles, to, values)
    }
}

// The leaf is itself a particle of a sequence.
#[inline(always)]
fn enter_beside(
    particles: &[Tree<ParticleLabel>],
    to: Path<'_>,
    values: &mut ValueBuilder,
) -> Result<(), Memory>
    requires few { count_all (roses_of particles.now) < 2 ^ 31 }
    requires leads { (a : Name) × (spots.enter_order (all_seen (roses_of particles.now)) a ≡ Some (inner_in (spot_of to.turns.now to.kids.now))) }
    requires beside { length to.kids.now ≡ 1 }
    ensures { OnOk result (Puts (entered_order (all_seen (roses_of particles.now)) (inner_in (spot_of to.entry.turns.now to.entry.kids.now))) values.old values.new) }
{
    let kid = to.kids[0] as usize;
    if kid == 0 && is_single(particles[kid].label(), false) {
        return values.part(true);
    }
    enter_order(particles, to, values)
}
