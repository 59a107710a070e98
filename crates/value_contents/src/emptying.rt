//! The parts for particles without child elements.
ghost use Rattle.std.specs.Prelude.{◌≡◌, ℕ, ◌^◌, ◌<◌, ◌≤◌, [], true, OnOk, length, slice_get, Some};
ghost use Rattle.base_trees.specs.Rose.{Rose, node_count, count_all, roses_of};
ghost use Rattle.base_flat_trees.specs.Zips.{added};
ghost use Rattle.content_models.specs.Clear.{empties, empties_term, all_empty, any_empty};
ghost use Rattle.content_models.specs.Particle.{more, none};
ghost use Rattle.content_models.specs.Seen.{seen, all_seen};
ghost use Rattle.content_models.specs.declared.particles.ParticleLabel.{ParticleLabel};
ghost use Rattle.value_builder.specs.Built.{Puts};
ghost use Rattle.value_contents.specs.Private.Empty.{term_of, emptied, empty_value, empty_term, empty_place, empty_chosen};

use crate::kinds::{is_once, is_optional, may_be_empty};
use base_texts::Memory;
use base_trees::Tree;
use content_models::{ParticleKind, ParticleLabel};
use simple_types::{Flags, ValueLabel};
use value_builder::ValueBuilder;

// Returns the number of the first alternative that may be empty.
fn empty_alternative(particles: &[Tree<ParticleLabel>]) -> usize
    requires { any_empty (all_seen (roses_of particles.now)) ≡ true }
    ensures within { result < length particles.now }
    ensures place { empty_place (all_seen (roses_of particles.now)) ≡ result }
    ensures chosen { (kid : Rose ParticleLabel) → slice_get particles.now result ≡ Some kid
        → (empties (seen kid) ≡ true) × (empty_chosen (all_seen (roses_of particles.now)) ≡ empty_value (seen kid)) }
{
    'particles: for (place, particle) in particles.iter().enumerate() {
        if may_be_empty(particle) {
            return place;
        }
    }
    unreachable!()
}

// Appends one occurrence of a particle, as a value.
#[cycle(emptying)]
fn put_empty_term(particle: &Tree<ParticleLabel>, values: &mut ValueBuilder) -> Result<(), Memory>
    requires few { node_count particle.now < 2 ^ 31 }
    requires empty { empties_term (term_of particle.now) ≡ true }
    ensures { OnOk result (Puts (added (empty_term (term_of particle.now))) values.old values.new) }
{
    match particle.label().kind {
        ParticleKind::Element { .. } => unreachable!(),
        ParticleKind::Sequence => {
            values.open(ValueLabel::Sequence {
                present: Flags::none(),
            })?;
            put_empty_parts(particle.kids(), values)?;
            values.close();
            Ok(())
        }
        ParticleKind::Choice => {
            let alternatives = particle.kids();
            let place = empty_alternative(alternatives);
            values.open(ValueLabel::Choice(place as u32))?;
            put_empty_value(&alternatives[place], values)?;
            values.close();
            Ok(())
        }
        // An all appears only at the top, where its particles are parts by themselves.
        ParticleKind::All => values.leaf(ValueLabel::SequenceOf),
    }
}

// Appends the value of a particle that can't be absent.
#[cycle(emptying)]
fn put_empty_value(particle: &Tree<ParticleLabel>, values: &mut ValueBuilder) -> Result<(), Memory>
    requires few { node_count particle.now < 2 ^ 31 }
    requires empty { empties (seen particle.now) ≡ true }
    ensures { OnOk result (Puts (added (empty_value (seen particle.now))) values.old values.new) }
{
    if is_once(particle.label()) {
        put_empty_term(particle, values)
    } else {
        values.leaf(ValueLabel::SequenceOf)
    }
}

// Appends the part for a particle.
#[cycle(emptying)]
pub(crate) fn put_empty_part(
    particle: &Tree<ParticleLabel>,
    values: &mut ValueBuilder,
) -> Result<(), Memory>
    requires few { node_count particle.now < 2 ^ 31 }
    requires empty { empties (seen particle.now) ≡ true }
    ensures { OnOk result (Puts (emptied (more (seen particle.now) none)) values.old values.new) }
{
    if is_optional(particle.label()) {
        return values.part(false);
    }
    values.part(true)?;
    put_empty_value(particle, values)
}

// Appends the parts for particles of one group.
#[cycle(emptying)]
pub(crate) fn put_empty_parts(
    particles: &[Tree<ParticleLabel>],
    values: &mut ValueBuilder,
) -> Result<(), Memory>
    requires few { count_all (roses_of particles.now) < 2 ^ 31 }
    requires empty { all_empty (all_seen (roses_of particles.now)) ≡ true }
    ensures { OnOk result (Puts (emptied (all_seen (roses_of particles.now))) values.old values.new) }
{
    'particles: for particle in particles {
        put_empty_part(particle, values)?;
    }
    Ok(())
}
