//! The form of the part for a particle, and whether it may be empty.
ghost use Rattle.std.specs.Prelude.{◌≡◌, ◌&&◌, false};
ghost use Rattle.base_trees.specs.Rose.{roses_of};
ghost use Rattle.content_models.specs.Clear.{empties, all_empty, any_empty};
ghost use Rattle.content_models.specs.Particle.{Particles};
ghost use Rattle.content_models.specs.Seen.{seen, all_seen, term_seen};
ghost use Rattle.value_contents.specs.Bounds as bounds;

use base_trees::Tree;
use content_models::{ParticleKind, ParticleLabel};

// Returns whether the bounds are 1 and 1.
pub(crate) fn is_once(label: &ParticleLabel) -> bool
    ensures { result ≡ bounds.is_once label.now.min label.now.max }
{
    match label.max {
        None => false,
        Some(max) => label.min == 1 && max == 1,
    }
}

// Returns whether the bounds are 0 and 1.
pub(crate) fn is_optional(label: &ParticleLabel) -> bool
    ensures { result ≡ bounds.is_optional label.now.min label.now.max }
{
    match label.max {
        None => false,
        Some(max) => label.min == 0 && max == 1,
    }
}

// Returns whether the value of a present particle is its one occurrence, not a SEQUENCE OF.
pub(crate) fn is_single(label: &ParticleLabel, in_choice: bool) -> bool
    ensures { result ≡ bounds.is_single in_choice label.now.min label.now.max }
{
    if is_once(label) {
        return true;
    }
    if in_choice {
        return false;
    }
    is_optional(label)
}

// Returns whether two particles of a sequence are both single.
#[inline(always)]
pub(crate) fn are_single(first: &ParticleLabel, second: &ParticleLabel) -> bool
    ensures { result ≡ bounds.is_single false first.now.min first.now.max && bounds.is_single false second.now.min second.now.max }
{
    is_single(first, false) && is_single(second, false)
}

// Returns whether the particles of a top particle are parts by themselves: it is a sequence that occurs once, or an all.
pub(crate) fn is_parted(label: &ParticleLabel) -> bool
    ensures { (ps : Particles) → result ≡ bounds.is_parted (term_seen label.now.kind ps) label.now.min label.now.max }
{
    match label.kind {
        ParticleKind::Sequence => is_once(label),
        ParticleKind::All => true,
        _ => false,
    }
}

// Returns whether the particle may be without child elements.
#[cycle(emptiness)]
pub(crate) fn may_be_empty(particle: &Tree<ParticleLabel>) -> bool
    ensures { result ≡ empties (seen particle.now) }
{
    let label = particle.label();
    if label.min == 0 {
        return true;
    }
    match label.kind {
        ParticleKind::Element { .. } => false,
        ParticleKind::Sequence => all_may_be_empty(particle.kids()),
        ParticleKind::Choice => one_may_be_empty(particle.kids()),
        ParticleKind::All => all_may_be_empty(particle.kids()),
    }
}

#[cycle(emptiness)]
fn all_may_be_empty(particles: &[Tree<ParticleLabel>]) -> bool
    ensures { result ≡ all_empty (all_seen (roses_of particles.now)) }
{
    'particles: for particle in particles {
        if !may_be_empty(particle) {
            return false;
        }
    }
    true
}

#[cycle(emptiness)]
fn one_may_be_empty(particles: &[Tree<ParticleLabel>]) -> bool
    ensures { result ≡ any_empty (all_seen (roses_of particles.now)) }
{
    'particles: for particle in particles {
        if may_be_empty(particle) {
            return true;
        }
    }
    false
}
