//! For the element particles of each name, the first one and the first that has another type.
ghost use Rattle.std.specs.Prelude.{◌≡◌, IfOk};
ghost use Rattle.link_names.specs.Order.{IsFirstSuch};
ghost use Rattle.link_complex.specs.ElementTypes.{HasOther};
ghost use Rattle.link_complex.specs.Private.Identities.{particle_of, particles_of, leader_of, leader_in};
ghost use Rattle.link_names.specs.Private.Tables.{lesser};
ghost use Rattle.link_complex.specs.Private.Leading as told;

use crate::identities::{TypeIdentity, is_same};
use crate::particles::TypedParticle;
use base_texts::{Memory, Name};
use link_names::{LinkWhy, LinkingFault, Place, earlier};
use std::alloc::Global;
use std::collections::BTreeMap;

/// The place and the type of the first particle of a name, and the place of the first particle with another type.
#[derive(Clone, Copy)]
pub(crate) struct Leader<'a> {
    place: Place,
    kind: Option<TypeIdentity<'a>>,
    other: Option<Place>,
}

fn lesser(place: Place, other: Option<Place>) -> Place
    ensures { result ≡ lesser place other }
{
    match other {
        Some(one) if one.is_before(place) => one,
        _ => place,
    }
}

impl<'a> Leader<'a> {
    fn of(particle: TypedParticle<'a>) -> Leader<'a>
        ensures { leader_of result ≡ told.leading (particle_of particle.entry) }
    {
        Leader {
            place: particle.place,
            kind: particle.kind,
            other: None,
        }
    }

    // Adds a particle. `same` is whether its type is that of the first.
    fn joined(self, particle: TypedParticle<'a>, same: bool) -> Leader<'a>
        ensures { leader_of result ≡ told.joined same (leader_of self.entry) (particle_of particle.entry) }
    {
        if same {
            return Leader {
                place: lesser(particle.place, Some(self.place)),
                ..self
            };
        }
        if particle.place.is_before(self.place) {
            return Leader {
                place: particle.place,
                kind: particle.kind,
                other: Some(self.place),
            };
        }
        Leader {
            other: Some(lesser(particle.place, self.other)),
            ..self
        }
    }

    // Returns whether a particle of another type precedes the place.
    fn has_other(self, place: Place, same: bool) -> bool
        ensures { result ≡ told.has_other same (leader_of self.entry) place }
    {
        if !same {
            return self.place.is_before(place);
        }
        match self.other {
            Some(other) => other.is_before(place),
            None => false,
        }
    }
}

// Returns the leader of the particle's name, with the particle added.
fn with_particle<'a>(
    leaders: &BTreeMap<&'a Name, Leader<'a>>,
    particle: TypedParticle<'a>,
) -> Leader<'a>
    ensures { told.Joins (leader_in leaders.now particle.entry.name.now) (particle_of particle.entry) (leader_of result) }
{
    match leaders.get(&particle.name) {
        Some(leader) => leader.joined(particle, is_same(leader.kind, particle.kind)),
        None => Leader::of(particle),
    }
}

// Returns whether a particle of the same name and another type precedes this one.
fn is_behind_other<'a>(
    leaders: &BTreeMap<&'a Name, Leader<'a>>,
    particle: TypedParticle<'a>,
) -> bool
    ensures { told.IsBehind (leader_in leaders.now particle.entry.name.now) (particle_of particle.entry) result }
{
    match leaders.get(&particle.name) {
        Some(leader) => leader.has_other(particle.place, is_same(leader.kind, particle.kind)),
        None => false,
    }
}

/// Returns the first element particle that one of the same name and of another type precedes. The time grows as n log n with
/// their number, whatever their names are.
pub(crate) fn first_other(
    alloc: Global,
    particles: &[TypedParticle<'_>],
) -> Result<Option<LinkingFault>, Memory>
    ensures { IfOk result (λ found. IsFirstSuch (HasOther (particles_of particles.now)) found) }
{
    let mut leaders = BTreeMap::new(alloc);
    'leaders: for particle in particles {
        let leader = with_particle(&leaders, *particle);
        leaders.insert(particle.name, leader)?;
    }
    let mut found = None;
    'particles: for particle in particles {
        if is_behind_other(&leaders, *particle) {
            let fault = LinkingFault {
                place: particle.place,
                why: LinkWhy::TypesDiffer,
            };
            found = earlier(found, fault);
        }
    }
    Ok(found)
}
