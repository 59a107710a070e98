//! Restricting a type by facets.
ghost use Rattle.std.specs.Prelude.{◌<◌, ◌^◌, IfOk, length};
ghost use Rattle.simple_types.specs.Seen.{space_of};
ghost use Rattle.simple_types.specs.Sound.{Sound};
ghost use Rattle.simple_facets.specs.Answering.{AnswersSpace};
ghost use Rattle.simple_facets.specs.Restricting.{Restricted, items_of};

use crate::constraints::Constraints;
use crate::enumerating::enumerated;
use crate::narrowing::{is_empty, narrowed};
use crate::refusals::{FacetError, FacetWhy};
use simple_types::{Facet, Simple};
use std::alloc::Global;

/// Returns the type of the base's values that meet the facets, in three steps. First the facets except `enumeration` are applied,
/// in their order. Then bounds and lengths must not cross, and some number or word must be left. Then the enumerations are
/// applied, in their order: each must name a value that is left. If there are some, their values are the space, ascending, each
/// once. Reports the first reason against the facets, or `Memory`. `length` may occur together with `minLength` and `maxLength`.
pub fn restrict(alloc: Global, base: &Simple, facets: &[Facet]) -> Result<Simple, FacetError>
    requires sound { Sound (space_of base.now) }
    requires few { length (items_of facets.now) < 2 ^ 32 }
    ensures made { AnswersSpace result (Restricted (space_of base.now) facets.now) }
    ensures sound { IfOk result (λ simple. Sound (space_of simple)) }
{
    let asked = Constraints::of(base, facets)?;
    let now = narrowed(alloc, base, asked)?;
    if is_empty(&now) {
        return Err(FacetError::Refused(FacetWhy::EmptySpace));
    }
    enumerated(alloc, now, facets)
}
