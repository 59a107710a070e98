//! The constraints of a restriction's facets on a value.
ghost use Rattle.std.specs.Prelude.{◌≡◌, ◌||◌, Ok, Err, not, MatchResult, Some, true, false};
ghost use Rattle.simple_types.specs.Seen.{space_of};
ghost use Rattle.simple_facets.specs.Applying as rule;
ghost use Rattle.simple_facets.specs.Restricting.{no_constraints, set_by, with_facet, with_facets};

use crate::bases::{greatest, has_bounds, has_lengths, least, max_length, min_length, treatment};
use crate::facet_texts::{bound_of, length_of, treatment_of};
use crate::refusals::FacetWhy;
use base_texts::{Text, WhiteSpace};
use simple_types::{Facet, Simple, is_at_most};

/// The constraints of all facets except `enumeration`, each at most once.
#[derive(Clone, Copy)]
pub(crate) struct Constraints {
    /// From `length`. This and the next two are in items of a list or in code points of a text.
    pub(crate) exact_length: Option<u32>,
    pub(crate) min_length: Option<u32>,
    pub(crate) max_length: Option<u32>,
    /// The least number, from `minInclusive` or `minExclusive`.
    pub(crate) lower_bound: Option<i128>,
    /// The greatest number, from `maxInclusive` or `maxExclusive`.
    pub(crate) upper_bound: Option<i128>,
    pub(crate) white_space: Option<WhiteSpace>,
}

// A facet may occur once, and only on a base that has it.
fn check_place(stood: bool, has: bool) -> Result<(), FacetWhy>
    ensures { MatchResult result (λ u. (stood || not has) ≡ false) (λ why. (why ≡ FacetWhy.Misplaced) × ((stood || not has) ≡ true)) }
{
    if stood || !has {
        Err(FacetWhy::Misplaced)
    } else {
        Ok(())
    }
}

fn min_length_widens(base: &Simple, n: u32) -> bool
    ensures { result ≡ rule.min_length_widens (space_of base.now) n }
{
    n < min_length(base)
}

fn max_length_widens(base: &Simple, n: u32) -> bool
    ensures { result ≡ rule.max_length_widens (space_of base.now) n }
{
    !is_at_most(n as usize, max_length(base))
}

fn lower_widens(base: &Simple, n: i128) -> bool
    ensures { result ≡ rule.lower_widens (space_of base.now) n }
{
    match least(base) {
        Some(least) => n < least,
        None => false,
    }
}

fn upper_widens(base: &Simple, n: i128) -> bool
    ensures { result ≡ rule.upper_widens (space_of base.now) n }
{
    match greatest(base) {
        Some(greatest) => greatest < n,
        None => false,
    }
}

// Whether the treatment does less than the base's.
fn is_looser(how: WhiteSpace, base: WhiteSpace) -> bool
    ensures { result ≡ rule.is_looser how base }
{
    match how {
        WhiteSpace::Preserve => base != WhiteSpace::Preserve,
        WhiteSpace::Replace => base == WhiteSpace::Collapse,
        WhiteSpace::Collapse => false,
    }
}

fn treatment_widens(base: Option<WhiteSpace>, how: WhiteSpace) -> bool
    ensures { result ≡ rule.treatment_widens base how }
{
    match base {
        Some(base) => is_looser(how, base),
        None => false,
    }
}

impl Constraints {
    /// Returns constraints that require nothing.
    pub(crate) fn none() -> Constraints
        ensures { result ≡ no_constraints }
    {
        Constraints {
            exact_length: None,
            min_length: None,
            max_length: None,
            lower_bound: None,
            upper_bound: None,
            white_space: None,
        }
    }

    fn with_length(self, base: &Simple, text: &Text) -> Result<Constraints, FacetWhy>
        ensures { result ≡ with_facet (space_of base.now) self (Facet.Length text.now) }
    {
        check_place(self.exact_length.is_some(), has_lengths(base))?;
        let n = length_of(text)?;
        if min_length_widens(base, n) || max_length_widens(base, n) {
            return Err(FacetWhy::Widens);
        }
        Ok(Constraints {
            exact_length: Some(n),
            ..self
        })
    }

    fn with_min_length(self, base: &Simple, text: &Text) -> Result<Constraints, FacetWhy>
        ensures { result ≡ with_facet (space_of base.now) self (Facet.MinLength text.now) }
    {
        check_place(self.min_length.is_some(), has_lengths(base))?;
        let n = length_of(text)?;
        if min_length_widens(base, n) {
            return Err(FacetWhy::Widens);
        }
        Ok(Constraints {
            min_length: Some(n),
            ..self
        })
    }

    fn with_max_length(self, base: &Simple, text: &Text) -> Result<Constraints, FacetWhy>
        ensures { result ≡ with_facet (space_of base.now) self (Facet.MaxLength text.now) }
    {
        check_place(self.max_length.is_some(), has_lengths(base))?;
        let n = length_of(text)?;
        if max_length_widens(base, n) {
            return Err(FacetWhy::Widens);
        }
        Ok(Constraints {
            max_length: Some(n),
            ..self
        })
    }

    // Sets the lower bound to the number of the text plus `further`.
    fn with_lower(self, base: &Simple, further: i128, text: &Text) -> Result<Constraints, FacetWhy>
        ensures { result ≡ set_by (λ z. record self { lower_bound = Some z }) (rule.lower_applied (space_of base.now) self.lower_bound further text.now) }
    {
        check_place(self.lower_bound.is_some(), has_bounds(base))?;
        let n = bound_of(further, text)?;
        if lower_widens(base, n) {
            return Err(FacetWhy::Widens);
        }
        Ok(Constraints {
            lower_bound: Some(n),
            ..self
        })
    }

    fn with_upper(self, base: &Simple, further: i128, text: &Text) -> Result<Constraints, FacetWhy>
        ensures { result ≡ set_by (λ z. record self { upper_bound = Some z }) (rule.upper_applied (space_of base.now) self.upper_bound further text.now) }
    {
        check_place(self.upper_bound.is_some(), has_bounds(base))?;
        let n = bound_of(further, text)?;
        if upper_widens(base, n) {
            return Err(FacetWhy::Widens);
        }
        Ok(Constraints {
            upper_bound: Some(n),
            ..self
        })
    }

    fn with_treatment(self, base: &Simple, text: &Text) -> Result<Constraints, FacetWhy>
        ensures { result ≡ with_facet (space_of base.now) self (Facet.WhiteSpace text.now) }
    {
        let before = treatment(base);
        check_place(self.white_space.is_some(), before.is_some())?;
        let how = treatment_of(text)?;
        if treatment_widens(before, how) {
            return Err(FacetWhy::Widens);
        }
        Ok(Constraints {
            white_space: Some(how),
            ..self
        })
    }

    // Adds the constraint of one more facet. An enumeration adds none here.
    fn with(self, base: &Simple, facet: &Facet) -> Result<Constraints, FacetWhy>
        ensures { result ≡ with_facet (space_of base.now) self facet.now }
    {
        match facet {
            Facet::Length(text) => self.with_length(base, text),
            Facet::MinLength(text) => self.with_min_length(base, text),
            Facet::MaxLength(text) => self.with_max_length(base, text),
            Facet::MinInclusive(text) => self.with_lower(base, 0, text),
            Facet::MaxInclusive(text) => self.with_upper(base, 0, text),
            Facet::MinExclusive(text) => self.with_lower(base, 1, text),
            Facet::MaxExclusive(text) => self.with_upper(base, -1, text),
            Facet::Enumeration(_) => Ok(self),
            Facet::WhiteSpace(text) => self.with_treatment(base, text),
        }
    }

    /// Returns the constraints of the facets on a value of the base, or the first reason against one of them.
    pub(crate) fn of(base: &Simple, facets: &[Facet]) -> Result<Constraints, FacetWhy>
        ensures { result ≡ with_facets (space_of base.now) no_constraints facets.now }
    {
        let mut asked = Constraints::none();
        'facets: for facet in facets {
            asked = asked.with(base, facet)?;
        }
        Ok(asked)
    }
}
