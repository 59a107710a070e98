//! Whole numbers (X.691, clauses 13.2 and 11.4 to 11.8).
ghost use Rattle.std.specs.Prelude.{◌≡◌, ◌<◌, ◌≤◌, ◌+◌, ◌-◌, ◌*◌, ◌^◌, true, false, Some, None, MatchOption};
ghost use Rattle.simple_types.specs.Lexical.{is_128_bits, is_from};
ghost use Rattle.simple_types.specs.Sound.{AreBounds};
ghost use Rattle.per_fields.specs.Widths.{distance, raised, magnitude, more_signed, signed_of};

use crate::faults::PerEnd;
use crate::numbers::width_of;
use crate::run::{Origin, Run};
use base_texts::Source;
use per_fields::{Variant, Why};

// Returns the distance of a number above a lower one.
fn distance(lo: i128, hi: i128) -> u128
    requires { AreBounds (Some lo) (Some hi) }
    ensures { result ≡ distance lo hi }
{
    hi.abs_diff(lo)
}

// Returns the number at this distance above another. None if it doesn't have 128 bits.
fn raised(lo: i128, by: u128) -> Option<i128>
    ensures { MatchOption result (is_128_bits (raised lo by) ≡ false) (λ z. (z ≡ raised lo by) × (is_128_bits (raised lo by) ≡ true) × (is_from (Some lo) z ≡ true)) }
{
    lo.checked_add_unsigned(by)
}

// Returns a number in two's complement, of `more` + 1 octets.
fn signed_of(x: u128, more: u32) -> i128
    requires few { more ≤ 15 }
    requires fits { x < 2 ^ (8 * (more + 1)) }
    ensures { result ≡ signed_of (8 * (more + 1)) x }
{
    let half = 1u128 << (8 * more + 7);
    if x < half {
        x as i128
    } else {
        -1 - (half - 1 - (x - half)) as i128
    }
}

// Returns how many octets follow the first, of the least octets that hold a number with its sign.
fn more_signed(z: i128) -> u32
    ensures { result ≡ more_signed z }
{
    let magnitude = if z < 0 { -1 - z } else { z };
    width_of(magnitude as u128) / 8
}

impl<'a, S: Source, K: Origin, V: Variant> Run<'a, S, K, V> {
    ghost use Rattle.std.specs.Prelude.{IfOk, OnOk, Err, IsErrOf, IsTrue};
    ghost use Rattle.per_decode.specs.Private.Reads.{InStep, Reads, Gives};
    ghost use Rattle.per_fields.specs.Fields.{from_octets_at, from_at, signed_octets_at, signed_at, ranged_at, whole_at};
    ghost use Rattle.simple_types.specs.Lexical.{is_from, is_to};

    // Reads the `more` + 1 octets of a number with a least one.
    #[tactic(auto, unfolding(per_fields::specs::Fields::from_octets_at))]
    fn from_octets(&mut self, lo: i128, more: u32) -> Result<i128, PerEnd>
        requires few { more ≤ 15 }
        requires in_step { InStep self.old }
        ensures reads { Reads self.old self.new result }
        ensures nodes { self.new.nodes ≡ self.old.nodes }
        ensures bounds { IfOk result (λ z. is_from (Some lo) z ≡ true) }
        ensures gives { Gives (λ x. x) result self.old self.new (from_octets_at lo more) }
    {
        let begin = self.position();
        let x = self.take_wide(begin, 8 * (more + 1))?;
        if 0 < more && x < 1u128 << (8 * more) {
            return Err(self.stopped(begin, Why::NotShortest));
        }
        match raised(lo, x) {
            Some(z) => Ok(z),
            None => Err(self.stopped(begin, Why::TooWide)),
        }
    }

    // Reads a number with a least one and without a greatest.
    #[tactic(auto, unfolding(per_fields::specs::Fields::from_at))]
    fn from(&mut self, lo: i128) -> Result<i128, PerEnd>
        requires in_step { InStep self.old }
        ensures reads { Reads self.old self.new result }
        ensures nodes { self.new.nodes ≡ self.old.nodes }
        ensures bounds { IfOk result (λ z. is_from (Some lo) z ≡ true) }
        ensures gives { Gives (λ x. x) result self.old self.new (from_at V.ALIGNED lo) }
    {
        let more = self.octet_count()?;
        self.from_octets(lo, more)
    }

    // Reads the `more` + 1 octets of a number in two's complement.
    #[tactic(auto, unfolding(per_fields::specs::Fields::signed_octets_at))]
    fn signed_octets(&mut self, hi: Option<i128>, more: u32) -> Result<i128, PerEnd>
        requires few { more ≤ 15 }
        requires in_step { InStep self.old }
        ensures reads { Reads self.old self.new result }
        ensures nodes { self.new.nodes ≡ self.old.nodes }
        ensures bounds { IfOk result (λ z. is_to hi z ≡ true) }
        ensures gives { Gives (λ x. x) result self.old self.new (signed_octets_at hi more) }
    {
        let begin = self.position();
        let x = self.take_wide(begin, 8 * (more + 1))?;
        let z = signed_of(x, more);
        if more_signed(z) < more {
            return Err(self.stopped(begin, Why::NotShortest));
        }
        if hi.is_some_and(|hi| hi < z) {
            return Err(self.stopped(begin, Why::Range));
        }
        Ok(z)
    }

    // Reads a number without a least one.
    #[tactic(auto, unfolding(per_fields::specs::Fields::signed_at))]
    fn signed(&mut self, hi: Option<i128>) -> Result<i128, PerEnd>
        requires in_step { InStep self.old }
        ensures reads { Reads self.old self.new result }
        ensures nodes { self.new.nodes ≡ self.old.nodes }
        ensures bounds { IfOk result (λ z. is_to hi z ≡ true) }
        ensures gives { Gives (λ x. x) result self.old self.new (signed_at V.ALIGNED hi) }
    {
        let more = self.octet_count()?;
        self.signed_octets(hi, more)
    }

    // Reads a number between two bounds.
    #[tactic(auto, unfolding(per_fields::specs::Fields::ranged_at))]
    #[inline(always)]
    fn ranged(&mut self, lo: i128, hi: i128) -> Result<i128, PerEnd>
        requires bounds { AreBounds (Some lo) (Some hi) }
        requires in_step { InStep self.old }
        ensures reads { Reads self.old self.new result }
        ensures nodes { self.new.nodes ≡ self.old.nodes }
        ensures bounds { IfOk result (λ z. (is_from (Some lo) z ≡ true) × (is_to (Some hi) z ≡ true)) }
        ensures gives { Gives (λ x. x) result self.old self.new (ranged_at V.ALIGNED lo hi) }
    {
        let x = self.number(distance(lo, hi))?;
        match raised(lo, x) {
            Some(z) => Ok(z),
            None => unreachable!(),
        }
    }

    /// Reads a whole number within bounds.
    #[tactic(auto, unfolding(per_fields::specs::Fields::whole_at))]
    #[inline(always)]
    pub(crate) fn whole(&mut self, lo: Option<i128>, hi: Option<i128>) -> Result<i128, PerEnd>
        requires bounds { AreBounds lo hi }
        requires in_step { InStep self.old }
        ensures reads { Reads self.old self.new result }
        ensures nodes { self.new.nodes ≡ self.old.nodes }
        ensures bounds { IfOk result (λ z. (is_from lo z ≡ true) × (is_to hi z ≡ true)) }
        ensures gives { Gives (λ x. x) result self.old self.new (whole_at V.ALIGNED lo hi) }
    {
        match (lo, hi) {
            (Some(lo), Some(hi)) => self.ranged(lo, hi),
            (Some(lo), None) => self.from(lo),
            (None, hi) => self.signed(hi),
        }
    }
}
