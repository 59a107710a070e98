//! Numbers of 0 up to a greatest one (X.691, clause 11.5).
ghost use Rattle.std.specs.Prelude.{◌≡◌, ◌<◌, ◌≤◌, ◌+◌, ◌-◌, ◌*◌, ◌^◌, length};
ghost use Rattle.base_codecs.specs.Bits.{bits};
ghost use Rattle.per_fields.specs.Widths.{width_of, more_of};

use crate::faults::PerEnd;
use crate::run::{Origin, Run};
use base_texts::Source;
use per_fields::{Variant, Why};

/// Returns the least number of bits that hold a number: 0 bits for 0.
pub(crate) fn width_of(x: u128) -> u32
    ensures same { result ≡ width_of x }
    ensures few { result ≤ 128 }
{
    u128::BITS - x.leading_zeros()
}

/// Returns how many octets follow the first, of the least octets that hold a number, at least one.
pub(crate) fn more_of(x: u128) -> u32
    ensures same { result ≡ more_of x }
    ensures few { result ≤ 15 }
{
    ((width_of(x) + 7) / 8).saturating_sub(1)
}

impl<'a, S: Source, K: Origin, V: Variant> Run<'a, S, K, V> {
    ghost use Rattle.std.specs.Prelude.{true, IfOk, OnOk, Err, IsErrOf, IsTrue, length};
    ghost use Rattle.per_fields.specs.Reading.{bits_at};
    ghost use Rattle.per_fields.specs.Fields.{within_at, aligned_at, large_octets_at, large_at, number_at};
    ghost use Rattle.per_decode.specs.Private.Reads.{InStep, Reads, Gives};

    /// Reads the next `n` bits, of a field that begins at a bit, as one number.
    #[inline(always)]
    pub(crate) fn take_wide(&mut self, begin: u64, n: u32) -> Result<u128, PerEnd>
        requires few { n ≤ 128 }
        requires in_step { InStep self.old }
        ensures reads { Reads self.old self.new result }
        ensures nodes { self.new.nodes ≡ self.old.nodes }
        ensures below { IfOk result (λ x. x < 2 ^ n) }
        ensures gives { Gives (λ x. x) result self.old self.new (bits_at begin n) }
    {
        if n <= 64 {
            return Ok(self.take_bits(begin, n)? as u128);
        }
        self.take_both(begin, n)
    }

    // Reads a number of more than 64 bits in two steps.
    #[inline(never)]
    fn take_both(&mut self, begin: u64, n: u32) -> Result<u128, PerEnd>
        requires many { 64 < n }
        requires few { n ≤ 128 }
        requires in_step { InStep self.old }
        ensures reads { Reads self.old self.new result }
        ensures nodes { self.new.nodes ≡ self.old.nodes }
        ensures below { IfOk result (λ x. x < 2 ^ n) }
        ensures gives { Gives (λ x. x) result self.old self.new (bits_at begin n) }
    {
        let high = self.take_bits(begin, n - 64)?;
        let low = self.take_bits(begin, 64)?;
        Ok(high as u128 * (1u128 << 64) + low as u128)
    }

    /// Reads a number of `0..=top` in `n` bits.
    #[tactic(auto, unfolding(per_fields::specs::Fields::within_at))]
    #[inline(always)]
    pub(crate) fn within(&mut self, top: u64, n: u32) -> Result<u64, PerEnd>
        requires few { n ≤ 64 }
        requires in_step { InStep self.old }
        ensures reads { Reads self.old self.new result }
        ensures nodes { self.new.nodes ≡ self.old.nodes }
        ensures top { IfOk result (λ x. x ≤ top) }
        ensures gives { Gives (λ x. x) result self.old self.new (within_at top n) }
    {
        let begin = self.position();
        let x = self.take_bits(begin, n)?;
        if top < x {
            return Err(self.stopped(begin, Why::Range));
        }
        Ok(x)
    }

    // Reads a number after padding to the next octet.
    #[tactic(auto, unfolding(per_fields::specs::Fields::aligned_at))]
    fn aligned(&mut self, top: u64, n: u32) -> Result<u64, PerEnd>
        requires few { n ≤ 64 }
        requires in_step { InStep self.old }
        ensures reads { Reads self.old self.new result }
        ensures nodes { self.new.nodes ≡ self.old.nodes }
        ensures top { IfOk result (λ x. x ≤ top) }
        ensures gives { Gives (λ x. x) result self.old self.new (aligned_at top n) }
    {
        self.align()?;
        self.within(top, n)
    }

    // Reads the `more` + 1 octets of a number of `0..=top`.
    #[tactic(auto, unfolding(per_fields::specs::Fields::large_octets_at))]
    fn large_octets(&mut self, top: u128, more: u32) -> Result<u128, PerEnd>
        requires few { more ≤ 15 }
        requires in_step { InStep self.old }
        ensures reads { Reads self.old self.new result }
        ensures nodes { self.new.nodes ≡ self.old.nodes }
        ensures top { IfOk result (λ x. x ≤ top) }
        ensures gives { Gives (λ x. x) result self.old self.new (large_octets_at top more) }
    {
        let begin = self.position();
        let x = self.take_wide(begin, 8 * (more + 1))?;
        if 0 < more && x < 1u128 << (8 * more) {
            return Err(self.stopped(begin, Why::NotShortest));
        }
        if top < x {
            return Err(self.stopped(begin, Why::Range));
        }
        Ok(x)
    }

    // Reads the octet count and the octets of a number of `0..=top`.
    #[tactic(auto, unfolding(per_fields::specs::Fields::large_at))]
    fn large(&mut self, top: u128) -> Result<u128, PerEnd>
        requires in_step { InStep self.old }
        ensures reads { Reads self.old self.new result }
        ensures nodes { self.new.nodes ≡ self.old.nodes }
        ensures top { IfOk result (λ x. x ≤ top) }
        ensures gives { Gives (λ x. x) result self.old self.new (large_at top) }
    {
        let most = more_of(top);
        let more = self.within(most as u64, width_of(most as u128))? as u32;
        self.align()?;
        self.large_octets(top, more)
    }

    // Reads a number of `0..=top` in the least bits that hold the greatest.
    #[tactic(auto, unfolding(per_fields::specs::Fields::within_at))]
    fn within_wide(&mut self, top: u128) -> Result<u128, PerEnd>
        requires in_step { InStep self.old }
        ensures reads { Reads self.old self.new result }
        ensures nodes { self.new.nodes ≡ self.old.nodes }
        ensures top { IfOk result (λ x. x ≤ top) }
        ensures gives { Gives (λ x. x) result self.old self.new (within_at top (width_of top)) }
    {
        let begin = self.position();
        let x = self.take_wide(begin, width_of(top))?;
        if top < x {
            return Err(self.stopped(begin, Why::Range));
        }
        Ok(x)
    }

    // Reads a number of `0..=top` in bits or, after padding, in one or two octets, as in the aligned variant.
    #[tactic(auto, unfolding(per_fields::specs::Fields::number_at))]
    #[inline(always)]
    fn small(&mut self, top: u64) -> Result<u64, PerEnd>
        requires aligned { V.ALIGNED ≡ true }
        requires some { (top ≡ 0) → ⊥ }
        requires few { top < 65536 }
        requires in_step { InStep self.old }
        ensures reads { Reads self.old self.new result }
        ensures nodes { self.new.nodes ≡ self.old.nodes }
        ensures top { IfOk result (λ x. x ≤ top) }
        ensures gives { Gives (λ x. x) result self.old self.new (number_at V.ALIGNED top) }
    {
        if top < 255 {
            return self.within(top, width_of(top as u128));
        }
        if top < 256 {
            return self.aligned(top, 8);
        }
        self.aligned(top, 16)
    }

    /// Reads a number of `0..=top`.
    #[tactic(auto, unfolding(per_fields::specs::Fields::number_at))]
    #[inline(always)]
    pub(crate) fn number(&mut self, top: u128) -> Result<u128, PerEnd>
        requires in_step { InStep self.old }
        ensures reads { Reads self.old self.new result }
        ensures nodes { self.new.nodes ≡ self.old.nodes }
        ensures top { IfOk result (λ x. x ≤ top) }
        ensures gives { Gives (λ x. x) result self.old self.new (number_at V.ALIGNED top) }
    {
        if top == 0 {
            return Ok(0);
        }
        if !V::ALIGNED {
            return self.within_wide(top);
        }
        if top < 65_536 {
            return Ok(self.small(top as u64)? as u128);
        }
        self.large(top)
    }
}
