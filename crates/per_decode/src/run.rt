//! Bits and octets of a source, compared with what the call began with.
ghost use Rattle.std.specs.Prelude.{◌≡◌, ℕ, ◌<◌, ◌≤◌, ◌+◌, ◌-◌, ◌*◌, ◌^◌, List, [], Bool, false, IsTrue, slice_index};
ghost use Rattle.per_decode.specs.Private.Standing.{IsAt};

use crate::faults::{PerEnd, ended_inside, stopped};
use base_codecs::BitSource;
use base_texts::Source;
use per_fields::{Stop, Variant, Why};
use std::alloc::Global;
use std::marker::{Brand, PhantomData};

/// What a call began with: the octets that were left, and whether the source states them. It also has how many of them may be read,
/// and the count of faults.
pub(crate) trait Origin {
    ghost told: { Bool };

    ghost whole: { List ℕ };

    ghost limit: { ℕ };

    ghost faults: { ℕ };
}

impl Origin for Brand {
    ghost told = { false };

    ghost whole = { [] };

    ghost limit = { 0 };

    ghost faults = { 0 };
}

// Makes it known that octets are below 256, as their type implies.
fn see_octets(octets: &[u8])
    ensures { (k : ℕ) → slice_index octets.now k < 256 }
{}

/// Reading from a source, since the origin, in one of the two variants. It has the number of nodes that were begun, and where and
/// why reading stopped, once it has.
#[derive(Drop)]
pub(crate) struct Run<'a, S: Source, K: Origin, V: Variant> {
    pub(crate) bits: BitSource<'a, S>,
    pub(crate) nodes: u32,
    pub(crate) stop: Stop,
    pub(crate) origin: PhantomData<K>,
    pub(crate) variant: PhantomData<V>,
    ghost limited: { bits.limit ≡ K.limit },
    ghost few: { nodes ≤ 1048576 },
    ghost later: { K.faults ≤ S.faults bits.source.now },
    ghost here: { IsTrue K.told → IsAt K.whole K.limit bits.position bits.taken bits.held (S.left bits.source.now) },
}

impl<'a, S: Source, K: Origin, V: Variant> Run<'a, S, K, V> {
    ghost use Rattle.std.specs.Prelude.{true, ◌%◌, IfOk, OnOk, Err, IsErrOf, length};
    ghost use Rattle.per_fields.specs.Reading.{bits_at, align_at, octets_at};
    ghost use Rattle.per_fields.specs.Fields.{skip_at};
    ghost use Rattle.per_decode.specs.Private.Reads.{InStep, Reads, Gives};

    /// Returns the position of the next bit.
    #[inline(always)]
    pub(crate) fn position(&self) -> u64
        ensures { result ≡ self.now.bits.position }
    {
        self.bits.position()
    }

    /// Returns a fault of what begins at a bit and ends here.
    #[inline(always)]
    pub(crate) fn stopped(&mut self, begin: u64, why: Why) -> PerEnd
        ensures fault { result ≡ PerEnd.Stopped }
        ensures stop { self.new.stop ≡ record { bit = begin; why = why; end = self.old.bits.position } }
        ensures bits { self.new.bits ≡ self.old.bits }
        ensures nodes { self.new.nodes ≡ self.old.nodes }
    {
        let end = self.position();
        stopped(&mut self.stop, begin, why, end)
    }

    /// Reads the next `n` bits, of a field that begins at a bit.
    #[inline(always)]
    pub(crate) fn take_bits(&mut self, begin: u64, n: u32) -> Result<u64, PerEnd>
        requires few { n ≤ 64 }
        requires in_step { InStep self.old }
        ensures reads { Reads self.old self.new result }
        ensures nodes { self.new.nodes ≡ self.old.nodes }
        ensures moved { OnOk result (self.new.bits.position ≡ self.old.bits.position + n) }
        ensures below { IfOk result (λ x. x < 2 ^ n) }
        ensures gives { Gives (λ x. x) result self.old self.new (bits_at begin n) }
    {
        match self.bits.take_bits(n) {
            Ok(x) => Ok(x),
            Err(error) => Err(ended_inside(&mut self.stop, begin, error)),
        }
    }

    /// Reads the padding up to the next octet.
    #[inline(always)]
    pub(crate) fn align(&mut self) -> Result<(), PerEnd>
        requires in_step { InStep self.old }
        ensures reads { Reads self.old self.new result }
        ensures nodes { self.new.nodes ≡ self.old.nodes }
        ensures aligned { OnOk result (self.new.bits.position % 8 ≡ 0) }
        ensures gives { Gives (λ x. 0) result self.old self.new (align_at) }
    {
        let begin = self.position();
        match self.bits.align() {
            Ok(()) => Ok(()),
            Err(_) => {
                let end = begin + (8 - begin % 8) % 8;
                Err(stopped(&mut self.stop, begin, Why::Padding, end))
            }
        }
    }

    /// Reads what precedes a field that begins at an octet in the aligned variant.
    #[inline(always)]
    pub(crate) fn skip(&mut self) -> Result<(), PerEnd>
        requires in_step { InStep self.old }
        ensures reads { Reads self.old self.new result }
        ensures nodes { self.new.nodes ≡ self.old.nodes }
        ensures aligned { OnOk result (V.ALIGNED ≡ true → self.new.bits.position % 8 ≡ 0) }
        ensures gives { Gives (λ x. 0) result self.old self.new (skip_at V.ALIGNED) }
    {
        if V::ALIGNED {
            return self.align();
        }
        Ok(())
    }

    // Fills the buffer with the next octets, while reading is at an octet.
    #[inline(always)]
    fn fill_aligned(&mut self, octets: &mut [u8]) -> Result<(), PerEnd>
        requires few { length octets.old ≤ 65536 }
        requires in_step { InStep self.old }
        requires aligned { self.old.bits.position % 8 ≡ 0 }
        ensures reads { Reads self.old self.new result }
        ensures nodes { self.new.nodes ≡ self.old.nodes }
        ensures moved { OnOk result (self.new.bits.position ≡ self.old.bits.position + 8 * length octets.old) }
        ensures gives { Gives (λ done. octets.new) result self.old self.new (octets_at (length octets.old)) }
    {
        let begin = self.position();
        match self.bits.fill_octets(octets) {
            Ok(()) => {
                see_octets(octets);
                Ok(())
            }
            Err(error) => Err(ended_inside(&mut self.stop, begin, error)),
        }
    }

    // Fills the octets with the bits from here on, which may begin inside an octet.
    fn fill_across(&mut self, octets: &mut [u8]) -> Result<(), PerEnd>
        requires few { length octets.old ≤ 65536 }
        requires in_step { InStep self.old }
        ensures reads { Reads self.old self.new result }
        ensures nodes { self.new.nodes ≡ self.old.nodes }
        ensures moved { OnOk result (self.new.bits.position ≡ self.old.bits.position + 8 * length octets.old) }
        ensures gives { Gives (λ done. octets.new) result self.old self.new (octets_at (length octets.old)) }
    {
        let begin = self.position();
        match self.bits.fill_across(octets) {
            Ok(()) => {
                see_octets(octets);
                Ok(())
            }
            Err(error) => Err(ended_inside(&mut self.stop, begin, error)),
        }
    }

    /// Fills the buffer with the next octets.
    #[inline(always)]
    pub(crate) fn fill_octets(&mut self, octets: &mut [u8]) -> Result<(), PerEnd>
        requires few { length octets.old ≤ 65536 }
        requires in_step { InStep self.old }
        requires aligned { V.ALIGNED ≡ true → self.old.bits.position % 8 ≡ 0 }
        ensures reads { Reads self.old self.new result }
        ensures nodes { self.new.nodes ≡ self.old.nodes }
        ensures moved { OnOk result (self.new.bits.position ≡ self.old.bits.position + 8 * length octets.old) }
        ensures gives { Gives (λ done. octets.new) result self.old self.new (octets_at (length octets.old)) }
    {
        if V::ALIGNED {
            return self.fill_aligned(octets);
        }
        self.fill_across(octets)
    }

    /// Reads the next `n` octets.
    pub(crate) fn take_octets(&mut self, alloc: Global, n: u32) -> Result<Vec<u8>, PerEnd>
        requires few { n ≤ 65536 }
        requires in_step { InStep self.old }
        requires aligned { V.ALIGNED ≡ true → self.old.bits.position % 8 ≡ 0 }
        ensures reads { Reads self.old self.new result }
        ensures nodes { self.new.nodes ≡ self.old.nodes }
        ensures moved { OnOk result (self.new.bits.position ≡ self.old.bits.position + 8 * n) }
        ensures count { IfOk result (λ octets. length octets.items ≡ n) }
        ensures gives { Gives (λ octets. octets.items) result self.old self.new (octets_at n) }
    {
        let mut octets = vec![in alloc; 0u8; n as usize]?;
        self.fill_octets(&mut octets)?;
        Ok(octets)
    }
}
