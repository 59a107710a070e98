//! Reads bits from a source of octets.
ghost use Rattle.std.specs.Prelude.{◌≡◌, ◌<◌, ◌≤◌, ◌-◌, ◌*◌, ◌^◌};

use crate::fetch::{CursorError, fetch};
use crate::gather::{carry, gather, gather_octet};
use base_texts::Source;
use std::alloc::Global;

/// Reads bits from a source of octets, the highest bit of an octet first. It reads no octet before a bit of it is needed.
#[derive(Drop)]
pub struct BitSource<'a, S: Source> {
    source: &'a mut S,
    // The limit separates the two counts, which change independently. Next to each other they would be read as one word of 16
    // bytes, and that load waits until both are written.
    position: u64,
    limit: u64,
    taken: u64,
    held: u8,
    ghost small: { limit ≤ 2 ^ 32 },
    ghost within: { taken ≤ limit },
    ghost behind: { position ≤ 8 * taken },
    ghost fits: { held < 2 ^ (8 * taken - position) },
}

impl<'a, S: Source> BitSource<'a, S> {
    ghost use Rattle.std.specs.Prelude.{◌++◌, ◌+◌, ◌%◌, ◌⊎◌, ◌↔◌, ℕ, true, take, List, Some, IfOk, IfErr, OnOk, OnErr, IsErr, IsErrOf, length, drop};
    ghost use Rattle.std.specs.List.{Contains};
    ghost use Rattle.std.specs.Io.KnownBytes.{IsAtEnd};
    ghost use Rattle.base_codecs.specs.Bits.{bits, gap, octet_bits};
    ghost use Rattle.base_codecs.specs.Cursors.{IsInStep, LosesFirst, ahead};
    ghost use Rattle.base_texts.specs.Faults.{Counts};

    /// Returns a reader of the source's bits from its next octet on, of at most `limit` octets.
    pub fn new(source: &'a mut S, limit: u64) -> BitSource<'a, S>
        requires { limit ≤ 2 ^ 32 }
        ensures same_reference { result.source.ghost_name ≡ source.entry.ghost_name }
        ensures source { result.source.now ≡ source.old }
        ensures start { (result.position ≡ 0) × (result.taken ≡ 0) × (result.limit ≡ limit) }
    {
        BitSource {
            source,
            position: 0,
            limit,
            taken: 0,
            held: 0,
        }
    }

    /// Returns the number of bits read or skipped so far.
    pub fn position(&self) -> u64
        ensures { result ≡ self.now.position }
    {
        self.position
    }

    /// Reads the next `n` bits, and returns their number, the highest bit first.
    #[inline(always)]
    pub fn take_bits(&mut self, n: u32) -> Result<u64, CursorError>
        requires few { n ≤ 64 }
        requires in_step { IsInStep self.old.position self.old.taken }
        ensures same_reference { self.new.source.ghost_name ≡ self.old.source.ghost_name }
        ensures limit { self.new.limit ≡ self.old.limit }
        ensures moved { OnOk result ((self.new.position ≡ self.old.position + n) × IsInStep self.new.position self.new.taken) }
        ensures below { IfOk result (λ x. x < 2 ^ n) }
        ensures bits { (left : List ℕ) → S.left self.old.source.now ≡ Some left → IfOk result (λ x.
            ahead self.old.position self.old.taken self.old.held self.old.limit left
            ≡ bits n x ++ ahead self.new.position self.new.taken self.new.held self.new.limit (drop (self.new.taken - self.old.taken) left)) }
        ensures took { LosesFirst (S.left self.old.source.now) (S.left self.new.source.now) (self.new.taken - self.old.taken) }
        ensures most { (self.old.taken ≤ self.new.taken) × (8 * self.new.taken ≤ self.old.position + n + 7) }
        ensures stays { OnErr result ((self.new.position ≡ self.old.position) × (self.new.held ≡ self.old.held)) }
        ensures missing { OnErr result (8 * self.new.taken < self.old.position + n) }
        ensures short { IsErrOf result CursorError.Short → (self.new.taken < self.old.limit) × IsAtEnd (S.left self.new.source.now) }
        ensures too_long { IsErrOf result CursorError.TooLong → self.new.taken ≡ self.old.limit }
        ensures cause { Counts (S.faults self.old.source.now) (S.faults self.new.source.now) (IsErrOf result CursorError.Failed) }
        ensures kinds { ¬ IsErrOf result CursorError.Padding × ¬ IsErrOf result CursorError.Memory }
    {
        let unread = (8 * self.taken - self.position) as u32;
        if n <= 8 {
            if n <= unread {
                let left = unread - n;
                let number = self.held >> left;
                self.position += n as u64;
                self.held %= 1u8 << left;
                return Ok(number as u64);
            }
            let mut octet = [0u8; 1];
            let (count, end) = fetch(self.source, self.limit - self.taken, &mut octet);
            self.taken += count as u64;
            end?;
            let all = gather_octet(self.held, unread, octet[0]);
            let left = unread + 8 - n;
            self.position += n as u64;
            self.held = (all % (1u32 << left)) as u8;
            return Ok((all >> left) as u64);
        }
        let need = (n.saturating_sub(unread) as usize + 7) / 8;
        let mut buf = [0u8; 8];
        let (count, end) = fetch(self.source, self.limit - self.taken, &mut buf[..need]);
        self.taken += count as u64;
        end?;
        let all = gather(self.held, unread, &buf[..need]);
        let left = unread + 8 * need as u32 - n;
        self.position += n as u64;
        self.held = (all % (1u128 << left)) as u8;
        Ok((all >> left) as u64)
    }

    /// Skips the bits up to the next octet, which must be 0. It reads no octet.
    pub fn align(&mut self) -> Result<(), CursorError>
        requires in_step { IsInStep self.old.position self.old.taken }
        ensures same_reference { self.new.source.ghost_name ≡ self.old.source.ghost_name }
        ensures source { self.new.source.now ≡ self.old.source.now }
        ensures rest { (self.new.limit ≡ self.old.limit) × (self.new.taken ≡ self.old.taken) }
        ensures moved { OnOk result ((self.new.position ≡ 8 * self.old.taken) × (self.new.held ≡ 0)) }
        ensures stays { OnErr result ((self.new.position ≡ self.old.position) × (self.new.held ≡ self.old.held)) }
        ensures padding { IsErr result ↔ Contains (bits (gap self.old.position) self.old.held) true }
        ensures kinds { IfErr result (λ error. error ≡ CursorError.Padding) }
    {
        if self.held != 0 {
            return Err(CursorError::Padding);
        }
        self.position = 8 * self.taken;
        Ok(())
    }

    /// Reads the next `n` octets, at the end of an octet.
    pub fn take_octets(&mut self, alloc: Global, n: u32) -> Result<Vec<u8>, CursorError>
        requires few { n ≤ 65536 }
        requires in_step { IsInStep self.old.position self.old.taken }
        requires aligned { self.old.position % 8 ≡ 0 }
        ensures same_reference { self.new.source.ghost_name ≡ self.old.source.ghost_name }
        ensures limit { self.new.limit ≡ self.old.limit }
        ensures moved { OnOk result ((self.new.position ≡ self.old.position + 8 * n) × (self.new.taken ≡ self.old.taken + n)) }
        ensures held { self.new.held ≡ self.old.held }
        ensures count { IfOk result (λ octets. length octets.items ≡ n) }
        ensures octets { (left : List ℕ) → S.left self.old.source.now ≡ Some left → IfOk result (λ octets. octets.items ≡ take n left) }
        ensures took { LosesFirst (S.left self.old.source.now) (S.left self.new.source.now) (self.new.taken - self.old.taken) }
        ensures most { (self.old.taken ≤ self.new.taken) × (self.new.taken ≤ self.old.taken + n) }
        ensures stays { OnErr result (self.new.position ≡ self.old.position) }
        ensures missing { OnErr result (IsErrOf result CursorError.Memory ⊎ (self.new.taken < self.old.taken + n)) }
        ensures short { IsErrOf result CursorError.Short → (self.new.taken < self.old.limit) × IsAtEnd (S.left self.new.source.now) }
        ensures too_long { IsErrOf result CursorError.TooLong → self.new.taken ≡ self.old.limit }
        ensures cause { Counts (S.faults self.old.source.now) (S.faults self.new.source.now) (IsErrOf result CursorError.Failed) }
        ensures memory { IsErrOf result CursorError.Memory → (self.new.source.now ≡ self.old.source.now) × (self.new.taken ≡ self.old.taken) }
        ensures kinds { ¬ IsErrOf result CursorError.Padding }
    {
        let mut octets = vec![in alloc; 0u8; n as usize]?;
        self.fill_octets(&mut octets)?;
        Ok(octets)
    }

    /// Fills the buffer with the next octets, at the end of an octet.
    #[inline(always)]
    pub fn fill_octets(&mut self, octets: &mut [u8]) -> Result<(), CursorError>
        requires few { length octets.old ≤ 65536 }
        requires in_step { IsInStep self.old.position self.old.taken }
        requires aligned { self.old.position % 8 ≡ 0 }
        ensures same_reference { self.new.source.ghost_name ≡ self.old.source.ghost_name }
        ensures limit { self.new.limit ≡ self.old.limit }
        ensures moved { OnOk result ((self.new.position ≡ self.old.position + 8 * length octets.old) × (self.new.taken ≡ self.old.taken + length octets.old)) }
        ensures held { self.new.held ≡ self.old.held }
        ensures octets { (left : List ℕ) → S.left self.old.source.now ≡ Some left → OnOk result (octets.new ≡ take (length octets.old) left) }
        ensures took { LosesFirst (S.left self.old.source.now) (S.left self.new.source.now) (self.new.taken - self.old.taken) }
        ensures most { (self.old.taken ≤ self.new.taken) × (self.new.taken ≤ self.old.taken + length octets.old) }
        ensures stays { OnErr result (self.new.position ≡ self.old.position) }
        ensures missing { OnErr result (self.new.taken < self.old.taken + length octets.old) }
        ensures short { IsErrOf result CursorError.Short → (self.new.taken < self.old.limit) × IsAtEnd (S.left self.new.source.now) }
        ensures too_long { IsErrOf result CursorError.TooLong → self.new.taken ≡ self.old.limit }
        ensures cause { Counts (S.faults self.old.source.now) (S.faults self.new.source.now) (IsErrOf result CursorError.Failed) }
        ensures kinds { ¬ IsErrOf result CursorError.Padding × ¬ IsErrOf result CursorError.Memory }
    {
        let (count, end) = fetch(self.source, self.limit - self.taken, octets);
        self.taken += count as u64;
        end?;
        self.position += 8 * octets.len() as u64;
        Ok(())
    }

    /// Fills the buffer with the next octets from any bit position: each lies across two octets of the source.
    pub fn fill_across(&mut self, octets: &mut [u8]) -> Result<(), CursorError>
        requires few { length octets.old ≤ 65536 }
        requires in_step { IsInStep self.old.position self.old.taken }
        ensures same_reference { self.new.source.ghost_name ≡ self.old.source.ghost_name }
        ensures limit { self.new.limit ≡ self.old.limit }
        ensures moved { OnOk result ((self.new.position ≡ self.old.position + 8 * length octets.old) × (self.new.taken ≡ self.old.taken + length octets.old)) }
        ensures octets { (left : List ℕ) → S.left self.old.source.now ≡ Some left → OnOk result (
            ahead self.old.position self.old.taken self.old.held self.old.limit left
            ≡ octet_bits octets.new ++ ahead self.new.position self.new.taken self.new.held self.new.limit (drop (self.new.taken - self.old.taken) left)) }
        ensures took { LosesFirst (S.left self.old.source.now) (S.left self.new.source.now) (self.new.taken - self.old.taken) }
        ensures most { (self.old.taken ≤ self.new.taken) × (self.new.taken ≤ self.old.taken + length octets.old) }
        ensures stays { OnErr result ((self.new.position ≡ self.old.position) × (self.new.held ≡ self.old.held)) }
        ensures missing { OnErr result (self.new.taken < self.old.taken + length octets.old) }
        ensures short { IsErrOf result CursorError.Short → (self.new.taken < self.old.limit) × IsAtEnd (S.left self.new.source.now) }
        ensures too_long { IsErrOf result CursorError.TooLong → self.new.taken ≡ self.old.limit }
        ensures cause { Counts (S.faults self.old.source.now) (S.faults self.new.source.now) (IsErrOf result CursorError.Failed) }
        ensures kinds { ¬ IsErrOf result CursorError.Padding × ¬ IsErrOf result CursorError.Memory }
    {
        let unread = (8 * self.taken - self.position) as u32;
        let (count, end) = fetch(self.source, self.limit - self.taken, octets);
        self.taken += count as u64;
        end?;
        let held = carry(octets, self.held, unread);
        self.position += 8 * octets.len() as u64;
        self.held = held;
        Ok(())
    }
}
