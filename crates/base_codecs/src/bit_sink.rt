//! Writes bits to octets.
ghost use Rattle.std.specs.Prelude.{◌≡◌, ◌<◌, ◌≤◌, ◌+◌, ◌-◌, ◌*◌, ◌^◌, ◌/◌, ◌%◌, ◌++◌, [], OnOk, OnErr, IsOk, length, vec_len, vec_capacity};
ghost use Rattle.base_codecs.specs.Bits.{bits, octet_bits, padding};

use base_texts::Memory;
use std::alloc::{AllocError, Global};
use std::marker::Model;

/// A sink of bits, seen as the list of bits written.
#[derive(Drop)]
pub struct BitSink {
    octets: Vec<u8>,
    part: u8,
    used: u32,
}

impl Model for BitSink {
    ghost use Rattle.std.specs.Prelude.{Bool, List, ◌++◌, ◌<◌, ◌≤◌, ◌^◌, vec_len, vec_capacity};
    ghost use Rattle.base_codecs.specs.Bits.{bits, octet_bits};

    ghost Value = { List Bool };

    ghost view = { λ s. octet_bits s.octets.items ++ bits s.used s.part };

    // There is room for the octet that is partly written, so closing it allocates nothing.
    ghost invariant = { λ s. (s.used ≤ 7) × (s.part < 2 ^ s.used) × (0 < s.used → vec_len s.octets < vec_capacity s.octets) };
}

// Appends the octets of the low bits of the number.
fn append_octets(octets: &mut Vec<u8>, number: u64, count: usize) -> Result<(), AllocError>
    requires { count ≤ 8 }
    ensures ok { OnOk result (octet_bits octets.new.items ≡ octet_bits octets.old.items ++ bits (8 * count) number) }
    ensures err { OnErr result (octets.new.items ≡ octets.old.items) }
    ensures room { vec_capacity octets.old ≤ vec_capacity octets.new }
    ensures len { OnOk result (vec_len octets.new ≡ vec_len octets.old + count) }
{
    octets.extend_from_slice(&number.to_be_bytes()[8 - count..])
}

// Appends the complete octets of a number's bits, one by one, and leaves the bits after them.
#[inline(always)]
fn append_whole(octets: &mut Vec<u8>, number: u64, width: u32)
    requires few { width < 64 }
    requires room { vec_len octets.old + width / 8 ≤ vec_capacity octets.old }
    ensures bits { octet_bits octets.new.items ++ bits (width % 8) number ≡ octet_bits octets.old.items ++ bits width number }
    ensures room { vec_capacity octets.new ≡ vec_capacity octets.old }
    ensures len { vec_len octets.new ≡ vec_len octets.old + width / 8 }
{
    let mut left = width;
    'octets: while 8 <= left {
        left -= 8;
        octets.push_reserved(((number >> left) % 256) as u8);
    }
}

// Appends octets after the bits of a part, each of them across two octets, and returns the remaining bits of the last.
fn append_across(octets: &mut Vec<u8>, part: u8, used: u32, more: &[u8]) -> u8
    requires few { used ≤ 7 }
    requires fits { part < 2 ^ used }
    requires room { vec_len octets.old + length more.now ≤ vec_capacity octets.old }
    ensures fits { result < 2 ^ used }
    ensures bits { octet_bits octets.new.items ++ bits used result ≡ (octet_bits octets.old.items ++ bits used part) ++ octet_bits more.now }
    ensures room { vec_capacity octets.old ≤ vec_capacity octets.new }
    ensures len { vec_len octets.new ≡ vec_len octets.old + length more.now }
{
    let mut left = part;
    'octets: for i in 0..more.len() {
        let all = u32::from(left) * 256 + u32::from(more[i]);
        octets.push_reserved((all >> used) as u8);
        left = (all % (1u32 << used)) as u8;
    }
    left
}

impl BitSink {
    /// Returns a sink without bits.
    pub fn new(alloc: Global) -> BitSink
        ensures { result ≡ [] }
    {
        BitSink {
            octets: Vec::new(alloc),
            part: 0,
            used: 0,
        }
    }

    /// Appends the `n` low bits of the number, the highest first.
    #[inline(always)]
    pub fn put_bits(&mut self, number: u64, n: u32) -> Result<(), Memory>
        requires { n ≤ 64 }
        ensures ok { OnOk result (self.new ≡ self.old ++ bits n number) }
        ensures memory { OnErr result (self.new ≡ self.old) }
    {
        let width = self.used + n;
        // At most seven octets become complete, and one more is reserved for a part.
        if 64 <= width || self.octets.capacity() - self.octets.len() < 8 {
            return self.put_many(number, n);
        }
        let all = self.part as u64 * (1u64 << n) + number % (1u64 << n);
        if width < 8 {
            self.part = all as u8;
            self.used = width;
            return Ok(());
        }
        append_whole(&mut self.octets, all, width);
        self.used = width % 8;
        self.part = (all % (1u64 << self.used)) as u8;
        Ok(())
    }

    // Appends the `n` low bits of the number and reserves room for them.
    #[inline(never)]
    fn put_many(&mut self, number: u64, n: u32) -> Result<(), Memory>
        requires { n ≤ 64 }
        ensures ok { OnOk result (self.new ≡ self.old ++ bits n number) }
        ensures memory { OnErr result (self.new ≡ self.old) }
    {
        // At most eight octets become complete, and one more is reserved for a part.
        self.octets.reserve(9)?;
        let all = self.part as u128 * (1u128 << n) + number as u128 % (1u128 << n);
        let used = (self.used + n) % 8;
        append_octets(
            &mut self.octets,
            (all >> used) as u64,
            ((self.used + n) / 8) as usize,
        )?;
        self.part = (all % (1u128 << used)) as u8;
        self.used = used;
        Ok(())
    }

    /// Appends zero bits up to the next octet. The sink always has room for them, so nothing is allocated.
    #[inline(always)]
    pub fn align(&mut self) -> Result<(), Memory>
        ensures sure { IsOk result }
        ensures padding { self.new ≡ self.old ++ padding (length self.old) }
    {
        if 0 < self.used {
            self.octets.push_reserved(self.part << (8 - self.used));
            self.part = 0;
            self.used = 0;
        }
        Ok(())
    }

    /// Appends the octets, at any bit position. At the end of an octet they are only copied.
    #[inline(always)]
    pub fn put_octets(&mut self, octets: &[u8]) -> Result<(), Memory>
        ensures ok { OnOk result (self.new ≡ self.old ++ octet_bits octets.now) }
        ensures memory { OnErr result (self.new ≡ self.old) }
    {
        if self.used == 0 {
            self.octets.extend_from_slice(octets)?;
            return Ok(());
        }
        self.put_across(octets)
    }

    // Appends the octets after an octet that is not full.
    #[inline(never)]
    fn put_across(&mut self, octets: &[u8]) -> Result<(), Memory>
        ensures ok { OnOk result (self.new ≡ self.old ++ octet_bits octets.now) }
        ensures memory { OnErr result (self.new ≡ self.old) }
    {
        // One more is reserved for the part.
        self.octets.reserve(octets.len() + 1)?;
        let part = append_across(&mut self.octets, self.part, self.used, octets);
        self.part = part;
        Ok(())
    }

    /// Returns the octets, with zero bits after the last bit.
    pub fn finish(mut self) -> Vec<u8>
        ensures { octet_bits result.items ≡ self ++ padding (length self) }
    {
        // It never fails.
        let _ = self.align();
        self.octets
    }
}
