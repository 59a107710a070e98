//! General lengths (X.691, clause 11.9), and texts after them.
ghost use Rattle.std.specs.Prelude.{◌≡◌, ◌<◌, ◌≤◌, ◌+◌, ◌-◌, ◌*◌, ◌^◌, ◌++◌, false, IfOk, IfErr, length, take};
ghost use Rattle.per_fields.specs.Fields.{is_out};
ghost use Rattle.per_decode.specs.Private.Pieces.{piece_of, IsPiece};
ghost use Rattle.per_decode.specs.Private.Kept.{octets_more, octets_behind};

use crate::faults::PerEnd;
use crate::run::{Origin, Run};
use base_texts::{ROOM, Source};
use per_fields::{Variant, Why};
use simple_types::is_at_most;
use std::alloc::Global;

/// The octets or items of one unit of a fragment.
pub(crate) const UNIT: u32 = 16_384;

/// The greatest number of units of a fragment. Other fragments may follow only such a fragment.
pub(crate) const MOST_UNITS: u32 = 4;

/// What a length states.
#[derive(Clone, Copy)]
pub(crate) enum Piece {
    /// The last octets or items, below 16,384.
    Last(u32),
    /// A fragment with this number of units.
    Units(u32),
}

/// Returns whether, with what was read so far, this length is above the most, or is the last one and below the least.
#[inline(always)]
fn is_out(least: u32, most: Option<u32>, total: usize, piece: Piece) -> bool
    requires few { total < 2 ^ 63 }
    requires piece { IsPiece piece }
    ensures { result ≡ is_out least most total (piece_of piece) }
{
    match piece {
        Piece::Last(n) => {
            let all = total + n as usize;
            !is_at_most(all, most) || all < least as usize
        }
        Piece::Units(k) => !is_at_most(total + (k * UNIT) as usize, most),
    }
}

impl<'a, S: Source, K: Origin, V: Variant> Run<'a, S, K, V> {
    ghost use Rattle.std.specs.Prelude.{true, ◌++◌, ◌%◌, IfOk, OnOk, Err, IsErrOf, IsTrue, length};
    ghost use Rattle.per_decode.specs.Private.Reads.{InStep, Reads, Gives};
    ghost use Rattle.per_fields.specs.Reading.{octets_at};
    ghost use Rattle.per_fields.specs.Fields.{length_from, length_here, count_here, count_at, octet_count_here, octet_count_at};

    // Reads a length whose first octet is `x`, of a field that begins at a bit, after a fragment of `before` units.
    #[tactic(auto, unfolding(per_fields::specs::Fields::length_from))]
    #[inline(always)]
    fn length_from(&mut self, before: u32, begin: u64, x: u64) -> Result<Piece, PerEnd>
        requires octet { x < 256 }
        requires in_step { InStep self.old }
        ensures reads { Reads self.old self.new result }
        ensures aligned { OnOk result (self.new.bits.position % 8 ≡ self.old.bits.position % 8) }
        ensures nodes { self.new.nodes ≡ self.old.nodes }
        ensures piece { IfOk result (λ piece. IsPiece piece) }
        ensures gives { Gives (piece_of) result self.old self.new (length_from before begin x) }
    {
        if x < 128 {
            return Ok(Piece::Last(x as u32));
        }
        if x < 192 {
            let y = self.take_bits(begin, 8)?;
            let n = (x - 128) * 256 + y;
            if n < 128 {
                return Err(self.stopped(begin, Why::NotShortest));
            }
            return Ok(Piece::Last(n as u32));
        }
        if before < MOST_UNITS {
            return Err(self.stopped(begin, Why::NotShortest));
        }
        let units = (x - 192) as u32;
        if units < 1 || MOST_UNITS < units {
            return Err(self.stopped(begin, Why::Range));
        }
        Ok(Piece::Units(units))
    }

    // Reads a length that begins here.
    #[tactic(auto, unfolding(per_fields::specs::Fields::length_here))]
    #[inline(always)]
    fn length_here(&mut self, before: u32) -> Result<Piece, PerEnd>
        requires in_step { InStep self.old }
        ensures reads { Reads self.old self.new result }
        ensures aligned { OnOk result (self.new.bits.position % 8 ≡ self.old.bits.position % 8) }
        ensures nodes { self.new.nodes ≡ self.old.nodes }
        ensures further { OnOk result (self.old.bits.position < self.new.bits.position) }
        ensures piece { IfOk result (λ piece. IsPiece piece) }
        ensures gives { Gives (piece_of) result self.old self.new (length_here before) }
    {
        let begin = self.position();
        let x = self.take_bits(begin, 8)?;
        self.length_from(before, begin, x)
    }

    // Reads the length of a count within these bounds, which begins here.
    #[tactic(auto, unfolding(per_fields::specs::Fields::count_here))]
    #[inline(always)]
    fn count_here(
        &mut self,
        least: u32,
        most: Option<u32>,
        before: u32,
        total: usize,
    ) -> Result<Piece, PerEnd>
        requires few { total < 2 ^ 63 }
        requires in_step { InStep self.old }
        ensures reads { Reads self.old self.new result }
        ensures aligned { OnOk result (self.new.bits.position % 8 ≡ self.old.bits.position % 8) }
        ensures nodes { self.new.nodes ≡ self.old.nodes }
        ensures further { OnOk result (self.old.bits.position < self.new.bits.position) }
        ensures piece { IfOk result (λ piece. IsPiece piece × (is_out least most total (piece_of piece) ≡ false)) }
        ensures gives { Gives (piece_of) result self.old self.new (count_here least most before total) }
    {
        let begin = self.position();
        let piece = self.length_here(before)?;
        if is_out(least, most, total, piece) {
            return Err(self.stopped(begin, Why::Range));
        }
        Ok(piece)
    }

    /// Reads the length of a count within these bounds, after a fragment of `before` units and `total` octets or items in all.
    #[tactic(auto, unfolding(per_fields::specs::Fields::count_at))]
    #[inline(always)]
    pub(crate) fn count(
        &mut self,
        least: u32,
        most: Option<u32>,
        before: u32,
        total: usize,
    ) -> Result<Piece, PerEnd>
        requires few { total < 2 ^ 63 }
        requires in_step { InStep self.old }
        ensures reads { Reads self.old self.new result }
        ensures aligned { OnOk result (V.ALIGNED ≡ true → self.new.bits.position % 8 ≡ 0) }
        ensures nodes { self.new.nodes ≡ self.old.nodes }
        ensures further { OnOk result (self.old.bits.position < self.new.bits.position) }
        ensures piece { IfOk result (λ piece. IsPiece piece × (is_out least most total (piece_of piece) ≡ false)) }
        ensures gives { Gives (piece_of) result self.old self.new (count_at V.ALIGNED least most before total) }
    {
        self.skip()?;
        self.count_here(least, most, before, total)
    }

    // Reads the length of a number, which begins here. Returns how many octets follow the first one.
    #[tactic(auto, unfolding(per_fields::specs::Fields::octet_count_here))]
    fn octet_count_here(&mut self) -> Result<u32, PerEnd>
        requires in_step { InStep self.old }
        ensures reads { Reads self.old self.new result }
        ensures aligned { OnOk result (self.new.bits.position % 8 ≡ self.old.bits.position % 8) }
        ensures nodes { self.new.nodes ≡ self.old.nodes }
        ensures few { IfOk result (λ more. more ≤ 15) }
        ensures gives { Gives (λ x. x) result self.old self.new (octet_count_here) }
    {
        let begin = self.position();
        match self.length_here(MOST_UNITS)? {
            Piece::Last(0) => Err(self.stopped(begin, Why::Range)),
            Piece::Last(n) if n > 16 => Err(self.stopped(begin, Why::TooWide)),
            Piece::Last(n) => Ok(n - 1),
            Piece::Units(_) => Err(self.stopped(begin, Why::TooWide)),
        }
    }

    /// Reads the length of a number. Returns how many octets follow the first one.
    #[tactic(auto, unfolding(per_fields::specs::Fields::octet_count_at))]
    pub(crate) fn octet_count(&mut self) -> Result<u32, PerEnd>
        requires in_step { InStep self.old }
        ensures reads { Reads self.old self.new result }
        ensures aligned { OnOk result (V.ALIGNED ≡ true → self.new.bits.position % 8 ≡ 0) }
        ensures nodes { self.new.nodes ≡ self.old.nodes }
        ensures few { IfOk result (λ more. more ≤ 15) }
        ensures gives { Gives (λ x. x) result self.old self.new (octet_count_at V.ALIGNED) }
    {
        self.skip()?;
        self.octet_count_here()
    }

    /// Fills the first `n` bytes with the next octets.
    #[inline(always)]
    pub(crate) fn fill_few(&mut self, bytes: &mut [u8; ROOM], n: u32) -> Result<(), PerEnd>
        requires few { n ≤ 22 }
        requires in_step { InStep self.old }
        requires aligned { V.ALIGNED ≡ true → self.old.bits.position % 8 ≡ 0 }
        ensures reads { Reads self.old self.new result }
        ensures nodes { self.new.nodes ≡ self.old.nodes }
        ensures gives { Gives (λ done. take n bytes.new) result self.old self.new (octets_at n) }
    {
        self.fill_octets(&mut bytes[..n as usize])
    }

    /// Reads the octets of a text after its first length.
    pub(crate) fn octets_behind(&mut self, alloc: Global, first: Piece) -> Result<Vec<u8>, PerEnd>
        requires piece { IsPiece first }
        requires in_step { InStep self.old }
        requires aligned { V.ALIGNED ≡ true → self.old.bits.position % 8 ≡ 0 }
        ensures reads { Reads self.old self.new result }
        ensures nodes { self.new.nodes ≡ self.old.nodes }
        ensures gives { Gives (λ octets. octets.items) result self.old self.new (octets_behind V.ALIGNED (piece_of first)) }
    {
        match first {
            Piece::Last(n) => self.take_octets(alloc, n),
            Piece::Units(k) => {
                let octets = self.take_octets(alloc, k * UNIT)?;
                self.more_octets(alloc, octets, k)
            }
        }
    }

    // Reads the octets of a text after these, where the last fragment had this number of units.
    fn more_octets(&mut self, alloc: Global, first: Vec<u8>, units: u32) -> Result<Vec<u8>, PerEnd>
        requires in_step { InStep self.old }
        ensures reads { Reads self.old self.new result }
        ensures nodes { self.new.nodes ≡ self.old.nodes }
        ensures gives { Gives (λ octets. octets.items) result self.old self.new (octets_more V.ALIGNED first.items units (length first.items)) }
    {
        let mut text = first;
        let mut before = units;
        'fragments: loop {
            let total = text.as_slice().len();
            let piece = self.count(0, None, before, total)?;
            match piece {
                Piece::Last(n) => {
                    let last = self.take_octets(alloc, n)?;
                    return joined(text, last);
                }
                Piece::Units(k) => {
                    let octets = self.take_octets(alloc, k * UNIT)?;
                    text = joined(text, octets)?;
                    before = k;
                }
            }
        }
    }
}

// Appends octets to those of a text.
fn joined(mut text: Vec<u8>, octets: Vec<u8>) -> Result<Vec<u8>, PerEnd>
    ensures ok { IfOk result (λ all. all.items ≡ text.items ++ octets.items) }
    ensures memory { IfErr result (λ fault. fault ≡ PerEnd.Memory) }
{
    text.extend_from_slice(&octets)?;
    Ok(text)
}
