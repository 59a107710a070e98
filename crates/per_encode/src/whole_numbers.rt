//! Values of INTEGER (X.691, clause 13).
ghost use Rattle.std.specs.Prelude.{◌≡◌, ◌<◌, ◌≤◌, ◌+◌, ◌-◌, ◌*◌, ◌^◌, ◌++◌, OnOk, length, int_le, true};
ghost use Rattle.simple_types.specs.Lexical.{is_from, is_to};
ghost use Rattle.per_fields.specs.Widths.{distance, magnitude, complement, more_signed};
ghost use Rattle.per_fields.specs.Fields.{from_bits, signed_bits, whole_bits};

use crate::lengths::{put_gap, put_length};
use crate::numbers::{octets_behind, put_number, put_wide, width};
use base_codecs::BitSink;
use base_texts::Memory;
use per_fields::Variant;

// Returns the distance of a number above a lower one.
fn distance(from: i128, to: i128) -> u128
    requires { int_le from to ≡ true }
    ensures { result ≡ distance from to }
{
    to.abs_diff(from)
}

// Returns the number without its sign. Negative numbers count from 0 for -1.
fn magnitude(number: i128) -> u128
    ensures magnitude { result ≡ magnitude number }
    ensures fits { result < 2 ^ 127 }
{
    if number < 0 {
        (-(number + 1)) as u128
    } else {
        number as u128
    }
}

// Returns a number in two's complement of this number of bits, which hold it with its sign.
fn complement(width: u32, number: i128) -> u128
    requires some { 0 < width }
    requires few { width ≤ 128 }
    requires fits { magnitude number < 2 ^ (width - 1) }
    ensures complement { result ≡ complement width number }
    ensures below { result < 2 ^ width }
{
    let magnitude = magnitude(number);
    if number < 0 {
        let half = 1u128 << (width - 1);
        (half - 1) + (half - magnitude)
    } else {
        magnitude
    }
}

// Writes a number with a least one and without a greatest: the length of its octets, and the octets (clause 11.7).
#[inline(never)]
fn put_from<V: Variant>(sink: &mut BitSink, least: i128, number: i128) -> Result<(), Memory>
    requires { int_le least number ≡ true }
    ensures { OnOk result (sink.new ≡ sink.old ++ from_bits V.ALIGNED least number (length sink.old)) }
{
    let distance = distance(least, number);
    let behind = octets_behind(distance);
    put_gap::<V>(sink)?;
    put_length(sink, behind as usize + 1)?;
    put_wide(sink, distance, 8 * (behind + 1))
}

// Returns the number of octets after the first, of the least octets that hold the number with its sign (clause 11.4).
fn signed_octets_behind(number: i128) -> u32
    ensures octets { result ≡ more_signed number }
    ensures few { result ≤ 15 }
    ensures fits { magnitude number < 2 ^ (8 * (result + 1) - 1) }
{
    width(magnitude(number)) / 8
}

// Writes a number without a least one, in two's complement (clause 11.8).
#[inline(never)]
fn put_signed<V: Variant>(sink: &mut BitSink, number: i128) -> Result<(), Memory>
    ensures { OnOk result (sink.new ≡ sink.old ++ signed_bits V.ALIGNED number (length sink.old)) }
{
    let behind = signed_octets_behind(number);
    let width = 8 * (behind + 1);
    put_gap::<V>(sink)?;
    put_length(sink, behind as usize + 1)?;
    put_wide(sink, complement(width, number), width)
}

/// Writes a number of an INTEGER within these bounds.
#[tactic(auto, unfolding(per_fields::specs::Fields::whole_bits))]
pub(crate) fn put_whole<V: Variant>(
    sink: &mut BitSink,
    least: Option<i128>,
    greatest: Option<i128>,
    number: i128,
) -> Result<(), Memory>
    requires least { is_from least number ≡ true }
    requires greatest { is_to greatest number ≡ true }
    ensures { OnOk result (sink.new ≡ sink.old ++ whole_bits V.ALIGNED least greatest number (length sink.old)) }
{
    match (least, greatest) {
        (Some(least), Some(greatest)) => {
            put_number::<V>(sink, distance(least, greatest), distance(least, number))
        }
        (Some(least), None) => put_from::<V>(sink, least, number),
        (None, _) => put_signed::<V>(sink, number),
    }
}
