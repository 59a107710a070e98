//! Numbers of a range (X.691, clause 11.5), in all its widths.
ghost use Rattle.std.specs.Prelude.{◌≡◌, ◌<◌, ◌≤◌, ◌+◌, ◌-◌, ◌*◌, ◌^◌, ◌++◌, OnOk, length};
ghost use Rattle.base_codecs.specs.Bits.{bits, padding};
ghost use Rattle.per_fields.specs.Widths.{width_of, more_of};
ghost use Rattle.per_fields.specs.Fields.{large_bits, number_bits};

use base_codecs::BitSink;
use base_texts::Memory;
use per_fields::Variant;

// Writes a number of more bits than one call of the sink accepts.
#[inline(never)]
fn put_halves(sink: &mut BitSink, number: u128, n: u32) -> Result<(), Memory>
    requires many { 64 < n }
    requires few { n ≤ 128 }
    requires fits { number < 2 ^ n }
    ensures { OnOk result (sink.new ≡ sink.old ++ bits n number) }
{
    sink.put_bits((number >> 64) as u64, n - 64)?;
    sink.put_bits((number % (1u128 << 64)) as u64, 64)
}

/// Writes the number in n bits.
#[inline(always)]
pub(crate) fn put_wide(sink: &mut BitSink, number: u128, n: u32) -> Result<(), Memory>
    requires few { n ≤ 128 }
    requires fits { number < 2 ^ n }
    ensures { OnOk result (sink.new ≡ sink.old ++ bits n number) }
{
    if n <= 64 {
        return sink.put_bits(number as u64, n);
    }
    put_halves(sink, number, n)
}

/// Returns the least number of bits that hold the number: 0 bits for 0.
pub(crate) fn width(number: u128) -> u32
    ensures width { result ≡ width_of number }
    ensures few { result ≤ 128 }
{
    128 - number.leading_zeros()
}

/// Returns the number of octets after the first, of the least octets that hold the number (X.691, clause 11.3).
pub(crate) fn octets_behind(number: u128) -> u32
    ensures octets { result ≡ more_of number }
    ensures few { result ≤ 15 }
    ensures fits { number < 2 ^ (8 * (result + 1)) }
{
    let width = width(number);
    if width == 0 { 0 } else { (width + 7) / 8 - 1 }
}

// Writes the number in n bits, after the padding.
#[inline(never)]
fn put_aligned(sink: &mut BitSink, number: u128, n: u32) -> Result<(), Memory>
    requires few { n ≤ 128 }
    requires fits { number < 2 ^ n }
    ensures { OnOk result (sink.new ≡ sink.old ++ (padding (length sink.old) ++ bits n number)) }
{
    sink.align()?;
    put_wide(sink, number, n)
}

// Writes the octet count, and the number in the least octets (clause 11.5.7.4).
#[inline(never)]
fn put_large(sink: &mut BitSink, top: u128, number: u128) -> Result<(), Memory>
    requires { number ≤ top }
    ensures { OnOk result (sink.new ≡ sink.old ++ large_bits top number (length sink.old)) }
{
    let most = octets_behind(top);
    let behind = octets_behind(number);
    sink.put_bits(behind as u64, width(most as u128))?;
    put_aligned(sink, number, 8 * (behind + 1))
}

/// Writes a number of `0..=top`.
#[tactic(auto, unfolding(per_fields::specs::Fields::number_bits))]
pub(crate) fn put_number<V: Variant>(
    sink: &mut BitSink,
    top: u128,
    number: u128,
) -> Result<(), Memory>
    requires { number ≤ top }
    ensures { OnOk result (sink.new ≡ sink.old ++ number_bits V.ALIGNED top number (length sink.old)) }
{
    if top == 0 {
        return Ok(());
    }
    if !V::ALIGNED || top < 255 {
        return put_wide(sink, number, width(top));
    }
    if top < 256 {
        return put_aligned(sink, number, 8);
    }
    if top < 65_536 {
        return put_aligned(sink, number, 16);
    }
    put_large(sink, top, number)
}

/// Writes the number of one of `count` items or alternatives.
pub(crate) fn put_index<V: Variant>(sink: &mut BitSink, count: usize, i: u32) -> Result<(), Memory>
    requires { i < count }
    ensures { OnOk result (sink.new ≡ sink.old ++ number_bits V.ALIGNED (count - 1) i (length sink.old)) }
{
    put_number::<V>(sink, count as u128 - 1, u128::from(i))
}
