//! General lengths and the heads of fragments (X.691, clause 11.9).
ghost use Rattle.std.specs.Prelude.{◌≡◌, ◌<◌, ◌≤◌, ◌++◌, OnOk, length};
ghost use Rattle.per_fields.specs.Fields.{Last, Units, gap_bits, head_bits, length_bits};

use base_codecs::BitSink;
use base_texts::Memory;
use per_fields::Variant;

/// The octets or items of one unit of a fragment.
pub(crate) const UNIT: usize = 16_384;

/// Writes a length: one octet up to 127, and two octets for a greater one.
#[inline(always)]
pub(crate) fn put_length(sink: &mut BitSink, n: usize) -> Result<(), Memory>
    requires { n < 16384 }
    ensures { OnOk result (sink.new ≡ sink.old ++ length_bits n) }
{
    if n < 128 {
        sink.put_bits(n as u64, 8)
    } else {
        sink.put_bits(32_768 + n as u64, 16)
    }
}

/// Writes what precedes a field that begins at an octet in the aligned variant.
#[inline(always)]
pub(crate) fn put_gap<V: Variant>(sink: &mut BitSink) -> Result<(), Memory>
    ensures { OnOk result (sink.new ≡ sink.old ++ gap_bits V.ALIGNED (length sink.old)) }
{
    if V::ALIGNED {
        sink.align()?;
    }
    Ok(())
}

/// Writes the last length, after what precedes it.
#[inline(always)]
pub(crate) fn put_last_length<V: Variant>(sink: &mut BitSink, n: usize) -> Result<(), Memory>
    requires { n < 16384 }
    ensures { OnOk result (sink.new ≡ sink.old ++ head_bits V.ALIGNED (Last n) (length sink.old)) }
{
    put_gap::<V>(sink)?;
    put_length(sink, n)
}

/// Writes the head of a fragment with this number of units, after what precedes it.
#[inline(never)]
pub(crate) fn put_units<V: Variant>(sink: &mut BitSink, units: usize) -> Result<(), Memory>
    requires { units ≤ 4 }
    ensures { OnOk result (sink.new ≡ sink.old ++ head_bits V.ALIGNED (Units units) (length sink.old)) }
{
    put_gap::<V>(sink)?;
    sink.put_bits(192 + units as u64, 8)
}
