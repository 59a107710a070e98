//! The presence bits of a SEQUENCE.
ghost use Rattle.std.specs.Prelude.{◌≡◌, ◌++◌, OnOk, length};
ghost use Rattle.per_fields.specs.Encoding.{flag_bits};

use asn_types::Component;
use base_codecs::BitSink;
use base_texts::Memory;

/// Writes a bit for each OPTIONAL component (X.691, clause 19.2), up to 64 of them with one call of the sink.
pub(crate) fn put_flags(
    sink: &mut BitSink,
    parts: &[Component],
    present: &[bool],
) -> Result<(), Memory>
    requires { length parts.now ≡ length present.now }
    ensures { OnOk result (sink.new ≡ sink.old ++ flag_bits parts.now present.now) }
{
    let mut held: u64 = 0;
    let mut count: u32 = 0;
    'parts: for i in 0..parts.len() {
        if parts[i].optional {
            if count == 64 {
                sink.put_bits(held, 64)?;
                held = 0;
                count = 0;
            }
            held = 2 * held + u64::from(present[i]);
            count += 1;
        }
    }
    if count == 0 {
        return Ok(());
    }
    sink.put_bits(held, count)
}
