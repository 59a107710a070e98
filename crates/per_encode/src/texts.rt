//! The octets of texts.
ghost use Rattle.std.specs.Prelude.{◌≡◌, ◌++◌, OnOk, map, length};
ghost use Rattle.per_fields.specs.Fields.{counted_bits};
ghost use Rattle.per_fields.specs.Encoding.{octet_writer};

use crate::lengths::{UNIT, put_last_length, put_units};
use base_codecs::BitSink;
use base_texts::Memory;
use per_fields::Variant;

// Writes the octets of a text after their lengths, in fragments (X.691, clause 11.9).
#[inline(never)]
fn put_fragments<V: Variant>(sink: &mut BitSink, text: &[u8]) -> Result<(), Memory>
    ensures { OnOk result (sink.new ≡ sink.old ++ counted_bits V.ALIGNED (map octet_writer text.now) (length sink.old)) }
{
    let mut at: usize = 0;
    'fragments: while UNIT <= text.len() - at {
        let units = ((text.len() - at) / UNIT).min(4);
        put_units::<V>(sink, units)?;
        sink.put_octets(&text[at..at + units * UNIT])?;
        at += units * UNIT;
    }
    put_last_length::<V>(sink, text.len() - at)?;
    sink.put_octets(&text[at..])
}

/// Writes the octets of a text after their lengths (X.691, clause 11.9).
#[inline(never)]
pub(crate) fn put_text<V: Variant>(sink: &mut BitSink, text: &[u8]) -> Result<(), Memory>
    ensures { OnOk result (sink.new ≡ sink.old ++ counted_bits V.ALIGNED (map octet_writer text.now) (length sink.old)) }
{
    if UNIT <= text.len() {
        return put_fragments::<V>(sink, text);
    }
    put_last_length::<V>(sink, text.len())?;
    sink.put_octets(text)
}
