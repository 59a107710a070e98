//! The complete encoding of a value.
ghost use Rattle.std.specs.Prelude.{◌≡◌, IfOk};
ghost use Rattle.base_codecs.specs.Bits.{octet_bits};
ghost use Rattle.asn_values.specs.Values.{In};
ghost use Rattle.per_fields.specs.Encoding.{completed, complete, complete_by};

use crate::nodes::put_node;
use asn_types::Module;
use base_codecs::BitSink;
use base_texts::Memory;
use per_fields::{Aligned, Variant};
use simple_types::Value;
use std::alloc::Global;

// Returns complete octets: one zero octet if there are no bits (clause 11.1.3).
fn whole_octets(sink: BitSink) -> Result<Vec<u8>, Memory>
    ensures { IfOk result (λ octets. octet_bits octets.items ≡ completed sink) }
{
    let mut octets = sink.finish();
    if octets.is_empty() {
        octets.push(0)?;
    }
    Ok(octets)
}

/// Returns the complete encoding of a value of the type of the assignment with this number, in one of the two variants (X.691,
/// clause 11.1). It consists of complete octets: one zero octet if the value has no bits.
///
/// It visits the value once. The time is linear in the value and its octets.
pub fn encode_by<V: Variant>(
    alloc: Global,
    module: &Module,
    t: u32,
    value: &Value,
) -> Result<Vec<u8>, Memory>
    requires { In module.now t value.now }
    ensures { IfOk result (λ octets. octet_bits octets.items ≡ complete_by V.ALIGNED module.now t value.now) }
{
    let mut sink = BitSink::new(alloc);
    let body = module.assignment(t).body.root();
    let root = value.root();
    put_node::<V>(&mut sink, module, body, &root)?;
    whole_octets(sink)
}

/// Returns the complete encoding of a value of the type of the assignment with this number, in canonical aligned PER.
pub fn encode(alloc: Global, module: &Module, t: u32, value: &Value) -> Result<Vec<u8>, Memory>
    requires { In module.now t value.now }
    ensures { IfOk result (λ octets. octet_bits octets.items ≡ complete module.now t value.now) }
{
    encode_by::<Aligned>(alloc, module, t, value)
}
