//! Encoding and decoding.
ghost use Rattle.std.specs.Prelude.{◌≡◌, ℕ, ◌^◌, ◌<◌, ◌≤◌, List, Some, IfOk, IsErrOf, length};
ghost use Rattle.base_codecs.specs.Bits.{octet_bits};
ghost use Rattle.base_texts.specs.Faults.{Counts};
ghost use Rattle.asn_values.specs.Values.{In};
ghost use Rattle.per_unaligned.specs.Unaligned.{complete_unaligned, AnswersUnaligned};

use asn_types::Module;
use base_texts::{Memory, Source};
use per_decode::{DecodeError, Decoded, decode_by};
use per_encode::encode_by;
use per_fields::Unaligned;
use simple_types::Value;
use std::alloc::Global;

/// Returns the complete encoding of a value of the type of the assignment with this number (X.691, clause 11.1). It consists of
/// complete octets: one zero octet if the value has no bits.
///
/// It visits the value once. The time is linear in the value and its octets.
pub fn encode_unaligned(
    alloc: Global,
    module: &Module,
    t: u32,
    value: &Value,
) -> Result<Vec<u8>, Memory>
    requires { In module.now t value.now }
    ensures { IfOk result (λ octets. octet_bits octets.items ≡ complete_unaligned module.now t value.now) }
{
    encode_by::<Unaligned>(alloc, module, t, value)
}

/// Decodes a value of the type of the assignment with this number. The octets left in the source must begin with its complete
/// encoding. Returns the value and the number of octets of that encoding. At most `limit` octets are read, and none before one of
/// its bits is needed. So what follows the encoding is left in the source.
///
/// # Errors
///
/// `Bad` gives the first fault of the octets. `TooLong` means that their first `limit` end inside a field. After `Failed` the
/// octets that were read may be a prefix of an encoding.
pub fn decode_unaligned<S: Source>(
    alloc: Global,
    module: &Module,
    t: u32,
    source: &mut S,
    limit: u64,
) -> Result<Decoded, DecodeError>
    requires assigned { t < length module.now }
    requires small { limit ≤ 2 ^ 32 }
    ensures value { IfOk result (λ found. In module.now t found.value) }
    ensures limited { IfOk result (λ found. found.octets ≤ limit) }
    ensures answer { (left : List ℕ) → S.left source.old ≡ Some left → AnswersUnaligned module.now t limit left (S.left source.new) result }
    ensures cause { Counts (S.faults source.old) (S.faults source.new) (IsErrOf result DecodeError.Failed) }
{
    decode_by::<S, Unaligned>(alloc, module, t, source, limit)
}
