//! The result of decoding.

use simple_types::Value;

/// A value, and the number of octets of its encoding. The octets begin with exactly this number of octets of the value.
#[derive(Drop)]
pub struct Decoded {
    pub value: Value,
    pub octets: u64,
}
