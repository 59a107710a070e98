//! The result of decoding.

use simple_types::Value;

/// A value, and the number of octets of its complete encoding. Exactly these octets were read.
#[derive(Drop)]
pub struct Decoded {
    pub value: Value,
    pub octets: u64,
}
