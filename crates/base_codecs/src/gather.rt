//! Gathers bits of octets into a number.
ghost use Rattle.std.specs.Prelude.{◌≡◌, ℕ, ◌<◌, ◌≤◌, ◌+◌, ◌*◌, ◌^◌, ◌++◌, length, [], ◌∷◌};
ghost use Rattle.base_codecs.specs.Bits.{bits, octet_bits};

/// Returns the number whose bits are those of `held` and of the octets.
pub(crate) fn gather(held: u8, unread: u32, buf: &[u8]) -> u128
    requires part { unread ≤ 7 }
    requires fits { held < 2 ^ unread }
    requires few { length buf.now ≤ 9 }
    ensures below { result < 2 ^ (unread + 8 * length buf.now) }
    ensures same { bits (unread + 8 * length buf.now) result ≡ bits unread held ++ octet_bits buf.now }
{
    let mut all = held as u128;
    for octet in buf {
        all = all * 256 + *octet as u128;
    }
    all
}

/// Returns the number whose bits are those of `held` and of one octet.
#[inline(always)]
pub(crate) fn gather_octet(held: u8, unread: u32, octet: u8) -> u32
    requires part { unread ≤ 7 }
    requires fits { held < 2 ^ unread }
    ensures below { result < 2 ^ (unread + 8) }
    ensures same { bits (unread + 8) result ≡ bits unread held ++ octet_bits (octet ∷ []) }
{
    held as u32 * 256 + octet as u32
}

/// Prepends the bits of `held` to the octets, which shift by that number of bits, and returns the bits shifted out at the end.
pub(crate) fn carry(octets: &mut [u8], held: u8, unread: u32) -> u8
    requires part { unread ≤ 7 }
    requires fits { held < 2 ^ unread }
    ensures length { length octets.new ≡ length octets.old }
    ensures below { result < 2 ^ unread }
    ensures same { octet_bits octets.new ++ bits unread result ≡ bits unread held ++ octet_bits octets.old }
{
    let mut left = held;
    'octets: for i in 0..octets.len() {
        let all = u32::from(left) * 256 + u32::from(octets[i]);
        octets[i] = (all >> unread) as u8;
        left = (all % (1u32 << unread)) as u8;
    }
    left
}
