//! Lengths, and the contents after them (X.690, clauses 8.1.3 and 10.1).
ghost use Rattle.std.specs.Prelude.{◌≡◌, ◌+◌, ◌<◌, ◌≤◌, ◌^◌, IfOk, IfErr, MatchOption, length, slice_index};
ghost use Rattle.der_fields.specs.Octets.{is_not_shortest};
ghost use Rattle.der_fields.specs.FieldsReading.{number_of, stop_at};
ghost use Rattle.der_decode.specs.Private.Windows.{IsWindow, HasNoWindow};

use base_codecs::Spot;
use der_fields::{Stop, Why};

/// The octets at which contents begin and end.
#[derive(Clone, Copy)]
pub(crate) struct Window {
    pub at: u64,
    pub end: u64,
}

// Returns the number of octets, the highest first. None if it doesn't fit in 64 bits.
fn number_of(octets: &[u8]) -> Option<u64>
    ensures { MatchOption result (2 ^ 64 ≤ number_of octets.now) (λ n. n ≡ number_of octets.now) }
{
    let mut number: u64 = 0;
    'octets: for octet in octets {
        if 1u64 << 56 <= number {
            return None;
        }
        number = 256 * number + u64::from(*octet);
    }
    Some(number)
}

// Returns whether a length of the long form isn't in the least octets, or would fit in one (clause 10.1).
fn is_not_shortest(octets: &[u8]) -> bool
    ensures { result ≡ is_not_shortest octets.now }
{
    match octets {
        [] => true,
        [only] => *only < 128,
        [first, _, ..] => *first == 0,
    }
}

// Returns the next `n` of `size` octets, from `at` on. They belong to a node whose length begins at `begin`.
fn filled(size: u64, begin: u64, at: u64, n: u64) -> Result<Window, Stop>
    requires { at ≤ size }
    ensures ok { IfOk result (λ w. (w.at ≡ at) × (w.end ≡ at + n) × (at + n ≤ size)) }
    ensures err { IfErr result (λ stop. (stop ≡ stop_at begin Why.Short) × (size < at + n)) }
{
    if size - at < n {
        return Err(Stop {
            at: begin,
            why: Why::Short,
        });
    }
    Ok(Window { at, end: at + n })
}

// Returns the contents after a length of the long form. Its first octet states how many more octets it has (clause 8.1.3.5).
fn long(octets: &[u8], spot: Spot, count: u64) -> Result<Window, Stop>
    requires there { spot.at < length octets.now }
    requires first { slice_index octets.now spot.at ≡ 128 + count }
    ensures inside { IfOk result (λ w. (spot.at < w.at) × (w.at ≤ w.end) × (w.end ≤ length octets.now)) }
    ensures ok { IfOk result (λ w. IsWindow octets.now spot w.at w.end) }
    ensures err { IfErr result (λ stop. HasNoWindow octets.now spot stop) }
{
    let size = octets.len() as u64;
    let at = spot.at + 1;
    if size - at < count {
        return Err(Stop {
            at: spot.at,
            why: Why::Short,
        });
    }
    let behind = at + count;
    let length = &octets[at as usize..behind as usize];
    if is_not_shortest(length) {
        return Err(Stop {
            at: spot.at,
            why: Why::NotShortest,
        });
    }
    match number_of(length) {
        Some(n) => filled(size, spot.at, behind, n),
        None => Err(Stop {
            at: spot.at,
            why: Why::Short,
        }),
    }
}

/// Returns the contents after the length at a spot.
pub(crate) fn sized(octets: &[u8], spot: Spot) -> Result<Window, Stop>
    requires { spot.at ≤ length octets.now }
    ensures inside { IfOk result (λ w. (spot.at < w.at) × (w.at ≤ w.end) × (w.end ≤ length octets.now)) }
    ensures ok { IfOk result (λ w. IsWindow octets.now spot w.at w.end) }
    ensures err { IfErr result (λ stop. HasNoWindow octets.now spot stop) }
{
    let size = octets.len() as u64;
    if size <= spot.at {
        return Err(Stop {
            at: spot.at,
            why: Why::Short,
        });
    }
    let first = octets[spot.at as usize];
    if first < 128 {
        return filled(size, spot.at, spot.at + 1, u64::from(first));
    }
    long(octets, spot, u64::from(first - 128))
}
