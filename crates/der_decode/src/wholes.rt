//! Whole numbers in two's complement (X.690, clause 8.3).
ghost use Rattle.std.specs.Prelude.{◌≡◌, ◌<◌, ◌≤◌, ◌^◌, ◌∷◌, true, Ok, Err, IfOk, IfErr, length};
ghost use Rattle.simple_types.specs.Lexical.{is_128_bits};
ghost use Rattle.der_fields.specs.Octets.{are_nine_equal, signed_value, value_from};
ghost use Rattle.der_fields.specs.Reading.{whole_at};
ghost use Rattle.der_decode.specs.Private.Leaves.{end_of};
ghost use Rattle.der_decode.specs.Private.Signs.{turned, turned_octet};

use base_codecs::Spot;
use der_fields::{Stop, Why};

// Returns whether the first nine bits are equal, so that fewer octets are enough (clause 8.3.2).
fn are_nine_equal(octets: &[u8]) -> bool
    ensures { result ≡ are_nine_equal octets.now }
{
    match octets {
        [0, next, ..] => *next < 128,
        [255, next, ..] => 128 <= *next,
        _ => false,
    }
}

// Returns an octet, with each bit inverted if it is of a negative number.
fn turned(octet: u8, negative: bool) -> u8
    ensures { result ≡ turned_octet negative octet }
{
    if negative { 255 - octet } else { octet }
}

// Returns the number that continues from its first octet with the others, with each bit inverted if it is negative.
fn magnitude(first: u8, others: &[u8], negative: bool) -> u128
    requires small { first < 128 }
    requires few { length others.now ≤ 15 }
    ensures same { result ≡ value_from first (turned negative others.now) }
    ensures below { result < 2 ^ 127 }
{
    let mut number = u128::from(first);
    'octets: for octet in others {
        number = 256 * number + u128::from(turned(*octet, negative));
    }
    number
}

// Returns the number of up to 16 octets.
fn signed_of(first: u8, others: &[u8]) -> i128
    requires { length others.now ≤ 15 }
    ensures same { result ≡ signed_value (first ∷ others.now) }
    ensures fits { is_128_bits result ≡ true }
{
    if first < 128 {
        magnitude(first, others, false) as i128
    } else {
        -1 - magnitude(255 - first, others, true) as i128
    }
}

/// Returns the number that fills all octets that remain.
pub(crate) fn whole(octets: &[u8], spot: Spot) -> Result<i128, Stop>
    requires { spot.at ≤ length octets.now }
    ensures ok { IfOk result (λ z. whole_at octets.now spot ≡ Ok (z, end_of octets.now spot)) }
    ensures err { IfErr result (λ stop. whole_at octets.now spot ≡ Err stop) }
{
    let contents = &octets[spot.at as usize..];
    if contents.is_empty() {
        return Err(Stop {
            at: spot.at,
            why: Why::Content,
        });
    }
    if are_nine_equal(contents) {
        return Err(Stop {
            at: spot.at,
            why: Why::NotShortest,
        });
    }
    if 16 < contents.len() {
        return Err(Stop {
            at: spot.at,
            why: Why::TooWide,
        });
    }
    Ok(signed_of(contents[0], &contents[1..]))
}
