//! Numbers, lengths, identifiers and texts, each from its last octet to its first.
ghost use Rattle.std.specs.Prelude.{◌≡◌, ◌<◌, ◌≤◌, ◌++◌, OnOk, reverse};
ghost use Rattle.der_fields.specs.Octets.{octets_of, length_octets, signed_octets, context_identifier};
ghost use Rattle.der_encode.specs.Private.Turned.{turned, turned_octet};

use base_texts::Memory;

// Returns an octet with each bit inverted, or unchanged.
fn turn(octet: u8, negative: bool) -> u8
    ensures { result ≡ turned_octet negative octet }
{
    if negative { 255 - octet } else { octet }
}

// Writes the least octets of a number, the first of which is below the top. Each bit is inverted if they represent a negative
// number.
fn put_least(back: &mut Vec<u8>, top: u128, number: u128, negative: bool) -> Result<(), Memory>
    requires some { 0 < top }
    requires small { top ≤ 256 }
    ensures { OnOk result (back.new.items ≡ back.old.items ++ reverse (turned negative (octets_of top number))) }
{
    let mut left = number;
    'octets: while top <= left {
        back.push(turn((left % 256) as u8, negative))?;
        left /= 256;
    }
    back.push(turn(left as u8, negative))?;
    Ok(())
}

/// Writes a length (X.690, clauses 8.1.3 and 10.1).
pub(crate) fn put_length(back: &mut Vec<u8>, length: usize) -> Result<(), Memory>
    ensures { OnOk result (back.new.items ≡ back.old.items ++ reverse (length_octets length)) }
{
    if length < 128 {
        back.push(length as u8)?;
        return Ok(());
    }
    let before = back.len();
    put_least(back, 256, length as u128, false)?;
    let count = back.len() - before;
    back.push(128 + count as u8)?;
    Ok(())
}

/// Writes a whole number in two's complement (clause 8.3).
pub(crate) fn put_signed(back: &mut Vec<u8>, number: i128) -> Result<(), Memory>
    ensures { OnOk result (back.new.items ≡ back.old.items ++ reverse (signed_octets number)) }
{
    if number < 0 {
        put_least(back, 128, (-(number + 1)) as u128, true)
    } else {
        put_least(back, 128, number as u128, false)
    }
}

/// Writes the context-specific tag of a component or alternative (clause 8.1.2).
pub(crate) fn put_context(
    back: &mut Vec<u8>,
    constructed: bool,
    number: usize,
) -> Result<(), Memory>
    ensures { OnOk result (back.new.items ≡ back.old.items ++ reverse (context_identifier constructed number)) }
{
    let form: u8 = if constructed { 32 } else { 0 };
    if number < 31 {
        back.push(128 + form + number as u8)?;
        return Ok(());
    }
    back.push((number % 128) as u8)?;
    let mut left = number / 128;
    'sevens: while 0 < left {
        back.push(128 + (left % 128) as u8)?;
        left /= 128;
    }
    back.push(159 + form)?;
    Ok(())
}

/// Writes the octets of a text.
pub(crate) fn put_text(back: &mut Vec<u8>, text: &[u8]) -> Result<(), Memory>
    ensures { OnOk result (back.new.items ≡ back.old.items ++ reverse text.now) }
{
    let before = back.len();
    back.extend_from_slice(text)?;
    back[before..].reverse();
    Ok(())
}
