//! Identifiers (X.690, clauses 8.1.2, 8.13 and 8.14).
ghost use Rattle.std.specs.Prelude.{◌≡◌, ◌≤◌, ◌∷◌, [], length, drop};
ghost use Rattle.der_fields.specs.Octets.{begins, context_identifier, form_bit};
ghost use Rattle.der_fields.specs.Encoding.{identifier, is_open};

use asn_types::Form;
use der_fields::{is_constructed, universal_identifier};
use std::marker::Model;

// The greatest number of octets: a number of 32 bits is in five octets of 7 bits, after the first octet (clause 8.1.2.4).
const MOST: usize = 6;

// The octets of an identifier, at the end of the array.
#[derive(Drop)]
struct Identifier {
    octets: [u8; MOST],
    begin: usize,
}

impl Model for Identifier {
    ghost use Rattle.std.specs.Prelude.{List, ℕ, ◌≤◌, drop};

    ghost Value = { List ℕ };

    ghost view = { λ a. drop a.begin a.octets };

    ghost invariant = { λ a. a.begin ≤ 6 };
}

impl Identifier {
    // Returns an identifier of one octet.
    fn one(octet: u8) -> Identifier
        ensures { result ≡ octet ∷ [] }
    {
        Identifier {
            octets: [0, 0, 0, 0, 0, octet],
            begin: MOST - 1,
        }
    }

    // Returns the context-specific tag with this number, from 31 on. It writes octets of 7 bits, from the last to the first, and
    // then the octet that precedes them (clause 8.1.2.4).
    fn large(constructed: bool, number: u32) -> Identifier
        requires { 31 ≤ number }
        ensures { result ≡ context_identifier constructed number }
    {
        let mut octets = [0u8; MOST];
        let mut begin = MOST - 1;
        octets[begin] = (number % 128) as u8;
        let mut left = number / 128;
        'sevens: while 0 < left {
            begin -= 1;
            octets[begin] = 128 + (left % 128) as u8;
            left /= 128;
        }
        begin -= 1;
        octets[begin] = 159 + form_bit(constructed);
        Identifier { octets, begin }
    }

    // Returns the context-specific tag of a component or an alternative.
    fn context(constructed: bool, number: u32) -> Identifier
        ensures { result ≡ context_identifier constructed number }
    {
        if number < 31 {
            return Identifier::one(128 + form_bit(constructed) + number as u8);
        }
        Identifier::large(constructed, number)
    }

    // Returns the identifier of a node of a type of this form, with this tag or without one.
    fn of(tag: Option<u32>, form: &Form) -> Identifier
        ensures { result ≡ identifier tag form.now }
    {
        match tag {
            None => Identifier::one(universal_identifier(form)),
            Some(number) => Identifier::context(is_constructed(form), number),
        }
    }

    fn items(&self) -> &[u8]
        ensures same { result.now ≡ self.now }
        ensures few { length result.now ≤ 6 }
    {
        &self.octets[self.begin..]
    }
}

// Returns the bit that states whether an encoding contains others (clause 8.1.2.5).
fn form_bit(constructed: bool) -> u8
    ensures same { result ≡ form_bit constructed }
    ensures few { result ≤ 32 }
{
    if constructed { 32 } else { 0 }
}

/// Returns whether a node has only the octets of an alternative: a CHOICE without a tag.
pub(crate) fn is_open(tag: Option<u32>, form: &Form) -> bool
    ensures { result ≡ is_open tag form.now }
{
    match (tag, form) {
        (None, Form::Choice { .. }) => true,
        _ => false,
    }
}

/// Returns the number of octets of the identifier of a node.
pub(crate) fn identifier_size(tag: Option<u32>, form: &Form) -> u64
    ensures size { result ≡ length (identifier tag form.now) }
    ensures few { result ≤ 6 }
{
    let identifier = Identifier::of(tag, form);
    identifier.items().len() as u64
}

/// Returns whether octets, from one on, begin with the identifier of a node.
pub(crate) fn begins_so(octets: &[u8], at: u64, tag: Option<u32>, form: &Form) -> bool
    requires { at ≤ length octets.now }
    ensures { result ≡ begins (identifier tag form.now) (drop at octets.now) }
{
    let identifier = Identifier::of(tag, form);
    octets[at as usize..].starts_with(identifier.items())
}
