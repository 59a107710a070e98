//! Converts an XML name into an ASN.1 name (X.694).
ghost use Rattle.std.specs.Prelude.{◌≡◌, ◌++◌, ◌∷◌, [], IfOk, OnOk, ◌<◌, string_bytes, if◌then◌else◌};
ghost use Rattle.std.specs.Char.{is_ascii_digit};
ghost use Rattle.std.specs.Str.{chars};
ghost use Rattle.asn_names.specs.Conversion.{converted, kept, letter_x, cased};

use base_texts::{Memory, Text};
use std::alloc::{AllocError, Global};

/// The kind of thing that an ASN.1 name denotes.
#[derive(Clone, Copy, Debug, PartialEq, Eq)]
pub enum NameKind {
    /// A type. Its name begins with a capital letter.
    Reference,
    /// A component, an alternative or an enumeration item. Its name begins with a small letter.
    Identifier,
}

// Returns what a conversion keeps of a character: a letter or a digit as it is, and a hyphen for a character that separates
// words.
#[tactic(auto, unfolding(crate::specs::Conversion::kept))]
fn kept(c: char) -> Option<char>
    ensures { result ≡ kept c }
{
    match c {
        ' ' | '.' | '_' | '-' => Some('-'),
        'A'..='Z' | 'a'..='z' | '0'..='9' => Some(c),
        _ => None,
    }
}

fn letter_x(kind: NameKind) -> char
    ensures { result ≡ letter_x kind }
{
    match kind {
        NameKind::Reference => 'X',
        NameKind::Identifier => 'x',
    }
}

fn cased(kind: NameKind, c: char) -> char
    ensures { result ≡ cased kind c }
{
    match kind {
        NameKind::Reference => c.to_ascii_uppercase(),
        NameKind::Identifier => c.to_ascii_lowercase(),
    }
}

// Appends the first letter or digit of a name: a letter in the case of its kind, or an `x` and then the digit.
fn begin(name: &mut String, kind: NameKind, c: char) -> Result<(), AllocError>
    requires { c < 128 }
    ensures { OnOk result (string_bytes name.new ≡ string_bytes name.old ++ (if is_ascii_digit c then letter_x kind ∷ c ∷ [] else cased kind c ∷ [])) }
{
    if c.is_ascii_digit() {
        name.push(letter_x(kind))?;
    }
    name.push(cased(kind, c))
}

/// Returns the ASN.1 name of an XML name (X.694). It keeps the ASCII letters and digits, and writes one hyphen for each run of
/// spaces, full stops, low lines and hyphens between them. The result begins with a letter in the case of its kind.
pub fn convert(alloc: Global, kind: NameKind, name: &Text) -> Result<Text, Memory>
    ensures { IfOk result (λ made. made ≡ converted kind (chars name.now)) }
{
    let mut made = String::with_capacity(alloc, name.bytes().len())?;
    let mut is_apart = false;
    'characters: for c in name.as_str().chars() {
        match kept(c) {
            None => {}
            Some('-') => is_apart = true,
            Some(c) if made.is_empty() => {
                begin(&mut made, kind, c)?;
                is_apart = false;
            }
            Some(c) => {
                if is_apart {
                    made.push('-')?;
                }
                made.push(c)?;
                is_apart = false;
            }
        }
    }
    if made.is_empty() {
        made.push(letter_x(kind))?;
    }
    Text::from_string(made)
}
