//! Words, and how reading continues after a failure.
ghost use Rattle.std.specs.Prelude.{◌≡◌, ◌≤◌, length, MatchResult};
ghost use Rattle.module_grammar.specs.Reached.{IsFinal};
ghost use Rattle.module_parse.specs.Reads.{ReadsWord, ReadsByte, PassesWord, IsAgain, IsNothing, optional_of};
ghost use Rattle.module_parse.specs.Classes.{class_test};

use base_texts::is_digit;
use module_grammar::{Reach, Stop, later, word};

/// Reads this word.
pub fn literal(text: &[u8], bytes: &[u8], from: Reach) -> Result<Reach, Stop>
    requires { from.at ≤ length bytes.now }
    ensures value { ReadsWord text.now bytes.now from result }
    ensures within { PassesWord (length text.now) (length bytes.now) from result }
{
    word(text, bytes, from)
}

/// Classes of bytes.
#[derive(Clone, Copy)]
pub enum ByteClass {
    Small,
    Capital,
    LetterOrDigit,
    Hexadecimal,
    /// Any byte except a quotation mark.
    Plain,
    /// A byte with which a value begins.
    ValueFirst,
}

impl ByteClass {
    fn has(self, b: u8) -> bool
        ensures { result ≡ class_test self b }
    {
        match self {
            ByteClass::Small => (b'a'..=b'z').contains(&b),
            ByteClass::Capital => (b'A'..=b'Z').contains(&b),
            ByteClass::LetterOrDigit => {
                (b'A'..=b'Z').contains(&b) || (b'a'..=b'z').contains(&b) || is_digit(b)
            }
            ByteClass::Hexadecimal => is_digit(b) || (b'A'..=b'F').contains(&b),
            ByteClass::Plain => b != b'"',
            ByteClass::ValueFirst => {
                b == b'T'
                    || b == b'F'
                    || b == b'-'
                    || is_digit(b)
                    || b == b'"'
                    || b == b'{'
                    || (b'a'..=b'z').contains(&b)
            }
        }
    }
}

/// Reads one byte of this class.
pub fn byte(class: ByteClass, bytes: &[u8], from: Reach) -> Result<Reach, Stop>
    requires { from.at ≤ length bytes.now }
    ensures value { ReadsByte (class_test class) bytes.now from result }
    ensures within { PassesWord 1 (length bytes.now) from result }
{
    if from.at < bytes.len() && class.has(bytes[from.at]) {
        let at = from.at + 1;
        return Ok(Reach {
            at,
            far: later(from.far, at),
        });
    }
    Err(Stop::Fails {
        far: later(from.far, from.at),
    })
}

/// Returns to the place `from` if nothing could be read there. Otherwise returns the stop itself.
pub fn again(from: Reach, stop: Stop) -> Result<Reach, Stop>
    ensures { MatchResult result (λ next. IsAgain from stop next) (λ other. (other ≡ stop) × IsFinal other) }
{
    let far = stop.failed()?;
    Ok(Reach { at: from.at, far })
}

/// Reads nothing, which succeeds everywhere.
pub fn nothing(from: Reach) -> Reach
    ensures { IsNothing from result }
{
    Reach {
        at: from.at,
        far: later(from.far, from.at),
    }
}

/// Returns what was found, or None if nothing could be read.
pub fn optional<T: Drop>(
    from: Reach,
    found: Result<(T, Reach), Stop>,
) -> Result<(Option<T>, Reach), Stop>
    ensures { result ≡ optional_of from found }
{
    match found {
        Ok((value, next)) => Ok((Some(value), next)),
        Err(Stop::Fails { far }) => Ok((None, nothing(Reach { at: from.at, far }))),
        Err(Stop::Deep { at, far }) => Err(Stop::Deep { at, far }),
        Err(Stop::Memory) => Err(Stop::Memory),
    }
}
