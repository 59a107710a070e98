//! Default and fixed values in canonical spelling.
ghost use Rattle.std.specs.Prelude.{◌≡◌, Some, IfOk};
ghost use Rattle.simple_types.specs.Seen.{space_of};
ghost use Rattle.simple_types.specs.Sound.{Sound};
ghost use Rattle.link_simple.specs.Spellings as rule;

use base_texts::{Memory, Text};
use simple_types::{Simple, SimpleError, Standard, accept, spell};
use std::alloc::Global;

// Returns the canonical spelling of the value that the text gives, if the type accepts the text.
fn spelling(alloc: Global, simple: &Simple, text: &Text) -> Result<Option<Text>, Memory>
    requires { Sound (space_of simple.now) }
    ensures { IfOk result (λ found. found ≡ rule.spelling (Some (space_of simple.now)) text.now) }
{
    match accept(alloc, simple, text) {
        Ok(value) => {
            let spelled = spell(alloc, simple, &value.root())?;
            Ok(Some(spelled))
        }
        Err(SimpleError::BadText) => Ok(None),
        Err(SimpleError::TooWide) => Ok(None),
        Err(SimpleError::Memory) => Err(Memory),
    }
}

fn default_value(text: Option<Text>) -> Option<Standard>
    ensures { result ≡ rule.as_default text }
{
    match text {
        Some(text) => Some(Standard::Default(text)),
        None => None,
    }
}

fn fixed_value(text: Option<Text>) -> Option<Standard>
    ensures { result ≡ rule.as_fixed text }
{
    match text {
        Some(text) => Some(Standard::Fixed(text)),
        None => None,
    }
}

/// Returns the value constraint with the canonical spelling of the value that its text gives (XML Schema Part 1, section 3.2.6).
/// Returns `None` if the type doesn't accept the text. The time is that of reading and spelling the text.
pub fn in_spelling(
    alloc: Global,
    simple: &Simple,
    standard: &Standard,
) -> Result<Option<Standard>, Memory>
    requires { Sound (space_of simple.now) }
    ensures { IfOk result (λ found. found ≡ rule.in_spelling (Some (space_of simple.now)) standard.now) }
{
    match standard {
        Standard::Free => Ok(Some(Standard::Free)),
        Standard::Default(text) => {
            let spelled = spelling(alloc, simple, text)?;
            Ok(default_value(spelled))
        }
        Standard::Fixed(text) => {
            let spelled = spelling(alloc, simple, text)?;
            Ok(fixed_value(spelled))
        }
    }
}
