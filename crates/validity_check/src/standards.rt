//! Texts of attributes compared with default and fixed values.
ghost use Rattle.std.specs.Prelude.{◌≡◌, ◌&&◌, not, IfOk, MatchOption, bytes_eq};
ghost use Rattle.base_trees.specs.Rose.{Rose};
ghost use Rattle.simple_types.specs.Seen.{space_of};
ghost use Rattle.simple_types.specs.Sound.{Sound};
ghost use Rattle.simple_types.specs.declared.labels.ValueLabel.{ValueLabel};
ghost use Rattle.simple_types.specs.Reading.{Accepts, spelled};
ghost use Rattle.validity_rules.specs.Attributes as rule;

use base_texts::{Memory, Text};
use schema_components::AttributeUse;
use simple_types::{Simple, SimpleError, Standard, accept, spell};
use std::alloc::Global;
use validity_rules::InvalidWhy;

// Whether the value of a text, which the type accepts, has this canonical spelling.
fn is_spelled(alloc: Global, simple: &Simple, text: &Text, spelling: &Text) -> Result<bool, Memory>
    requires sound { Sound (space_of simple.now) }
    requires accepted { (value : Rose ValueLabel) × Accepts (space_of simple.now) text.now value }
    ensures { IfOk result (λ is. (value : Rose ValueLabel) → Accepts (space_of simple.now) text.now value → is ≡ bytes_eq (spelled (space_of simple.now) value) spelling.now) }
{
    match accept(alloc, simple, text) {
        Ok(value) => {
            let spelled = spell(alloc, simple, &value.root())?;
            Ok(spelled.bytes() == spelling.bytes())
        }
        Err(SimpleError::Memory) => Err(Memory),
        Err(SimpleError::BadText) => unreachable!(),
        Err(SimpleError::TooWide) => unreachable!(),
    }
}

/// Returns why a default or fixed value rejects a text that the type accepts, if it does (XML Schema Part 1, section 3.5.4).
/// The text is read again where there is a fixed value, and not looked at where there is none.
pub(crate) fn fixed_fault(
    alloc: Global,
    simple: &Simple,
    standard: &Standard,
    text: &Text,
) -> Result<Option<InvalidWhy>, Memory>
    requires sound { Sound (space_of simple.now) }
    requires accepted { (value : Rose ValueLabel) × Accepts (space_of simple.now) text.now value }
    ensures { IfOk result (λ found. (value : Rose ValueLabel) → Accepts (space_of simple.now) text.now value → MatchOption found
        (rule.IsFixedTo standard.now (spelled (space_of simple.now) value))
        (λ why. rule.IsOtherThanFixed standard.now (spelled (space_of simple.now) value) × (why ≡ InvalidWhy.BadAttribute))) }
{
    match standard {
        Standard::Free | Standard::Default(_) => Ok(None),
        Standard::Fixed(spelling) => {
            if is_spelled(alloc, simple, text, spelling)? {
                Ok(None)
            } else {
                Ok(Some(InvalidWhy::BadAttribute))
            }
        }
    }
}

/// Whether an attribute with a text that its type accepts says nothing by it: it may be absent, and has its default or fixed
/// value.
pub fn says_nothing(
    alloc: Global,
    simple: &Simple,
    declared: &AttributeUse,
    text: &Text,
) -> Result<bool, Memory>
    requires sound { Sound (space_of simple.now) }
    requires accepted { (value : Rose ValueLabel) × Accepts (space_of simple.now) text.now value }
    ensures { IfOk result (λ nothing. (value : Rose ValueLabel) → Accepts (space_of simple.now) text.now value
        → nothing ≡ (not declared.now.required && rule.has_spelling declared.now.standard (spelled (space_of simple.now) value))) }
{
    if declared.required {
        return Ok(false);
    }
    match &declared.standard {
        Standard::Free => Ok(false),
        Standard::Default(spelling) => is_spelled(alloc, simple, text, spelling),
        Standard::Fixed(spelling) => is_spelled(alloc, simple, text, spelling),
    }
}
