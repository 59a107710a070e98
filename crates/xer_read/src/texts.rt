//! The text of an element of a simple type.
ghost use Rattle.std.specs.Prelude.{◌≡◌, true, Some, MatchResult};
ghost use Rattle.base_trees.specs.Rose.{Rose, Roses, roses_of};
ghost use Rattle.xml_items.specs.declared.label.ItemLabel.{ItemLabel};
ghost use Rattle.xml_read.specs.Sound.{are_sound};
ghost use Rattle.base_flat_trees.specs.Zips.{added};
ghost use Rattle.simple_types.specs.declared.labels.ValueLabel.{ValueLabel};
ghost use Rattle.simple_types.specs.Seen.{space_of};
ghost use Rattle.simple_types.specs.Sound.{Sound};
ghost use Rattle.validity_rules.specs.Valid as valid;
ghost use Rattle.validity_check.specs.Answers.{Tells, TextFault};
ghost use Rattle.value_builder.specs.Built.{Puts};
ghost use Rattle.xer_read.specs.Private.Given.{IsReadAs};

use simple_types::{Simple, SimpleError};
use validity_check::{CheckError, only_text};
use validity_rules::InvalidWhy;
use value_builder::ValueBuilder;
use xml_items::{Characters, ItemKids};

/// Appends the value that the simple type gives to the characters of an element at this place.
#[inline(always)]
pub(crate) fn put_words(
    simple: &Simple,
    at: u64,
    characters: &Characters<'_>,
    values: &mut ValueBuilder,
) -> Result<(), CheckError>
    requires simple { Sound (space_of simple.now) }
    ensures { (ts : Roses ItemLabel) → valid.only_text ts ≡ Some characters.now → MatchResult result
        (λ _. (value : Rose ValueLabel) × IsReadAs (space_of simple.now) ts value × Puts (added value) values.old values.new)
        (Tells (TextFault (space_of simple.now) ts at)) }
{
    match values.characters(simple, characters) {
        Ok(()) => Ok(()),
        Err(SimpleError::BadText) => Err(CheckError::Invalid {
            at,
            why: InvalidWhy::BadText,
        }),
        Err(SimpleError::TooWide) => Err(CheckError::Invalid {
            at,
            why: InvalidWhy::TooWide,
        }),
        Err(SimpleError::Memory) => Err(CheckError::Memory),
    }
}

/// Appends the value that the simple type gives to the text of an element with these children.
pub(crate) fn put_text(
    simple: &Simple,
    at: u64,
    kids: &ItemKids<'_>,
    values: &mut ValueBuilder,
) -> Result<(), CheckError>
    requires simple { Sound (space_of simple.now) }
    requires sound { are_sound (roses_of kids.now) ≡ true }
    ensures { MatchResult result
        (λ _. (value : Rose ValueLabel) × IsReadAs (space_of simple.now) (roses_of kids.now) value × Puts (added value) values.old values.new)
        (Tells (TextFault (space_of simple.now) (roses_of kids.now) at)) }
{
    let characters = only_text(kids.again())?;
    put_words(simple, at, &characters, values)
}
