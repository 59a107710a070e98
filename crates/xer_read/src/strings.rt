//! The texts of mixed content: one string before, between and after the child elements each.
ghost use Rattle.std.specs.Prelude.{◌≡◌, OnOk, false, map};
ghost use Rattle.base_trees.specs.Rose.{node, roses_of};
ghost use Rattle.base_flat_trees.specs.Zips.{added, added_all};
ghost use Rattle.simple_types.specs.declared.labels.ValueLabel.TheVariants as label;
ghost use Rattle.validity_check.specs.Told.{inside_told};
ghost use Rattle.value_builder.specs.Built.{Puts};
ghost use Rattle.xer_read.specs.Private.Keeping.{text_value, missing, strings_from, strings_put};
ghost use Rattle.xer_read.specs.Private.Contents.{TextsMade};
ghost use Rattle.xer_read.specs.Private.Putting.{PartsPut};

use base_texts::{Memory, Text};
use simple_types::ValueLabel;
use std::alloc::Global;
use std::iter::Iterator;
use validity_check::Inside;
use value_builder::ValueBuilder;
use xml_items::{Characters, ItemKids, ItemRef};

// A string with these words.
fn put_string(
    alloc: Global,
    words: &Characters<'_>,
    values: &mut ValueBuilder,
) -> Result<(), Memory>
    ensures { OnOk result (Puts (added (text_value words.now)) values.old values.new) }
{
    let text = words.to_text(alloc)?;
    values.leaf(ValueLabel::Utf8(text))
}

// Appends an empty string, as there is no text.
fn put_missing(has_text: bool, values: &mut ValueBuilder) -> Result<(), Memory>
    ensures { OnOk result (Puts (added_all (map text_value (missing has_text))) values.old values.new) }
{
    if has_text {
        Ok(())
    } else {
        values.leaf(ValueLabel::Utf8(Text::empty()))
    }
}

// Appends the strings before, between and after the child elements.
fn put_each_string(
    alloc: Global,
    kids: &ItemKids<'_>,
    values: &mut ValueBuilder,
) -> Result<(), Memory>
    ensures { OnOk result (Puts (added_all (map text_value (strings_from false (roses_of kids.now)))) values.old values.new) }
{
    let mut has_text = false;
    for kid in kids.again() {
        match kid.label() {
            ItemRef::Text { text, .. } => {
                put_string(alloc, &text, values)?;
                has_text = true;
            }
            ItemRef::Element { .. } => {
                put_missing(has_text, values)?;
                has_text = false;
            }
        }
    }
    put_missing(has_text, values)
}

// The SEQUENCE OF strings, which has none where the element is nil.
fn put_strings(
    alloc: Global,
    nil: bool,
    kids: &ItemKids<'_>,
    values: &mut ValueBuilder,
) -> Result<(), Memory>
    ensures { OnOk result (Puts (added (node label.SequenceOf (roses_of (strings_put nil (roses_of kids.now))))) values.old values.new) }
{
    if nil {
        return values.leaf(ValueLabel::SequenceOf);
    }
    values.open(ValueLabel::SequenceOf)?;
    put_each_string(alloc, kids, values)?;
    values.close();
    Ok(())
}

/// The part for the texts of mixed content, and no part for another content.
pub(crate) fn put_texts(
    alloc: Global,
    inside: Inside,
    nil: bool,
    kids: &ItemKids<'_>,
    values: &mut ValueBuilder,
) -> Result<(), Memory>
    ensures { OnOk result (PartsPut (TextsMade (inside_told inside.entry) (node label.SequenceOf (roses_of (strings_put nil (roses_of kids.now))))) values.old values.new) }
{
    match inside {
        Inside::Nothing => Ok(()),
        Inside::Simple(_) => Ok(()),
        Inside::Children { mixed, .. } => {
            if mixed {
                if values.keeps_nothing() {
                    return Ok(());
                }
                values.part(true)?;
                put_strings(alloc, nil, kids, values)
            } else {
                Ok(())
            }
        }
    }
}
