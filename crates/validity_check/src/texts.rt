//! The texts of the attributes of an element, in the order of the uses of its type.
ghost use Rattle.std.specs.Prelude.{◌≡◌, None, IfOk, replicate};
ghost use Rattle.validity_check.specs.Texts.{AreTexts};
ghost use Rattle.validity_check.specs.Ascending.{Ascend};

use crate::places::{Run, place_of};
use base_texts::{Memory, Name, Text};
use schema_components::AttributeUse;
use std::alloc::Global;

// Where no more comparisons than these can come of it, each attribute is looked for one by one.
const FEW_COMPARISONS: usize = 64;

/// Returns whether the attributes and uses are so few that sorting them costs more than comparing each with each.
pub fn are_few(uses: &[AttributeUse], attributes: &[(Name, Text)]) -> bool {
    uses.len().saturating_mul(attributes.len()) <= FEW_COMPARISONS
}

// This number of places of texts, all empty.
pub(crate) fn no_texts<'a>(alloc: Global, count: usize) -> Result<Vec<Option<&'a Text>>, Memory>
    ensures { IfOk result (λ texts. texts.items ≡ replicate count None) }
{
    let texts = vec![in alloc; None; count]?;
    Ok(texts)
}

/// Returns for each of these uses, which ascend, the text of its attribute, if it is present. Each attribute is looked up once.
pub(crate) fn texts_of<'a>(
    alloc: Global,
    uses: &[AttributeUse],
    attributes: &'a [(Name, Text)],
) -> Result<Vec<Option<&'a Text>>, Memory>
    requires { Ascend uses.now }
    ensures { IfOk result (λ texts. AreTexts attributes.now uses.now texts.items) }
{
    let mut texts = no_texts(alloc, uses.len())?;
    let mut run = Run::none();
    let mut left = attributes.len();
    'attributes: while 0 < left {
        left -= 1;
        let found = &attributes[left];
        if let Some(place) = place_of(uses, &found.0, &mut run) {
            texts[place] = Some(&found.1);
        }
    }
    Ok(texts)
}
