//! The children of an element without a content model.
ghost use Rattle.std.specs.Prelude.{◌≡◌, true, Some, MatchResult};
ghost use Rattle.base_trees.specs.Rose.{roses_of, none};
ghost use Rattle.xml_read.specs.Sound.{are_sound};
ghost use Rattle.xml_items.specs.Seen.{item_seen};
ghost use Rattle.validity_rules.specs.Valid as rule;
ghost use Rattle.validity_rules.specs.Faults.{why_kid, FirstKid, FirstElement};

use crate::error::Invalidity;
use std::iter::Iterator;
use validity_rules::InvalidWhy;
use xml_items::{Characters, ItemKids, ItemRef};

fn why_kid(label: &ItemRef<'_>) -> InvalidWhy
    ensures { result ≡ why_kid (item_seen label.now) }
{
    match label {
        ItemRef::Element { .. } => InvalidWhy::ElementNotAllowed,
        ItemRef::Text { .. } => InvalidWhy::TextNotAllowed,
    }
}

/// Checks that an element that is nil has no children.
pub fn check_empty(mut kids: ItemKids<'_>) -> Result<(), Invalidity>
    ensures { MatchResult result
        (λ _. roses_of kids.entry ≡ none)
        (λ fault. FirstKid (roses_of kids.entry) (λ _. InvalidWhy.NilWithContent) fault.at fault.why) }
{
    match kids.next() {
        None => Ok(()),
        Some(first) => Err(Invalidity {
            at: first.label().place(),
            why: InvalidWhy::NilWithContent,
        }),
    }
}

/// Checks that an element that may contain nothing has no children.
pub fn check_no_content(mut kids: ItemKids<'_>) -> Result<(), Invalidity>
    ensures { MatchResult result
        (λ _. roses_of kids.entry ≡ none)
        (λ fault. FirstKid (roses_of kids.entry) why_kid fault.at fault.why) }
{
    match kids.next() {
        None => Ok(()),
        Some(first) => {
            let label = first.label();
            Err(Invalidity {
                at: label.place(),
                why: why_kid(&label),
            })
        }
    }
}

/// Returns the characters of an element that has no child elements; none if it has no children.
pub fn only_text<'a>(mut kids: ItemKids<'a>) -> Result<Characters<'a>, Invalidity>
    requires { are_sound (roses_of kids) ≡ true }
    ensures { MatchResult result
        (λ text. rule.only_text (roses_of kids.entry) ≡ Some text)
        (λ fault. FirstElement (roses_of kids.entry) fault.at fault.why) }
{
    let Some(first) = kids.next() else {
        return Ok(Characters::none());
    };
    match first.label() {
        ItemRef::Element { at, .. } => Err(Invalidity {
            at,
            why: InvalidWhy::ElementNotAllowed,
        }),
        ItemRef::Text { text, .. } => match kids.next() {
            None => Ok(text),
            // No two texts are neighbours.
            Some(second) => Err(Invalidity {
                at: second.label().place(),
                why: InvalidWhy::ElementNotAllowed,
            }),
        },
    }
}
