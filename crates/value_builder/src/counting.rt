//! The number of nodes of the value of a text.
ghost use Rattle.std.specs.Prelude.{◌≡◌, Ok, Err, MatchResult};
ghost use Rattle.base_trees.specs.Rose.{Rose, shown_count};
ghost use Rattle.simple_types.specs.declared.labels.ValueLabel.{ValueLabel};
ghost use Rattle.simple_types.specs.Seen.{space_of};
ghost use Rattle.simple_types.specs.Sound.{Sound};
ghost use Rattle.simple_types.specs.Answering.{AnswersReading};
ghost use Rattle.simple_types.specs.Reading.{reads, read_characters, Accepts};

use crate::lists::count_list;
use crate::unions::count_union;
use base_texts::{Text, is_treated};
use simple_types::{Class, Simple, SimpleError, accept, accept_label, has_characters};
use std::alloc::Global;

// Returns the number of nodes of the value of a text that is read as it is. It makes no copy.
fn count_text(min: u32, max: Option<u32>, class: Class, text: &Text) -> Result<u64, SimpleError>
    ensures { MatchResult result
        (λ nodes. (value : Rose ValueLabel) × (read_characters min max class text.now ≡ Ok value) × (nodes ≡ shown_count value))
        (λ error. AnswersReading (Err error) (read_characters min max class text.now)) }
{
    if has_characters(min, max, class, text.as_str()) {
        Ok(1)
    } else {
        Err(SimpleError::BadText)
    }
}

/// Returns the number of nodes of the value that the type gives to the text, or why it gives none. 2^64 - 1 means that number or a
/// greater one. No items of a list are kept.
pub fn count(alloc: Global, simple: &Simple, text: &Text) -> Result<u64, SimpleError>
    requires { Sound (space_of simple.now) }
    ensures { MatchResult result
        (λ nodes. (value : Rose ValueLabel) × Accepts (space_of simple.now) text.now value × (nodes ≡ shown_count value))
        (λ error. AnswersReading (Err error) (reads (space_of simple.now) text.now)) }
{
    match simple {
        Simple::List { item, min, max } => count_list(alloc, item, *min, *max, text.as_str()),
        Simple::Union(members) => count_union(alloc, members.items(), text),
        Simple::Chars {
            space,
            min,
            max,
            class,
        } if is_treated(*space, text) => count_text(*min, *max, *class, text),
        _ => {
            if accept_label(alloc, simple, text)?.is_some() {
                return Ok(1);
            }
            let value = accept(alloc, simple, text)?;
            Ok(value.root().count())
        }
    }
}
