//! The values of a base that meet the facets.
ghost use Rattle.std.specs.Prelude.{◌≡◌, IfOk, filter};
ghost use Rattle.simple_types.specs.Space.{Words, Numbers, ListOf};
ghost use Rattle.simple_types.specs.Seen.{space_of};
ghost use Rattle.simple_facets.specs.Restricting as rule;

use crate::constraints::Constraints;
use base_texts::{Memory, Text, WhiteSpace, is_treated};
use simple_types::{NumberList, Simple, TextList, char_count, copy, is_at_most, is_within};
use std::alloc::Global;

fn least_length(asked: Constraints, least: u32) -> u32
    ensures { result ≡ rule.least_length asked least }
{
    let least = least.max(asked.min_length.unwrap_or(0));
    least.max(asked.exact_length.unwrap_or(0))
}

fn lesser(n: Option<u32>, most: Option<u32>) -> Option<u32>
    ensures { result ≡ rule.lesser n most }
{
    match n {
        None => most,
        Some(n) => match most {
            None => Some(n),
            Some(most) => Some(n.min(most)),
        },
    }
}

fn greatest_length(asked: Constraints, most: Option<u32>) -> Option<u32>
    ensures { result ≡ rule.greatest_length asked most }
{
    lesser(asked.exact_length, lesser(asked.max_length, most))
}

fn is_length(asked: Constraints, n: usize) -> bool
    ensures { result ≡ rule.is_length asked n }
{
    least_length(asked, 0) as usize <= n && is_at_most(n, greatest_length(asked, None))
}

fn keeps_number(asked: Constraints, n: i128) -> bool
    ensures { result ≡ rule.keeps_number asked n }
{
    is_within(asked.lower_bound, asked.upper_bound, n)
}

fn keeps_word(asked: Constraints, space: WhiteSpace, word: &Text) -> bool
    ensures { result ≡ rule.keeps_word asked space word.now }
{
    is_length(asked, char_count(word.as_str())) && is_treated(space, word)
}

fn kept_numbers(alloc: Global, asked: Constraints, numbers: &[i128]) -> Result<NumberList, Memory>
    ensures { IfOk result (λ kept. kept ≡ filter (rule.keeps_number asked) numbers.now) }
{
    let mut kept = Vec::new(alloc);
    'numbers: for n in numbers {
        if keeps_number(asked, *n) {
            kept.push(*n)?;
        }
    }
    NumberList::of(kept)
}

fn kept_words(
    alloc: Global,
    asked: Constraints,
    space: WhiteSpace,
    words: &[Text],
) -> Result<TextList, Memory>
    ensures { IfOk result (λ kept. kept ≡ filter (rule.keeps_word asked space) words.now) }
{
    let mut kept = Vec::new(alloc);
    'words: for word in words {
        if keeps_word(asked, space, word) {
            let copied = word.copy(alloc)?;
            kept.push(copied)?;
        }
    }
    TextList::of(kept)
}

#[tactic(auto, unfolding(simple_types::specs::Seen::space_of))]
fn narrowed_words(
    alloc: Global,
    asked: Constraints,
    space: WhiteSpace,
    words: &[Text],
) -> Result<Simple, Memory>
    ensures { IfOk result (λ simple. space_of simple ≡ rule.narrowed (Words space words.now) asked) }
{
    let space = asked.white_space.unwrap_or(space);
    let words = kept_words(alloc, asked, space, words)?;
    Ok(Simple::Words { space, words })
}

#[tactic(auto, unfolding(simple_types::specs::Seen::space_of))]
fn narrowed_numbers(alloc: Global, asked: Constraints, numbers: &[i128]) -> Result<Simple, Memory>
    ensures { IfOk result (λ simple. space_of simple ≡ rule.narrowed (Numbers numbers.now) asked) }
{
    let numbers = kept_numbers(alloc, asked, numbers)?;
    Ok(Simple::Numbers(numbers))
}

fn narrowed_list(
    alloc: Global,
    asked: Constraints,
    item: &Simple,
    min: u32,
    max: Option<u32>,
) -> Result<Simple, Memory>
    ensures { IfOk result (λ simple. space_of simple ≡ rule.narrowed (ListOf (space_of item.now) min max) asked) }
{
    let item = copy(alloc, item)?;
    let item = Box::new(alloc, item)?;
    Ok(Simple::List {
        item,
        min: least_length(asked, min),
        max: greatest_length(asked, max),
    })
}

/// Returns the values of the base that meet the constraints.
#[tactic(auto, unfolding(simple_types::specs::Seen::space_of))]
pub(crate) fn narrowed(alloc: Global, base: &Simple, asked: Constraints) -> Result<Simple, Memory>
    ensures { IfOk result (λ simple. space_of simple ≡ rule.narrowed (space_of base.now) asked) }
{
    match base {
        Simple::Bool => Ok(Simple::Bool),
        Simple::Whole { lo, hi } => Ok(Simple::Whole {
            lo: asked.lower_bound.or(*lo),
            hi: asked.upper_bound.or(*hi),
        }),
        Simple::Numbers(numbers) => narrowed_numbers(alloc, asked, numbers.items()),
        Simple::Words { space, words } => narrowed_words(alloc, asked, *space, words.items()),
        Simple::Chars {
            space,
            min,
            max,
            class,
        } => Ok(Simple::Chars {
            space: asked.white_space.unwrap_or(*space),
            min: least_length(asked, *min),
            max: greatest_length(asked, *max),
            class: *class,
        }),
        Simple::List { item, min, max } => narrowed_list(alloc, asked, item, *min, *max),
        Simple::Union(_) => copy(alloc, base),
    }
}

fn are_crossed(least: Option<i128>, greatest: Option<i128>) -> bool
    ensures { result ≡ rule.are_crossed least greatest }
{
    match least {
        None => false,
        Some(least) => match greatest {
            None => false,
            Some(greatest) => greatest < least,
        },
    }
}

/// Returns whether bounds are crossed, or no number or word is left.
#[tactic(auto, unfolding(simple_types::specs::Seen::space_of))]
pub(crate) fn is_empty(simple: &Simple) -> bool
    ensures { result ≡ rule.is_empty (space_of simple.now) }
{
    match simple {
        Simple::Whole { lo, hi } => are_crossed(*lo, *hi),
        Simple::Numbers(numbers) => numbers.items().is_empty(),
        Simple::Words { words, .. } => words.items().is_empty(),
        Simple::Chars { min, max, .. } => !is_at_most(*min as usize, *max),
        Simple::List { min, max, .. } => !is_at_most(*min as usize, *max),
        _ => false,
    }
}
