//! Enumerations of a base's values.
ghost use Rattle.std.specs.Prelude.{◌≡◌, ◌<◌, ◌≤◌, ◌^◌, ◌↔◌, [], ◌∷◌, IfOk, IsTrue, OnOk, MatchResult, MatchOption, Ok, Err, length, true};
ghost use Rattle.std.specs.Option.{IfSome};
ghost use Rattle.std.specs.Ordering.{nat_cmp, int_cmp};
ghost use Rattle.std.specs.Cmp.Lexicographic.{slice_cmp};
ghost use Rattle.simple_types.specs.Seen.{space_of};
ghost use Rattle.simple_types.specs.Sound.{Sound};
ghost use Rattle.simple_facets.specs.Answering.{AnswersFacets, AnswersSpace};
ghost use Rattle.simple_facets.specs.Applying.{has_bounds};
ghost use Rattle.simple_facets.specs.Private.Deciding.{has_number, has_word, IsTexts};
ghost use Rattle.simple_facets.specs.Refusals.{why_of};
ghost use Rattle.simple_facets.specs.Restricting as rule;

use crate::refusals::{FacetError, FacetWhy};
use base_texts::{Memory, Text, WhiteSpace, treat};
use simple_types::{
    Facet, NumberList, Simple, TextList, Whole, collapsed_number, has_characters, is_within,
    place_of, place_of_word,
};
use std::alloc::Global;

#[tactic(auto, unfolding(simple_types::specs::Seen::space_of))]
fn has_number(now: &Simple, n: i128) -> bool
    requires { Sound (space_of now.now) }
    ensures { result ≡ has_number (space_of now.now) n }
{
    match now {
        Simple::Whole { lo, hi } => is_within(*lo, *hi, n),
        Simple::Numbers(numbers) => place_of(numbers.items(), n).is_some(),
        _ => false,
    }
}

// The number that an enumeration names, if the space has it.
fn number_item(now: &Simple, text: &Text) -> Result<i128, FacetError>
    requires sound { Sound (space_of now.now) }
    requires numbers { has_bounds (space_of now.now) ≡ true }
    ensures { AnswersFacets result (λ due. due ≡ rule.number_item (space_of now.now) text.now) }
{
    match collapsed_number(text.as_str()) {
        None => Err(FacetError::Refused(FacetWhy::NotInBase)),
        Some(Whole::Above | Whole::Below) => Err(FacetError::Refused(FacetWhy::TooWide)),
        Some(Whole::Within(n)) => {
            if has_number(now, n) {
                Ok(n)
            } else {
                Err(FacetError::Refused(FacetWhy::NotInBase))
            }
        }
    }
}

#[tactic(auto, unfolding(simple_types::specs::Seen::space_of))]
fn has_word(now: &Simple, word: &Text) -> bool
    requires { Sound (space_of now.now) }
    ensures { result ≡ has_word (space_of now.now) word.now }
{
    match now {
        Simple::Words { words, .. } => place_of_word(words.items(), word).is_some(),
        Simple::Chars {
            min,
            max,
            class,
            ..
        } => has_characters(*min, *max, *class, word.as_str()),
        _ => false,
    }
}

// The text that an enumeration names, after its treatment, if the space has it.
fn word_item(
    alloc: Global,
    space: WhiteSpace,
    now: &Simple,
    text: &Text,
) -> Result<Text, FacetError>
    requires sound { Sound (space_of now.now) }
    requires texts { IsTexts space (space_of now.now) }
    ensures { AnswersFacets result (λ due. due ≡ rule.word_item space (space_of now.now) text.now) }
{
    let word = treat(alloc, space, text)?;
    if has_word(now, &word) {
        Ok(word)
    } else {
        Err(FacetError::Refused(FacetWhy::NotInBase))
    }
}

// The text of an enumeration.
fn enumeration_of(facet: &Facet) -> Option<&Text>
    ensures { MatchOption result
        (rule.items_of (facet.now ∷ []) ≡ [])
        (λ text. rule.items_of (facet.now ∷ []) ≡ text.now ∷ []) }
{
    match facet {
        Facet::Enumeration(text) => Some(text),
        _ => None,
    }
}

fn number_items(alloc: Global, now: &Simple, facets: &[Facet]) -> Result<Vec<i128>, FacetError>
    requires sound { Sound (space_of now.now) }
    requires numbers { has_bounds (space_of now.now) ≡ true }
    ensures { MatchResult result
        (λ items. rule.each_item (rule.number_item (space_of now.now)) (rule.items_of facets.now) ≡ Ok items.items)
        (λ error. IfSome (why_of error) (λ w. rule.each_item (rule.number_item (space_of now.now)) (rule.items_of facets.now) ≡ Err w)) }
{
    let mut items = Vec::new(alloc);
    'facets: for facet in facets {
        if let Some(text) = enumeration_of(facet) {
            let n = number_item(now, text)?;
            items.push(n)?;
        }
    }
    Ok(items)
}

fn word_items(
    alloc: Global,
    space: WhiteSpace,
    now: &Simple,
    facets: &[Facet],
) -> Result<Vec<Text>, FacetError>
    requires sound { Sound (space_of now.now) }
    requires texts { IsTexts space (space_of now.now) }
    ensures { MatchResult result
        (λ items. rule.each_item (rule.word_item space (space_of now.now)) (rule.items_of facets.now) ≡ Ok items.items)
        (λ error. IfSome (why_of error) (λ w. rule.each_item (rule.word_item space (space_of now.now)) (rule.items_of facets.now) ≡ Err w)) }
{
    let mut items = Vec::new(alloc);
    'facets: for facet in facets {
        if let Some(text) = enumeration_of(facet) {
            let word = word_item(alloc, space, now, text)?;
            items.push(word)?;
        }
    }
    Ok(items)
}

fn sort_numbers(items: &mut Vec<i128>) -> Result<(), Memory>
    ensures fewer { OnOk result (length items.new.items ≤ length items.old.items) }
    ensures ascending { OnOk result (rule.IsAscendingOf int_cmp items.old.items items.new.items) }
{
    items.sort()?;
    items.dedup();
    Ok(())
}

fn sort_words(items: &mut Vec<Text>) -> Result<(), Memory>
    ensures fewer { OnOk result (length items.new.items ≤ length items.old.items) }
    ensures ascending { OnOk result (rule.IsAscendingOf (slice_cmp nat_cmp) items.old.items items.new.items) }
{
    items.sort()?;
    items.dedup();
    Ok(())
}

#[tactic(auto, unfolding(simple_types::specs::Seen::space_of))]
fn enumerated_numbers(alloc: Global, now: &Simple, facets: &[Facet]) -> Result<Simple, FacetError>
    requires sound { Sound (space_of now.now) }
    requires numbers { has_bounds (space_of now.now) ≡ true }
    requires some { 0 < length (rule.items_of facets.now) }
    requires few { length (rule.items_of facets.now) < 2 ^ 32 }
    ensures made { AnswersSpace result (rule.EnumeratedBy rule.IsNumbersOf (rule.each_item (rule.number_item (space_of now.now)) (rule.items_of facets.now))) }
    ensures sound { IfOk result (λ simple. Sound (space_of simple)) }
{
    let mut items = number_items(alloc, now, facets)?;
    sort_numbers(&mut items)?;
    let numbers = NumberList::of(items)?;
    Ok(Simple::Numbers(numbers))
}

#[tactic(auto, unfolding(simple_types::specs::Seen::space_of))]
fn enumerated_words(
    alloc: Global,
    space: WhiteSpace,
    now: &Simple,
    facets: &[Facet],
) -> Result<Simple, FacetError>
    requires sound { Sound (space_of now.now) }
    requires texts { IsTexts space (space_of now.now) }
    requires some { 0 < length (rule.items_of facets.now) }
    requires few { length (rule.items_of facets.now) < 2 ^ 32 }
    ensures made { AnswersSpace result (rule.EnumeratedBy (rule.IsWordsOf space) (rule.each_item (rule.word_item space (space_of now.now)) (rule.items_of facets.now))) }
    ensures sound { IfOk result (λ simple. Sound (space_of simple)) }
{
    let mut words = word_items(alloc, space, now, facets)?;
    sort_words(&mut words)?;
    let words = TextList::of(words)?;
    Ok(Simple::Words { space, words })
}

fn has_enumeration(facets: &[Facet]) -> bool
    ensures { IsTrue result ↔ (0 < length (rule.items_of facets.now)) }
{
    'facets: for facet in facets {
        if enumeration_of(facet).is_some() {
            return true;
        }
    }
    false
}

/// Returns the values of the space that the enumerations name, or the space itself where there is no enumeration.
#[tactic(auto, unfolding(simple_types::specs::Seen::space_of))]
pub(crate) fn enumerated(alloc: Global, now: Simple, facets: &[Facet]) -> Result<Simple, FacetError>
    requires sound { Sound (space_of now) }
    requires few { length (rule.items_of facets.now) < 2 ^ 32 }
    ensures made { AnswersSpace result (rule.ByItems (space_of now) (rule.items_of facets.now)) }
    ensures sound { IfOk result (λ simple. Sound (space_of simple)) }
{
    if !has_enumeration(facets) {
        return Ok(now);
    }
    match &now {
        Simple::Whole { .. } => enumerated_numbers(alloc, &now, facets),
        Simple::Numbers(_) => enumerated_numbers(alloc, &now, facets),
        Simple::Words { space, .. } => enumerated_words(alloc, *space, &now, facets),
        Simple::Chars { space, .. } => enumerated_words(alloc, *space, &now, facets),
        _ => Err(FacetError::Refused(FacetWhy::Misplaced)),
    }
}
