//! Items of an ENUMERATED.
ghost use Rattle.std.specs.Prelude.{◌≡◌, ◌||◌, None, Some, [], IfOk, MatchOption, option_map};
ghost use Rattle.module_text.specs.Listed.{first};
ghost use Rattle.module_text.specs.Simple as simple;
ghost use Rattle.module_text.specs.Faults as rule;

use crate::bounds::is_below;
use crate::finding::unless;
use crate::numbers::{is_printed_number, whole_of};
use crate::seen::Seen;
use base_texts::Memory;
use module_text::{ModuleWhy, NumberedItem, PlainName, TextFault, Written};
use std::alloc::Global;

// Returns whether the identifier is `int` and the number.
fn is_numbered_so(item: &NumberedItem) -> bool
    ensures { result ≡ rule.is_numbered_so item.now }
{
    match item.identifier.name.bytes() {
        [b'i', b'n', b't', rest @ ..] => rest == item.number.written.bytes(),
        _ => false,
    }
}

fn is_above(before: Option<i128>, number: Option<i128>) -> bool
    ensures { result ≡ rule.is_above before number }
{
    before.is_none() || is_below(before, number)
}

// Returns the first fault of an item after one with this number, except Duplicate.
#[tactic(auto, using(crate::proofs::Firsts::firsts))]
fn item_fault(before: Option<i128>, item: &NumberedItem) -> Option<TextFault>
    ensures { result ≡ first (rule.item_faults before item.now) }
{
    if let Some(fault) = unless(
        is_numbered_so(item),
        item.identifier.at,
        ModuleWhy::Spelling,
    ) {
        return Some(fault);
    }
    let above = is_above(before, whole_of(&item.number));
    unless(
        is_printed_number(&item.number) && above,
        item.number.at,
        ModuleWhy::Spelling,
    )
}

/// Returns the first fault of items with numbers.
#[tactic(auto, using(crate::proofs::Firsts::firsts))]
pub fn numbered_fault(alloc: Global, items: &[NumberedItem]) -> Result<Option<TextFault>, Memory>
    ensures { IfOk result (λ found. found ≡ first (rule.numbered_faults [] None items.now)) }
{
    let mut seen = Seen::new(alloc);
    let mut last = None;
    'items: for item in items {
        let name = &item.identifier.name;
        if seen.has(name) {
            return Ok(Some(TextFault {
                at: item.identifier.at,
                why: ModuleWhy::Duplicate,
            }));
        }
        if let Some(fault) = item_fault(last, item) {
            return Ok(Some(fault));
        }
        seen.note(name.copy(alloc)?)?;
        last = whole_of(&item.number);
    }
    Ok(None)
}

/// Returns the numbers, if each has 128 bits.
pub fn numbers_of(alloc: Global, items: &[NumberedItem]) -> Result<Option<Vec<i128>>, Memory>
    ensures { IfOk result (λ found. MatchOption found (simple.numbers_of items.now ≡ None) (λ numbers. simple.numbers_of items.now ≡ Some numbers.items)) }
{
    let mut numbers = Vec::with_capacity(alloc, items.len())?;
    'items: for item in items {
        let Some(number) = whole_of(&item.number) else {
            return Ok(None);
        };
        numbers.push(number)?;
    }
    Ok(Some(numbers))
}

/// Returns whether the first text precedes the second in the order of their bytes.
pub fn text_lt(first: &[u8], second: &[u8]) -> bool
    ensures { result ≡ simple.text_lt first.now second.now }
{
    first.cmp(second).is_lt()
}

// Returns whether the word may follow this one. The words of an order may be in any order.
fn may_follow(order: bool, before: Option<&Written>, word: &Written) -> bool
    ensures { result ≡ (order || rule.is_word_above (option_map (λ w. w.now) before.entry) word.now) }
{
    match before {
        Some(before) => order || text_lt(before.bytes(), word.bytes()),
        None => true,
    }
}

/// Returns the first fault of items without numbers, which represent these words. Those of an order may be in any order.
pub fn word_fault(
    alloc: Global,
    order: bool,
    items: &[PlainName],
    words: &[Written],
) -> Result<Option<TextFault>, Memory>
    ensures { IfOk result (λ found. found ≡ first (rule.word_faults order [] None items.now words.now)) }
{
    let mut seen = Seen::new(alloc);
    let mut last: Option<&Written> = None;
    let count = items.len().min(words.len());
    'items: for i in 0..count {
        let item = &items[i];
        let word = &words[i];
        if seen.has(&item.name) {
            return Ok(Some(TextFault {
                at: item.at,
                why: ModuleWhy::Duplicate,
            }));
        }
        if !may_follow(order, last, word) {
            return Ok(Some(TextFault {
                at: item.at,
                why: ModuleWhy::Spelling,
            }));
        }
        seen.note(item.name.copy(alloc)?)?;
        last = Some(word);
    }
    Ok(None)
}
