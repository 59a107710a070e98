//! The simple type that a type represents.
ghost use Rattle.std.specs.Prelude.{◌≡◌, ◌&&◌, Some, None, IfOk, MatchOption, not};
ghost use Rattle.std.specs.List.{list_all};
ghost use Rattle.base_trees.specs.Rose.{roses_of};
ghost use Rattle.simple_types.specs.Seen.{space_of, spaces_in};
ghost use Rattle.simple_types.specs.Sound.{Sound, AreSound, has_list};
ghost use Rattle.simple_types.specs.Space.{Booleans};
ghost use Rattle.module_text.specs.Told as told;
ghost use Rattle.module_text.specs.Simple as rule;
ghost use Rattle.module_simple.specs.Made.{Makes, AreMade};

use base_texts::{Memory, Text, WhiteSpace, is_treated};
use base_trees::Tree;
use module_pieces::{
    Bounds, have_names_alone, is_xml_text, numbers_of, range_of, sizes_of, text_lt, told_alone,
    white_space_alone, words_of,
};
use module_text::{
    Alone, NumberedItem, PlainEnds, PlainForm, PlainLabel, PlainName, PlainPart, PlainRange, Spot,
    TypeMark,
};
use simple_types::{Class, NumberList, Simple, SimpleList, TextList, has_list, is_union};
use std::alloc::Global;

fn is_counted(n: usize) -> bool
    ensures { result ≡ rule.is_counted n }
{
    0 < n && n <= u32::MAX as usize
}

fn are_bounds(bounds: Bounds) -> bool
    ensures { result ≡ rule.are_bounds bounds }
{
    match bounds {
        (Some(least), Some(greatest)) => least <= greatest,
        _ => true,
    }
}

fn are_sizes(sizes: (u32, Option<u32>)) -> bool
    ensures { result ≡ rule.are_sizes sizes }
{
    match sizes.1 {
        Some(most) => sizes.0 <= most,
        None => true,
    }
}

// Returns whether each number is above the previous one.
fn ascend(numbers: &[i128]) -> bool
    ensures { result ≡ rule.ascend numbers.now }
{
    let mut last = None;
    'numbers: for number in numbers {
        if let Some(before) = last {
            if before >= *number {
                return false;
            }
        }
        last = Some(*number);
    }
    true
}

// Returns whether each text is above the previous one.
fn texts_ascend(words: &[Text]) -> bool
    ensures { result ≡ rule.texts_ascend words.now }
{
    let mut last: Option<&Text> = None;
    'words: for word in words {
        if let Some(before) = last {
            if !text_lt(before.bytes(), word.bytes()) {
                return false;
            }
        }
        last = Some(word);
    }
    true
}

fn is_word(how: WhiteSpace, word: &Text) -> bool
    ensures { result ≡ rule.is_word how word.now }
{
    is_xml_text(word.bytes()) && is_treated(how, word)
}

fn are_words(how: WhiteSpace, words: &[Text]) -> bool
    ensures { result ≡ list_all (rule.is_word how) words.now }
{
    words.iter().all(|word| is_word(how, word))
}

// Returns INTEGER with these bounds.
#[tactic(auto, using(crate::proofs::Sounding::bounds), unfolding(simple_types::specs::Seen::space_of))]
fn whole_simple(range: &Option<PlainRange>) -> Option<Simple>
    ensures { Makes result (rule.whole_space (told.range_of range.now)) }
{
    let bounds = range_of(range)?;
    if !are_bounds(bounds) {
        return None;
    }
    Some(Simple::Whole {
        lo: bounds.0,
        hi: bounds.1,
    })
}

// Returns ENUMERATED of numbers.
#[tactic(auto, using(crate::proofs::Sounding::counted, crate::proofs::Sounding::numbers_ascend), unfolding(simple_types::specs::Seen::space_of))]
fn number_simple(alloc: Global, items: &[NumberedItem]) -> Result<Option<Simple>, Memory>
    ensures { IfOk result (λ found. Makes found (rule.number_space (rule.numbers_of items.now))) }
{
    let Some(numbers) = numbers_of(alloc, items)? else {
        return Ok(None);
    };
    if !is_counted(numbers.len()) || !ascend(&numbers) {
        return Ok(None);
    }
    Ok(Some(Simple::Numbers(NumberList::of(numbers)?)))
}

// Returns ENUMERATED of words.
#[tactic(auto, using(crate::proofs::Sounding::counted, crate::proofs::Sounding::words_ascend, crate::proofs::Sounding::are_words, crate::proofs::Sounding::no_words), unfolding(simple_types::specs::Seen::space_of))]
fn word_simple(
    alloc: Global,
    marks: &[TypeMark],
    items: &[PlainName],
    space: Option<WhiteSpace>,
) -> Result<Option<Simple>, Memory>
    ensures { IfOk result (λ found. Makes found (rule.word_space (told.words_of marks.now items.now) space)) }
{
    let Some(space) = space else {
        return Ok(None);
    };
    let Some(words) = words_of(alloc, marks, items)? else {
        return Ok(None);
    };
    if !is_counted(words.len()) || !texts_ascend(&words) || !are_words(space, &words) {
        return Ok(None);
    }
    Ok(Some(Simple::Words {
        space,
        words: TextList::of(words)?,
    }))
}

// Returns UTF8String.
#[tactic(auto, using(crate::proofs::Sounding::sizes), unfolding(simple_types::specs::Seen::space_of))]
fn text_simple(size: &Option<PlainEnds>, class: Class, space: Option<WhiteSpace>) -> Option<Simple>
    ensures { Makes result (rule.text_space (told.sizes_of size.now) class space) }
{
    let sizes = sizes_of(size)?;
    let space = space?;
    if !are_sizes(sizes) {
        return None;
    }
    Some(Simple::Chars {
        space,
        min: sizes.0,
        max: sizes.1,
        class,
    })
}

// Returns whether parts have no instructions except NAME.
fn are_plain(parts: &[PlainPart]) -> bool
    ensures { result ≡ rule.are_plain parts.now }
{
    parts
        .iter()
        .all(|part| have_names_alone(part.marks.items()))
}

// Returns the simple types that these types represent. None if one of them represents none, or is a union.
#[cycle(simple)]
fn members_told(alloc: Global, kids: &[Tree<PlainLabel>]) -> Result<Option<Vec<Simple>>, Memory>
    ensures { IfOk result (λ found. MatchOption found
        (rule.members_told (roses_of kids.now) ≡ None)
        (λ members. AreMade (rule.members_told (roses_of kids.now)) members.items)) }
{
    let mut members = Vec::with_capacity(alloc, kids.len())?;
    'kids: for kid in kids {
        let Some(member) = simple_told(alloc, Spot::Elsewhere, kid)? else {
            return Ok(None);
        };
        if is_union(&member) {
            return Ok(None);
        }
        members.push(member)?;
    }
    Ok(Some(members))
}

// Returns a union of these types.
#[cycle(simple)]
fn union_simple(alloc: Global, kids: &[Tree<PlainLabel>]) -> Result<Option<Simple>, Memory>
    ensures { IfOk result (λ found. Makes found (rule.union_space (rule.members_told (roses_of kids.now)))) }
{
    let Some(members) = members_told(alloc, kids)? else {
        return Ok(None);
    };
    let listed = members.as_slice();
    if !is_counted(listed.len()) {
        return Ok(None);
    }
    Ok(Some(Simple::Union(SimpleList::of(members))))
}

// Returns the simple type that the item of a type represents, if it is at this spot.
#[cycle(simple)]
fn item_told(alloc: Global, spot: Spot, kids: &[Tree<PlainLabel>]) -> Result<Option<Simple>, Memory>
    ensures { IfOk result (λ found. Makes found (rule.item_told spot (roses_of kids.now))) }
{
    match kids.first() {
        Some(kid) => simple_told(alloc, spot, kid),
        None => Ok(None),
    }
}

// Returns whether there is a list of this size with such items.
fn may_be_listed(sizes: (u32, Option<u32>), item: &Simple) -> bool
    requires { Sound (space_of item.now) }
    ensures { result ≡ (rule.are_sizes sizes && not (has_list (space_of item.now))) }
{
    are_sizes(sizes) && !has_list(item)
}

// Returns a list of this size with items of this type.
#[cycle(simple)]
#[tactic(auto, using(crate::proofs::Making::made_none, crate::proofs::Making::list_no_sizes, crate::proofs::Making::list_no_item))]
fn list_simple(
    alloc: Global,
    size: &Option<PlainEnds>,
    spot: Spot,
    kids: &[Tree<PlainLabel>],
) -> Result<Option<Simple>, Memory>
    ensures { IfOk result (λ found. Makes found (rule.list_space (told.sizes_of size.now) (rule.item_told spot (roses_of kids.now)))) }
{
    let Some(sizes) = sizes_of(size) else {
        return Ok(None);
    };
    let Some(item) = item_told(alloc, spot, kids)? else {
        return Ok(None);
    };
    if !may_be_listed(sizes, &item) {
        return Ok(None);
    }
    let item = Box::new(alloc, item)?;
    Ok(Some(Simple::List {
        item,
        min: sizes.0,
        max: sizes.1,
    }))
}

/// Returns the spot of the item of a type at this spot.
pub fn item_spot(spot: Spot) -> Spot
    ensures { result ≡ rule.item_spot spot }
{
    match spot {
        Spot::Order => Spot::OrderItem,
        _ => Spot::Elsewhere,
    }
}

/// Returns whether this is the spot of the item of an order.
pub fn is_order_item(spot: Spot) -> bool
    ensures { result ≡ rule.is_order_item spot }
{
    matches!(spot, Spot::OrderItem)
}

// Returns BOOLEAN.
#[tactic(auto, unfolding(simple_types::specs::Seen::space_of))]
fn boolean_simple(alone: Alone) -> Option<Simple>
    ensures { Makes result (rule.if_so (told.is_nothing alone) (Some Booleans)) }
{
    match alone {
        Alone::Nothing => Some(Simple::Bool),
        _ => None,
    }
}

// Returns INTEGER without instructions.
fn whole_alone(alone: Alone, range: &Option<PlainRange>) -> Option<Simple>
    ensures { Makes result (rule.if_so (told.is_nothing alone) (rule.whole_space (told.range_of range.now))) }
{
    match alone {
        Alone::Nothing => whole_simple(range),
        _ => None,
    }
}

// Returns ENUMERATED with USE-NUMBER.
fn numbers_alone(
    alloc: Global,
    alone: Alone,
    items: &[NumberedItem],
) -> Result<Option<Simple>, Memory>
    ensures { IfOk result (λ found. Makes found (rule.if_so (told.is_number_alone alone) (rule.number_space (rule.numbers_of items.now)))) }
{
    match alone {
        Alone::UseNumber => number_simple(alloc, items),
        _ => Ok(None),
    }
}

// Returns ENUMERATED of words that is not the item of an order.
fn words_elsewhere(
    alloc: Global,
    spot: Spot,
    marks: &[TypeMark],
    items: &[PlainName],
    space: Option<WhiteSpace>,
) -> Result<Option<Simple>, Memory>
    ensures { IfOk result (λ found. Makes found (rule.if_so (not (rule.is_order_item spot)) (rule.word_space (told.words_of marks.now items.now) space))) }
{
    if is_order_item(spot) {
        return Ok(None);
    }
    word_simple(alloc, marks, items, space)
}

// Returns whether USE-UNION is the only instruction of a CHOICE, and its parts have none except NAME.
fn is_plain_union(alone: Alone, parts: &[PlainPart]) -> bool
    ensures { result ≡ (told.is_union_alone alone && rule.are_plain parts.now) }
{
    matches!(alone, Alone::UseUnion) && are_plain(parts)
}

// Returns whether LIST is the only instruction of a SEQUENCE OF, and its item has none except NAME.
fn is_plain_list(alone: Alone, part: &PlainPart) -> bool
    ensures { result ≡ (told.is_list_alone alone && told.have_names_alone part.now.marks) }
{
    matches!(alone, Alone::List) && have_names_alone(part.marks.items())
}

/// Returns the simple type that a type at this spot represents, if it represents one. The time is linear in the type.
#[cycle(simple)]
pub fn simple_told(
    alloc: Global,
    spot: Spot,
    node: &Tree<PlainLabel>,
) -> Result<Option<Simple>, Memory>
    ensures { IfOk result (λ found. Makes found (rule.simple_told spot node.now)) }
{
    let label = node.label();
    let marks = label.marks.items();
    let alone = told_alone(marks);
    match &label.form {
        PlainForm::Bool => Ok(boolean_simple(alone)),
        PlainForm::Int { range } => Ok(whole_alone(alone, range)),
        PlainForm::Numbers { items } => numbers_alone(alloc, alone, items.items()),
        PlainForm::Words { identifiers } => {
            let space = white_space_alone(alone);
            words_elsewhere(alloc, spot, marks, identifiers.items(), space)
        }
        PlainForm::Utf8 { size, class } => {
            Ok(text_simple(size, *class, white_space_alone(alone)))
        }
        PlainForm::Sequence { .. } => Ok(None),
        PlainForm::Choice { parts } => {
            if !is_plain_union(alone, parts.items()) {
                return Ok(None);
            }
            union_simple(alloc, node.kids())
        }
        PlainForm::SequenceOf { size, part } => {
            if !is_plain_list(alone, part) {
                return Ok(None);
            }
            list_simple(alloc, size, item_spot(spot), node.kids())
        }
        PlainForm::Ref { .. } => Ok(None),
    }
}
