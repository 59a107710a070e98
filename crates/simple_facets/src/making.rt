//! Lists and unions.
ghost use Rattle.std.specs.Prelude.{◌≡◌, ◌+◌, ◌<◌, ◌≤◌, ◌↔◌, IfOk, OnOk, IsTrue, MatchResult, MatchOption, true, false, length};
ghost use Rattle.simple_types.specs.Space.{UnionOf, none, more, count_members};
ghost use Rattle.simple_types.specs.Seen.{space_of, spaces_in};
ghost use Rattle.simple_types.specs.Sound.{Sound, is_union, has_list};
ghost use Rattle.simple_types.specs.Joining.{joined, flattened};
ghost use Rattle.simple_facets.specs.Making.{count_items, count_all_items, AreWithinLimits, AreEachSound, IsListOf, IsUnionOf, lent_spaces};

use base_texts::Memory;
use simple_types::{Simple, SimpleList, append_copies, copy, has_list};
use std::alloc::Global;
use thiserror::Error;

/// The greatest number of members of a union.
const MOST_MEMBERS: usize = 1_000;

/// The greatest number of enumeration items of the members of a union.
const MOST_ITEMS: usize = 10_000;

/// The reasons why a list type can't be made.
#[derive(Clone, Copy, Debug, PartialEq, Eq, Error)]
pub enum ItemError {
    /// The item is a list, or a union with a list among its members.
    #[error("a list of lists")]
    BadItem,
    #[error("out of memory")]
    Memory,
}

/// The reasons why a union can't be made.
#[derive(Clone, Copy, Debug, PartialEq, Eq, Error)]
pub enum UnionError {
    /// Over 1,000 members, or over 10,000 enumeration items.
    #[error("a union over its limits")]
    Limit,
    #[error("out of memory")]
    Memory,
}

/// Returns the type of lists of any number of items.
pub fn list_of(alloc: Global, item: &Simple) -> Result<Simple, ItemError>
    requires { Sound (space_of item.now) }
    ensures made { MatchResult result
        (λ simple. IsListOf (space_of item.now) (space_of simple))
        (λ error. error ≡ ItemError.BadItem → has_list (space_of item.now) ≡ true) }
    ensures sound { IfOk result (λ simple. Sound (space_of simple)) }
{
    if has_list(item) {
        return Err(ItemError::BadItem);
    }
    let Ok(copied) = copy(alloc, item) else {
        return Err(ItemError::Memory);
    };
    match Box::new(alloc, copied) {
        Ok(item) => Ok(Simple::List {
            item,
            min: 0,
            max: None,
        }),
        Err(_) => Err(ItemError::Memory),
    }
}

// The members of a union.
#[tactic(auto, unfolding(simple_types::specs::Seen::space_of))]
fn inner_members(simple: &Simple) -> Option<&[Simple]>
    ensures { MatchOption result
        (is_union (space_of simple.now) ≡ false)
        (λ inner. space_of simple.now ≡ UnionOf (spaces_in inner.now)) }
{
    match simple {
        Simple::Union(inner) => Some(inner.items()),
        _ => None,
    }
}

fn member_count(simple: &Simple) -> usize
    ensures { result ≡ count_members (flattened (more (space_of simple.now) none)) }
{
    match inner_members(simple) {
        Some(inner) => inner.len(),
        None => 1,
    }
}

#[tactic(auto, unfolding(simple_types::specs::Seen::space_of))]
fn item_count(simple: &Simple) -> usize
    ensures { result ≡ count_items (space_of simple.now) }
{
    match simple {
        Simple::Numbers(numbers) => numbers.items().len(),
        Simple::Words { words, .. } => words.items().len(),
        _ => 0,
    }
}

// The rest of `left` after subtracting the number of enumeration items of these members. `None` if they have more.
fn beside_items(members: &[Simple], left: usize) -> Option<usize>
    ensures { MatchOption result
        (left < count_all_items (spaces_in members.now))
        (λ rest. count_all_items (spaces_in members.now) + rest ≡ left) }
{
    let mut left = left;
    'members: for member in members {
        let count = item_count(member);
        if count > left {
            return None;
        }
        left -= count;
    }
    Some(left)
}

fn beside_one(simple: &Simple, left: usize) -> Option<usize>
    ensures { MatchOption result
        (left < count_all_items (flattened (more (space_of simple.now) none)))
        (λ rest. count_all_items (flattened (more (space_of simple.now) none)) + rest ≡ left) }
{
    match inner_members(simple) {
        Some(inner) => beside_items(inner, left),
        None => {
            let count = item_count(simple);
            if count > left {
                None
            } else {
                Some(left - count)
            }
        }
    }
}

fn are_few_members(members: &[&Simple]) -> bool
    ensures { IsTrue result ↔ (count_members (flattened (lent_spaces members.now)) ≤ 1000) }
{
    let mut left = MOST_MEMBERS;
    'members: for member in members {
        let count = member_count(member);
        if count > left {
            return false;
        }
        left -= count;
    }
    true
}

fn are_few_items(members: &[&Simple]) -> bool
    ensures { IsTrue result ↔ (count_all_items (flattened (lent_spaces members.now)) ≤ 10000) }
{
    let mut left = MOST_ITEMS;
    'members: for member in members {
        match beside_one(member, left) {
            Some(rest) => left = rest,
            None => return false,
        }
    }
    true
}

// Appends a copy of the type, or if it is a union, copies of its members.
fn append_flat(alloc: Global, flat: &mut Vec<Simple>, simple: &Simple) -> Result<(), Memory>
    ensures { OnOk result (spaces_in flat.new.items ≡ joined (spaces_in flat.old.items) (flattened (more (space_of simple.now) none))) }
{
    match inner_members(simple) {
        Some(inner) => append_copies(alloc, flat, inner),
        None => {
            let copied = copy(alloc, simple)?;
            flat.push(copied)?;
            Ok(())
        }
    }
}

// Copies of the members, with each inner union replaced by its members.
fn flat_copies(alloc: Global, members: &[&Simple]) -> Result<Vec<Simple>, Memory>
    ensures { IfOk result (λ flat. spaces_in flat.items ≡ flattened (lent_spaces members.now)) }
{
    let mut flat = Vec::new(alloc);
    'members: for member in members {
        append_flat(alloc, &mut flat, member)?;
    }
    Ok(flat)
}

/// Returns the union of these types, which are borrowed. A union among them is replaced by its members. Members and items are
/// counted before anything is copied.
pub fn union_of_lent(alloc: Global, members: &[&Simple]) -> Result<Simple, UnionError>
    requires some { 0 < length members.now }
    requires sound { AreEachSound (lent_spaces members.now) }
    ensures made { MatchResult result
        (λ simple. IsUnionOf (lent_spaces members.now) (space_of simple))
        (λ error. error ≡ UnionError.Limit → ¬ AreWithinLimits (flattened (lent_spaces members.now))) }
    ensures sound { IfOk result (λ simple. Sound (space_of simple)) }
{
    if !are_few_members(members) {
        return Err(UnionError::Limit);
    }
    if !are_few_items(members) {
        return Err(UnionError::Limit);
    }
    match flat_copies(alloc, members) {
        Ok(flat) => Ok(Simple::Union(SimpleList::of(flat))),
        Err(_) => Err(UnionError::Memory),
    }
}

fn lent_all(alloc: Global, members: &[Simple]) -> Result<Vec<&Simple>, Memory>
    ensures { IfOk result (λ lent. lent_spaces lent.items ≡ spaces_in members.now) }
{
    let mut lent = Vec::new(alloc);
    'members: for member in members {
        lent.push(member)?;
    }
    Ok(lent)
}

/// Returns the union of these types. A union among them is replaced by its members.
pub fn union_of(alloc: Global, members: &[Simple]) -> Result<Simple, UnionError>
    requires some { 0 < length members.now }
    requires sound { AreEachSound (spaces_in members.now) }
    ensures made { MatchResult result
        (λ simple. IsUnionOf (spaces_in members.now) (space_of simple))
        (λ error. error ≡ UnionError.Limit → ¬ AreWithinLimits (flattened (spaces_in members.now))) }
    ensures sound { IfOk result (λ simple. Sound (space_of simple)) }
{
    match lent_all(alloc, members) {
        Ok(lent) => union_of_lent(alloc, lent.as_slice()),
        Err(_) => Err(UnionError::Memory),
    }
}
