//! Duplicates among the attributes of a tag.
ghost use Rattle.std.specs.List.Sorted.{IsStrictlyIncreasing};
ghost use Rattle.std.specs.Prelude.{◌≡◌, ◌||◌, List, ℕ, false, map, filter, IfOk, IsTrue};
ghost use Rattle.xml_pieces.specs.Found.{attribute_of};
ghost use Rattle.xml_pieces.specs.Namespaces as names;
ghost use Rattle.xml_pieces.specs.Private.Hashes.{hash_of};

use crate::found::Attribute;
use crate::written_names::binds;
use base_texts::{Memory, Name, Text};
use std::alloc::Global;
use std::collections::BTreeSet;

// Whether two attributes that bind a prefix have the same written name.
fn bound_twice(alloc: Global, attributes: &[Attribute<'_>]) -> Result<bool, Memory>
    ensures { IfOk result (λ twice. twice ≡ names.written_twice (filter (λ a. names.binds a.0) (map attribute_of attributes.now))) }
{
    if attributes.len() < 2 {
        return Ok(false);
    }
    let mut later = BTreeSet::new(alloc);
    let mut twice = false;
    let mut at = attributes.len();
    'last_first: while at > 0 {
        at -= 1;
        let written = attributes[at].name;
        if !binds(written) {
            continue;
        }
        let is_new = later.insert(written)?;
        twice |= !is_new;
    }
    Ok(twice)
}

// The hash of a name. It uses only the length of the namespace, since a namespace may be long and shared by many names.
fn hash_of(name: &Name) -> u64
    ensures { result ≡ hash_of name.now }
{
    let start = name.space.bytes().len() as u64;
    name.local.bytes().iter().fold(start, |hash, byte| {
        hash.wrapping_mul(257).wrapping_add(*byte as u64)
    })
}

// Whether each number is less than the next.
fn are_ascending(numbers: &[u64]) -> bool
    ensures { IsTrue result → IsStrictlyIncreasing numbers.now }
{
    'places: for i in 1..numbers.len() {
        if numbers[i - 1] >= numbers[i] {
            return false;
        }
    }
    true
}

// Whether the hashes of the names differ, and so the names differ.
fn have_own_hashes(alloc: Global, attributes: &[(Name, Text)]) -> Result<bool, Memory>
    ensures { IfOk result (λ own. IsTrue own → names.expanded_twice attributes.now ≡ false) }
{
    let mut hashes = Vec::with_capacity(alloc, attributes.len())?;
    for attribute in attributes {
        hashes.push(hash_of(&attribute.0))?;
    }
    hashes.sort_unstable();
    Ok(are_ascending(&hashes))
}

// Whether two have the same expanded name. Where two have the same hash, all are compared by their local names, and where these
// are equal, by their namespaces.
fn expanded_twice(alloc: Global, attributes: &[(Name, Text)]) -> Result<bool, Memory>
    ensures { IfOk result (λ twice. twice ≡ names.expanded_twice attributes.now) }
{
    if attributes.len() < 2 {
        return Ok(false);
    }
    if have_own_hashes(alloc, attributes)? {
        return Ok(false);
    }
    let mut later = BTreeSet::new(alloc);
    let mut twice = false;
    let mut at = attributes.len();
    'last_first: while at > 0 {
        at -= 1;
        let name = &attributes[at].0;
        let is_new = later.insert((name.local.bytes(), name.space.bytes()))?;
        twice |= !is_new;
    }
    Ok(twice)
}

/// Returns whether two attributes have the same written name or the same expanded name. `attributes` are those of the tag that
/// bind nothing. Two with the same written name have the same expanded name, so only the written names of those that bind are
/// compared.
pub fn has_duplicate(
    alloc: Global,
    written: &[Attribute<'_>],
    attributes: &[(Name, Text)],
) -> Result<bool, Memory>
    ensures { IfOk result (λ twice. (scope : List (List ℕ × List ℕ)) → attributes.now ≡ names.attributes_of scope (map attribute_of written.now)
        → twice ≡ (names.written_twice (map attribute_of written.now) || names.expanded_twice attributes.now)) }
{
    let is_bound = bound_twice(alloc, written)?;
    let is_expanded = expanded_twice(alloc, attributes)?;
    Ok(is_bound | is_expanded)
}
