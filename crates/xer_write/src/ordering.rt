//! The order of child elements that a value of a USE-ORDER type states.
ghost use Rattle.std.specs.Prelude.{◌≡◌, ◌-◌, ◌≤◌, ◌<◌, ◌^◌, true, IfOk, length, map};
ghost use Rattle.std.specs.List.{range_with_len};
ghost use Rattle.base_trees.specs.Rose.{label_of, kids_of};
ghost use Rattle.simple_types.specs.Labels.{count_set};
ghost use Rattle.simple_types.specs.declared.labels.ValueLabel.TheVariants as label;
ghost use Rattle.asn_types.specs.declared.types.Form.TheVariants as form;
ghost use Rattle.asn_values.specs.Values as rule;
ghost use Rattle.asn_values.specs.Ordering as ordered;
ghost use Rattle.xer_write.specs.Private.Giving.{may_be_present};

use asn_types::{Component, Role, TypeLabel};
use base_flat_trees::{Kids, Node};
use base_texts::Memory;
use base_trees::Tree;
use simple_types::ValueLabel;
use std::alloc::Global;
use std::iter::Iterator;

// Returns the number of an item of an ENUMERATED.
fn item_number(value: &Node<'_, ValueLabel>) -> u32
    ensures { result ≡ rule.item_number value.now }
{
    match value.label() {
        ValueLabel::Enum(i) => *i,
        _ => 0,
    }
}

// Returns the numbers of items of an ENUMERATED.
fn item_numbers(alloc: Global, values: Kids<'_, ValueLabel>) -> Result<Vec<u32>, Memory>
    ensures { IfOk result (λ numbers. numbers.items ≡ map rule.item_number values.entry) }
{
    let mut numbers = Vec::with_capacity(alloc, values.len())?;
    'values: for value in values {
        numbers.push(item_number(&value))?;
    }
    Ok(numbers)
}

/// Returns the numbers that the part `order` of a value has. The present parts must be allowed.
pub(crate) fn order_numbers(
    alloc: Global,
    node: &Tree<TypeLabel>,
    parts: &[Component],
    present: &[bool],
    value: &Node<'_, ValueLabel>,
) -> Result<Vec<u32>, Memory>
    requires types { length (kids_of node.now) ≡ length parts.now }
    requires form { (label_of node.now).form ≡ form.Sequence parts.now }
    requires value { label_of value.now ≡ label.Sequence present.now }
    requires present { may_be_present parts.now present.now ≡ true }
    ensures { IfOk result (λ numbers. numbers.items ≡ rule.order_of node.now value.now) }
{
    let label = node.label();
    let mut left = value.kids();
    'parts: for i in 0..parts.len() {
        if present[i] {
            let Some(kid) = left.next() else {
                return Ok(Vec::new(alloc));
            };
            if let Role::Order = label.role_of(i, &parts[i]) {
                return item_numbers(alloc, kid.kids());
            }
        }
    }
    Ok(Vec::new(alloc))
}

// Returns the number of flags that are set.
fn set_count(flags: &[bool]) -> usize
    ensures { result ≡ count_set flags.now }
{
    let mut count: usize = 0;
    'flags: for flag in flags {
        if *flag {
            count += 1;
        }
    }
    count
}

// Returns a slot for each flag, which has the next of these numbers if the flag is set.
fn slots(
    alloc: Global,
    flags: &[bool],
    from: usize,
    end: usize,
) -> Result<Vec<Option<usize>>, Memory>
    requires { from ≤ end }
    ensures { IfOk result (λ all. all.items ≡ ordered.slots flags.now (range_with_len from (end - from))) }
{
    let mut all = Vec::with_capacity(alloc, flags.len())?;
    let mut next = from;
    'flags: for flag in flags {
        if *flag {
            if next == end {
                return Ok(all);
            }
            all.push(Some(next))?;
            next += 1;
        } else {
            all.push(None)?;
        }
    }
    Ok(all)
}

/// Returns the numbers from 0 of `count` things in an order. These numbers order the last things, one for each flag that is set.
/// Those before them stay. The time grows with the flags and the numbers.
pub(crate) fn in_order(
    alloc: Global,
    flags: &[bool],
    numbers: &[u32],
    count: usize,
) -> Result<Vec<usize>, Memory>
    ensures { IfOk result (λ order. order.items ≡ ordered.in_order flags.now numbers.now (range_with_len 0 count)) }
{
    let front = count.saturating_sub(set_count(flags));
    let mut order = Vec::with_capacity(alloc, count)?;
    'front: for i in 0..front {
        order.push(i)?;
    }
    let mut all = slots(alloc, flags, front, count)?;
    'numbers: for number in numbers {
        let i = *number as usize;
        if i < all.len() {
            if let Some(next) = all[i] {
                order.push(next)?;
                all[i] = None;
            }
        }
    }
    Ok(order)
}
