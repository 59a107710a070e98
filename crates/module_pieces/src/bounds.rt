//! Bounds of numbers and sizes.
ghost use Rattle.std.specs.Prelude.{◌≡◌};
ghost use Rattle.module_text.specs.Listed.{first};
ghost use Rattle.module_text.specs.Told as told;
ghost use Rattle.module_text.specs.Faults as rule;

use crate::finding::unless;
use crate::numbers::{is_printed_number, is_size, size_of, whole_of};
use module_text::{ModuleWhy, PlainEnds, PlainNumber, PlainRange, TextFault};

/// A least and a greatest number, each if there is one.
pub type Bounds = (Option<i128>, Option<i128>);

/// Returns the bounds, if each has 128 bits.
pub fn bounds_of(ends: &PlainEnds) -> Option<Bounds>
    ensures { result ≡ told.bounds_of ends.now }
{
    match ends {
        PlainEnds::One { number } => {
            let n = whole_of(number)?;
            Some((Some(n), Some(n)))
        }
        PlainEnds::Both { least, greatest } => {
            let least = whole_of(least)?;
            let greatest = whole_of(greatest)?;
            Some((Some(least), Some(greatest)))
        }
        PlainEnds::From { least, .. } => {
            let least = whole_of(least)?;
            Some((Some(least), None))
        }
    }
}

/// Returns the bounds of an INTEGER, if each has 128 bits.
pub fn range_of(range: &Option<PlainRange>) -> Option<Bounds>
    ensures { result ≡ told.range_of range.now }
{
    match range {
        None => Some((None, None)),
        Some(PlainRange::Ends { ends }) => bounds_of(ends),
        Some(PlainRange::To { greatest }) => {
            let greatest = whole_of(greatest)?;
            Some((None, Some(greatest)))
        }
    }
}

/// Returns the least and the greatest size, if each has 32 bits.
pub fn sizes_of(size: &Option<PlainEnds>) -> Option<(u32, Option<u32>)>
    ensures { result ≡ told.sizes_of size.now }
{
    match size {
        None => Some((0, None)),
        Some(PlainEnds::One { number }) => {
            let n = size_of(whole_of(number))?;
            Some((n, Some(n)))
        }
        Some(PlainEnds::Both { least, greatest }) => {
            let least = size_of(whole_of(least))?;
            let greatest = size_of(whole_of(greatest))?;
            Some((least, Some(greatest)))
        }
        Some(PlainEnds::From { least, .. }) => {
            let least = size_of(whole_of(least))?;
            Some((least, None))
        }
    }
}

// Returns the fault of a number.
fn number_fault(number: &PlainNumber) -> Option<TextFault>
    ensures { result ≡ first (rule.number_faults number.now) }
{
    unless(is_printed_number(number), number.at, ModuleWhy::Spelling)
}

/// Returns whether both are numbers of 128 bits, and the first is less.
pub(crate) fn is_below(least: Option<i128>, greatest: Option<i128>) -> bool
    ensures { result ≡ rule.is_below least greatest }
{
    match (least, greatest) {
        (Some(y), Some(z)) => y < z,
        _ => false,
    }
}

// Returns the first fault of bounds.
#[tactic(auto, using(crate::proofs::Firsts::firsts))]
fn ends_fault(ends: &PlainEnds) -> Option<TextFault>
    ensures { result ≡ first (rule.ends_faults ends.now) }
{
    match ends {
        PlainEnds::One { number } => number_fault(number),
        PlainEnds::Both { least, greatest } => {
            if let Some(fault) = number_fault(least) {
                return Some(fault);
            }
            let above = is_below(whole_of(least), whole_of(greatest));
            unless(
                is_printed_number(greatest) && above,
                greatest.at,
                ModuleWhy::Spelling,
            )
        }
        PlainEnds::From { least, .. } => number_fault(least),
    }
}

/// Returns the first fault of the bounds of an INTEGER.
#[tactic(auto, unfolding(module_text::specs::Listed::first))]
pub fn range_fault(range: &Option<PlainRange>) -> Option<TextFault>
    ensures { result ≡ first (rule.range_faults range.now) }
{
    match range {
        None => None,
        Some(PlainRange::Ends { ends }) => ends_fault(ends),
        Some(PlainRange::To { greatest }) => number_fault(greatest),
    }
}

fn is_zero(number: Option<i128>) -> bool
    ensures { result ≡ rule.is_zero number }
{
    match number {
        Some(n) => n == 0,
        None => false,
    }
}

// Returns the fault of a size.
fn one_size_fault(number: &PlainNumber) -> Option<TextFault>
    ensures { result ≡ first (rule.one_size_faults number.now) }
{
    unless(is_size(number), number.at, ModuleWhy::Spelling)
}

/// Returns the first fault of a size.
#[tactic(auto, using(crate::proofs::Firsts::firsts), unfolding(module_text::specs::Listed::first))]
pub fn size_fault(size: &Option<PlainEnds>) -> Option<TextFault>
    ensures { result ≡ first (rule.size_faults size.now) }
{
    match size {
        None => None,
        Some(PlainEnds::One { number }) => one_size_fault(number),
        Some(PlainEnds::Both { least, greatest }) => {
            if let Some(fault) = one_size_fault(least) {
                return Some(fault);
            }
            let above = is_below(whole_of(least), whole_of(greatest));
            unless(is_size(greatest) && above, greatest.at, ModuleWhy::Spelling)
        }
        Some(PlainEnds::From { least, max_at }) => {
            if let Some(fault) = one_size_fault(least) {
                return Some(fault);
            }
            unless(!is_zero(whole_of(least)), *max_at, ModuleWhy::Spelling)
        }
    }
}
