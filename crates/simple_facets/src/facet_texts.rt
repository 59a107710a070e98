//! The texts of facets.
ghost use Rattle.std.specs.Prelude.{◌≡◌};
ghost use Rattle.simple_facets.specs.Applying as rule;

use crate::refusals::FacetWhy;
use base_texts::{Text, WhiteSpace, is_numeral};
use simple_types::{Whole, collapsed_number, only_word};

fn parsed_length(digits: &str) -> Result<u32, FacetWhy>
    ensures { result ≡ rule.length_in digits.now }
{
    if !is_numeral(digits.as_bytes()) {
        return Err(FacetWhy::BadNumber);
    }
    match digits.parse::<u32>() {
        Ok(n) => Ok(n),
        Err(_) => Err(FacetWhy::TooWide),
    }
}

/// Returns the number of a length, which has only digits.
pub(crate) fn length_of(text: &Text) -> Result<u32, FacetWhy>
    ensures { result ≡ rule.length_of text.now }
{
    match only_word(text.as_str()) {
        Some(digits) => parsed_length(digits),
        None => Err(FacetWhy::BadNumber),
    }
}

/// Returns the number of a bound plus `further`.
pub(crate) fn bound_of(further: i128, text: &Text) -> Result<i128, FacetWhy>
    ensures { result ≡ rule.bound_of further text.now }
{
    match collapsed_number(text.as_str()) {
        None => Err(FacetWhy::BadNumber),
        Some(Whole::Above | Whole::Below) => Err(FacetWhy::TooWide),
        Some(Whole::Within(n)) => n.checked_add(further).ok_or(FacetWhy::TooWide),
    }
}

fn treatment_in(word: &str) -> Result<WhiteSpace, FacetWhy>
    ensures { result ≡ rule.treatment_in word.now }
{
    if word == "preserve" {
        Ok(WhiteSpace::Preserve)
    } else if word == "replace" {
        Ok(WhiteSpace::Replace)
    } else if word == "collapse" {
        Ok(WhiteSpace::Collapse)
    } else {
        Err(FacetWhy::BadNumber)
    }
}

/// Returns the treatment that a `whiteSpace` names.
pub(crate) fn treatment_of(text: &Text) -> Result<WhiteSpace, FacetWhy>
    ensures { result ≡ rule.treatment_of text.now }
{
    match only_word(text.as_str()) {
        Some(word) => treatment_in(word),
        None => Err(FacetWhy::BadNumber),
    }
}
