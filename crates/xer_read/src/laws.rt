//! The law that a value is read back from its items. It is proved for all linked sets and their maps.
ghost use Rattle.xer_read.specs.Answers.{ReadBack};

use validity_rules::at_most_one;
use value_laws::{items_of_values, one_value};

/// Any result that meets the promise of `read_value` for the items of a value is this value, or an allocation failure. The places
/// of the items don't matter.
pub fn read_back()
    ensures { ReadBack }
{
    at_most_one();
    items_of_values();
    one_value();
}
