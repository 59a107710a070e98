//! The laws of one value. Each is proved for all linked sets and their maps.
ghost use Rattle.value_laws.specs.Statements.{OneValue, OneValueOfSame, ItemsOfValues};

use validity_rules::{at_most_one, same_validity};

/// States that two values of the type of a global element are equal if their items are equal.
pub fn one_value()
    ensures { OneValue }
{}

/// States that the items of a value that fits are valid, wherever they are placed, and are their own treated items.
pub fn items_of_values()
    ensures { ItemsOfValues }
{}

/// States that two values of the type of a global element are equal even if their items differ in places, prefix bindings and
/// attribute order.
pub fn one_value_of_same()
    ensures { OneValueOfSame }
{
    at_most_one();
    same_validity();
}
