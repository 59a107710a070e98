//! The law that a valid element has a value. It is proved for all linked sets and their maps.
ghost use Rattle.value_laws.specs.Statements.{ValuesOfItems};

/// States that a valid element has a value whose items are its treated items. Both have their attributes in the order of the type.
pub fn values_of_items()
    ensures { ValuesOfItems }
{}
