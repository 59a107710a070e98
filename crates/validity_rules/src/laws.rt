//! The laws of validity. Each is proved for all linked sets and all elements.
ghost use Rattle.validity_rules.specs.Laws.{AtMostOne, AtLeastOne, TreatedAgain, SameValidity, TreatedKids, OwnKids};

/// States that an element is valid with one treated form, or has one first fault, and not both.
pub fn at_most_one()
    ensures { AtMostOne }
{}

/// States that an element is valid, or has a first fault.
pub fn at_least_one()
    ensures { AtLeastOne }
{}

/// States that the treated items of a valid element are valid, and are their own treated items.
pub fn treated_again()
    ensures { TreatedAgain }
{}

/// States that items that differ at most in their places, their bindings and the order of attributes have equal treated items.
pub fn same_validity()
    ensures { SameValidity }
{}

/// States that the treated children of mixed content are child elements and the texts between them. Those of element-only content
/// are only child elements.
pub fn treated_kids()
    ensures { TreatedKids }
{}

/// States that elements that are valid with themselves as treated form are valid children of an element. If its content is mixed,
/// any texts may be between them.
pub fn own_kids()
    ensures { OwnKids }
{}
