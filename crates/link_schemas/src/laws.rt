//! Laws of the faults of several schema documents.
ghost use Rattle.std.specs.Prelude.{◌≡◌, ◌⊎◌, List};
ghost use Rattle.schema_components.specs.Raw.{Document};
ghost use Rattle.schema_components.specs.Components.{Set};
ghost use Rattle.link_set.specs.Sets.{parts_of};
ghost use Rattle.link_names.specs.declared.faults.LinkingFault.{LinkingFault};
ghost use Rattle.link_schemas.specs.Passes.{passes, IsShownBy, ArePassed};
ghost use Rattle.link_schemas.specs.Sets.{IsSetOf};

/// States that, for all lists of documents, either no pass finds a fault or the passes show exactly one, and never both.
pub fn one_answer()
    ensures some { (docs : List Document) → ArePassed docs passes ⊎ ((f : LinkingFault) × IsShownBy docs passes f) }
    ensures fault { (docs : List Document) (f g : LinkingFault) → IsShownBy docs passes f → IsShownBy docs passes g → f ≡ g }
    ensures not_both { (docs : List Document) (f : LinkingFault) → ArePassed docs passes → IsShownBy docs passes f → ⊥ }
{}

/// States that two sets of the same documents, in which no pass finds a fault, have the same parts.
pub fn one_set()
    ensures { (docs : List Document) (s t : Set) → ArePassed docs passes → IsSetOf docs s → IsSetOf docs t → parts_of s ≡ parts_of t }
{}
