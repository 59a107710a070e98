//! Faults of linking, and the first of several.
ghost use Rattle.std.specs.Prelude.{◌≡◌};
ghost use Rattle.link_names.specs.Reasons.{own_name, rank_of, rank_of_facet};
ghost use Rattle.link_names.specs.Order.{precedes, earlier, first_of};

use crate::places::Place;
use base_texts::Reason;
use simple_facets::FacetWhy;

/// Why documents can't be linked. At one place the reasons come in this order, and those of facets in the order of `FacetWhy`.
#[derive(Clone, Copy, Debug, PartialEq, Eq)]
pub enum LinkWhy {
    /// More than 10,000 components in the set, or a union over its own limits.
    Limit,
    /// A global element, an attribute or a type whose name an earlier one of its kind has.
    Duplicate,
    /// A reference that names nothing.
    Unresolved,
    /// A reference to a complex type where a simple one is needed.
    ComplexBase,
    /// A simple type that is made of itself, directly or not.
    CircularType,
    /// A restriction whose facets don't fit its base.
    Facet(FacetWhy),
    /// A list of lists.
    BadItem,
    /// A default or fixed value of an attribute that its type doesn't accept.
    BadDefault,
    /// A reference to an attribute that is fixed, with a default value or another fixed one.
    FixedDiffers,
    /// A second attribute of one name in a type.
    DuplicateUse,
    /// A second element of one name in a content model, with another type.
    TypesDiffer,
    /// A particle that can't be distinguished without lookahead.
    NotClear,
}

impl LinkWhy {
    /// Returns the row of this reason: its name, what it means and what fixes it.
    pub fn reason(self) -> Reason
        ensures { result.name.now ≡ own_name self }
    {
        match self {
            LinkWhy::Facet(why) => why.reason(),
            LinkWhy::Limit => Reason {
                name: "Limit",
                means: "more than this program accepts",
                remedy: "split the type or the set",
            },
            LinkWhy::Duplicate => Reason {
                name: "Duplicate",
                means: "two global elements, two global attributes or two types have the same name",
                remedy: "pass each file once",
            },
            LinkWhy::Unresolved => Reason {
                name: "Unresolved",
                means: "a reference names nothing",
                remedy: "pass all files of the set; ruvkhiska-narrow finds those that are included",
            },
            LinkWhy::ComplexBase => Reason {
                name: "ComplexBase",
                means: "a complex type where a simple one is needed",
                remedy: "name a simple type",
            },
            LinkWhy::CircularType => Reason {
                name: "CircularType",
                means: "a simple type is defined in terms of itself",
                remedy: "break the circle",
            },
            LinkWhy::BadItem => Reason {
                name: "BadItem",
                means: "the item of a list is itself a list, or a union with a list in it",
                remedy: "use a list of single values",
            },
            LinkWhy::BadDefault => Reason {
                name: "BadDefault",
                means: "an attribute's type doesn't accept its default or fixed value",
                remedy: "write a value of the type",
            },
            LinkWhy::FixedDiffers => Reason {
                name: "FixedDiffers",
                means: "a reference to a global attribute with a fixed value has a default value or another fixed value",
                remedy: "drop it: the reference has the fixed value anyway",
            },
            LinkWhy::DuplicateUse => Reason {
                name: "DuplicateUse",
                means: "a type has two attributes with the same name",
                remedy: "drop one",
            },
            LinkWhy::TypesDiffer => Reason {
                name: "TypesDiffer",
                means: "two elements of one name in one content model have different types",
                remedy: "use one named type for both",
            },
            LinkWhy::NotClear => Reason {
                name: "NotClear",
                means: "a document could have two values under this particle, or one element of lookahead doesn't decide",
                remedy: "docs/reference/CONTENT-MODELS.md has recipes; ruvkhiska-narrow can do it",
            },
        }
    }
}

/// A fault of several documents as one set.
#[derive(Clone, Copy, Debug, PartialEq, Eq)]
pub struct LinkingFault {
    /// The place of the element of the schema that has it.
    pub place: Place,
    /// What is wrong there.
    pub why: LinkWhy,
}

fn rank_of_facet(why: FacetWhy) -> u8
    ensures { result ≡ rank_of_facet why }
{
    match why {
        FacetWhy::Misplaced => 5,
        FacetWhy::Widens => 6,
        FacetWhy::NotInBase => 7,
        FacetWhy::EmptySpace => 8,
        FacetWhy::BadNumber => 9,
        FacetWhy::TooWide => 10,
    }
}

fn rank(why: LinkWhy) -> u8
    ensures { result ≡ rank_of why }
{
    match why {
        LinkWhy::Limit => 0,
        LinkWhy::Duplicate => 1,
        LinkWhy::Unresolved => 2,
        LinkWhy::ComplexBase => 3,
        LinkWhy::CircularType => 4,
        LinkWhy::Facet(reason) => rank_of_facet(reason),
        LinkWhy::BadItem => 11,
        LinkWhy::BadDefault => 12,
        LinkWhy::FixedDiffers => 13,
        LinkWhy::DuplicateUse => 14,
        LinkWhy::TypesDiffer => 15,
        LinkWhy::NotClear => 16,
    }
}

impl LinkingFault {
    /// Returns whether it is at a lesser place than the other fault, or at the same place with an earlier reason.
    pub fn precedes(self, other: LinkingFault) -> bool
        ensures { result ≡ precedes self other }
    {
        self.place.is_before(other.place)
            || (!other.place.is_before(self.place) && rank(self.why) < rank(other.why))
    }
}

/// Returns the first of the fault found and one more.
pub fn earlier(found: Option<LinkingFault>, fault: LinkingFault) -> Option<LinkingFault>
    ensures { result ≡ earlier found fault }
{
    match found {
        Some(first) if !fault.precedes(first) => Some(first),
        _ => Some(fault),
    }
}

/// Returns the first of two faults, or the only one.
pub fn first_of(found: Option<LinkingFault>, other: Option<LinkingFault>) -> Option<LinkingFault>
    ensures { result ≡ first_of found other }
{
    match other {
        Some(fault) => earlier(found, fault),
        None => found,
    }
}
