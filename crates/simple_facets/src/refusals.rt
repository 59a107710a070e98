//! The reasons why a type can't be restricted.
ghost use Rattle.std.specs.Prelude.{◌≡◌};
ghost use Rattle.simple_facets.specs.Reasons.{facet_reason};
ghost use Rattle.simple_facets.specs.Refusals.{why_of};

use base_texts::{Memory, Reason};
use std::alloc::AllocFailed;
use std::fmt;
use thiserror::Error;

/// The reasons why facets can't restrict a type (XML Schema Part 2, section 4.3).
#[derive(Clone, Copy, Debug, PartialEq, Eq)]
pub enum FacetWhy {
    /// The base has no such facet, or the facet occurs twice. An inclusive and an exclusive bound of one side are the same facet.
    Misplaced,
    /// A bound or a length is outside the base's own on its side, or a treatment of white space does less than the base's.
    Widens,
    /// An enumeration isn't in the space that the other facets leave.
    NotInBase,
    /// The bounds or the lengths that remain cross, or no number and no word remains.
    EmptySpace,
    /// The facet's text is not a whole number, not digits where it is a length, or not a treatment.
    BadNumber,
    /// A bound or an enumeration exceeds 128 bits, or the number next to an exclusive bound does, or a length is 2^32 or more.
    TooWide,
}

impl FacetWhy {
    /// Returns the row of this reason: its name, its meaning and its remedy.
    pub fn reason(self) -> Reason
        ensures { result.name.now ≡ facet_reason self }
    {
        match self {
            FacetWhy::Misplaced => Reason {
                name: "Misplaced",
                means: "the base has no such facet, or the facet appears twice",
                remedy: "drop it; ruvkhiska-narrow can do it",
            },
            FacetWhy::Widens => Reason {
                name: "Widens",
                means: "a facet reaches past the base's own bound on its side",
                remedy: "a lesser bound, or a wider base",
            },
            FacetWhy::NotInBase => Reason {
                name: "NotInBase",
                means: "an enumeration isn't a value that the other facets allow",
                remedy: "fix the word or the bounds",
            },
            FacetWhy::EmptySpace => Reason {
                name: "EmptySpace",
                means: "the bounds cross, or exclude every value of the base",
                remedy: "fix the bounds",
            },
            FacetWhy::BadNumber => Reason {
                name: "BadNumber",
                means: "the facet's value isn't a whole number, digits for a length, or a value of whiteSpace",
                remedy: "write a whole number",
            },
            FacetWhy::TooWide => Reason {
                name: "TooWide",
                means: "a bound or an enumeration needs more than 128 bits, or a length is 2^32 or more",
                remedy: "a smaller bound; ruvkhiska-narrow can do it",
            },
        }
    }
}

impl fmt::Display for FacetWhy {
    fn fmt<W: fmt::Write>(&self, f: &mut fmt::Formatter<W>) -> fmt::Result {
        f.write_str(self.reason().means)
    }
}

/// The errors of making a type.
#[derive(Clone, Copy, Debug, PartialEq, Eq, Error)]
pub enum FacetError {
    #[error("{0}")]
    Refused(FacetWhy),
    #[error("out of memory")]
    Memory,
}

impl FacetError {
    /// Returns the reason, or `None` for an allocation failure.
    pub fn why(self) -> Option<FacetWhy>
        ensures { result ≡ why_of self }
    {
        match self {
            FacetError::Refused(why) => Some(why),
            FacetError::Memory => None,
        }
    }
}

impl From<FacetWhy> for FacetError {
    ghost use Rattle.std.specs.Prelude.{Some};
    ghost use Rattle.simple_facets.specs.Refusals.{why_of};

    ghost from_gives = { λ why error. why_of error ≡ Some why };

    fn from(why: FacetWhy) -> FacetError {
        FacetError::Refused(why)
    }
}

impl From<Memory> for FacetError {
    ghost use Rattle.std.specs.Prelude.{None};
    ghost use Rattle.simple_facets.specs.Refusals.{why_of};

    ghost from_gives = { λ memory error. why_of error ≡ None };

    fn from(_: Memory) -> FacetError {
        FacetError::Memory
    }
}

impl<T: Drop> From<AllocFailed<T>> for FacetError {
    ghost use Rattle.std.specs.Prelude.{None};
    ghost use Rattle.simple_facets.specs.Refusals.{why_of};

    ghost from_gives = { λ failed error. why_of error ≡ None };

    fn from(_: AllocFailed<T>) -> FacetError {
        FacetError::Memory
    }
}
