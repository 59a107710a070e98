//! The reasons why bytes are not a document.
ghost use Rattle.std.specs.Prelude.{◌≡◌};
ghost use Rattle.xml_read.specs.Reasons.{reason_name};
ghost use Rattle.xml_read.specs.declared.error.DocError.TheVariants.{Memory as NoMemory};

use base_texts::{Memory, Reason};
use std::alloc::{AllocError, AllocFailed};
use std::fmt;
use thiserror::Error;

/// The reasons for which bytes are not a document. At one place the first reason in this order is reported.
#[derive(Clone, Copy, Debug, PartialEq, Eq)]
pub enum DocWhy {
    /// The bytes aren't UTF-8. The place is the length of the longest valid prefix. This reason is reported before all others.
    NotUtf8,
    /// A document type declaration, which the profile doesn't support.
    Doctype,
    /// The XML declaration names a version other than 1.0.
    Version,
    /// The XML declaration names an encoding other than UTF-8 and US-ASCII.
    Encoding,
    /// `&` begins no reference, here or within a tag.
    BadReference,
    /// No piece of XML begins here.
    NoPiece,
    /// A name is neither an NCName nor two of them joined by a colon.
    BadName,
    /// A prefix or local name has over 255 bytes, or a namespace that is bound over 1,023.
    LongName,
    /// A prefix or a namespace that is reserved is bound.
    ReservedPrefix,
    /// A prefix isn't bound.
    UnboundPrefix,
    /// An attribute occurs twice, by its written or by its expanded name.
    DuplicateAttribute,
    /// An element begins after the end of the root.
    ExtraRoot,
    /// An element would have depth 65. The root has depth 1.
    TooDeep,
    /// An end tag doesn't have the name of the innermost open element, or no element is open.
    WrongEnd,
    /// Characters, a reference or a CDATA section outside the root.
    TextOutside,
    /// The root hasn't ended, or hasn't begun. The place is the length of the bytes.
    Unfinished,
}

impl DocWhy {
    /// Returns the row of this reason: its name, its meaning and its remedy.
    pub fn reason(self) -> Reason
        ensures { result.name.now ≡ reason_name self }
    {
        match self {
            DocWhy::NotUtf8 => Reason {
                name: "NotUtf8",
                means: "the bytes aren't UTF-8",
                remedy: "convert the file",
            },
            DocWhy::Doctype => Reason {
                name: "Doctype",
                means: "a document type declaration",
                remedy: "drop it, with the entities replaced; ruvkhiska-narrow expands it in a schema",
            },
            DocWhy::Version => Reason {
                name: "Version",
                means: "an XML declaration with a version other than 1.0",
                remedy: "write version=\"1.0\"",
            },
            DocWhy::Encoding => Reason {
                name: "Encoding",
                means: "an XML declaration with an encoding other than UTF-8 and US-ASCII",
                remedy: "convert the file: xmllint --encode UTF-8; ruvkhiska-narrow converts schemas",
            },
            DocWhy::BadReference => Reason {
                name: "BadReference",
                means: "a & that doesn't begin a reference",
                remedy: "write &amp;, or &#160;",
            },
            DocWhy::NoPiece => Reason {
                name: "NoPiece",
                means: "the text isn't well-formed here",
                remedy: "write &lt; for <; xmllint --noout FILE gives details",
            },
            DocWhy::BadName => Reason {
                name: "BadName",
                means: "a name with two colons, or with nothing on one side of one",
                remedy: "fix the name",
            },
            DocWhy::LongName => Reason {
                name: "LongName",
                means: "a prefix or a local name has over 255 bytes, or a namespace over 1,023",
                remedy: "shorten it",
            },
            DocWhy::ReservedPrefix => Reason {
                name: "ReservedPrefix",
                means: "xml, xmlns or one of their namespaces is bound, or a prefix is bound to the empty string",
                remedy: "drop the binding",
            },
            DocWhy::UnboundPrefix => Reason {
                name: "UnboundPrefix",
                means: "a prefix isn't bound",
                remedy: "bind it",
            },
            DocWhy::DuplicateAttribute => Reason {
                name: "DuplicateAttribute",
                means: "an attribute appears twice in a tag, perhaps under two prefixes of one namespace",
                remedy: "drop one",
            },
            DocWhy::ExtraRoot => Reason {
                name: "ExtraRoot",
                means: "an element after the end of the root",
                remedy: "pass one document per input",
            },
            DocWhy::TooDeep => Reason {
                name: "TooDeep",
                means: "elements are nested more than 64 deep",
                remedy: "flatten the document",
            },
            DocWhy::WrongEnd => Reason {
                name: "WrongEnd",
                means: "an end tag that isn't that of the open element",
                remedy: "fix the document",
            },
            DocWhy::TextOutside => Reason {
                name: "TextOutside",
                means: "characters outside the root",
                remedy: "drop it",
            },
            DocWhy::Unfinished => Reason {
                name: "Unfinished",
                means: "the text ends before the root is closed, or without a root",
                remedy: "pass the complete file",
            },
        }
    }
}

impl fmt::Display for DocWhy {
    fn fmt<W: fmt::Write>(&self, f: &mut fmt::Formatter<W>) -> fmt::Result {
        f.write_str(self.reason().means)
    }
}

impl std::error::Error for DocWhy {}

/// The errors of reading a document.
#[derive(Clone, Copy, Debug, PartialEq, Eq, Error)]
pub enum DocError {
    /// The first fault. The place is in bytes from 0.
    #[error("{why} at byte {at}")]
    Syntax { at: u64, why: DocWhy },
    #[error("out of memory")]
    Memory,
}

impl From<Memory> for DocError {
    ghost from_gives = { λ _ error. error ≡ NoMemory };

    fn from(_: Memory) -> DocError {
        DocError::Memory
    }
}

impl From<AllocError> for DocError {
    ghost from_gives = { λ _ error. error ≡ NoMemory };

    fn from(_: AllocError) -> DocError {
        DocError::Memory
    }
}

impl<T: Drop> From<AllocFailed<T>> for DocError {
    ghost from_gives = { λ _ error. error ≡ NoMemory };

    fn from(_: AllocFailed<T>) -> DocError {
        DocError::Memory
    }
}
