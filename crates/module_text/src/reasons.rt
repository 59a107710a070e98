//! Why bytes are not a printed module.
ghost use Rattle.std.specs.Prelude.{◌≡◌};
ghost use Rattle.module_text.specs.Reasons.{module_reason};
ghost use Rattle.module_text.specs.declared.reasons.ModuleError.TheVariants.{Memory as NoMemory};

use base_texts::{Memory, Reason};
use std::fmt;
use thiserror::Error;

/// Why bytes are not a printed module.
#[derive(Clone, Copy, Debug, PartialEq, Eq)]
pub enum ModuleWhy {
    /// The bytes aren't UTF-8.
    NotUtf8,
    /// No printed module begins with these bytes.
    Syntax,
    /// 1,024 types, or 1,024 values, are around this one.
    TooDeep,
    /// A reference or an identifier that appeared before, or a reference that is a reserved word.
    Duplicate,
    /// A reference without an assignment.
    Unresolved,
    /// More than four references in a row.
    LongChain,
    /// Something that no printed module has at this place.
    Spelling,
}

impl ModuleWhy {
    /// Returns the row of this reason: its name, what it means and what fixes it.
    pub fn reason(self) -> Reason
        ensures { result.name.now ≡ module_reason self }
    {
        match self {
            ModuleWhy::NotUtf8 => Reason {
                name: "NotUtf8",
                means: "the bytes aren't UTF-8",
                remedy: "write the module again, with show",
            },
            ModuleWhy::Syntax => Reason {
                name: "Syntax",
                means: "show never writes this text here",
                remedy: "write the module again, with show: other ASN.1 notation isn't read",
            },
            ModuleWhy::TooDeep => Reason {
                name: "TooDeep",
                means: "types or values are nested more than 1,024 deep",
                remedy: "reject this text",
            },
            ModuleWhy::Duplicate => Reason {
                name: "Duplicate",
                means: "a reference or an identifier appears twice, or is a reserved word",
                remedy: "write the module again, with show",
            },
            ModuleWhy::Unresolved => Reason {
                name: "Unresolved",
                means: "no assignment has this reference",
                remedy: "write the module again, with show",
            },
            ModuleWhy::LongChain => Reason {
                name: "LongChain",
                means: "a chain of more than four references begins here",
                remedy: "write the module again, with show",
            },
            ModuleWhy::Spelling => Reason {
                name: "Spelling",
                means: "show writes this differently, or not here",
                remedy: "docs/reference/MODULE-READ.md lists what is written where",
            },
        }
    }
}

impl fmt::Display for ModuleWhy {
    fn fmt<W: fmt::Write>(&self, f: &mut fmt::Formatter<W>) -> fmt::Result {
        f.write_str(self.reason().means)
    }
}

impl std::error::Error for ModuleWhy {}

/// A fault of a text, and its place.
#[derive(Clone, Copy)]
pub struct TextFault {
    /// The offset of the first byte of the fault.
    pub at: u64,
    pub why: ModuleWhy,
}

/// Why a module isn't read.
#[derive(Clone, Copy, Debug, PartialEq, Eq, Error)]
pub enum ModuleError {
    /// The first fault, and the offset of its first byte, from 0.
    #[error("byte {at}: {why}")]
    Bad { at: u64, why: ModuleWhy },
    #[error("out of memory")]
    Memory,
}

impl From<Memory> for ModuleError {
    ghost from_gives = { λ _ error. error ≡ NoMemory };

    fn from(_: Memory) -> ModuleError {
        ModuleError::Memory
    }
}
