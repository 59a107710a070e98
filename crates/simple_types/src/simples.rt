//! Simple types and their parts.
ghost use Rattle.std.specs.Prelude.{◌≡◌};
ghost use Rattle.simple_types.specs.Seen.{spaces_of, spaces_in};

use crate::lists::{NumberList, TextList};
use base_texts::{Text, WhiteSpace};

/// The built-in datatypes of XML Schema Part 2 that this profile supports.
#[derive(Clone, Copy, Debug, PartialEq, Eq)]
pub enum Builtin {
    Boolean,
    Byte,
    Short,
    Int,
    Long,
    UnsignedByte,
    UnsignedShort,
    UnsignedInt,
    UnsignedLong,
    Integer,
    NonNegativeInteger,
    PositiveInteger,
    NonPositiveInteger,
    NegativeInteger,
    String,
    NormalizedString,
    Token,
    AnyUri,
    Language,
    NmToken,
    Name,
    NcName,
    NmTokens,
}

/// The texts that a type of characters accepts, by the patterns of XML Schema Part 2, sections 3.3.3 to 3.3.7.
#[derive(Clone, Copy, Debug, PartialEq, Eq)]
pub enum Class {
    Any,
    Language,
    NmToken,
    Name,
    NcName,
}

/// A simple type, by its space.
#[derive(Drop)]
#[cycle(simple)]
pub enum Simple {
    /// The two truth values.
    Bool,
    /// Whole numbers of 128 bits, from `lo` to `hi`.
    Whole {
        lo: Option<i128>,
        hi: Option<i128>,
    },
    /// A list of whole numbers, ascending.
    Numbers(NumberList),
    /// A list of texts, ascending, and the white-space treatment of a text before it is compared.
    Words {
        space: WhiteSpace,
        words: TextList,
    },
    /// Texts of `min` to `max` code points, in a class, and the white-space treatment of a text before it is read.
    Chars {
        space: WhiteSpace,
        min: u32,
        max: Option<u32>,
        class: Class,
    },
    /// Lists of `min` to `max` items.
    List {
        item: Box<Simple>,
        min: u32,
        max: Option<u32>,
    },
    /// A union of types, by its members in order.
    Union(SimpleList),
}

/// Simple types, in their order.
#[derive(Drop)]
#[cycle(simple)]
pub struct SimpleList {
    entries: Vec<Simple>,
}

impl SimpleList {
    pub fn of(entries: Vec<Simple>) -> SimpleList
        ensures { spaces_of result ≡ spaces_in entries.items }
    {
        SimpleList { entries }
    }

    pub fn items(&self) -> &[Simple]
        ensures { spaces_in result.now ≡ spaces_of self.now }
    {
        &self.entries
    }
}
