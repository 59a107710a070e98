//! Why reading stops.
ghost use Rattle.std.specs.Prelude.{◌≡◌};
ghost use Rattle.der_fields.specs.Reasons.{der_reason};

use base_texts::Reason;

/// Why octets aren't those of a value.
#[derive(Clone, Copy, Debug, PartialEq, Eq)]
pub enum Why {
    /// The octets end before what is there ends.
    Short,
    /// The contents end where a node must follow.
    Missing,
    /// No node that may follow has this identifier.
    Tag,
    /// An element would be the 65th nested one.
    TooDeep,
    /// A node would be the 1,048,577th.
    TooMany,
    /// A length or a whole number would fit in fewer octets, or a length is indefinite.
    NotShortest,
    /// No contents of a BOOLEAN or a whole number have these octets.
    Content,
    /// A whole number is outside 128 bits.
    TooWide,
    /// A whole number or a count is outside its bounds, or no item has the number.
    Range,
    /// The octets of a text are not UTF-8.
    NotUtf8,
    /// A part that may be absent was read and has its default or fixed value, which is not written (clause 11.5).
    DefaultWritten,
    /// A node was read, but no value of its type has it. A text, a list, a union, the texts between child elements or their order
    /// break a rule, or a part doesn't have its fixed value.
    NotAValue,
}

impl Why {
    /// Returns the row of this reason: its name, what it means and what fixes it.
    pub fn reason(self) -> Reason
        ensures { result.name.now ≡ der_reason self }
    {
        match self {
            Why::Short => Reason {
                name: "Short",
                means: "the octets end before the node, its length or its contents do",
                remedy: "send the complete message, with its length",
            },
            Why::Missing => Reason {
                name: "Missing",
                means: "the contents end where a required component must follow",
                remedy: "send the same module, with a checksum",
            },
            Why::Tag => Reason {
                name: "Tag",
                means: "no node that is allowed here has this identifier",
                remedy: "send the same module, with a checksum",
            },
            Why::TooDeep => Reason {
                name: "TooDeep",
                means: "elements are nested more than 64 deep",
                remedy: "reject these octets",
            },
            Why::TooMany => Reason {
                name: "TooMany",
                means: "more than 1,048,576 nodes",
                remedy: "split the message",
            },
            Why::NotShortest => Reason {
                name: "NotShortest",
                means: "a length or a number would fit in fewer octets, or a length is indefinite",
                remedy: "encode by DER: BER isn't enough",
            },
            Why::Content => Reason {
                name: "Content",
                means: "a BOOLEAN that isn't one octet, 00 or FF, or a number without octets",
                remedy: "encode by DER: BER isn't enough",
            },
            Why::TooWide => Reason {
                name: "TooWide",
                means: "a whole number needs more than 128 bits",
                remedy: "send the same module, with a checksum",
            },
            Why::Range => Reason {
                name: "Range",
                means: "a number or a count is out of range, or no item has the number",
                remedy: "send the same module, with a checksum",
            },
            Why::NotUtf8 => Reason {
                name: "NotUtf8",
                means: "the octets of a text aren't UTF-8",
                remedy: "send the same module, with a checksum",
            },
            Why::DefaultWritten => Reason {
                name: "DefaultWritten",
                means: "an optional component is encoded with its default or fixed value",
                remedy: "encode by DER: BER isn't enough",
            },
            Why::NotAValue => Reason {
                name: "NotAValue",
                means: "the node was read completely, but it breaks a rule for values",
                remedy: "docs/guide/INTEROP.md has the rules; both ends need the same schemas",
            },
        }
    }
}

/// The first fault: the octet at which it is, and why.
#[derive(Clone, Copy, Debug)]
pub struct Stop {
    pub at: u64,
    pub why: Why,
}
