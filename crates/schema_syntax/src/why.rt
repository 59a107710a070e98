//! Why a document is no schema of this profile.
ghost use Rattle.std.specs.Prelude.{◌≡◌};
ghost use Rattle.schema_syntax.specs.Reasons.{schema_reason};

use base_texts::Reason;
use std::error::Error;
use std::fmt;

/// The reasons against a schema document. At one element the first in this order is reported.
#[derive(Clone, Copy, Debug, PartialEq, Eq)]
pub enum SchemaWhy {
    /// The root isn't `schema` of the schema namespace (XML Schema Part 1, section 3.15.2).
    NotASchema,
    /// An element of another namespace, or of a name that this profile doesn't know: one that XML Schema doesn't have, or has
    /// only inside elements that are skipped or not supported, such as `documentation` and `selector`.
    UnknownElement,
    /// `any` or `anyAttribute`, not supported.
    Wildcard,
    /// `redefine`, not supported.
    Redefine,
    /// `notation`, not supported.
    NotationElement,
    /// `key`, `keyref` or `unique`, not supported.
    IdentityConstraint,
    /// `group` or `attributeGroup`, not supported.
    Group,
    /// `complexContent`, not supported.
    ComplexContent,
    /// `restriction` in `simpleContent`, not supported.
    SimpleContentRestriction,
    /// The facet `pattern`, not supported.
    Pattern,
    /// The facet `totalDigits`, not supported.
    TotalDigits,
    /// The facet `fractionDigits`, not supported.
    FractionDigits,
    /// An element that may not appear here, a second one where only one may appear, or one out of order; or text that isn't white
    /// space.
    Misplaced,
    /// An attribute without a namespace that the element doesn't have.
    UnknownAttribute,
    /// A required attribute, one of two attributes of which one is required, or a required child is missing.
    MissingAttribute,
    /// The value of an attribute isn't of its form, or names something that doesn't exist.
    BadValue,
    /// Over a limit of this program.
    Limit,
    /// The attribute `substitutionGroup`, not supported.
    SubstitutionGroup,
    /// The attribute `abstract` with the value true, not supported.
    Abstract,
    /// The attribute `default` or `fixed` of an element, not supported.
    ElementDefault,
    /// The attribute `minOccurs` of an `all` with the value zero, not supported.
    OptionalAll,
    /// A reference to the datatype `decimal`, not supported.
    Decimal,
    /// A reference to the datatype `float`, not supported.
    Float,
    /// A reference to the datatype `double`, not supported.
    Double,
    /// A reference to the datatype `duration`, not supported.
    Duration,
    /// A reference to the datatype `dateTime`, not supported.
    DateTime,
    /// A reference to the datatype `time`, not supported.
    Time,
    /// A reference to the datatype `date`, not supported.
    Date,
    /// A reference to the datatype `gYearMonth`, not supported.
    GYearMonth,
    /// A reference to the datatype `gYear`, not supported.
    GYear,
    /// A reference to the datatype `gMonthDay`, not supported.
    GMonthDay,
    /// A reference to the datatype `gDay`, not supported.
    GDay,
    /// A reference to the datatype `gMonth`, not supported.
    GMonth,
    /// A reference to the datatype `hexBinary`, not supported.
    HexBinary,
    /// A reference to the datatype `base64Binary`, not supported.
    Base64Binary,
    /// A reference to the datatype `QName`, not supported.
    QName,
    /// A reference to the datatype `NOTATION`, not supported.
    NOTATION,
    /// A reference to the datatype `ID`, not supported.
    ID,
    /// A reference to the datatype `IDREF`, not supported.
    IDREF,
    /// A reference to the datatype `IDREFS`, not supported.
    IDREFS,
    /// A reference to the datatype `ENTITY`, not supported.
    ENTITY,
    /// A reference to the datatype `ENTITIES`, not supported.
    ENTITIES,
    /// A reference to the datatype `anySimpleType`, not supported, or an attribute without a type (Part 1, section 3.2.2).
    AnySimpleType,
    /// A reference to the datatype `anyType`, not supported, or an element without a type (Part 1, section 3.3.2).
    AnyType,
    /// Two forms that exclude each other: `ref` with an attribute or child of a declaration, or a type by its name with one in
    /// place. Also a default value with a fixed one, or a default value that never applies.
    BothForms,
    /// A choice that may occur, without an alternative that may occur.
    EmptyChoice,
}

impl SchemaWhy {
    /// Returns the row of this reason: its name, what it means and what fixes it.
    pub fn reason(self) -> Reason
        ensures { result.name.now ≡ schema_reason self }
    {
        match self {
            SchemaWhy::NotASchema => Reason {
                name: "NotASchema",
                means: "the root isn't schema of XML Schema",
                remedy: "pass the .xsd file",
            },
            SchemaWhy::UnknownElement => Reason {
                name: "UnknownElement",
                means: "an element of another namespace, or with a name that isn't known there",
                remedy: "move it into annotation, or drop it",
            },
            SchemaWhy::Wildcard => Reason {
                name: "Wildcard",
                means: "any and anyAttribute are not supported",
                remedy: "name the elements and attributes that may appear there; ruvkhiska-narrow can do it",
            },
            SchemaWhy::Redefine => Reason {
                name: "Redefine",
                means: "redefine is not supported",
                remedy: "write the resulting type; ruvkhiska-narrow can do it",
            },
            SchemaWhy::NotationElement => Reason {
                name: "NotationElement",
                means: "notation is not supported",
                remedy: "drop it; ruvkhiska-narrow can do it",
            },
            SchemaWhy::IdentityConstraint => Reason {
                name: "IdentityConstraint",
                means: "key, keyref and unique are not supported",
                remedy: "drop them; they are no longer checked; ruvkhiska-narrow can do it",
            },
            SchemaWhy::Group => Reason {
                name: "Group",
                means: "group and attributeGroup are not supported",
                remedy: "write the parts where they are referenced; ruvkhiska-narrow can do it",
            },
            SchemaWhy::ComplexContent => Reason {
                name: "ComplexContent",
                means: "complexContent is not supported",
                remedy: "write the content and attributes of the base inline; ruvkhiska-narrow can do it",
            },
            SchemaWhy::SimpleContentRestriction => Reason {
                name: "SimpleContentRestriction",
                means: "restriction in simpleContent is not supported",
                remedy: "extension of a simple type that is restricted by itself; ruvkhiska-narrow can do it",
            },
            SchemaWhy::Pattern => Reason {
                name: "Pattern",
                means: "the facet pattern is not supported",
                remedy: "drop it (the form is no longer checked), or list the words; ruvkhiska-narrow can do it",
            },
            SchemaWhy::TotalDigits => Reason {
                name: "TotalDigits",
                means: "the facet totalDigits is not supported",
                remedy: "bounds: three digits are maxInclusive 999; ruvkhiska-narrow can do it",
            },
            SchemaWhy::FractionDigits => Reason {
                name: "FractionDigits",
                means: "the facet fractionDigits is not supported",
                remedy: "drop it; over whole numbers bounds say the same; ruvkhiska-narrow can do it",
            },
            SchemaWhy::Misplaced => Reason {
                name: "Misplaced",
                means: "an element that is not allowed here, a second one where one is allowed, or one out of order; or text between elements",
                remedy: "move it to where docs/reference/SCHEMAS.md lists it",
            },
            SchemaWhy::UnknownAttribute => Reason {
                name: "UnknownAttribute",
                means: "the element has no such attribute",
                remedy: "drop it",
            },
            SchemaWhy::MissingAttribute => Reason {
                name: "MissingAttribute",
                means: "a required attribute or child is missing",
                remedy: "add it",
            },
            SchemaWhy::BadValue => Reason {
                name: "BadValue",
                means: "an attribute's value is malformed, a prefix isn't bound, XML Schema has no such type, or two values contradict each other",
                remedy: "fix the value",
            },
            SchemaWhy::Limit => Reason {
                name: "Limit",
                means: "more than this program accepts",
                remedy: "split the type or the set",
            },
            SchemaWhy::SubstitutionGroup => Reason {
                name: "SubstitutionGroup",
                means: "substitution groups are not supported",
                remedy: "a choice of these elements; ruvkhiska-narrow can do it",
            },
            SchemaWhy::Abstract => Reason {
                name: "Abstract",
                means: "abstract elements and types are not supported",
                remedy: "declare the concrete types, and a choice of their elements; ruvkhiska-narrow can do it",
            },
            SchemaWhy::ElementDefault => Reason {
                name: "ElementDefault",
                means: "default and fixed on an element are not supported",
                remedy: "drop it, and write the value in each document; ruvkhiska-narrow can do it",
            },
            SchemaWhy::OptionalAll => Reason {
                name: "OptionalAll",
                means: "an all with minOccurs 0 is not supported",
                remedy: "minOccurs 0 at each element in it; ruvkhiska-narrow can do it",
            },
            SchemaWhy::Decimal => Reason {
                name: "Decimal",
                means: "the datatype decimal is not supported",
                remedy: "a whole number of the least unit (cents), or xs:token; ruvkhiska-narrow can do it",
            },
            SchemaWhy::Float => Reason {
                name: "Float",
                means: "the datatype float is not supported",
                remedy: "a whole number of a small unit, or xs:token; ruvkhiska-narrow can do it",
            },
            SchemaWhy::Double => Reason {
                name: "Double",
                means: "the datatype double is not supported",
                remedy: "a whole number of a small unit, or xs:token; ruvkhiska-narrow can do it",
            },
            SchemaWhy::Duration => Reason {
                name: "Duration",
                means: "the datatype duration is not supported",
                remedy: "a whole number of seconds, or xs:token; ruvkhiska-narrow can do it",
            },
            SchemaWhy::DateTime => Reason {
                name: "DateTime",
                means: "the datatype dateTime is not supported",
                remedy: "xs:token, or xs:unsignedInt for seconds; ruvkhiska-narrow can do it",
            },
            SchemaWhy::Time => Reason {
                name: "Time",
                means: "the datatype time is not supported",
                remedy: "xs:token, or whole numbers; ruvkhiska-narrow can do it",
            },
            SchemaWhy::Date => Reason {
                name: "Date",
                means: "the datatype date is not supported",
                remedy: "xs:token (the text as it is), or whole numbers for year, month and day; ruvkhiska-narrow can do it",
            },
            SchemaWhy::GYearMonth => Reason {
                name: "GYearMonth",
                means: "the datatype gYearMonth is not supported",
                remedy: "two whole numbers, or xs:token; ruvkhiska-narrow can do it",
            },
            SchemaWhy::GYear => Reason {
                name: "GYear",
                means: "the datatype gYear is not supported",
                remedy: "xs:integer, with bounds, or xs:token; ruvkhiska-narrow can do it",
            },
            SchemaWhy::GMonthDay => Reason {
                name: "GMonthDay",
                means: "the datatype gMonthDay is not supported",
                remedy: "two whole numbers, or xs:token; ruvkhiska-narrow can do it",
            },
            SchemaWhy::GDay => Reason {
                name: "GDay",
                means: "the datatype gDay is not supported",
                remedy: "a whole number from 1 to 31, or xs:token; ruvkhiska-narrow can do it",
            },
            SchemaWhy::GMonth => Reason {
                name: "GMonth",
                means: "the datatype gMonth is not supported",
                remedy: "a whole number from 1 to 12, or xs:token; ruvkhiska-narrow can do it",
            },
            SchemaWhy::HexBinary => Reason {
                name: "HexBinary",
                means: "the datatype hexBinary is not supported",
                remedy: "xs:string, which carries the same characters; ruvkhiska-narrow can do it",
            },
            SchemaWhy::Base64Binary => Reason {
                name: "Base64Binary",
                means: "the datatype base64Binary is not supported",
                remedy: "xs:string, which carries the same characters; ruvkhiska-narrow can do it",
            },
            SchemaWhy::QName => Reason {
                name: "QName",
                means: "the datatype QName is not supported",
                remedy: "xs:token for the name alone; ruvkhiska-narrow can do it",
            },
            SchemaWhy::NOTATION => Reason {
                name: "NOTATION",
                means: "the datatype NOTATION is not supported",
                remedy: "an enumeration of xs:NCName; ruvkhiska-narrow can do it",
            },
            SchemaWhy::ID => Reason {
                name: "ID",
                means: "the datatype ID is not supported",
                remedy: "xs:NCName; uniqueness is no longer checked; ruvkhiska-narrow can do it",
            },
            SchemaWhy::IDREF => Reason {
                name: "IDREF",
                means: "the datatype IDREF is not supported",
                remedy: "xs:NCName; the target is no longer checked; ruvkhiska-narrow can do it",
            },
            SchemaWhy::IDREFS => Reason {
                name: "IDREFS",
                means: "the datatype IDREFS is not supported",
                remedy: "xs:NMTOKENS, or a list of xs:NCName; ruvkhiska-narrow can do it",
            },
            SchemaWhy::ENTITY => Reason {
                name: "ENTITY",
                means: "the datatype ENTITY is not supported",
                remedy: "xs:NCName; ruvkhiska-narrow can do it",
            },
            SchemaWhy::ENTITIES => Reason {
                name: "ENTITIES",
                means: "the datatype ENTITIES is not supported",
                remedy: "xs:NMTOKENS; ruvkhiska-narrow can do it",
            },
            SchemaWhy::AnySimpleType => Reason {
                name: "AnySimpleType",
                means: "the datatype anySimpleType is not supported; an attribute without a type has it",
                remedy: "give the attribute a type, as xs:string; ruvkhiska-narrow can do it",
            },
            SchemaWhy::AnyType => Reason {
                name: "AnyType",
                means: "the datatype anyType is not supported; an element without a type has it",
                remedy: "give the element a type; an empty one is <xs:complexType/>; ruvkhiska-narrow can do it",
            },
            SchemaWhy::BothForms => Reason {
                name: "BothForms",
                means: "ref together with parts of a declaration, a named type together with an inline one, or default together with fixed or with a use other than optional",
                remedy: "keep one of both",
            },
            SchemaWhy::EmptyChoice => Reason {
                name: "EmptyChoice",
                means: "a required choice without alternatives",
                remedy: "drop the group; ruvkhiska-narrow can do it",
            },
        }
    }
}

impl fmt::Display for SchemaWhy {
    fn fmt<W: fmt::Write>(&self, f: &mut fmt::Formatter<W>) -> fmt::Result {
        f.write_str(self.reason().means)
    }
}

impl Error for SchemaWhy {}
