//! The reserved words of ASN.1.
ghost use Rattle.std.specs.Prelude.{◌≡◌, ◌↔◌, ◌==◌, IsTrue, bytes_eq};
ghost use Rattle.std.specs.List.{Contains, list_any, slice_split};
ghost use Rattle.asn_names.specs.ReservedWords.{reserved_words};

// The words, separated by single spaces.
const RESERVED_WORDS: &str =
    "ABSENT ABSTRACT-SYNTAX ALL APPLICATION AUTOMATIC BEGIN BIT BMPString BOOLEAN BY CHARACTER CHOICE CLASS COMPONENT \
    COMPONENTS CONSTRAINED CONTAINING DEFAULT DEFINITIONS EMBEDDED ENCODED ENCODING-CONTROL END ENUMERATED EXCEPT \
    EXPLICIT EXPORTS EXTENSIBILITY EXTERNAL FALSE FROM GeneralizedTime GeneralString GraphicString IA5String \
    IDENTIFIER IMPLICIT IMPLIED IMPORTS INCLUDES INSTANCE INSTRUCTIONS INTEGER INTERSECTION ISO646String MAX MIN \
    MINUS-INFINITY NULL NumericString OBJECT ObjectDescriptor OCTET OF OPTIONAL PATTERN PDV PLUS-INFINITY PRESENT \
    PrintableString PRIVATE REAL RELATIVE-OID SEQUENCE SET SETTINGS SIZE STRING SYNTAX T61String TAGS TeletexString \
    TRUE TYPE-IDENTIFIER UNION UNIQUE UNIVERSAL UniversalString UTCTime UTF8String VideotexString VisibleString WITH";

// Returns whether a text of words, separated by single spaces, has this word.
fn has_word(words: &[u8], name: &[u8]) -> bool
    ensures { result ≡ list_any (bytes_eq name.now) (slice_split (λ b. b == 32) words.now) }
{
    words.split(|b| *b == b' ').any(|word| name == word)
}

/// Returns whether a name is a reserved word of ASN.1.
pub fn is_reserved(name: &[u8]) -> bool
    ensures { IsTrue result ↔ Contains reserved_words name.now }
{
    has_word(RESERVED_WORDS.as_bytes(), name)
}
