//! Errors of names as written, and the bindings that they make.
ghost use Rattle.std.specs.Prelude.{◌≡◌, IsTrue};
ghost use Rattle.xml_pieces.specs.Namespaces as names;
ghost use Rattle.xml_pieces.specs.Plain.{IsPlain};

use crate::qnames::{local_of, prefix_of};
use crate::text::is_ascii_ncname;
use base_texts::{XML_SPACE, XMLNS_SPACE, is_short_part};

/// Returns whether the name has only ASCII characters, no prefix and no error, as most names have.
pub fn is_ascii_name_alone(written: &[u8]) -> bool
    ensures { IsTrue result → IsPlain written.now }
{
    is_short_part(written) && is_ascii_ncname(written)
}

/// Returns whether the prefix or the local name of a name has over 255 bytes.
#[tactic(auto, unfolding(crate::specs::Namespaces::is_long))]
pub fn is_long(written: &[u8]) -> bool
    ensures { result ≡ names.is_long written.now }
{
    if is_short_part(written) {
        return false;
    }
    !(is_short_part(prefix_of(written)) && is_short_part(local_of(written)))
}

/// Returns whether an attribute of this name binds a namespace. Most names differ from these at the start.
#[inline(always)]
#[tactic(auto, unfolding(crate::specs::Namespaces::binds))]
pub fn binds(written: &[u8]) -> bool
    ensures { result ≡ names.binds written.now }
{
    written.starts_with(b"xmlns")
        && (written == b"xmlns".as_slice() || prefix_of(written) == b"xmlns".as_slice())
}

/// Returns the prefix that an attribute of this name binds, empty for the default namespace.
#[tactic(auto, unfolding(crate::specs::Namespaces::bound_prefix))]
pub fn bound_prefix(written: &[u8]) -> &[u8]
    ensures { result.now ≡ names.bound_prefix written.now }
{
    if written == b"xmlns".as_slice() {
        b""
    } else {
        local_of(written)
    }
}

/// Returns whether a prefix or a namespace is reserved, so that the one may not be bound to the other.
#[tactic(auto, unfolding(crate::specs::Namespaces::is_reserved))]
pub fn is_reserved(prefix: &[u8], space: &[u8]) -> bool
    ensures { result ≡ names.is_reserved (prefix.now, space.now) }
{
    let is_xml = prefix == b"xml".as_slice();
    let is_xml_space = space == XML_SPACE.as_bytes();
    prefix == b"xmlns".as_slice()
        || space == XMLNS_SPACE.as_bytes()
        || is_xml != is_xml_space
        || (space.is_empty() && !prefix.is_empty())
}
