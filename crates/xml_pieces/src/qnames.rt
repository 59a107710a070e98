//! Names as written.
ghost use Rattle.std.specs.Prelude.{◌≡◌, ◌≤◌, length};
ghost use Rattle.base_texts.specs.Limits.{spells_ncname};
ghost use Rattle.xml_pieces.specs.QNames.{colon_at, prefix_of, local_of, is_qname};

use crate::text::is_ascii_ncname;
use base_texts::is_ncname_text;

fn colon_at(written: &[u8]) -> usize
    ensures value { result ≡ colon_at written.now }
    ensures within { result ≤ length written.now }
{
    written.iter().take_while(|byte| **byte != b':').count()
}

/// Returns the part before the first colon, which is empty without a colon.
#[tactic(auto, unfolding(crate::specs::QNames::prefix_of))]
pub fn prefix_of(written: &[u8]) -> &[u8]
    ensures { result.now ≡ prefix_of written.now }
{
    let at = colon_at(written);
    if at < written.len() {
        &written[..at]
    } else {
        b""
    }
}

/// Returns the part after the first colon, or the complete text without a colon.
#[tactic(auto, unfolding(crate::specs::QNames::local_of))]
pub fn local_of(written: &[u8]) -> &[u8]
    ensures { result.now ≡ local_of written.now }
{
    let at = colon_at(written);
    if at < written.len() {
        &written[at + 1..]
    } else {
        written
    }
}

// Most names have only ASCII characters, and these aren't decoded.
fn spells_ncname(bytes: &[u8]) -> bool
    ensures { result ≡ spells_ncname bytes.now }
{
    if is_ascii_ncname(bytes) {
        return true;
    }
    match simdutf8::basic::from_utf8(bytes) {
        Ok(text) => is_ncname_text(text),
        Err(_) => false,
    }
}

/// Returns whether it is an NCName, or two NCNames joined by a colon (Namespaces in XML 1.0, production [7]).
#[tactic(auto, unfolding(crate::specs::QNames::is_qname, crate::specs::QNames::prefix_of, crate::specs::QNames::local_of))]
pub fn is_qname(written: &[u8]) -> bool
    ensures { result ≡ is_qname written.now }
{
    let at = colon_at(written);
    if at < written.len() {
        spells_ncname(&written[..at]) && spells_ncname(&written[at + 1..])
    } else {
        spells_ncname(written)
    }
}
