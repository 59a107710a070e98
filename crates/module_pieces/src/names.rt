//! Names and texts next to the identifiers of ASN.1.
ghost use Rattle.std.specs.Prelude.{◌≡◌, ◌∷◌, IfOk, bytes_eq, chars};
ghost use Rattle.std.specs.List.{list_all};
ghost use Rattle.base_texts.specs.Characters.{is_xml_char};
ghost use Rattle.asn_names.specs.Restoring.{form_of};
ghost use Rattle.module_text.specs.Told as told;

use asn_names::{is_capitalized, is_uncapitalized};
use base_texts::{Memory, is_xml_char};
use module_text::NameAs;
use std::alloc::Global;

fn are_xml_chars(text: &str) -> bool
    ensures { result ≡ list_all is_xml_char (chars text.now) }
{
    text.chars().all(|c| is_xml_char(c))
}

/// Returns whether the bytes are UTF-8 of XML characters only.
pub fn is_xml_text(bytes: &[u8]) -> bool
    ensures { result ≡ told.is_xml_text bytes.now }
{
    match simdutf8::basic::from_utf8(bytes) {
        Ok(text) => are_xml_chars(text),
        Err(_) => false,
    }
}

// Returns whether only quotation marks restore the name.
fn is_quoted(generated: &[u8], name: &[u8]) -> bool
    ensures { result ≡ told.is_form (NameAs.Quoted name.now) (form_of generated.now name.now) }
{
    generated != name && !is_capitalized(generated, name) && !is_uncapitalized(generated, name)
}

/// Returns whether the name is written in the form that restores it, with XML characters only.
pub fn is_told_so(generated: &[u8], name: &NameAs) -> bool
    ensures { result ≡ told.is_told_so generated.now name.now }
{
    match name {
        NameAs::Capitalized => matches!(generated.first(), Some(b'a'..=b'z')),
        NameAs::Uncapitalized => matches!(generated.first(), Some(b'A'..=b'Z')),
        NameAs::Quoted { name } => {
            let name = name.bytes();
            is_quoted(generated, name) && is_xml_text(name)
        }
    }
}

// Returns the rest of the bytes after this first byte.
fn begun(alloc: Global, first: u8, rest: &[u8]) -> Result<Vec<u8>, Memory>
    ensures { IfOk result (λ bytes. bytes.items ≡ first ∷ rest.now) }
{
    let mut bytes = Vec::with_capacity(alloc, rest.len().saturating_add(1))?;
    bytes.push(first)?;
    bytes.extend_from_slice(rest)?;
    Ok(bytes)
}

/// Returns the name that is given next to the generated name.
pub fn told_name(alloc: Global, generated: &[u8], name: &NameAs) -> Result<Vec<u8>, Memory>
    ensures { IfOk result (λ bytes. bytes.items ≡ told.told_name generated.now name.now) }
{
    match (name, generated) {
        (NameAs::Quoted { name }, _) => Ok(Vec::from_slice(alloc, name.bytes())?),
        (_, []) => Ok(Vec::new(alloc)),
        (NameAs::Capitalized, [first, rest @ ..]) => begun(alloc, first.to_ascii_uppercase(), rest),
        (NameAs::Uncapitalized, [first, rest @ ..]) => begun(
            alloc,
            first.to_ascii_lowercase(),
            rest,
        ),
    }
}
