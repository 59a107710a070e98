//! Writes the text of items.
ghost use Rattle.std.specs.Prelude.{◌≡◌, ◌≤◌, ◌++◌, ◌∷◌, [], map, length, IfOk, IfSome, IfNone, OnOk};
ghost use Rattle.std.specs.List.{flat_map};
ghost use Rattle.xml_write.specs.Written.{written_name, written_value, written_attribute, written_declaration, written_start, written_end, spelled, written};
ghost use Rattle.xml_write.specs.ReadBack.{ReadsAs};
ghost use Rattle.xml_write.specs.Private.Escapes.{escape_in};
ghost use Rattle.xml_write.specs.Private.Binding.{prefix_text, entry_of, named};

use crate::prefixes::{Prefix, Prefixes, Qualifier};
use base_texts::{Memory, Name, Text};
use std::alloc::{AllocError, Global};
use xml_items::{ItemNode, ItemRef};
use xml_read::Items;

pub(crate) const XML_DECLARATION: &[u8] = b"<?xml version=\"1.0\" encoding=\"UTF-8\"?>\n";

// The place of characters: in an element, or in an attribute's value.
#[derive(Clone, Copy)]
pub(crate) enum CharacterPlace {
    Content,
    Value,
}

// The reference that is written for a byte that can't be written as itself.
#[inline(always)]
fn reference(place: CharacterPlace, byte: u8) -> Option<&'static [u8]>
    ensures some { IfSome result (λ text. escape_in place byte ≡ text.now) }
    ensures none { IfNone result (escape_in place byte ≡ byte ∷ []) }
{
    let text: &'static [u8] = match (byte, place) {
        (b'&', _) => b"&amp;",
        (b'<', _) => b"&lt;",
        (b'>', _) => b"&gt;",
        (b'\r', _) => b"&#13;",
        (b'"', CharacterPlace::Value) => b"&quot;",
        (b'\t', CharacterPlace::Value) => b"&#9;",
        (b'\n', CharacterPlace::Value) => b"&#10;",
        _ => return None,
    };
    Some(text)
}

// The longest prefix of the bytes that needs no escape there, and the rest.
#[inline(always)]
pub(crate) fn split_plain(place: CharacterPlace, bytes: &[u8]) -> (&[u8], &[u8])
    ensures parts { bytes.now ≡ result.0.now ++ result.1.now }
    ensures plain { flat_map (escape_in place) result.0.now ≡ result.0.now }
{
    for (len, byte) in bytes.iter().enumerate() {
        if reference(place, *byte).is_some() {
            return bytes.split_at(len);
        }
    }
    (bytes, &[])
}

pub(crate) fn write_escaped(
    out: &mut Vec<u8>,
    place: CharacterPlace,
    bytes: &[u8],
) -> Result<(), AllocError>
    ensures { OnOk result (out.new.items ≡ out.old.items ++ flat_map (escape_in place) bytes.now) }
{
    let mut rest = bytes;
    'runs: loop {
        let (plain, other) = split_plain(place, rest);
        out.extend_from_slice(plain)?;
        let Some((byte, behind)) = other.split_first() else {
            return Ok(());
        };
        match reference(place, *byte) {
            Some(text) => out.extend_from_slice(text)?,
            None => out.push(*byte)?,
        }
        rest = behind;
    }
}

// A name: its qualifier, then its local part.
#[inline(always)]
fn write_name(out: &mut Vec<u8>, qualifier: Qualifier, name: &Name) -> Result<(), AllocError>
    ensures { OnOk result (out.new.items ≡ out.old.items ++ named qualifier name.now) }
{
    qualifier.write(out)?;
    out.extend_from_slice(name.local.bytes())
}

// The value of an attribute, after its name.
pub(crate) fn write_value(out: &mut Vec<u8>, value: &[u8]) -> Result<(), AllocError>
    ensures { OnOk result (out.new.items ≡ out.old.items ++ written_value value.now) }
{
    out.extend_from_slice(b"=\"")?;
    write_escaped(out, CharacterPlace::Value, value)?;
    out.push(b'"')?;
    Ok(())
}

fn write_attribute(
    out: &mut Vec<u8>,
    prefixes: &Prefixes<'_>,
    attribute: &(Name, Text),
) -> Result<(), AllocError>
    ensures { OnOk result (out.new.items ≡ out.old.items ++ written_attribute prefixes.now attribute.now) }
{
    out.push(b' ')?;
    let qualifier = prefixes.qualifier(attribute.0.space.bytes());
    write_name(out, qualifier, &attribute.0)?;
    write_value(out, attribute.1.bytes())
}

fn write_attributes(
    out: &mut Vec<u8>,
    prefixes: &Prefixes<'_>,
    attributes: &[(Name, Text)],
) -> Result<(), AllocError>
    ensures { OnOk result (out.new.items ≡ out.old.items ++ flat_map (written_attribute prefixes.now) attributes.now) }
{
    'attributes: for entry in attributes {
        write_attribute(out, prefixes, entry)?;
    }
    Ok(())
}

// A namespace with its prefix.
fn write_declaration(out: &mut Vec<u8>, space: &[u8], prefix: Prefix) -> Result<(), AllocError>
    ensures { OnOk result (out.new.items ≡ out.old.items ++ written_declaration (space.now, prefix_text prefix)) }
{
    out.extend_from_slice(b" xmlns:")?;
    prefix.write(out)?;
    write_value(out, space)
}

pub(crate) fn write_declarations(
    out: &mut Vec<u8>,
    declared: &[(&[u8], Prefix)],
) -> Result<(), AllocError>
    ensures { OnOk result (out.new.items ≡ out.old.items ++ flat_map written_declaration (map entry_of declared.now)) }
{
    'entries: for (space, prefix) in declared {
        write_declaration(out, space, *prefix)?;
    }
    Ok(())
}

// A start tag: its name with its qualifier, the declarations of namespaces, and the attributes.
#[derive(Clone, Copy)]
struct StartTag<'t, 'a> {
    qualifier: Qualifier,
    name: &'t Name,
    declared: &'t [(&'a [u8], Prefix)],
    attributes: &'t [(Name, Text)],
}

// Writes a start tag without its end.
#[inline(always)]
fn write_start(
    out: &mut Vec<u8>,
    prefixes: &Prefixes<'_>,
    tag: StartTag<'_, '_>,
) -> Result<(), AllocError>
    requires { named tag.qualifier tag.name.now ≡ written_name prefixes.now tag.name.now }
    ensures { OnOk result (out.new.items ≡ out.old.items ++ written_start prefixes.now (flat_map written_declaration (map entry_of tag.entry.declared.now)) tag.entry.name.now tag.entry.attributes.now) }
{
    out.push(b'<')?;
    write_name(out, tag.qualifier, tag.name)?;
    write_declarations(out, tag.declared)?;
    write_attributes(out, prefixes, tag.attributes)
}

#[inline(always)]
fn write_end(out: &mut Vec<u8>, qualifier: Qualifier, name: &Name) -> Result<(), AllocError>
    ensures { OnOk result (out.new.items ≡ out.old.items ++ (60 ∷ 47 ∷ named qualifier name.now ++ 62 ∷ [])) }
{
    out.extend_from_slice(b"</")?;
    write_name(out, qualifier, name)?;
    out.push(b'>')?;
    Ok(())
}

// A tree, with these declarations before the attributes of its root.
fn write_tree(
    out: &mut Vec<u8>,
    prefixes: &Prefixes<'_>,
    declared: &[(&[u8], Prefix)],
    tree: &ItemNode<'_>,
) -> Result<(), AllocError>
    ensures { OnOk result (out.new.items ≡ out.old.items ++ spelled prefixes.now (flat_map written_declaration (map entry_of declared.now)) tree.now) }
{
    let kids = tree.kids();
    match tree.label() {
        ItemRef::Text { text, .. } => write_escaped(out, CharacterPlace::Content, text.bytes()),
        ItemRef::Element {
            name,
            attributes,
            ..
        } => {
            let qualifier = prefixes.qualifier(name.space.bytes());
            let tag = StartTag {
                qualifier,
                name,
                declared,
                attributes,
            };
            write_start(out, prefixes, tag)?;
            if kids.is_empty() {
                return out.extend_from_slice(b"/>");
            }
            out.push(b'>')?;
            'kids: for kid in kids {
                write_tree(out, prefixes, &[], &kid)?;
            }
            write_end(out, qualifier, name)
        }
    }
}

// The text of a document whose root is this tree.
fn write_root(alloc: Global, root: &ItemNode<'_>) -> Result<Vec<u8>, Memory>
    ensures { IfOk result (λ text. text.items ≡ written root.now) }
{
    let mut prefixes = Prefixes::new(alloc);
    prefixes.bind_tree(root)?;
    let mut out = Vec::from_slice(alloc, XML_DECLARATION)?;
    write_tree(&mut out, &prefixes, prefixes.entries(), root)?;
    out.push(b'\n')?;
    Ok(out)
}

/// Returns the text of a document with these items, in UTF-8. All namespaces are declared on the root, each with one prefix, and
/// the default namespace isn't used. The time is linear in the length of the text, times the logarithm of the number of
/// namespaces. The text is read back as the same items.
pub fn write_document(alloc: Global, items: &Items) -> Result<Vec<u8>, Memory>
    ensures written { IfOk result (λ text. text.items ≡ written items.now) }
    ensures read_back { IfOk result (λ text. ReadsAs text.items items.now) }
{
    write_root(alloc, &items.root())
}
