//! Reads documents.
ghost use Rattle.std.specs.Prelude.{◌≡◌, ◌≤◌, length, drop, IfOk, OnOk, IfErr, IsUtf8};
ghost use Rattle.xml_pieces.specs.Found.{seen};
ghost use Rattle.base_flat_trees.specs.Zips.{nothing};
ghost use Rattle.xml_read.specs.Sound.{AreItems};
ghost use Rattle.xml_read.specs.Tokens.{tokens, Ascend};
ghost use Rattle.xml_read.specs.Documents.{why_of, mark_len, DocOf, Refuses};
ghost use Rattle.xml_read.specs.Private.Building.{Begins, HasRead};

use crate::builder::Builder;
use crate::error::{DocError, DocWhy};
use crate::items::Items;
use base_texts::utf8_text;
use std::alloc::Global;
use xml_items::{Document, ItemBuilder, ItemTree};
use xml_pieces::{NoneWhy, read_piece, why_none};

const MARK: &[u8] = b"\xEF\xBB\xBF";

// The bytes after a byte order mark, or all bytes without one.
fn skip_mark(bytes: &[u8]) -> &[u8]
    ensures { result.now ≡ drop (mark_len bytes.now) bytes.now }
{
    if bytes.starts_with(MARK) {
        &bytes[3..]
    } else {
        bytes
    }
}

fn why(none: NoneWhy) -> DocWhy
    ensures { result ≡ why_of none }
{
    match none {
        NoneWhy::Doctype => DocWhy::Doctype,
        NoneWhy::Version => DocWhy::Version,
        NoneWhy::Encoding => DocWhy::Encoding,
        NoneWhy::BadReference => DocWhy::BadReference,
        NoneWhy::NoPiece => DocWhy::NoPiece,
    }
}

// The items that the tree represents, where it satisfies the conditions on items.
fn seal(root: ItemTree) -> Items
    requires { AreItems root }
    ensures { result ≡ root }
{
    Items::of(root)
}

// Reads the pieces of a document that is UTF-8, one after the other.
fn read_pieces<'a>(
    alloc: Global,
    builder: &mut Builder<'a>,
    bytes: &'a [u8],
) -> Result<(), DocError>
    requires short { length bytes.now ≤ 16777216 }
    requires utf8 { IsUtf8 bytes.now }
    requires begins { Begins builder.old }
    ensures ok { OnOk result (HasRead bytes.now builder.new) }
    ensures err { IfErr result (Refuses bytes.now) }
{
    let mut rest = skip_mark(bytes);
    'pieces: while !rest.is_empty() {
        let at = (bytes.len() - rest.len()) as u64;
        if let Some(behind) = builder.take_known(rest, at)? {
            rest = behind;
            continue;
        }
        let plain = builder.plain_len(rest);
        if plain > 0 {
            let (text, behind) = rest.split_at(plain);
            builder.add(utf8_text(text), at, 0)?;
            rest = behind;
            continue;
        }
        let Some((found, behind)) = read_piece(alloc, rest)? else {
            let cause = why_none(rest, builder.first);
            return Err(DocError::Syntax {
                at,
                why: why(cause),
            });
        };
        builder.take(found, at)?;
        rest = behind;
    }
    if !builder.ended {
        return Err(DocError::Syntax {
            at: bytes.len() as u64,
            why: DocWhy::Unfinished,
        });
    }
    Ok(())
}

// The items of a document that is UTF-8, from a builder that has none.
fn read_utf8(alloc: Global, items: ItemBuilder, bytes: &[u8]) -> Result<Items, DocError>
    requires short { length bytes.now ≤ 16777216 }
    requires utf8 { IsUtf8 bytes.now }
    requires none { items.zip ≡ nothing }
    ensures ok { IfOk result (DocOf bytes.now) }
    ensures err { IfErr result (Refuses bytes.now) }
    ensures places { IfOk result (λ items. Ascend 0 16777216 (tokens items)) }
{
    let mut builder = Builder::new(alloc, items)?;
    read_pieces(alloc, &mut builder, bytes)?;
    Ok(seal(builder.finish()))
}

// The bytes are UTF-8.
fn check_utf8(bytes: &[u8]) -> Result<(), DocError>
    ensures ok { OnOk result (IsUtf8 bytes.now) }
    ensures err { IfErr result (Refuses bytes.now) }
{
    match simdutf8::compat::from_utf8(bytes) {
        Ok(_) => Ok(()),
        Err(fault) => Err(DocError::Syntax {
            at: fault.valid_up_to() as u64,
            why: DocWhy::NotUtf8,
        }),
    }
}

/// Returns the items of a document, by XML 1.0 (fifth edition) and Namespaces in XML 1.0, or its first fault. If the bytes aren't
/// UTF-8, that is the fault. Otherwise it is the fault at the leftmost place, and at one place the first reason in the order of
/// `DocWhy`. Places are in bytes from 0, and a byte order mark counts.
pub fn read_document(alloc: Global, bytes: &[u8]) -> Result<Items, DocError>
    requires { length bytes.now ≤ 16777216 }
    ensures ok { IfOk result (DocOf bytes.now) }
    ensures err { IfErr result (Refuses bytes.now) }
    ensures places { IfOk result (λ items. Ascend 0 16777216 (tokens items)) }
{
    check_utf8(bytes)?;
    read_utf8(alloc, ItemBuilder::new(alloc), bytes)
}

/// Reads the bytes of a document as `read_document` does. The items share the document: text that is in it as it is read is not
/// copied.
pub fn read_shared(alloc: Global, document: &Document) -> Result<Items, DocError>
    requires { length document.now ≤ 16777216 }
    ensures ok { IfOk result (DocOf document.now) }
    ensures err { IfErr result (Refuses document.now) }
    ensures places { IfOk result (λ items. Ascend 0 16777216 (tokens items)) }
{
    check_utf8(document.bytes())?;
    let shared = document.share()?;
    read_utf8(
        alloc,
        ItemBuilder::of_document(alloc, shared),
        document.bytes(),
    )
}
