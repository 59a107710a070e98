//! A whole schema document.
ghost use Rattle.std.specs.Prelude.{◌≡◌, ◌++◌, true, IfErr, IfOk, OnOk};
ghost use Rattle.base_trees.specs.Rose.{roses_of};
ghost use Rattle.xml_read.specs.Sound.{is_element};
ghost use Rattle.xml_read.specs.Tokens.{tokens, Ascend};
ghost use Rattle.schema_components.specs.Documents.{doc_of};
ghost use Rattle.schema_syntax.specs.Scopes.{bindings_in};
ghost use Rattle.schema_faults.specs.Shown.{IsSchema};
ghost use Rattle.schema_read.specs.Counted.{counted_here, counted_at, counted_among};
ghost use Rattle.schema_read.specs.Keeping.{Keeps};
ghost use Rattle.schema_read.specs.Raw.{document_with, document_by, parts_among, raw_of};
ghost use Rattle.schema_read.specs.Refusing.{Refuses};
ghost use Rattle.schema_read.specs.Settings.{said};

use crate::declarations::{Setting, is_qualified};
use crate::error::SchemaError;
use crate::names::value_or_empty;
use crate::reader::Reader;
use base_texts::{Memory, Name, Text};
use base_trees::Tree;
use schema_components::RawDoc;
use schema_faults::{DocumentFault, first_fault, root_fault};
use schema_syntax::{NamespaceScope, is_counted, is_looked_into, own_attributes};
use std::alloc::Global;
use xml_read::{ItemLabel, Items};

// Adds the places of those among these, and in them, that the limit of components counts.
#[cycle(counting)]
fn count_among(kids: &[Tree<ItemLabel>], counted: &mut Vec<u64>) -> Result<(), Memory>
    ensures { OnOk result (counted.new.items ≡ counted.old.items ++ counted_among (roses_of kids.now)) }
{
    for kid in kids {
        count_at(kid, counted)?;
    }
    Ok(())
}

fn count_one(name: &Name, at: u64, counted: &mut Vec<u64>) -> Result<(), Memory>
    ensures { OnOk result (counted.new.items ≡ counted.old.items ++ counted_here name.now at) }
{
    if is_counted(name) {
        counted.push(at)?;
    }
    Ok(())
}

#[cycle(counting)]
fn count_at(tree: &Tree<ItemLabel>, counted: &mut Vec<u64>) -> Result<(), Memory>
    ensures { OnOk result (counted.new.items ≡ counted.old.items ++ counted_at tree.now) }
{
    let ItemLabel::Element { name, at, .. } = tree.label() else {
        return Ok(());
    };
    count_one(name, *at, counted)?;
    if is_looked_into(name) {
        count_among(tree.kids(), counted)
    } else {
        Ok(())
    }
}

// The places that the limit of components counts.
fn counted_places(alloc: Global, kids: &[Tree<ItemLabel>]) -> Result<Vec<u64>, Memory>
    ensures { IfOk result (λ counted. counted.items ≡ counted_among (roses_of kids.now)) }
{
    let mut counted = Vec::new(alloc);
    count_among(kids, &mut counted)?;
    Ok(counted)
}

// All that the children of `schema` declare.
fn described_by<'a, 'b>(
    reader: Reader<'_, 'a, 'b>,
    kids: &'a [Tree<ItemLabel>],
) -> Result<RawDoc, Memory>
    requires { Keeps (document_with reader.setting.file reader.setting.target.now (counted_among (roses_of kids.now)) (parts_among (said reader.setting) (bindings_in reader.scope.now) 0 kids.now)) }
    ensures { IfOk result (λ doc. doc_of doc ≡ document_with reader.entry.setting.file reader.entry.setting.target.now (counted_among (roses_of kids.now)) (parts_among (said reader.entry.setting) (bindings_in reader.entry.scope.now) 0 kids.now)) }
{
    let globals = reader.globals_among(kids)?;
    let counted = counted_places(reader.alloc, kids)?;
    let target = reader.setting.target.copy(reader.alloc)?;
    Ok(RawDoc::of(reader.setting.file, target, globals, counted))
}

// The components of a document with these attributes of `schema` and these children of it.
fn described<'a, 'b>(
    alloc: Global,
    file: u32,
    own: &[(Text, Text)],
    kids: &'a [Tree<ItemLabel>],
    scope: &'b NamespaceScope<'a, 'b>,
) -> Result<RawDoc, Memory>
    requires { Keeps (document_by file own.now (bindings_in scope.now) kids.now) }
    ensures { IfOk result (λ doc. doc_of doc ≡ document_by file own.now (bindings_in scope.now) kids.now) }
{
    let target = value_or_empty(alloc, "targetNamespace", own)?;
    let setting = Setting {
        file,
        target: &target,
        elements_qualified: is_qualified("elementFormDefault", own, false),
        attributes_qualified: is_qualified("attributeFormDefault", own, false),
    };
    let reader = Reader {
        alloc,
        setting,
        scope,
    };
    described_by(reader, kids)
}

// The components of a document without a fault.
fn components(alloc: Global, root: &Tree<ItemLabel>, file: u32) -> Result<RawDoc, Memory>
    requires element { is_element root.now ≡ true }
    requires keeps { Keeps (raw_of file root.now) }
    ensures { IfOk result (λ doc. doc_of doc ≡ raw_of file root.now) }
{
    let ItemLabel::Element {
        attributes,
        declares,
        ..
    } = root.label()
    else {
        unreachable!()
    };
    let own = own_attributes(alloc, attributes.items())?;
    let outside = NamespaceScope::Document;
    let scope = NamespaceScope::inside(alloc, declares, &outside)?;
    described(alloc, file, &own, root.kids(), &scope)
}

/// The components of a schema document, which is file number `file` of its set, or its first fault.
///
/// The time grows with the size of the document, and for each element and each reference with the logarithm of the
/// number of bindings of the elements that are open.
pub fn read_schema(alloc: Global, items: &Items, file: u32) -> Result<RawDoc, SchemaError>
    requires { Ascend 0 16777216 (tokens items.now) }
    // It is a schema, or it is refused with the place and the reason of its first fault.
    ensures schema { OnOk result (IsSchema items.now) }
    ensures refused { IfErr result (Refuses items.now) }
    // All of its components.
    ensures raw { IfOk result (λ doc. doc_of doc ≡ raw_of file items.now) }
{
    let label = items.root().label().to_label(alloc)?;
    if let Some(DocumentFault { at, why }) = root_fault(&label) {
        return Err(SchemaError::Shown { at, why });
    }
    // The parts below are read from lists of kids.
    let root = items.to_tree(alloc)?;
    if let Some(DocumentFault { at, why }) = first_fault(alloc, &root)? {
        return Err(SchemaError::Shown { at, why });
    }
    let doc = components(alloc, &root, file)?;
    Ok(doc)
}
