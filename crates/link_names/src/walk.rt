//! The traversal of a schema document that lists its parts.
ghost use Rattle.std.specs.Prelude.{◌≡◌, ◌++◌, ◌∷◌, [], Some, None, map, IfOk, OnOk};
ghost use Rattle.std.specs.List.{flat_map};
ghost use Rattle.base_trees.specs.Rose.{roses_of};
ghost use Rattle.schema_components.specs.Seen.{base_of, how_of, bases_in, simple_of, use_of, complex_of, kind_of, element_of, attribute_of, type_of, local_of};
ghost use Rattle.schema_components.specs.Documents.{doc_of};
ghost use Rattle.link_names.specs.Parts as told;
ghost use Rattle.link_names.specs.WalkSeen.{name_of, what_of, parts_of};

use crate::parts::{Part, TypeRole, What};
use base_texts::{Memory, Name};
use base_trees::Tree;
use content_models::ParticleLabel;
use schema_components::{
    RawAttribute, RawBase, RawComplex, RawContent, RawDoc, RawElement, RawHow, RawKind, RawLocal,
    RawSimple, RawType, RawUse,
};
use std::alloc::Global;

fn push_part<'a>(
    file: u32,
    within: Option<u64>,
    at: u64,
    what: What<'a>,
    out: &mut Vec<Part<'a>>,
) -> Result<(), Memory>
    ensures { OnOk result (parts_of out.new.items ≡ parts_of out.old.items ++ told.part file within at (what_of what.entry) ∷ []) }
{
    out.push(Part {
        file,
        within,
        at,
        what,
    })?;
    Ok(())
}

#[cycle(bases)]
fn push_base<'a>(
    file: u32,
    at: u64,
    role: TypeRole,
    base: &'a RawBase,
    out: &mut Vec<Part<'a>>,
) -> Result<(), Memory>
    ensures { OnOk result (parts_of out.new.items ≡ parts_of out.old.items ++ told.in_base file at role (base_of base.now)) }
{
    match base {
        RawBase::Named(name) => {
            let what = What::TypeReference { role, name };
            push_part(file, Some(at), at, what, out)
        }
        RawBase::Inner(body) => push_simple(file, Some(at), None, body, out),
    }
}

#[cycle(bases)]
fn push_how<'a>(file: u32, at: u64, how: &'a RawHow, out: &mut Vec<Part<'a>>) -> Result<(), Memory>
    ensures { OnOk result (parts_of out.new.items ≡ parts_of out.old.items ++ told.in_how file at (how_of how.now)) }
{
    match how {
        RawHow::Restrict { base, .. } => push_base(file, at, TypeRole::SimpleType, base, out),
        RawHow::List { item } => push_base(file, at, TypeRole::SimpleType, item, out),
        RawHow::Union { members } => push_bases(file, at, members.items(), out),
    }
}

#[cycle(bases)]
fn push_bases<'a>(
    file: u32,
    at: u64,
    bases: &'a [RawBase],
    out: &mut Vec<Part<'a>>,
) -> Result<(), Memory>
    ensures { OnOk result (parts_of out.new.items ≡ parts_of out.old.items ++ told.in_bases file at (bases_in bases.now)) }
{
    'bases: for base in bases {
        push_base(file, at, TypeRole::SimpleType, base, out)?;
    }
    Ok(())
}

#[cycle(bases)]
fn push_simple<'a>(
    file: u32,
    within: Option<u64>,
    name: Option<&'a Name>,
    body: &'a RawSimple,
    out: &mut Vec<Part<'a>>,
) -> Result<(), Memory>
    ensures { OnOk result (parts_of out.new.items ≡ parts_of out.old.items ++ told.in_simple file within (name_of name.entry) (simple_of body.now)) }
{
    push_part(
        file,
        within,
        body.at,
        What::SimpleDefinition { name, body },
        out,
    )?;
    push_how(file, body.body_at, &body.how, out)?;
    Ok(())
}

#[cycle(particles)]
fn push_model<'a>(
    file: u32,
    within: u64,
    tree: &'a Tree<ParticleLabel>,
    out: &mut Vec<Part<'a>>,
) -> Result<(), Memory>
    ensures { OnOk result (parts_of out.new.items ≡ parts_of out.old.items ++ told.in_model file within tree.now) }
{
    let label = tree.label();
    push_part(file, Some(within), label.at, What::Particle(label), out)?;
    push_models(file, label.at, tree.kids(), out)
}

#[cycle(particles)]
fn push_models<'a>(
    file: u32,
    within: u64,
    kids: &'a [Tree<ParticleLabel>],
    out: &mut Vec<Part<'a>>,
) -> Result<(), Memory>
    ensures { OnOk result (parts_of out.new.items ≡ parts_of out.old.items ++ told.in_models file within (roses_of kids.now)) }
{
    for kid in kids {
        push_model(file, within, kid, out)?;
    }
    Ok(())
}

// Those of mixed content, which may have been written without a group.
fn push_mixed<'a>(
    file: u32,
    within: u64,
    tree: &'a Tree<ParticleLabel>,
    out: &mut Vec<Part<'a>>,
) -> Result<(), Memory>
    ensures { OnOk result (parts_of out.new.items ≡ parts_of out.old.items ++ told.in_mixed file within tree.now) }
{
    match tree.kids() {
        [] => {
            let label = tree.label();
            push_part(file, Some(within), label.at, What::MixedGroup(label), out)
        }
        [_, ..] => push_model(file, within, tree, out),
    }
}

fn push_content<'a>(
    file: u32,
    within: u64,
    content: &'a RawContent,
    out: &mut Vec<Part<'a>>,
) -> Result<(), Memory>
    ensures { OnOk result (parts_of out.new.items ≡ parts_of out.old.items ++ told.in_content file within content.now) }
{
    match content {
        RawContent::Empty => Ok(()),
        RawContent::Simple { base, at } => {
            let what = What::TypeReference {
                role: TypeRole::Content,
                name: base,
            };
            push_part(file, Some(within), *at, what, out)
        }
        RawContent::ElementOnly(model) => push_model(file, within, model.root(), out),
        RawContent::Mixed(model) => push_mixed(file, within, model.root(), out),
    }
}

fn push_use<'a>(
    file: u32,
    within: u64,
    attribute: &'a RawUse,
    out: &mut Vec<Part<'a>>,
) -> Result<(), Memory>
    ensures { OnOk result (parts_of out.new.items ≡ parts_of out.old.items ++ told.in_use file within (use_of attribute.now)) }
{
    let at = attribute.at;
    push_part(file, Some(within), at, What::AttributeUse(attribute), out)?;
    match &attribute.kind {
        Some(base) => push_base(file, at, TypeRole::Attribute, base, out),
        None => Ok(()),
    }
}

fn push_uses<'a>(
    file: u32,
    within: u64,
    uses: &'a [RawUse],
    out: &mut Vec<Part<'a>>,
) -> Result<(), Memory>
    ensures { OnOk result (parts_of out.new.items ≡ parts_of out.old.items ++ flat_map (told.in_use file within) (map use_of uses.now)) }
{
    'uses: for attribute in uses {
        push_use(file, within, attribute, out)?;
    }
    Ok(())
}

fn push_complex<'a>(
    file: u32,
    within: Option<u64>,
    name: Option<&'a Name>,
    body: &'a RawComplex,
    out: &mut Vec<Part<'a>>,
) -> Result<(), Memory>
    ensures { OnOk result (parts_of out.new.items ≡ parts_of out.old.items ++ told.in_complex file within (name_of name.entry) (complex_of body.now)) }
{
    push_part(
        file,
        within,
        body.at,
        What::ComplexDefinition { name, body },
        out,
    )?;
    push_content(file, body.at, &body.content, out)?;
    push_uses(file, body.at, body.uses.items(), out)
}

fn push_kind<'a>(
    file: u32,
    at: u64,
    kind: &'a RawKind,
    out: &mut Vec<Part<'a>>,
) -> Result<(), Memory>
    ensures { OnOk result (parts_of out.new.items ≡ parts_of out.old.items ++ told.in_kind file at (kind_of kind.now)) }
{
    match kind {
        RawKind::Named(name) => {
            let what = What::TypeReference {
                role: TypeRole::Element,
                name,
            };
            push_part(file, Some(at), at, what, out)
        }
        RawKind::Simple(body) => push_simple(file, Some(at), None, body, out),
        RawKind::Complex(body) => push_complex(file, Some(at), None, body, out),
    }
}

fn push_element<'a>(
    file: u32,
    element: &'a RawElement,
    out: &mut Vec<Part<'a>>,
) -> Result<(), Memory>
    ensures { OnOk result (parts_of out.new.items ≡ parts_of out.old.items ++ told.in_element file (element_of element.now)) }
{
    push_part(file, None, element.at, What::GlobalElement(element), out)?;
    push_kind(file, element.at, &element.kind, out)
}

fn push_attribute<'a>(
    file: u32,
    attribute: &'a RawAttribute,
    out: &mut Vec<Part<'a>>,
) -> Result<(), Memory>
    ensures { OnOk result (parts_of out.new.items ≡ parts_of out.old.items ++ told.in_attribute file (attribute_of attribute.now)) }
{
    push_part(
        file,
        None,
        attribute.at,
        What::GlobalAttribute(attribute),
        out,
    )?;
    push_base(
        file,
        attribute.at,
        TypeRole::Attribute,
        &attribute.kind,
        out,
    )
}

fn push_definition<'a>(
    file: u32,
    definition: &'a RawType,
    out: &mut Vec<Part<'a>>,
) -> Result<(), Memory>
    ensures { OnOk result (parts_of out.new.items ≡ parts_of out.old.items ++ told.in_definition file (type_of definition.now)) }
{
    match definition {
        RawType::Simple { name, body } => push_simple(file, None, Some(name), body, out),
        RawType::Complex { name, body } => push_complex(file, None, Some(name), body, out),
    }
}

fn push_local<'a>(file: u32, local: &'a RawLocal, out: &mut Vec<Part<'a>>) -> Result<(), Memory>
    ensures { OnOk result (parts_of out.new.items ≡ parts_of out.old.items ++ told.in_local file (local_of local.now)) }
{
    match local {
        RawLocal::Reference { name, at } => {
            push_part(file, None, *at, What::ElementReference(name), out)
        }
        RawLocal::Own(element) => {
            push_part(file, None, element.at, What::LocalElement(element), out)?;
            push_kind(file, element.at, &element.kind, out)
        }
    }
}

fn push_locals<'a>(doc: &'a RawDoc, out: &mut Vec<Part<'a>>) -> Result<(), Memory>
    ensures { OnOk result (parts_of out.new.items ≡ parts_of out.old.items ++ flat_map (told.in_local (doc_of doc.now).file) (doc_of doc.now).locals) }
{
    let file = doc.file();
    'locals: for n in 0..doc.local_count() {
        push_local(file, doc.local(n), out)?;
    }
    Ok(())
}

fn push_globals<'a>(
    file: u32,
    elements: &'a [RawElement],
    attributes: &'a [RawAttribute],
    types: &'a [RawType],
    out: &mut Vec<Part<'a>>,
) -> Result<(), Memory>
    ensures { OnOk result (parts_of out.new.items ≡ parts_of out.old.items
        ++ told.in_globals file (map element_of elements.now) (map attribute_of attributes.now) (map type_of types.now)) }
{
    'elements: for element in elements {
        push_element(file, element, out)?;
    }
    'attributes: for attribute in attributes {
        push_attribute(file, attribute, out)?;
    }
    'definitions: for definition in types {
        push_definition(file, definition, out)?;
    }
    Ok(())
}

fn push_document<'a>(doc: &'a RawDoc, out: &mut Vec<Part<'a>>) -> Result<(), Memory>
    ensures { OnOk result (parts_of out.new.items ≡ parts_of out.old.items ++ told.in_document (doc_of doc.now)) }
{
    push_globals(
        doc.file(),
        doc.elements(),
        doc.attributes(),
        doc.types(),
        out,
    )?;
    push_locals(doc, out)?;
    Ok(())
}

/// Returns the parts of the content of a complex type at this place, each after the part that contains it.
pub fn content_parts<'a>(
    alloc: Global,
    file: u32,
    within: u64,
    content: &'a RawContent,
) -> Result<Vec<Part<'a>>, Memory>
    ensures { IfOk result (λ found. parts_of found.items ≡ told.in_content file within content.now) }
{
    let mut found = Vec::new(alloc);
    push_content(file, within, content, &mut found)?;
    Ok(found)
}

/// Returns the parts of a document, each after the part that contains it: those of its global elements, its global attributes,
/// its types with a name and its local elements. Time and memory grow with their number.
pub fn document_parts<'a>(alloc: Global, doc: &'a RawDoc) -> Result<Vec<Part<'a>>, Memory>
    ensures { IfOk result (λ found. parts_of found.items ≡ told.in_document (doc_of doc.now)) }
{
    let mut found = Vec::new(alloc);
    push_document(doc, &mut found)?;
    Ok(found)
}

/// The parts of the documents, those of each document together.
pub fn all_parts<'a>(alloc: Global, docs: &'a [RawDoc]) -> Result<Vec<Part<'a>>, Memory>
    ensures { IfOk result (λ found. parts_of found.items ≡ told.parts (map doc_of docs.now)) }
{
    let mut found = Vec::new(alloc);
    'docs: for doc in docs {
        push_document(doc, &mut found)?;
    }
    Ok(found)
}
