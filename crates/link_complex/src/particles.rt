//! The element particles of a complex type, with their types.
ghost use Rattle.std.specs.Prelude.{◌≡◌, ◌++◌, IfOk, OnOk};
ghost use Rattle.std.specs.List.{flat_map};
ghost use Rattle.schema_components.specs.Seen.{local_of};
ghost use Rattle.link_names.specs.WalkSeen.{part_of, parts_of};
ghost use Rattle.link_complex.specs.ElementTypes as told;
ghost use Rattle.link_complex.specs.Private.Identities.{type_of, kept_in, type_in, types_in, particles_of};
ghost use Rattle.link_complex.specs.Seen.{definition_of};

use crate::definitions::ComplexType;
use crate::identities::TypeIdentity;
use base_texts::{Memory, Name};
use content_models::{ParticleKind, ParticleLabel};
use link_names::{Part, Place, What, content_parts};
use schema_components::{RawDoc, RawLocal};
use std::alloc::Global;
use std::collections::BTreeMap;

/// An element particle, its place and its type. A reference that names nothing has no type.
#[derive(Clone, Copy)]
pub(crate) struct TypedParticle<'a> {
    pub name: &'a Name,
    pub place: Place,
    pub kind: Option<TypeIdentity<'a>>,
}

// Returns the type of the global element of this name.
fn type_of_global<'a>(
    types: &BTreeMap<&'a Name, TypeIdentity<'a>>,
    name: &'a Name,
) -> Option<TypeIdentity<'a>>
    ensures { result ≡ kept_in types.now name.now }
{
    match types.get(&name) {
        Some(kind) => Some(*kind),
        None => None,
    }
}

fn type_of_local<'a>(
    types: &BTreeMap<&'a Name, TypeIdentity<'a>>,
    file: u32,
    local: &'a RawLocal,
) -> Option<TypeIdentity<'a>>
    ensures { type_of result ≡ told.type_of_local (type_in types.now) file (local_of local.now) }
{
    match local {
        RawLocal::Reference { name, .. } => type_of_global(types, name),
        RawLocal::Own(element) => Some(TypeIdentity::of(file, &element.kind)),
    }
}

// Returns the type of the local declaration with this number.
fn type_at<'a>(
    types: &BTreeMap<&'a Name, TypeIdentity<'a>>,
    doc: &'a RawDoc,
    decl: u32,
) -> Option<TypeIdentity<'a>>
    ensures { type_of result ≡ types_in types.now doc.now decl }
{
    if decl < doc.local_count() {
        return type_of_local(types, doc.file(), doc.local(decl));
    }
    None
}

fn push_label<'a>(
    types: &BTreeMap<&'a Name, TypeIdentity<'a>>,
    doc: &'a RawDoc,
    label: &'a ParticleLabel,
    out: &mut Vec<TypedParticle<'a>>,
) -> Result<(), Memory>
    ensures { OnOk result (particles_of out.new.items ≡ particles_of out.old.items ++ told.of_label (types_in types.now doc.now) label.now) }
{
    match &label.kind {
        ParticleKind::Element { decl, name } => {
            out.push(TypedParticle {
                name,
                place: Place {
                    file: label.file,
                    at: label.at,
                },
                kind: type_at(types, doc, *decl),
            })?;
            Ok(())
        }
        ParticleKind::Sequence => Ok(()),
        ParticleKind::Choice => Ok(()),
        ParticleKind::All => Ok(()),
    }
}

fn push_part<'a>(
    types: &BTreeMap<&'a Name, TypeIdentity<'a>>,
    doc: &'a RawDoc,
    part: Part<'a>,
    out: &mut Vec<TypedParticle<'a>>,
) -> Result<(), Memory>
    ensures { OnOk result (particles_of out.new.items ≡ particles_of out.old.items ++ told.of_part (types_in types.now doc.now) (part_of part.entry).what) }
{
    match part.what {
        What::Particle(label) => push_label(types, doc, label, out),
        What::MixedGroup(label) => push_label(types, doc, label, out),
        What::GlobalElement(_)
        | What::LocalElement(_)
        | What::ElementReference(_)
        | What::GlobalAttribute(_)
        | What::AttributeUse(_)
        | What::SimpleDefinition { .. }
        | What::ComplexDefinition { .. }
        | What::TypeReference { .. } => Ok(()),
    }
}

fn push_parts<'a>(
    types: &BTreeMap<&'a Name, TypeIdentity<'a>>,
    doc: &'a RawDoc,
    parts: &[Part<'a>],
    out: &mut Vec<TypedParticle<'a>>,
) -> Result<(), Memory>
    ensures { OnOk result (particles_of out.new.items ≡ particles_of out.old.items ++ flat_map (λ p. told.of_part (types_in types.now doc.now) p.what) (parts_of parts.now)) }
{
    'parts: for part in parts {
        push_part(types, doc, *part, out)?;
    }
    Ok(())
}

/// Returns the element particles of the content of a complex type in the document.
pub(crate) fn typed_particles<'a>(
    alloc: Global,
    types: &BTreeMap<&'a Name, TypeIdentity<'a>>,
    doc: &'a RawDoc,
    complex: ComplexType<'a>,
) -> Result<Vec<TypedParticle<'a>>, Memory>
    ensures { IfOk result (λ found. particles_of found.items ≡ told.typed_particles (types_in types.now doc.now) (definition_of complex.entry)) }
{
    let body = complex.body;
    let parts = content_parts(alloc, complex.place.file, body.at, &body.content)?;
    let mut found = Vec::new(alloc);
    push_parts(types, doc, &parts, &mut found)?;
    Ok(found)
}
