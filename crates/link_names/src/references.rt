//! The references of schema documents to components by their names.
ghost use Rattle.std.specs.Prelude.{◌≡◌, ◌++◌, ◌∷◌, [], IfOk, OnOk};
ghost use Rattle.std.specs.List.{flat_map};
ghost use Rattle.schema_components.specs.Seen.{use_of};
ghost use Rattle.link_names.specs.WalkSeen.{part_of, parts_of};
ghost use Rattle.link_names.specs.References as told;
ghost use Rattle.link_names.specs.Private.Mentioned.{mentions_of};

use crate::parts::{Part, TypeRole, What};
use crate::places::Place;
use base_texts::{Memory, Name};
use schema_components::{RawRef, RawUse};
use std::alloc::Global;

/// The kind of component that a reference must name.
#[derive(Clone, Copy, PartialEq, Eq)]
pub(crate) enum Need {
    Element,
    Attribute,
    Type,
    /// A simple type.
    Simple,
}

/// A reference by a name, at the place of the element that has it.
#[derive(Clone, Copy)]
pub(crate) struct Mention<'a> {
    pub place: Place,
    pub need: Need,
    pub name: &'a Name,
}

fn need_of(role: TypeRole) -> Need
    ensures { result ≡ told.need_of role }
{
    match role {
        TypeRole::Element => Need::Type,
        TypeRole::Attribute => Need::Simple,
        TypeRole::Content => Need::Simple,
        TypeRole::SimpleType => Need::Simple,
    }
}

fn push_name<'a>(
    need: Need,
    place: Place,
    name: &'a Name,
    out: &mut Vec<Mention<'a>>,
) -> Result<(), Memory>
    ensures { OnOk result (mentions_of out.new.items ≡ mentions_of out.old.items ++ told.mention need place name.now ∷ []) }
{
    out.push(Mention { place, need, name })?;
    Ok(())
}

fn push_type<'a>(
    need: Need,
    place: Place,
    reference: &'a RawRef,
    out: &mut Vec<Mention<'a>>,
) -> Result<(), Memory>
    ensures { OnOk result (mentions_of out.new.items ≡ mentions_of out.old.items ++ told.of_type need place reference.now) }
{
    match reference {
        RawRef::Builtin(_) => Ok(()),
        RawRef::Other(name) => push_name(need, place, name, out),
    }
}

fn push_use<'a>(
    place: Place,
    attribute: &'a RawUse,
    out: &mut Vec<Mention<'a>>,
) -> Result<(), Memory>
    ensures { OnOk result (mentions_of out.new.items ≡ mentions_of out.old.items ++ told.of_use place (use_of attribute.now)) }
{
    if attribute.reference {
        push_name(Need::Attribute, place, &attribute.name, out)
    } else {
        Ok(())
    }
}

fn push_part<'a>(part: Part<'a>, out: &mut Vec<Mention<'a>>) -> Result<(), Memory>
    ensures { OnOk result (mentions_of out.new.items ≡ mentions_of out.old.items ++ told.of_part (part_of part.entry)) }
{
    let place = Place {
        file: part.file,
        at: part.at,
    };
    match part.what {
        What::ElementReference(name) => push_name(Need::Element, place, name, out),
        What::AttributeUse(attribute) => push_use(place, attribute, out),
        What::TypeReference { role, name } => push_type(need_of(role), place, name, out),
        What::GlobalElement(_)
        | What::LocalElement(_)
        | What::GlobalAttribute(_)
        | What::SimpleDefinition { .. }
        | What::ComplexDefinition { .. }
        | What::Particle(_)
        | What::MixedGroup(_) => Ok(()),
    }
}

/// Returns the references among these parts.
pub(crate) fn mentions<'a>(alloc: Global, parts: &[Part<'a>]) -> Result<Vec<Mention<'a>>, Memory>
    ensures { IfOk result (λ found. mentions_of found.items ≡ flat_map told.of_part (parts_of parts.now)) }
{
    let mut found = Vec::new(alloc);
    'parts: for part in parts {
        push_part(*part, &mut found)?;
    }
    Ok(found)
}
