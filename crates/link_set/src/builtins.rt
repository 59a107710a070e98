//! The built-in types that elements, attributes and extensions name.
ghost use Rattle.std.specs.Prelude.{◌≡◌, ◌++◌, map, IfOk, OnOk};
ghost use Rattle.std.specs.List.{flat_map, filter};
ghost use Rattle.schema_components.specs.Documents.{doc_of};
ghost use Rattle.link_names.specs.WalkSeen.{part_of, parts_of};
ghost use Rattle.link_set.specs.Builtins as told;
ghost use Rattle.link_set.specs.NamedBuiltins as named_told;
ghost use Rattle.link_set.specs.Private.Told.{listed_by};

use crate::listing::Listed;
use base_texts::Memory;
use link_names::{Part, TypeRole, What, all_parts};
use schema_components::{RawDoc, RawRef};
use simple_types::Builtin;
use std::alloc::Global;

/// All built-in types, in their order.
const BUILTINS: [Builtin; 23] = [
    Builtin::Boolean,
    Builtin::Byte,
    Builtin::Short,
    Builtin::Int,
    Builtin::Long,
    Builtin::UnsignedByte,
    Builtin::UnsignedShort,
    Builtin::UnsignedInt,
    Builtin::UnsignedLong,
    Builtin::Integer,
    Builtin::NonNegativeInteger,
    Builtin::PositiveInteger,
    Builtin::NonPositiveInteger,
    Builtin::NegativeInteger,
    Builtin::String,
    Builtin::NormalizedString,
    Builtin::Token,
    Builtin::AnyUri,
    Builtin::Language,
    Builtin::NmToken,
    Builtin::Name,
    Builtin::NcName,
    Builtin::NmTokens,
];

/// Returns the place of a built-in type in their order, from 0.
pub(crate) fn rank(which: Builtin) -> u32
    ensures { result ≡ told.rank which }
{
    match which {
        Builtin::Boolean => 0,
        Builtin::Byte => 1,
        Builtin::Short => 2,
        Builtin::Int => 3,
        Builtin::Long => 4,
        Builtin::UnsignedByte => 5,
        Builtin::UnsignedShort => 6,
        Builtin::UnsignedInt => 7,
        Builtin::UnsignedLong => 8,
        Builtin::Integer => 9,
        Builtin::NonNegativeInteger => 10,
        Builtin::PositiveInteger => 11,
        Builtin::NonPositiveInteger => 12,
        Builtin::NegativeInteger => 13,
        Builtin::String => 14,
        Builtin::NormalizedString => 15,
        Builtin::Token => 16,
        Builtin::AnyUri => 17,
        Builtin::Language => 18,
        Builtin::NmToken => 19,
        Builtin::Name => 20,
        Builtin::NcName => 21,
        Builtin::NmTokens => 22,
    }
}

fn push_reference(reference: &RawRef, out: &mut Vec<Builtin>) -> Result<(), Memory>
    ensures { OnOk result (out.new.items ≡ out.old.items ++ named_told.in_reference reference.now) }
{
    match reference {
        RawRef::Builtin(which) => {
            out.push(*which)?;
            Ok(())
        }
        RawRef::Other(_) => Ok(()),
    }
}

fn push_named(role: TypeRole, reference: &RawRef, out: &mut Vec<Builtin>) -> Result<(), Memory>
    ensures { OnOk result (out.new.items ≡ out.old.items ++ named_told.in_role role reference.now) }
{
    match role {
        TypeRole::Element => push_reference(reference, out),
        TypeRole::Attribute => push_reference(reference, out),
        TypeRole::Content => push_reference(reference, out),
        TypeRole::SimpleType => Ok(()),
    }
}

fn push_part(part: Part<'_>, out: &mut Vec<Builtin>) -> Result<(), Memory>
    ensures { OnOk result (out.new.items ≡ out.old.items ++ named_told.in_part (part_of part.entry)) }
{
    match part.what {
        What::TypeReference { role, name } => push_named(role, name, out),
        What::GlobalElement(_)
        | What::LocalElement(_)
        | What::ElementReference(_)
        | What::GlobalAttribute(_)
        | What::AttributeUse(_)
        | What::SimpleDefinition { .. }
        | What::ComplexDefinition { .. }
        | What::Particle(_)
        | What::MixedGroup(_) => Ok(()),
    }
}

fn push_parts(parts: &[Part<'_>], out: &mut Vec<Builtin>) -> Result<(), Memory>
    ensures { OnOk result (out.new.items ≡ out.old.items ++ flat_map named_told.in_part (parts_of parts.now)) }
{
    'parts: for part in parts {
        push_part(*part, out)?;
    }
    Ok(())
}

/// Returns the built-in types that elements, attributes and extensions name, once for each time that they are named.
pub(crate) fn named_builtins(alloc: Global, docs: &[RawDoc]) -> Result<Vec<Builtin>, Memory>
    ensures { IfOk result (λ named. named.items ≡ named_told.named_builtins (map doc_of docs.now)) }
{
    let parts = all_parts(alloc, docs)?;
    let mut named = Vec::new(alloc);
    push_parts(&parts, &mut named)?;
    Ok(named)
}

fn is_among(named: &[Builtin], which: Builtin) -> bool
    ensures { result ≡ told.is_among named.now which }
{
    named.iter().any(|other| rank(*other) == rank(which))
}

fn those_among(alloc: Global, all: &[Builtin], named: &[Builtin]) -> Result<Vec<Builtin>, Memory>
    ensures { IfOk result (λ used. used.items ≡ filter (told.is_among named.now) all.now) }
{
    let mut used = Vec::new(alloc);
    'builtins: for which in all {
        if is_among(named, *which) {
            used.push(*which)?;
        }
    }
    Ok(used)
}

/// Returns the built-in types that are named, each once and in their order.
fn those_in_order(alloc: Global, named: &[Builtin]) -> Result<Vec<Builtin>, Memory>
    ensures { IfOk result (λ used. used.items ≡ filter (told.is_among named.now) told.all_builtins) }
{
    those_among(alloc, &BUILTINS, named)
}

/// Returns the built-in types that a set has, in the order of their numbers.
pub(crate) fn used_builtins(alloc: Global, listed: &Listed<'_>) -> Result<Vec<Builtin>, Memory>
    ensures { IfOk result (λ used. used.items ≡ told.used_builtins (listed_by listed.now)) }
{
    those_in_order(alloc, &listed.types.named)
}
