//! Simple type definitions.
ghost use Rattle.std.specs.Prelude.{◌≡◌, ◌++◌, List, IfOk, OnOk, option_map};
ghost use Rattle.simple_types.specs.declared.facets.Facet.{Facet};
ghost use Rattle.schema_components.specs.Raw.{Bases, Named};
ghost use Rattle.schema_read.specs.Names.{type_ref};
ghost use Rattle.base_trees.specs.Rose.{roses_of};
ghost use Rattle.schema_components.specs.Seen.{base_of, bases_in, bases_of, how_of, simple_of};
ghost use Rattle.schema_syntax.specs.Scopes.{bindings_in};
ghost use Rattle.base_texts.specs.WhiteSpace.{words_of};
ghost use Rattle.schema_read.specs.SimpleTypes as simple;

use crate::names::{no_name, type_ref};
use crate::reader::StartTag;
use base_texts::{Memory, Text, first_word};
use base_trees::Tree;
use schema_components::{RawBase, RawBases, RawHow, RawRef, RawSimple};
use schema_syntax::{ChildSet, NamespaceScope, is_in, own_attributes, value_of};
use simple_types::{Facet, Facets};
use std::alloc::Global;
use xml_read::ItemLabel;

// The facet of this name.
fn facet_of(name: &str, value: Text) -> Option<Facet>
    ensures { result ≡ simple.facet_of name.now value }
{
    match name {
        "length" => Some(Facet::Length(value)),
        "minLength" => Some(Facet::MinLength(value)),
        "maxLength" => Some(Facet::MaxLength(value)),
        "minInclusive" => Some(Facet::MinInclusive(value)),
        "maxInclusive" => Some(Facet::MaxInclusive(value)),
        "minExclusive" => Some(Facet::MinExclusive(value)),
        "maxExclusive" => Some(Facet::MaxExclusive(value)),
        "enumeration" => Some(Facet::Enumeration(value)),
        "whiteSpace" => Some(Facet::WhiteSpace(value)),
        _ => None,
    }
}

// The facet of this name that these attributes tell, with a copy of its value.
fn facet_by(alloc: Global, name: &str, own: &[(Text, Text)]) -> Result<Option<Facet>, Memory>
    ensures { IfOk result (λ found. found ≡ simple.facet_by name.now own.now) }
{
    match value_of("value", own) {
        Some(value) => {
            let value = value.copy(alloc)?;
            Ok(facet_of(name, value))
        }
        None => Ok(None),
    }
}

fn facet_at(alloc: Global, label: &ItemLabel) -> Result<Option<Facet>, Memory>
    ensures { IfOk result (λ found. found ≡ simple.facet_at label.now) }
{
    let ItemLabel::Element {
        name,
        attributes,
        ..
    } = label
    else {
        return Ok(None);
    };
    let own = own_attributes(alloc, attributes.items())?;
    facet_by(alloc, name.local.as_str(), &own)
}

// Adds the facet, if there is one.
fn push_facet(facets: &mut Vec<Facet>, found: Option<Facet>) -> Result<(), Memory>
    ensures { OnOk result ((rest : List Facet) → facets.new.items ++ rest ≡ facets.old.items ++ simple.and_facet found rest) }
{
    if let Some(facet) = found {
        facets.push(facet)?;
    }
    Ok(())
}

// The facets among the children of a restriction.
fn facets_among(alloc: Global, kids: &[Tree<ItemLabel>]) -> Result<Facets, Memory>
    ensures { IfOk result (λ facets. facets ≡ simple.facets_among kids.now) }
{
    let mut facets = Vec::new(alloc);
    for kid in kids {
        let found = facet_at(alloc, kid.label())?;
        push_facet(&mut facets, found)?;
    }
    Ok(Facets::of(facets))
}

// The types that the words name.
fn named_in(
    alloc: Global,
    scope: &NamespaceScope<'_, '_>,
    text: &str,
) -> Result<Vec<RawBase>, Memory>
    ensures { IfOk result (λ members. bases_in members.items ≡ simple.named_in (bindings_in scope.now) (words_of text.now)) }
{
    let mut members = Vec::new(alloc);
    let mut rest = text;
    'words: while let Some((word, behind)) = first_word(rest) {
        let reference = type_ref(alloc, scope, word)?;
        members.push(RawBase::Named(reference))?;
        rest = behind;
    }
    Ok(members)
}

// The types that a union names.
fn named_members(
    alloc: Global,
    scope: &NamespaceScope<'_, '_>,
    own: &[(Text, Text)],
) -> Result<Vec<RawBase>, Memory>
    ensures { IfOk result (λ members. bases_in members.items ≡ simple.named_members (bindings_in scope.now) own.now) }
{
    match value_of("memberTypes", own) {
        Some(value) => named_in(alloc, scope, value.as_str()),
        None => Ok(Vec::new(alloc)),
    }
}

// The first of them, or else a type without a name.
fn first_or_none(alloc: Global, mut inner: Vec<RawBase>) -> RawBase
    ensures { base_of result ≡ simple.first_or_none (bases_in inner.items) }
{
    if inner.as_slice().is_empty() {
        return RawBase::Named(RawRef::Other(no_name(alloc)));
    }
    inner.remove(0)
}

#[tactic(auto, unfolding(schema_components::specs::Seen::base_of))]
fn named_type(alloc: Global, scope: &NamespaceScope<'_, '_>, text: &str) -> Result<RawBase, Memory>
    ensures { IfOk result (λ base. base_of base ≡ Named (type_ref (bindings_in scope.now) text.now)) }
{
    let reference = type_ref(alloc, scope, text)?;
    Ok(RawBase::Named(reference))
}

// The type that the attribute of this name names, or else the first of those in place.
fn base_by(
    alloc: Global,
    attribute: &str,
    scope: &NamespaceScope<'_, '_>,
    own: &[(Text, Text)],
    inner: Vec<RawBase>,
) -> Result<RawBase, Memory>
    ensures { IfOk result (λ base. base_of base ≡ simple.base_by attribute.now (bindings_in scope.now) own.now (bases_in inner.items)) }
{
    match value_of(attribute, own) {
        Some(value) => named_type(alloc, scope, value.as_str()),
        None => Ok(first_or_none(alloc, inner)),
    }
}

// The members of a union: those that it names, and then those in it.
fn members_of(
    alloc: Global,
    scope: &NamespaceScope<'_, '_>,
    own: &[(Text, Text)],
    mut inner: Vec<RawBase>,
) -> Result<RawBases, Memory>
    ensures { IfOk result (λ members. bases_of members ≡ simple.joined (simple.named_members (bindings_in scope.now) own.now) (bases_in inner.items)) }
{
    let mut members = named_members(alloc, scope, own)?;
    members.append(&mut inner)?;
    Ok(RawBases::of(members))
}

#[tactic(auto, unfolding(schema_components::specs::Seen::how_of))]
fn restriction_of(
    alloc: Global,
    scope: &NamespaceScope<'_, '_>,
    own: &[(Text, Text)],
    inner: Vec<RawBase>,
    kids: &[Tree<ItemLabel>],
) -> Result<RawHow, Memory>
    ensures { IfOk result (λ how. how_of how ≡ simple.restriction_of (bindings_in scope.now) own.now (bases_in inner.items) kids.now) }
{
    let base = base_by(alloc, "base", scope, own, inner)?;
    let facets = facets_among(alloc, kids)?;
    Ok(RawHow::Restrict { base, facets })
}

#[tactic(auto, unfolding(schema_components::specs::Seen::how_of))]
fn list_of(
    alloc: Global,
    scope: &NamespaceScope<'_, '_>,
    own: &[(Text, Text)],
    inner: Vec<RawBase>,
) -> Result<RawHow, Memory>
    ensures { IfOk result (λ how. how_of how ≡ simple.list_of_items (bindings_in scope.now) own.now (bases_in inner.items)) }
{
    let item = base_by(alloc, "itemType", scope, own, inner)?;
    Ok(RawHow::List { item })
}

fn union_of(
    alloc: Global,
    scope: &NamespaceScope<'_, '_>,
    own: &[(Text, Text)],
    inner: Vec<RawBase>,
) -> Result<RawHow, Memory>
    ensures { IfOk result (λ how. how_of how ≡ simple.union_of (bindings_in scope.now) own.now (bases_in inner.items)) }
{
    let members = members_of(alloc, scope, own, inner)?;
    Ok(RawHow::Union { members })
}

// How the element makes a simple type, where it is a restriction, a list or a union.
fn made_by(
    alloc: Global,
    scope: &NamespaceScope<'_, '_>,
    tag: StartTag<'_>,
    inner: Vec<RawBase>,
    kids: &[Tree<ItemLabel>],
) -> Result<Option<RawHow>, Memory>
    ensures { IfOk result (λ made. option_map how_of made ≡ simple.made_by tag.entry.name.now (bindings_in scope.now) tag.entry.own.now (bases_in inner.items) kids.now) }
{
    match tag.name {
        "restriction" => Ok(Some(restriction_of(alloc, scope, tag.own, inner, kids)?)),
        "list" => Ok(Some(list_of(alloc, scope, tag.own, inner)?)),
        "union" => Ok(Some(union_of(alloc, scope, tag.own, inner)?)),
        _ => Ok(None),
    }
}

fn placed(at: u64, made: Option<RawHow>) -> Option<(u64, RawHow)>
    ensures { option_map simple.made_seen result ≡ simple.placed at (option_map how_of made) }
{
    match made {
        Some(how) => Some((at, how)),
        None => None,
    }
}

fn defined(at: u64, found: Option<(u64, RawHow)>) -> Option<RawSimple>
    ensures { option_map simple_of result ≡ simple.defined at (option_map simple.made_seen found) }
{
    match found {
        Some((body_at, how)) => Some(RawSimple { at, body_at, how }),
        None => None,
    }
}

// How the element makes a simple type, with its place.
#[cycle(simple_types)]
fn variety_at<'a, 'b>(
    alloc: Global,
    tree: &'a Tree<ItemLabel>,
    scope: &'b NamespaceScope<'a, 'b>,
) -> Result<Option<(u64, RawHow)>, Memory>
    ensures { IfOk result (λ found. option_map simple.made_seen found ≡ simple.variety_at (bindings_in scope.now) tree.now) }
{
    let ItemLabel::Element {
        name,
        attributes,
        declares,
        at,
    } = tree.label()
    else {
        return Ok(None);
    };
    if !is_in(ChildSet::Varieties, tree.label()) {
        return Ok(None);
    }
    let inside = NamespaceScope::inside(alloc, declares, scope)?;
    let inner = inner_types(alloc, tree.kids(), &inside)?;
    let own = own_attributes(alloc, attributes.items())?;
    let tag = StartTag {
        name: name.local.as_str(),
        at: *at,
        own: &own,
    };
    let made = made_by(alloc, &inside, tag, inner, tree.kids())?;
    Ok(placed(*at, made))
}

// The first among these that makes a simple type.
#[cycle(simple_types)]
fn variety_among<'a, 'b>(
    alloc: Global,
    kids: &'a [Tree<ItemLabel>],
    scope: &'b NamespaceScope<'a, 'b>,
) -> Result<Option<(u64, RawHow)>, Memory>
    ensures { IfOk result (λ found. option_map simple.made_seen found ≡ simple.variety_among (bindings_in scope.now) (roses_of kids.now)) }
{
    for kid in kids {
        let found = variety_at(alloc, kid, scope)?;
        if found.is_some() {
            return Ok(found);
        }
    }
    Ok(None)
}

/// The simple type that the element defines.
#[cycle(simple_types)]
pub(crate) fn simple_type<'a, 'b>(
    alloc: Global,
    tree: &'a Tree<ItemLabel>,
    scope: &'b NamespaceScope<'a, 'b>,
) -> Result<Option<RawSimple>, Memory>
    ensures { IfOk result (λ found. option_map simple_of found ≡ simple.simple_type (bindings_in scope.now) tree.now) }
{
    let ItemLabel::Element { declares, at, .. } = tree.label() else {
        return Ok(None);
    };
    if !is_in(ChildSet::SimpleTypes, tree.label()) {
        return Ok(None);
    }
    let inside = NamespaceScope::inside(alloc, declares, scope)?;
    let found = variety_among(alloc, tree.kids(), &inside)?;
    Ok(defined(*at, found))
}

// Adds the simple type, if there is one.
fn push_inner(
    alloc: Global,
    inner: &mut Vec<RawBase>,
    found: Option<RawSimple>,
) -> Result<(), Memory>
    ensures { OnOk result ((rest : Bases) → simple.joined (bases_in inner.new.items) rest ≡ simple.joined (bases_in inner.old.items) (simple.and_inner (option_map simple_of found) rest)) }
{
    if let Some(body) = found {
        let held = Box::new(alloc, body)?;
        inner.push(RawBase::Inner(held))?;
    }
    Ok(())
}

/// The simple types among these, in their order.
#[cycle(simple_types)]
pub(crate) fn inner_types<'a, 'b>(
    alloc: Global,
    kids: &'a [Tree<ItemLabel>],
    scope: &'b NamespaceScope<'a, 'b>,
) -> Result<Vec<RawBase>, Memory>
    ensures { IfOk result (λ inner. bases_in inner.items ≡ simple.inner_types (bindings_in scope.now) (roses_of kids.now)) }
{
    let mut inner = Vec::new(alloc);
    for kid in kids {
        let found = simple_type(alloc, kid, scope)?;
        push_inner(alloc, &mut inner, found)?;
    }
    Ok(inner)
}

/// The simple type of a declaration: the one that it names, or the one in it.
pub(crate) fn declared_type<'a, 'b>(
    alloc: Global,
    scope: &'b NamespaceScope<'a, 'b>,
    own: &[(Text, Text)],
    kids: &'a [Tree<ItemLabel>],
) -> Result<RawBase, Memory>
    ensures { IfOk result (λ base. base_of base ≡ simple.declared_type (bindings_in scope.now) own.now (roses_of kids.now)) }
{
    let inner = inner_types(alloc, kids, scope)?;
    base_by(alloc, "type", scope, own, inner)
}
