//! Start tags and empty tags: their errors, and what they open.
ghost use Rattle.std.specs.List.{list_any};
ghost use Rattle.std.specs.Option.{option_map};
ghost use Rattle.std.specs.Prelude.{not, true, nat_le, ◌||◌, length, ◌&&◌, ◌≡◌, ◌∷◌, ◌++◌, [], map, reverse, None, IfOk, OnOk, IfErr};
ghost use Rattle.base_texts.specs.Entries.{first_true};
ghost use Rattle.base_texts.specs.Limits.{is_short_space};
ghost use Rattle.xml_pieces.specs.Found.{tag_seen, attribute_of, bytes_of};
ghost use Rattle.xml_pieces.specs.QNames.{is_qname, prefix_of};
ghost use Rattle.xml_pieces.specs.Namespaces as names;
ghost use Rattle.xml_read.specs.Contexts as contexts;
ghost use Rattle.xml_read.specs.Private.Entering.{Enters, Stopped, have_utf8, are_named, inner_tests, place_tests};
ghost use Rattle.xml_read.specs.declared.error.DocWhy.TheVariants as why;

use crate::error::{DocError, DocWhy};
use base_texts::{Memory, Name, Text, is_short_space};
use std::alloc::Global;
use xml_pieces::{
    Attribute, BindingsInScope, Element, Value, binds, bound_prefix, has_duplicate,
    is_ascii_name_alone, is_long, is_qname, is_reserved, local_of, prefix_of, push,
};

pub(crate) fn value_of<'v>(value: &'v Value<'_>) -> &'v [u8]
    ensures { result.now ≡ bytes_of value.now }
{
    match value {
        Value::Borrowed(bytes) => bytes,
        Value::Owned(bytes) => bytes,
    }
}

// Whether one or the other holds. Both are evaluated.
fn either(a: bool, b: bool) -> bool
    ensures { result ≡ (a || b) }
{
    a || b
}

fn is_any_bad(attributes: &[Attribute<'_>]) -> bool
    ensures { result ≡ list_any (λ a. not (is_qname a.name.now)) attributes.now }
{
    attributes.iter().any(|a| !is_qname(a.name))
}

fn is_any_long(attributes: &[Attribute<'_>]) -> bool
    ensures { result ≡ list_any (λ a. names.is_long a.name.now) attributes.now }
{
    attributes.iter().any(|a| is_long(a.name))
}

fn is_any_space_long(attributes: &[Attribute<'_>]) -> bool
    ensures { result ≡ list_any (λ a. names.binds a.name.now && not (is_short_space (bytes_of a.value))) attributes.now }
{
    attributes
        .iter()
        .any(|a| binds(a.name) && !is_short_space(value_of(&a.value)))
}

fn is_any_reserved(attributes: &[Attribute<'_>]) -> bool
    ensures { result ≡ list_any (λ a. names.binds a.name.now && names.is_reserved (names.bound_prefix a.name.now, bytes_of a.value)) attributes.now }
{
    attributes.iter().any(|a| binds(a.name)
        && is_reserved(bound_prefix(a.name), value_of(&a.value)))
}

fn has_bad_name(tag: &Element<'_>) -> bool
    ensures { result ≡ contexts.has_bad_name (tag_seen tag.now) }
{
    let is_own = !is_qname(tag.name);
    let is_any = is_any_bad(&tag.attributes);
    either(is_own, is_any)
}

fn has_long_name(tag: &Element<'_>) -> bool
    ensures { result ≡ contexts.has_long_name (tag_seen tag.now) }
{
    let is_own = is_long(tag.name);
    let is_any = is_any_long(&tag.attributes);
    let is_space = is_any_space_long(&tag.attributes);
    either(either(is_own, is_any), is_space)
}

fn has_reserved(tag: &Element<'_>) -> bool
    ensures { result ≡ contexts.has_reserved (tag_seen tag.now) }
{
    is_any_reserved(&tag.attributes)
}

#[tactic(auto, unfolding(xml_pieces::specs::Namespaces::is_unbound))]
pub(crate) fn is_unbound(scope: &BindingsInScope<'_>, prefix: &[u8]) -> bool
    ensures { result ≡ names.is_unbound (reverse scope.now) prefix.now }
{
    !prefix.is_empty() && (prefix == b"xmlns".as_slice() || scope.bound_to(prefix).is_none())
}

fn is_any_unbound(scope: &BindingsInScope<'_>, attributes: &[Attribute<'_>]) -> bool
    ensures { result ≡ list_any (λ a. not (names.binds a.name.now) && names.is_unbound (reverse scope.now) (prefix_of a.name.now)) attributes.now }
{
    attributes
        .iter()
        .any(|a| !binds(a.name) && is_unbound(scope, prefix_of(a.name)))
}

fn has_unbound(scope: &BindingsInScope<'_>, tag: &Element<'_>) -> bool
    ensures { result ≡ contexts.has_unbound (tag_seen tag.now) (reverse scope.now) }
{
    let is_own = is_unbound(scope, prefix_of(tag.name));
    let is_any = is_any_unbound(scope, &tag.attributes);
    either(is_own, is_any)
}

// A copy of the namespace, or the empty text where there is none.
fn copy_space(alloc: Global, space: Option<&Text>) -> Result<Text, Memory>
    ensures { IfOk result (λ copy. copy ≡ names.or_absent (option_map (λ x. x.now) space.entry)) }
{
    match space {
        Some(space) => space.copy(alloc),
        None => Ok(Text::empty()),
    }
}

// The expanded name of an element.
#[tactic(auto, unfolding(xml_pieces::specs::Namespaces::element_name))]
fn element_name(alloc: Global, scope: &BindingsInScope<'_>, written: &[u8]) -> Result<Name, Memory>
    requires { is_qname written.now ≡ true }
    ensures { IfOk result (λ name. name ≡ names.element_name (reverse scope.now) written.now) }
{
    let space = copy_space(alloc, scope.bound_to(prefix_of(written)))?;
    let local = Text::from_utf8(alloc, local_of(written))?;
    Ok(Name { space, local })
}

fn attribute_space<'s>(scope: &'s BindingsInScope<'_>, prefix: &[u8]) -> Option<&'s Text>
    ensures { names.or_absent (option_map (λ x. x.now) result) ≡ names.attribute_space (reverse scope.now) prefix.now }
{
    if prefix.is_empty() {
        None
    } else {
        scope.bound_to(prefix)
    }
}

// The expanded name of an attribute.
#[tactic(auto, unfolding(xml_pieces::specs::Namespaces::attribute_name))]
fn attribute_name(
    alloc: Global,
    scope: &BindingsInScope<'_>,
    written: &[u8],
) -> Result<Name, Memory>
    requires { is_qname written.now ≡ true }
    ensures { IfOk result (λ name. name ≡ names.attribute_name (reverse scope.now) written.now) }
{
    let space = copy_space(alloc, attribute_space(scope, prefix_of(written)))?;
    let local = Text::from_utf8(alloc, local_of(written))?;
    Ok(Name { space, local })
}

// The attributes that bind nothing.
fn read_attributes(
    alloc: Global,
    scope: &BindingsInScope<'_>,
    attributes: &[Attribute<'_>],
) -> Result<Vec<(Name, Text)>, Memory>
    requires { are_named (map attribute_of attributes.now) ≡ true }
    ensures { IfOk result (λ all. all.items ≡ names.attributes_of (reverse scope.now) (map attribute_of attributes.now)) }
{
    let mut all = Vec::with_capacity(alloc, attributes.len())?;
    let mut rest = attributes;
    'each: while let [attribute, others @ ..] = rest {
        rest = others;
        if binds(attribute.name) {
            continue;
        }
        let name = attribute_name(alloc, scope, attribute.name)?;
        let value = Text::from_utf8(alloc, value_of(&attribute.value))?;
        all.push((name, value))?;
    }
    all.shrink_to_fit();
    Ok(all)
}

// The bindings of the attributes.
fn read_bindings(alloc: Global, attributes: &[Attribute<'_>]) -> Result<Vec<(Text, Text)>, Memory>
    requires { are_named (map attribute_of attributes.now) ≡ true }
    ensures { IfOk result (λ all. all.items ≡ names.bindings_of (map attribute_of attributes.now)) }
{
    let mut all = Vec::new(alloc);
    let mut rest = attributes;
    'each: while let [attribute, others @ ..] = rest {
        rest = others;
        if !binds(attribute.name) {
            continue;
        }
        let prefix = Text::from_utf8(alloc, bound_prefix(attribute.name))?;
        let space = Text::from_utf8(alloc, value_of(&attribute.value))?;
        push(&mut all, 1, (prefix, space))?;
    }
    all.shrink_to_fit();
    Ok(all)
}

// Adds the bindings of the attributes to those in scope, the last of them first.
fn declare<'a>(
    alloc: Global,
    scope: &mut BindingsInScope<'a>,
    attributes: &[Attribute<'a>],
) -> Result<(), Memory>
    requires { are_named (map attribute_of attributes.now) ≡ true }
    ensures { OnOk result (scope.new ≡ scope.old ++ reverse (names.bindings_of (map attribute_of attributes.now))) }
{
    let mut at = attributes.len();
    'last_first: while at > 0 {
        at -= 1;
        let attribute = &attributes[at];
        if !binds(attribute.name) {
            continue;
        }
        let space = Text::from_utf8(alloc, value_of(&attribute.value))?;
        scope.push(bound_prefix(attribute.name), space)?;
    }
    Ok(())
}

// The bindings of the attributes, which are then in scope.
fn enter_scope<'a>(
    alloc: Global,
    scope: &mut BindingsInScope<'a>,
    attributes: &[Attribute<'a>],
) -> Result<Vec<(Text, Text)>, Memory>
    requires { are_named (map attribute_of attributes.now) ≡ true }
    ensures bindings { IfOk result (λ all. all.items ≡ names.bindings_of (map attribute_of attributes.now)) }
    ensures scope { OnOk result (scope.new ≡ scope.old ++ reverse (names.bindings_of (map attribute_of attributes.now))) }
{
    declare(alloc, scope, attributes)?;
    read_bindings(alloc, attributes)
}

// The name, attributes and bindings of the element that a tag opens.
#[derive(Drop)]
pub(crate) struct Head {
    pub(crate) name: Name,
    pub(crate) attributes: Vec<(Name, Text)>,
    pub(crate) declares: Vec<(Text, Text)>,
}

// The first reason against the names and the bindings of a tag.
fn first_of_names(tag: &Element<'_>) -> Option<DocWhy>
    ensures { result ≡ first_true ((contexts.has_bad_name (tag_seen tag.now), why.BadName) ∷ (contexts.has_long_name (tag_seen tag.now), why.LongName) ∷ (contexts.has_reserved (tag_seen tag.now), why.ReservedPrefix) ∷ []) }
{
    if has_bad_name(tag) {
        Some(DocWhy::BadName)
    } else if has_long_name(tag) {
        Some(DocWhy::LongName)
    } else if has_reserved(tag) {
        Some(DocWhy::ReservedPrefix)
    } else {
        None
    }
}

/// The place of a tag: whether the root has ended, the number of open elements, and the offset of the tag in bytes.
#[derive(Clone, Copy)]
pub(crate) struct TagPlace {
    pub(crate) ended: bool,
    pub(crate) depth: usize,
    pub(crate) at: u64,
}

// Tests the place of a tag: refuses a second root, and an element of depth 65.
#[inline(always)]
pub(crate) fn check_place(place: TagPlace) -> Result<(), DocError>
    ensures ok { OnOk result (first_true (place_tests place.ended place.depth) ≡ None) }
    ensures err { IfErr result (Stopped (first_true (place_tests place.ended place.depth)) place.at) }
{
    let why = if place.ended {
        DocWhy::ExtraRoot
    } else if place.depth >= 64 {
        DocWhy::TooDeep
    } else {
        return Ok(());
    };
    Err(DocError::Syntax { at: place.at, why })
}

// Reads the attributes that bind nothing, where the bindings of their tag are in scope. Otherwise reports the first reason
// against them or against the place of the tag.
fn enter_attributes(
    alloc: Global,
    scope: &BindingsInScope<'_>,
    tag: &Element<'_>,
    place: TagPlace,
) -> Result<Vec<(Name, Text)>, DocError>
    requires { are_named (tag_seen tag.now).attributes ≡ true }
    ensures none { IfOk result (λ _. first_true (inner_tests (tag_seen tag.now) (reverse scope.now) place.ended place.depth) ≡ None) }
    ensures attributes { IfOk result (λ all. all.items ≡ names.attributes_of (reverse scope.now) (tag_seen tag.now).attributes) }
    ensures err { IfErr result (Stopped (first_true (inner_tests (tag_seen tag.now) (reverse scope.now) place.ended place.depth)) place.at) }
{
    if has_unbound(scope, tag) {
        return Err(DocError::Syntax {
            at: place.at,
            why: DocWhy::UnboundPrefix,
        });
    }
    let attributes = read_attributes(alloc, scope, &tag.attributes)?;
    if has_duplicate(alloc, &tag.attributes, &attributes)? {
        return Err(DocError::Syntax {
            at: place.at,
            why: DocWhy::DuplicateAttribute,
        });
    }
    check_place(place)?;
    Ok(attributes)
}

// Reads the element that a tag opens, and brings its bindings into scope, or reports the first reason against the tag. Most tags
// have no attributes and a plain name: only the place of such a tag is tested.
pub(crate) fn enter<'a>(
    alloc: Global,
    scope: &mut BindingsInScope<'a>,
    tag: &Element<'a>,
    place: TagPlace,
) -> Result<Head, DocError>
    requires { have_utf8 (tag_seen tag.now).attributes ≡ true }
    ensures ok { IfOk result (Enters (reverse scope.old) place.ended place.depth (tag_seen tag.now)) }
    ensures scope { OnOk result (scope.new ≡ scope.old ++ reverse (names.bindings_of (tag_seen tag.now).attributes)) }
    ensures err { IfErr result (Stopped (contexts.start_reason (tag_seen tag.now) (reverse scope.old) place.ended place.depth) place.at) }
{
    if tag.attributes.is_empty() && is_ascii_name_alone(tag.name) {
        check_place(place)?;
        let space = copy_space(alloc, scope.bound_to(b""))?;
        let local = Text::from_utf8(alloc, tag.name)?;
        return Ok(Head {
            name: Name { space, local },
            attributes: Vec::new(alloc),
            declares: Vec::new(alloc),
        });
    }
    if let Some(why) = first_of_names(tag) {
        return Err(DocError::Syntax { at: place.at, why });
    }
    let declares = enter_scope(alloc, scope, &tag.attributes)?;
    let attributes = enter_attributes(alloc, scope, tag, place)?;
    let name = element_name(alloc, scope, tag.name)?;
    Ok(Head {
        name,
        attributes,
        declares,
    })
}
