//! What an element of a complex type may contain.
ghost use Rattle.std.specs.Prelude.{◌≡◌, ◌+◌, ◌<◌, ◌^◌, IfOk, option_map};
ghost use Rattle.base_trees.specs.Rose.{Allowed, label_of, kids_of};
ghost use Rattle.content_models.specs.Kids.{MayHave};
ghost use Rattle.schema_faults.specs.Reasons.{is_true};
ghost use Rattle.schema_syntax.specs.Scopes.{bindings_in};
ghost use Rattle.schema_components.specs.Seen.{complex_of};
ghost use Rattle.schema_read.specs.Settings.{said};
ghost use Rattle.schema_read.specs.Contents as contents;
ghost use Rattle.schema_read.specs.Private.Held.{BodyHeld, ContentHeld};

use crate::names::{no_name, type_ref};
use crate::reader::Reader;
use base_texts::{Memory, Text};
use base_trees::{Tree, Whole};
use content_models::{ParticleKind, ParticleLabel};
use schema_components::{RawComplex, RawContent, RawRef, RawUses};
use schema_syntax::{ChildSet, NamespaceScope, is_in, is_schema_name, own_attributes, value_of};
use simple_types::boolean_of;
use std::alloc::Global;
use xml_read::ItemLabel;

/// Returns whether there is an attribute of this name, with the value `true` or `1`.
pub(crate) fn is_true(name: &str, own: &[(Text, Text)]) -> bool
    ensures { result ≡ is_true name.now own.now }
{
    match value_of(name, own) {
        Some(value) => boolean_of(value.as_str()).unwrap_or(false),
        None => false,
    }
}

/// Whether this is an element of the schema namespace with this name.
pub(crate) fn is_named(local: &str, label: &ItemLabel) -> bool
    ensures { result ≡ contents.is_named local.now label.now }
{
    match label {
        ItemLabel::Element { name, .. } => is_schema_name(name) && name.local.as_str() == local,
        ItemLabel::Text { .. } => false,
    }
}

fn extension_base(
    alloc: Global,
    scope: &NamespaceScope<'_, '_>,
    own: &[(Text, Text)],
) -> Result<RawRef, Memory>
    ensures { IfOk result (λ base. base ≡ contents.extension_base (bindings_in scope.now) own.now) }
{
    match value_of("base", own) {
        Some(value) => type_ref(alloc, scope, value.as_str()),
        None => Ok(RawRef::Other(no_name(alloc))),
    }
}

impl<'s, 'a, 'b> Reader<'s, 'a, 'b> {
    // Reads the simple content of a complex type from its `extension`, with its attributes.
    fn extended(self, tree: &'a Tree<ItemLabel>) -> Result<Option<(RawContent, RawUses)>, Memory>
        ensures { IfOk result (λ found. option_map contents.content_seen found ≡ contents.extended (said self.entry.setting) (bindings_in self.entry.scope.now) (label_of tree.now) (kids_of tree.now)) }
    {
        let ItemLabel::Element {
            attributes,
            declares,
            at,
            ..
        } = tree.label()
        else {
            return Ok(None);
        };
        if !is_named("extension", tree.label()) {
            return Ok(None);
        }
        let inside = NamespaceScope::inside(self.alloc, declares, self.scope)?;
        let own = own_attributes(self.alloc, attributes.items())?;
        let base = extension_base(self.alloc, &inside, &own)?;
        let reader = Reader {
            scope: &inside,
            ..self
        };
        let uses = reader.uses_among(tree.kids())?;
        Ok(Some((RawContent::Simple { base, at: *at }, uses)))
    }

    fn extended_among(
        self,
        kids: &'a [Tree<ItemLabel>],
    ) -> Result<Option<(RawContent, RawUses)>, Memory>
        ensures { IfOk result (λ found. option_map contents.content_seen found ≡ contents.extended_among (said self.entry.setting) (bindings_in self.entry.scope.now) kids.now) }
    {
        for kid in kids {
            let found = self.extended(kid)?;
            if found.is_some() {
                return Ok(found);
            }
        }
        Ok(None)
    }

    fn simple_content_at(
        self,
        tree: &'a Tree<ItemLabel>,
    ) -> Result<Option<(RawContent, RawUses)>, Memory>
        ensures { IfOk result (λ found. option_map contents.content_seen found ≡ contents.simple_content_at (said self.entry.setting) (bindings_in self.entry.scope.now) (label_of tree.now) (kids_of tree.now)) }
    {
        let ItemLabel::Element { declares, .. } = tree.label() else {
            return Ok(None);
        };
        if !is_named("simpleContent", tree.label()) {
            return Ok(None);
        }
        let inside = NamespaceScope::inside(self.alloc, declares, self.scope)?;
        let reader = Reader {
            scope: &inside,
            ..self
        };
        reader.extended_among(tree.kids())
    }

    /// Reads the simple content among the children of a complex type, with its attributes.
    pub(crate) fn simple_content(
        self,
        kids: &'a [Tree<ItemLabel>],
    ) -> Result<Option<(RawContent, RawUses)>, Memory>
        ensures { IfOk result (λ found. option_map contents.content_seen found ≡ contents.simple_content (said self.entry.setting) (bindings_in self.entry.scope.now) kids.now) }
    {
        for kid in kids {
            let found = self.simple_content_at(kid)?;
            if found.is_some() {
                return Ok(found);
            }
        }
        Ok(None)
    }
}

// A sequence of nothing, which stands where a mixed type has no group.
fn nothing(alloc: Global, file: u32, at: u64) -> Tree<ParticleLabel>
    ensures { result ≡ contents.nothing file at }
{
    Tree::leaf(
        alloc,
        ParticleLabel {
            kind: ParticleKind::Sequence,
            min: 1,
            max: Some(1),
            file,
            at,
        },
    )
}

fn is_nothing(group: &Tree<ParticleLabel>) -> bool
    ensures { result ≡ contents.is_nothing group.now }
{
    match group.label().kind {
        ParticleKind::Sequence | ParticleKind::All => group.kids().is_empty(),
        _ => false,
    }
}

// A choice of nothing is a fault of the document.
fn model_of(mixed: bool, group: Tree<ParticleLabel>) -> RawContent
    requires { Allowed MayHave group }
    ensures { result ≡ contents.model_of mixed group }
{
    let whole = Whole::of(group);
    if mixed {
        RawContent::Mixed(whole)
    } else {
        RawContent::ElementOnly(whole)
    }
}

fn content_of_nothing(alloc: Global, file: u32, mixed: bool, at: u64) -> RawContent
    ensures { result ≡ contents.content_of_nothing file mixed at }
{
    if mixed {
        model_of(true, nothing(alloc, file, at))
    } else {
        RawContent::Empty
    }
}

fn content_by(
    alloc: Global,
    file: u32,
    mixed: bool,
    empty_at: u64,
    group: Tree<ParticleLabel>,
) -> RawContent
    requires { ContentHeld (contents.content_by file mixed empty_at group) }
    ensures { result ≡ contents.content_by file mixed empty_at group }
{
    if is_nothing(&group) {
        content_of_nothing(alloc, file, mixed, empty_at)
    } else {
        model_of(mixed, group)
    }
}

// The content of a type, where it isn't simple, by its group.
fn content_of(
    alloc: Global,
    file: u32,
    mixed: bool,
    empty_at: u64,
    group: Option<Tree<ParticleLabel>>,
) -> RawContent
    requires { ContentHeld (contents.content_of file mixed empty_at group) }
    ensures { result ≡ contents.content_of file mixed empty_at group }
{
    match group {
        Some(tree) => content_by(alloc, file, mixed, empty_at, tree),
        None => content_of_nothing(alloc, file, mixed, empty_at),
    }
}

fn particle_place(label: &ItemLabel) -> Option<u64>
    ensures { result ≡ contents.particle_place label.now }
{
    match label {
        ItemLabel::Element { at, .. } => {
            if is_in(ChildSet::Particles, label) {
                Some(*at)
            } else {
                None
            }
        }
        ItemLabel::Text { .. } => None,
    }
}

// The place of the first group among these.
fn group_place(kids: &[Tree<ItemLabel>]) -> Option<u64>
    ensures { result ≡ contents.group_place kids.now }
{
    for kid in kids {
        let found = particle_place(kid.label());
        if found.is_some() {
            return found;
        }
    }
    None
}

// The place of a content of nothing.
fn empty_place(at: u64, kids: &[Tree<ItemLabel>]) -> u64
    requires { at + 1 < 2 ^ 64 }
    ensures { result ≡ contents.empty_place at kids.now }
{
    match group_place(kids) {
        Some(place) => place,
        None => at + 1,
    }
}

/// A complex type at this place with this content and these attributes.
pub(crate) fn complex_with(at: u64, found: (RawContent, RawUses)) -> RawComplex
    ensures { complex_of result ≡ contents.complex_with at (contents.content_seen found) }
{
    let (content, uses) = found;
    RawComplex { at, uses, content }
}

impl<'s, 'a, 'b> Reader<'s, 'a, 'b> {
    /// A complex type whose content is by the group, if there is one.
    pub(crate) fn complex_by(
        self,
        at: u64,
        mixed: bool,
        kids: &'a [Tree<ItemLabel>],
        group: Option<Tree<ParticleLabel>>,
    ) -> Result<RawComplex, Memory>
        requires { BodyHeld (contents.complex_by (said self.setting) at mixed (bindings_in self.scope.now) kids.now group) }
        ensures { IfOk result (λ body. complex_of body ≡ contents.complex_by (said self.entry.setting) at mixed (bindings_in self.entry.scope.now) kids.now group) }
    {
        let uses = self.uses_among(kids)?;
        let empty_at = empty_place(at, kids);
        let content = content_of(self.alloc, self.setting.file, mixed, empty_at, group);
        Ok(RawComplex { at, uses, content })
    }
}
