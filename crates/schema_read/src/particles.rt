//! Elements and particles by their parts.
ghost use Rattle.std.specs.Prelude.{◌≡◌, ◌<◌, ◌++◌, List, IfOk, OnOk, map, set, length};
ghost use Rattle.base_trees.specs.Rose.{Rose};
ghost use Rattle.content_models.specs.declared.particles.ParticleLabel.{ParticleLabel as Label};
ghost use Rattle.schema_components.specs.Raw.{Own};
ghost use Rattle.schema_components.specs.Seen.{element_of, kind_of, local_of};
ghost use Rattle.schema_syntax.specs.Scopes.{bindings_in};
ghost use Rattle.schema_read.specs.Settings.{said};
ghost use Rattle.schema_read.specs.Particles as parts;

use crate::contents::is_true;
use crate::declarations::{Setting, local_name};
use crate::names::referred;
use crate::reader::{Reader, StartTag};
use base_texts::{Memory, Name, Text};
use base_trees::Tree;
use content_models::{ParticleKind, ParticleLabel};
use schema_components::{RawElement, RawKind, RawLocal};
use schema_syntax::{NamespaceScope, least_of, most_of, value_of};
use std::alloc::Global;

/// The name of the element that a local declaration declares or refers to.
pub(crate) fn element_name(
    alloc: Global,
    setting: Setting<'_>,
    scope: &NamespaceScope<'_, '_>,
    own: &[(Text, Text)],
) -> Result<Name, Memory>
    ensures { IfOk result (λ name. name ≡ parts.element_name (said setting.entry) (bindings_in scope.now) own.now) }
{
    match value_of("ref", own) {
        Some(reference) => referred(alloc, scope, reference.as_str()),
        None => local_name(alloc, setting.target, setting.elements_qualified, own),
    }
}

/// The element of this name and this type.
pub(crate) fn element_with(name: Name, own: &[(Text, Text)], at: u64, kind: RawKind) -> RawElement
    ensures { element_of result ≡ parts.element_with name own.now at (kind_of kind) }
{
    RawElement {
        name,
        nillable: is_true("nillable", own),
        kind,
        at,
    }
}

fn compositor(name: &str) -> ParticleKind
    ensures { result ≡ parts.compositor name.now }
{
    if name == "choice" {
        ParticleKind::Choice
    } else if name == "all" {
        ParticleKind::All
    } else {
        ParticleKind::Sequence
    }
}

impl<'s, 'a, 'b> Reader<'s, 'a, 'b> {
    /// Returns the particle of a group with this start tag and these particles.
    pub(crate) fn group_of(
        self,
        tag: StartTag<'_>,
        kids: Vec<Tree<ParticleLabel>>,
    ) -> Tree<ParticleLabel>
        ensures { result ≡ parts.group_of self.entry.setting.file tag.entry.at tag.entry.name.now tag.entry.own.now kids.items }
    {
        let label = ParticleLabel {
            kind: compositor(tag.name),
            min: least_of(tag.own),
            max: most_of(tag.own),
            file: self.setting.file,
            at: tag.at,
        };
        Tree::join(label, kids)
    }

    /// Returns the particle of an element with this start tag. `decl` is the number of its local declaration.
    pub(crate) fn leaf_of(self, tag: StartTag<'_>, decl: u32, name: Name) -> Tree<ParticleLabel>
        ensures { result ≡ parts.leaf_of self.entry.setting.file tag.entry.at decl name tag.entry.own.now }
    {
        let label = ParticleLabel {
            kind: ParticleKind::Element { decl, name },
            min: least_of(tag.own),
            max: most_of(tag.own),
            file: self.setting.file,
            at: tag.at,
        };
        Tree::leaf(self.alloc, label)
    }
}

/// Adds the particle, if there is one.
pub(crate) fn push_particle(
    particles: &mut Vec<Tree<ParticleLabel>>,
    found: Option<Tree<ParticleLabel>>,
) -> Result<(), Memory>
    ensures { OnOk result ((rest : List (Rose Label)) → particles.new.items ++ rest ≡ particles.old.items ++ parts.and_some found rest) }
{
    if let Some(particle) = found {
        particles.push(particle)?;
    }
    Ok(())
}

/// Replaces the local declaration with this number by an element.
pub(crate) fn put_own(locals: &mut Vec<RawLocal>, number: usize, element: RawElement)
    requires { number < length locals.old.items }
    ensures { map local_of locals.new.items ≡ set (map local_of locals.old.items) number (Own (element_of element)) }
{
    locals[number] = RawLocal::Own(element);
}
