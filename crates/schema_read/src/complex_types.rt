//! Complex type definitions, elements and content models.
ghost use Rattle.std.specs.Prelude.{◌≡◌, ◌+◌, ◌<◌, ◌^◌, ◌++◌, IfOk, OnOk, length, map, option_map};
ghost use Rattle.base_trees.specs.Rose.{roses_of};
ghost use Rattle.schema_components.specs.Seen as seen;
ghost use Rattle.schema_syntax.specs.Scopes.{bindings_in};
ghost use Rattle.schema_read.specs.Attributes as attributes;
ghost use Rattle.schema_read.specs.Names as names;
ghost use Rattle.schema_read.specs.Settings.{said};
ghost use Rattle.schema_read.specs.Particles as parts;
ghost use Rattle.schema_read.specs.Particles.{Makes, made};
ghost use Rattle.schema_read.specs.Private.Held.{BodyHeld, ElementHeld, FoundHeld, HasRoom, IsHeld, KindHeld};

use crate::contents::{complex_with, is_named, is_true};
use crate::declarations::local_name;
use crate::names::{no_name, referred, type_ref};
use crate::particles::{element_name, element_with, push_particle, put_own};
use crate::reader::{Reader, StartTag};
use crate::simple_definitions::simple_type;
use base_texts::{Memory, Name};
use base_trees::Tree;
use content_models::ParticleLabel;
use schema_components::{RawComplex, RawElement, RawKind, RawLocal, RawRef};
use schema_syntax::{ChildSet, NamespaceScope, is_in, never_occurs, own_attributes, value_of};
use std::alloc::Global;
use xml_read::ItemLabel;

fn next_number(locals: &[RawLocal]) -> u32
    requires { length locals.now < 2 ^ 32 }
    ensures { result ≡ length locals.now }
{
    locals.len() as u32
}

// Adds a reference to a global element.
fn refer(
    alloc: Global,
    scope: &NamespaceScope<'_, '_>,
    text: &str,
    at: u64,
    locals: &mut Vec<RawLocal>,
) -> Result<(), Memory>
    ensures { OnOk result (map seen.local_of locals.new.items ≡ map seen.local_of locals.old.items ++ parts.reference_to (names.referred (bindings_in scope.now) text.now) at) }
{
    let name = referred(alloc, scope, text)?;
    locals.push(RawLocal::Reference { name, at })?;
    Ok(())
}

// A place for a local declaration, which stands before those in it.
fn hold(alloc: Global, at: u64, locals: &mut Vec<RawLocal>) -> Result<(), Memory>
    ensures { OnOk result (map seen.local_of locals.new.items ≡ map seen.local_of locals.old.items ++ parts.reference_to names.no_name at) }
{
    locals.push(RawLocal::Reference {
        name: no_name(alloc),
        at,
    })?;
    Ok(())
}

impl<'s, 'a, 'b> Reader<'s, 'a, 'b> {
    // The particle that the element is, unless it may not occur. What it declares is added to the local declarations.
    #[cycle(complex_types)]
    fn particle_at(
        self,
        tree: &'a Tree<ItemLabel>,
        locals: &mut Vec<RawLocal>,
    ) -> Result<Option<Tree<ParticleLabel>>, Memory>
        requires { HasRoom locals.old.items (parts.particle_at (said self.setting) (bindings_in self.scope.now) (length locals.old.items) tree.now) }
        ensures { IfOk result (λ found. Makes locals.old.items locals.new.items found (parts.particle_at (said self.entry.setting) (bindings_in self.entry.scope.now) (length locals.old.items) tree.now)) }
    {
        let ItemLabel::Element {
            name,
            attributes,
            declares,
            at,
        } = tree.label()
        else {
            return Ok(None);
        };
        if !is_in(ChildSet::Particles, tree.label()) {
            return Ok(None);
        }
        let own = own_attributes(self.alloc, attributes.items())?;
        if never_occurs(&own) {
            return Ok(None);
        }
        let inside = NamespaceScope::inside(self.alloc, declares, self.scope)?;
        let reader = Reader {
            scope: &inside,
            ..self
        };
        let tag = StartTag {
            name: name.local.as_str(),
            at: *at,
            own: &own,
        };
        let particle = reader.particle_of(tag, tree.kids(), locals)?;
        Ok(Some(particle))
    }

    #[cycle(complex_types)]
    fn particle_of(
        self,
        tag: StartTag<'_>,
        kids: &'a [Tree<ItemLabel>],
        locals: &mut Vec<RawLocal>,
    ) -> Result<Tree<ParticleLabel>, Memory>
        requires { HasRoom locals.old.items (parts.particle_by (said self.setting) (length locals.old.items) tag.name.now tag.at (bindings_in self.scope.now) tag.own.now
            (parts.inner_kind (said self.setting) (bindings_in self.scope.now) (length locals.old.items + 1) (roses_of kids.now))
            (parts.particles_among (said self.setting) (bindings_in self.scope.now) (length locals.old.items) (roses_of kids.now))) }
        ensures { IfOk result (λ particle. Makes locals.old.items locals.new.items particle (parts.particle_by (said self.entry.setting) (length locals.old.items) tag.entry.name.now tag.entry.at (bindings_in self.entry.scope.now) tag.entry.own.now
            (parts.inner_kind (said self.entry.setting) (bindings_in self.entry.scope.now) (length locals.old.items + 1) (roses_of kids.now))
            (parts.particles_among (said self.entry.setting) (bindings_in self.entry.scope.now) (length locals.old.items) (roses_of kids.now)))) }
    {
        if tag.name == "element" {
            let named = element_name(self.alloc, self.setting, self.scope, tag.own)?;
            let decl = self.declare(tag, kids, locals)?;
            Ok(self.leaf_of(tag, decl, named))
        } else {
            let particles = self.particles_among(kids, locals)?;
            Ok(self.group_of(tag, particles))
        }
    }

    // The particles among these, in their order, without those that may not occur.
    #[cycle(complex_types)]
    fn particles_among(
        self,
        kids: &'a [Tree<ItemLabel>],
        locals: &mut Vec<RawLocal>,
    ) -> Result<Vec<Tree<ParticleLabel>>, Memory>
        requires { HasRoom locals.old.items (parts.particles_among (said self.setting) (bindings_in self.scope.now) (length locals.old.items) (roses_of kids.now)) }
        ensures { IfOk result (λ particles. Makes locals.old.items locals.new.items particles.items (parts.particles_among (said self.entry.setting) (bindings_in self.entry.scope.now) (length locals.old.items) (roses_of kids.now))) }
    {
        let mut particles = Vec::new(self.alloc);
        for kid in kids {
            let found = self.particle_at(kid, locals)?;
            push_particle(&mut particles, found)?;
        }
        Ok(particles)
    }

    // Adds a local declaration before those that stand in it, and tells its number.
    #[cycle(complex_types)]
    fn declare(
        self,
        tag: StartTag<'_>,
        kids: &'a [Tree<ItemLabel>],
        locals: &mut Vec<RawLocal>,
    ) -> Result<u32, Memory>
        requires { HasRoom locals.old.items (made (length locals.old.items) (parts.declared (said self.setting) tag.at (bindings_in self.scope.now) tag.own.now
            (parts.inner_kind (said self.setting) (bindings_in self.scope.now) (length locals.old.items + 1) (roses_of kids.now)))) }
        ensures { IfOk result (λ decl. Makes locals.old.items locals.new.items decl (made (length locals.old.items) (parts.declared (said self.entry.setting) tag.entry.at (bindings_in self.entry.scope.now) tag.entry.own.now
            (parts.inner_kind (said self.entry.setting) (bindings_in self.entry.scope.now) (length locals.old.items + 1) (roses_of kids.now))))) }
    {
        let decl = next_number(locals);
        match value_of("ref", tag.own) {
            Some(reference) => {
                refer(self.alloc, self.scope, reference.as_str(), tag.at, locals)?;
                Ok(decl)
            }
            None => {
                self.declare_own(tag, kids, locals)?;
                Ok(decl)
            }
        }
    }

    #[cycle(complex_types)]
    fn declare_own(
        self,
        tag: StartTag<'_>,
        kids: &'a [Tree<ItemLabel>],
        locals: &mut Vec<RawLocal>,
    ) -> Result<(), Memory>
        requires { HasRoom locals.old.items (made (length locals.old.items) (parts.declared_with (parts.element_by
            (attributes.local_name self.setting.target.now self.setting.elements_qualified tag.own.now) tag.own.now tag.at (parts.kind_by (bindings_in self.scope.now) tag.own.now
            (parts.inner_kind (said self.setting) (bindings_in self.scope.now) (length locals.old.items + 1) (roses_of kids.now)))))) }
        ensures { OnOk result (map seen.local_of locals.new.items ≡ map seen.local_of locals.old.items ++ parts.declared_with (parts.element_by
            (attributes.local_name self.entry.setting.target.now self.entry.setting.elements_qualified tag.entry.own.now) tag.entry.own.now tag.entry.at (parts.kind_by (bindings_in self.entry.scope.now) tag.entry.own.now
            (parts.inner_kind (said self.entry.setting) (bindings_in self.entry.scope.now) (length locals.old.items + 1) (roses_of kids.now))))) }
    {
        let number = locals.len();
        hold(self.alloc, tag.at, locals)?;
        let name = local_name(
            self.alloc,
            self.setting.target,
            self.setting.elements_qualified,
            tag.own,
        )?;
        let element = self.element_of(name, tag, kids, locals)?;
        put_own(locals, number, element);
        Ok(())
    }

    /// The element that is declared by this name.
    #[cycle(complex_types)]
    pub(crate) fn element_of(
        self,
        name: Name,
        tag: StartTag<'_>,
        kids: &'a [Tree<ItemLabel>],
        locals: &mut Vec<RawLocal>,
    ) -> Result<RawElement, Memory>
        requires { IsHeld ElementHeld locals.old.items (parts.element_by name tag.own.now tag.at (parts.kind_by (bindings_in self.scope.now) tag.own.now
            (parts.inner_kind (said self.setting) (bindings_in self.scope.now) (length locals.old.items) (roses_of kids.now)))) }
        ensures { IfOk result (λ element. Makes locals.old.items locals.new.items (seen.element_of element) (parts.element_by name tag.entry.own.now tag.entry.at (parts.kind_by (bindings_in self.entry.scope.now) tag.entry.own.now
            (parts.inner_kind (said self.entry.setting) (bindings_in self.entry.scope.now) (length locals.old.items) (roses_of kids.now))))) }
    {
        match value_of("type", tag.own) {
            Some(value) => {
                let reference = type_ref(self.alloc, self.scope, value.as_str())?;
                Ok(element_with(name, tag.own, tag.at, RawKind::Named(reference)))
            }
            None => {
                let kind = self.inner_kind(kids, locals)?;
                Ok(element_with(name, tag.own, tag.at, kind))
            }
        }
    }

    // The first particle among these that may occur.
    #[cycle(complex_types)]
    fn group_among(
        self,
        kids: &'a [Tree<ItemLabel>],
        locals: &mut Vec<RawLocal>,
    ) -> Result<Option<Tree<ParticleLabel>>, Memory>
        requires { HasRoom locals.old.items (parts.group_among (said self.setting) (bindings_in self.scope.now) (length locals.old.items) (roses_of kids.now)) }
        ensures { IfOk result (λ found. Makes locals.old.items locals.new.items found (parts.group_among (said self.entry.setting) (bindings_in self.entry.scope.now) (length locals.old.items) (roses_of kids.now))) }
    {
        for kid in kids {
            let found = self.particle_at(kid, locals)?;
            if let Some(particle) = found {
                return Ok(Some(particle));
            }
        }
        Ok(None)
    }

    // The first type among these.
    #[cycle(complex_types)]
    fn inner_kind(
        self,
        kids: &'a [Tree<ItemLabel>],
        locals: &mut Vec<RawLocal>,
    ) -> Result<RawKind, Memory>
        requires { IsHeld KindHeld locals.old.items (parts.inner_kind (said self.setting) (bindings_in self.scope.now) (length locals.old.items) (roses_of kids.now)) }
        ensures { IfOk result (λ kind. Makes locals.old.items locals.new.items (seen.kind_of kind) (parts.inner_kind (said self.entry.setting) (bindings_in self.entry.scope.now) (length locals.old.items) (roses_of kids.now))) }
    {
        for kid in kids {
            let simple = simple_type(self.alloc, kid, self.scope)?;
            if let Some(body) = simple {
                return Ok(RawKind::Simple(body));
            }
            let complex = self.complex_type(kid, locals)?;
            if let Some(body) = complex {
                return Ok(RawKind::Complex(body));
            }
        }
        Ok(RawKind::Named(RawRef::Other(no_name(self.alloc))))
    }

    /// The complex type that the element defines.
    #[cycle(complex_types)]
    pub(crate) fn complex_type(
        self,
        tree: &'a Tree<ItemLabel>,
        locals: &mut Vec<RawLocal>,
    ) -> Result<Option<RawComplex>, Memory>
        requires { IsHeld FoundHeld locals.old.items (parts.complex_type (said self.setting) (bindings_in self.scope.now) (length locals.old.items) tree.now) }
        ensures { IfOk result (λ found. Makes locals.old.items locals.new.items (option_map seen.complex_of found) (parts.complex_type (said self.entry.setting) (bindings_in self.entry.scope.now) (length locals.old.items) tree.now)) }
    {
        let ItemLabel::Element {
            attributes,
            declares,
            at,
            ..
        } = tree.label()
        else {
            return Ok(None);
        };
        if !is_named("complexType", tree.label()) {
            return Ok(None);
        }
        let inside = NamespaceScope::inside(self.alloc, declares, self.scope)?;
        let own = own_attributes(self.alloc, attributes.items())?;
        let mixed = is_true("mixed", &own);
        let reader = Reader {
            scope: &inside,
            ..self
        };
        let body = reader.complex_of(*at, mixed, tree.kids(), locals)?;
        Ok(Some(body))
    }

    #[cycle(complex_types)]
    fn complex_of(
        self,
        at: u64,
        mixed: bool,
        kids: &'a [Tree<ItemLabel>],
        locals: &mut Vec<RawLocal>,
    ) -> Result<RawComplex, Memory>
        requires { IsHeld BodyHeld locals.old.items (parts.complex_of (said self.setting) at mixed (bindings_in self.scope.now) kids.now
            (parts.group_among (said self.setting) (bindings_in self.scope.now) (length locals.old.items) (roses_of kids.now))) }
        ensures { IfOk result (λ body. Makes locals.old.items locals.new.items (seen.complex_of body) (parts.complex_of (said self.entry.setting) at mixed (bindings_in self.entry.scope.now) kids.now
            (parts.group_among (said self.entry.setting) (bindings_in self.entry.scope.now) (length locals.old.items) (roses_of kids.now)))) }
    {
        let simple = self.simple_content(kids)?;
        if let Some(found) = simple {
            return Ok(complex_with(at, found));
        }
        let group = self.group_among(kids, locals)?;
        self.complex_by(at, mixed, kids, group)
    }
}
