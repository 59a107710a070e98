//! The types of declarations, and of complex types with their content models.
ghost use Rattle.std.specs.Prelude.{◌≡◌, ◌<◌, ℕ, IfOk, OnOk, [], length, true, false, if◌then◌else◌};
ghost use Rattle.base_trees.specs.Rose.{roses_of};
ghost use Rattle.content_models.specs.Seen.{seen, all_seen};
ghost use Rattle.schema_components.specs.Components.{Set};
ghost use Rattle.schema_components.specs.Linked.{IsLinked, IsTyped, IsComplexType, IsContent};
ghost use Rattle.map_subjects.specs.declared.subjects.Subject.{Subject};
ghost use Rattle.map_assignments.specs.Plans as plan_of;
ghost use Rattle.map_assignments.specs.Plans.{TypePlan, Parts, finish};
ghost use Rattle.map_assignments.specs.Planning as plan;
ghost use Rattle.map_assignments.specs.Naming.{IsNamed, sequence_marks};
ghost use Rattle.map_assignments.specs.Private.Placing.{place_of};
ghost use Rattle.map_assignments.specs.Private.Building.{LeadsToNamed, declared, term_of, IsKnown, AreKnown};

use crate::mapper::Mapper;
use crate::orders::order_type;
use crate::particles::{push_nillable, push_particle, push_texts, push_untagged, stands_as_parts};
use crate::parts::PartList;
use asn_types::{Instruction, Marks, TypeLabel};
use base_texts::Memory;
use base_trees::Tree;
use content_models::{ParticleKind, ParticleLabel};
use map_subjects::Subject;
use schema_components::{AttributeUse, ComplexDef, Content, ElementDecl, TypeOf};
use std::alloc::Global;

fn is_mixed(content: &Content) -> bool
    ensures { result ≡ plan.is_mixed content.now }
{
    matches!(content, Content::Mixed(_))
}

// Returns whether it is an all that has particles.
fn is_all(particle: &Tree<ParticleLabel>) -> bool
    ensures { result ≡ plan.is_all (seen particle.now) }
{
    match particle.label().kind {
        ParticleKind::All => particle.kids().len() > 0,
        _ => false,
    }
}

// Returns whether child elements may appear in any order.
fn is_ordered(content: &Content) -> bool
    ensures { result ≡ plan.is_ordered content.now }
{
    match content {
        Content::ElementOnly(particle) => is_all(particle.root()),
        Content::Mixed(particle) => is_all(particle.root()),
        _ => false,
    }
}

// Returns USE-NIL, EMBED-VALUES and USE-ORDER, each if it is required.
fn sequence_marks(
    alloc: Global,
    nillable: bool,
    mixed: bool,
    ordered: bool,
) -> Result<Marks, Memory>
    ensures { IfOk result (λ marks. marks ≡ sequence_marks nillable mixed ordered) }
{
    let mut marks = Vec::new(alloc);
    if nillable {
        marks.push(Instruction::UseNil)?;
    }
    if mixed {
        marks.push(Instruction::EmbedValues)?;
    }
    if ordered {
        marks.push(Instruction::UseOrder)?;
    }
    Ok(Marks::of(marks))
}

// Returns the part of mixed content, if it is mixed, and no other parts.
fn begin(alloc: Global, mixed: bool) -> Result<PartList, Memory>
    ensures { IfOk result (λ made. (place : Subject → ℕ) (rest : Parts) → LeadsToNamed place made rest (plan.with_texts mixed rest)) }
{
    if mixed {
        let mut parts = PartList::new(alloc);
        push_texts(alloc, &mut parts)?;
        Ok(parts)
    } else {
        Ok(PartList::new(alloc))
    }
}

// Appends the part for the order of the elements, if the content model is an all.
fn push_all_order(
    parts: &mut PartList,
    nillable: bool,
    mixed: bool,
    uses: &[AttributeUse],
    particle: &Tree<ParticleLabel>,
) -> Result<(), Memory>
    ensures { OnOk result ((place : Subject → ℕ) (T : ℕ → TypePlan) (rest whole : Parts)
        → LeadsToNamed place parts.old (plan.with_order (plan.is_all (seen particle.now))
        (plan.order_type (if nillable then [] else plan.labels_before mixed uses.now) (plan.labels (plan.top T (seen particle.now)))) rest) whole
        → LeadsToNamed place parts.new rest whole) }
{
    if is_all(particle) {
        let alloc = parts.alloc();
        let kid = order_type(alloc, nillable, mixed, uses, particle.kids())?;
        parts.push_marked("order", false, Marks::of(Vec::new(alloc)), kid)
    } else {
        Ok(())
    }
}

// Appends the part for the order of the elements, if they may appear in any order.
fn push_content_order(
    parts: &mut PartList,
    nillable: bool,
    definition: &ComplexDef,
) -> Result<(), Memory>
    ensures { OnOk result ((place : Subject → ℕ) (T : ℕ → TypePlan) (s : Set) (rest whole : Parts)
        → LeadsToNamed place parts.old (plan.with_order (plan.is_ordered definition.now.content) (plan.order_plan T s nillable definition.now) rest) whole
        → LeadsToNamed place parts.new rest whole) }
{
    let uses = definition.uses.items();
    match &definition.content {
        Content::ElementOnly(particle) => {
            push_all_order(parts, nillable, false, uses, particle.root())
        }
        Content::Mixed(particle) => { push_all_order(parts, nillable, true, uses, particle.root()) }
        _ => Ok(()),
    }
}

// Returns the type that has these parts, of a complex type with this content.
fn marked_sequence(
    alloc: Global,
    parts: PartList,
    nillable: bool,
    content: &Content,
) -> Result<Tree<TypeLabel>, Memory>
    ensures { IfOk result (λ made. (place : Subject → ℕ) (whole : Parts) → LeadsToNamed place parts finish whole
        → IsNamed place (plan_of.sequence nillable (plan.is_mixed content.now) (plan.is_ordered content.now) whole) made) }
{
    let marks = sequence_marks(alloc, nillable, is_mixed(content), is_ordered(content))?;
    Ok(parts.into_sequence(marks))
}

impl Mapper<'_> {
    // Returns the first parts, up to the attributes.
    fn first_parts(self, nillable: bool, definition: &ComplexDef) -> Result<PartList, Memory>
        requires linked { IsLinked self.set.now }
        requires definition { IsComplexType self.set.now definition.now }
        ensures { IfOk result (λ made. (T : ℕ → TypePlan) (rest : Parts)
            → LeadsToNamed (place_of self.entry.places.now) made rest (plan.with_texts (plan.is_mixed definition.now.content)
            (plan.with_order (plan.is_ordered definition.now.content) (plan.order_plan T self.entry.set.now nillable definition.now) (plan.attributes self.entry.set.now definition.now.uses rest)))) }
    {
        let mut parts = begin(self.alloc, is_mixed(&definition.content))?;
        push_content_order(&mut parts, nillable, definition)?;
        self.push_attributes(&mut parts, definition.uses.items())?;
        Ok(parts)
    }

    // Returns the type of nillable elements of the simple type with this number.
    fn nillable_simple_type(self, n: u32) -> Result<Tree<TypeLabel>, Memory>
        requires linked { IsLinked self.set.now }
        requires number { n < length self.set.now.simples }
        ensures { IfOk result (λ made. IsNamed (place_of self.entry.places.now) (plan.nillable_simple_type self.entry.set.now n) made) }
    {
        let kid = self.simple_at(n)?;
        let mut parts = PartList::new(self.alloc);
        push_nillable(self.alloc, &mut parts, kid)?;
        let marks = sequence_marks(self.alloc, true, false, false)?;
        Ok(parts.into_sequence(marks))
    }

    // Returns the type at a particle of the element with this number.
    #[cycle(content)]
    fn particle_type(self, levels: u32, decl: u32) -> Result<Tree<TypeLabel>, Memory>
        requires linked { IsLinked self.set.now }
        requires number { decl < length self.set.now.elements }
        ensures { IfOk result (λ made. IsNamed (place_of self.entry.places.now) (declared self.entry.set.now levels decl) made) }
    {
        if decl < self.set.global_count() {
            return Ok(self.places.reference(self.alloc, Subject::Element(decl)));
        }
        self.own_type(levels, self.set.element(decl))
    }

    // Returns the type of a declaration itself, not of a reference to it.
    #[cycle(content)]
    pub(crate) fn own_type(
        self,
        levels: u32,
        element: &ElementDecl,
    ) -> Result<Tree<TypeLabel>, Memory>
        requires linked { IsLinked self.set.now }
        requires typed { IsTyped self.set.now element.now.kind }
        ensures { IfOk result (λ made. IsNamed (place_of self.entry.places.now) (plan.own_type self.entry.set.now (plan.in_place self.entry.set.now levels) element.now) made) }
    {
        let nillable = element.nillable;
        match element.kind {
            TypeOf::Simple(n) => {
                if nillable {
                    self.nillable_simple_type(n)
                } else {
                    self.simple_at(n)
                }
            }
            TypeOf::Complex(n) => match self.set.complex(n).name {
                Some(_) => {
                    let subject = if nillable {
                        Subject::Nillable(n)
                    } else {
                        Subject::Complex(n)
                    };
                    Ok(self.places.reference(self.alloc, subject))
                }
                None => self.in_place(levels, nillable, n),
            },
        }
    }

    /// Returns the type of the complex type with this number, in which at most `levels` types without a name are nested,
    /// including itself.
    #[cycle(content)]
    pub(crate) fn in_place(
        self,
        levels: u32,
        nillable: bool,
        n: u32,
    ) -> Result<Tree<TypeLabel>, Memory>
        requires linked { IsLinked self.set.now }
        requires number { n < length self.set.now.complexes }
        ensures { IfOk result (λ made. IsNamed (place_of self.entry.places.now) (plan.in_place self.entry.set.now levels nillable n) made) }
    {
        if levels == 0 {
            let marks = Marks::of(Vec::new(self.alloc));
            return Ok(PartList::new(self.alloc).into_sequence(marks));
        }
        self.complex_type(levels - 1, nillable, self.set.complex(n))
    }

    #[cycle(content)]
    fn complex_type(
        self,
        levels: u32,
        nillable: bool,
        definition: &ComplexDef,
    ) -> Result<Tree<TypeLabel>, Memory>
        requires linked { IsLinked self.set.now }
        requires definition { IsComplexType self.set.now definition.now }
        ensures { IfOk result (λ made. IsNamed (place_of self.entry.places.now) (plan.complex_plan (declared self.entry.set.now levels) self.entry.set.now nillable definition.now) made) }
    {
        let content = &definition.content;
        let mut parts = self.first_parts(nillable, definition)?;
        self.push_rest(&mut parts, levels, nillable, content)?;
        marked_sequence(self.alloc, parts, nillable, content)
    }

    // Appends the parts after the attributes.
    #[cycle(content)]
    fn push_rest(
        self,
        parts: &mut PartList,
        levels: u32,
        nillable: bool,
        content: &Content,
    ) -> Result<(), Memory>
        requires linked { IsLinked self.set.now }
        requires content { IsContent self.set.now content.now }
        ensures { OnOk result ((whole : Parts) → LeadsToNamed (place_of self.entry.places.now) parts.old (plan.rest_parts (declared self.entry.set.now levels) self.entry.set.now nillable content.now) whole
            → LeadsToNamed (place_of self.entry.places.now) parts.new finish whole) }
    {
        if nillable {
            let kid = self.content_type(levels, content)?;
            push_nillable(self.alloc, parts, kid)
        } else {
            self.push_content(parts, levels, content)
        }
    }

    // Returns the type of the content that a nillable element has if it isn't nil.
    #[cycle(content)]
    fn content_type(self, levels: u32, content: &Content) -> Result<Tree<TypeLabel>, Memory>
        requires linked { IsLinked self.set.now }
        requires content { IsContent self.set.now content.now }
        ensures { IfOk result (λ made. IsNamed (place_of self.entry.places.now) (plan.content_type (declared self.entry.set.now levels) self.entry.set.now content.now) made) }
    {
        if let Content::Simple(n) = content {
            return self.simple_at(*n);
        }
        let mut parts = PartList::new(self.alloc);
        self.push_content(&mut parts, levels, content)?;
        let marks = Marks::of(Vec::new(self.alloc));
        Ok(parts.into_sequence(marks))
    }

    #[cycle(content)]
    fn push_content(
        self,
        parts: &mut PartList,
        levels: u32,
        content: &Content,
    ) -> Result<(), Memory>
        requires linked { IsLinked self.set.now }
        requires content { IsContent self.set.now content.now }
        ensures { OnOk result ((whole : Parts) → LeadsToNamed (place_of self.entry.places.now) parts.old (plan.content_parts (declared self.entry.set.now levels) self.entry.set.now content.now) whole
            → LeadsToNamed (place_of self.entry.places.now) parts.new finish whole) }
    {
        match content {
            Content::Empty => Ok(()),
            Content::Simple(n) => {
                let kid = self.simple_at(*n)?;
                push_untagged(self.alloc, parts, "base", false, kid)
            }
            Content::ElementOnly(particle) => { self.push_top(parts, levels, particle.root()) }
            Content::Mixed(particle) => { self.push_top(parts, levels, particle.root()) }
        }
    }

    // Appends the parts of a content model.
    #[cycle(content)]
    fn push_top(
        self,
        parts: &mut PartList,
        levels: u32,
        particle: &Tree<ParticleLabel>,
    ) -> Result<(), Memory>
        requires linked { IsLinked self.set.now }
        requires known { IsKnown self.set.now particle.now }
        ensures { OnOk result ((whole : Parts) → LeadsToNamed (place_of self.entry.places.now) parts.old (plan.top (declared self.entry.set.now levels) (seen particle.now)) whole
            → LeadsToNamed (place_of self.entry.places.now) parts.new finish whole) }
    {
        let label = particle.label();
        if stands_as_parts(label) {
            return self.push_particles(parts, levels, false, particle.kids());
        }
        let kid = self.term_type(levels, particle)?;
        push_particle(self.alloc, parts, false, label, kid)
    }

    // Returns the type of one occurrence of a particle.
    #[cycle(content)]
    fn term_type(
        self,
        levels: u32,
        particle: &Tree<ParticleLabel>,
    ) -> Result<Tree<TypeLabel>, Memory>
        requires linked { IsLinked self.set.now }
        requires known { IsKnown self.set.now particle.now }
        ensures { IfOk result (λ made. IsNamed (place_of self.entry.places.now) (plan.term_type (declared self.entry.set.now levels) (term_of particle.now)) made) }
    {
        match particle.label().kind {
            ParticleKind::Element { decl, .. } => self.particle_type(levels, decl),
            ParticleKind::Sequence | ParticleKind::All => {
                self.sequence_type(levels, particle.kids())
            }
            ParticleKind::Choice => self.choice_type(levels, particle.kids()),
        }
    }

    // Returns the type of a sequence of these particles.
    #[cycle(content)]
    fn sequence_type(
        self,
        levels: u32,
        particles: &[Tree<ParticleLabel>],
    ) -> Result<Tree<TypeLabel>, Memory>
        requires linked { IsLinked self.set.now }
        requires known { AreKnown self.set.now particles.now }
        ensures { IfOk result (λ made. IsNamed (place_of self.entry.places.now) (plan_of.sequence false false false (plan.particle_parts (declared self.entry.set.now levels) false (all_seen (roses_of particles.now)))) made) }
    {
        let mut parts = PartList::new(self.alloc);
        self.push_particles(&mut parts, levels, false, particles)?;
        Ok(parts.into_sequence(Marks::of(Vec::new(self.alloc))))
    }

    // Returns the type of a choice of these particles.
    #[cycle(content)]
    fn choice_type(
        self,
        levels: u32,
        particles: &[Tree<ParticleLabel>],
    ) -> Result<Tree<TypeLabel>, Memory>
        requires linked { IsLinked self.set.now }
        requires known { AreKnown self.set.now particles.now }
        ensures { IfOk result (λ made. IsNamed (place_of self.entry.places.now) (plan_of.choice (plan.particle_parts (declared self.entry.set.now levels) true (all_seen (roses_of particles.now)))) made) }
    {
        let mut parts = PartList::new(self.alloc);
        self.push_particles(&mut parts, levels, true, particles)?;
        Ok(parts.into_choice(Marks::of(Vec::new(self.alloc))))
    }

    // Appends the parts for particles of a group.
    #[cycle(content)]
    fn push_particles(
        self,
        parts: &mut PartList,
        levels: u32,
        in_choice: bool,
        particles: &[Tree<ParticleLabel>],
    ) -> Result<(), Memory>
        requires linked { IsLinked self.set.now }
        requires known { AreKnown self.set.now particles.now }
        ensures { OnOk result ((whole : Parts) → LeadsToNamed (place_of self.entry.places.now) parts.old (plan.particle_parts (declared self.entry.set.now levels) in_choice (all_seen (roses_of particles.now))) whole
            → LeadsToNamed (place_of self.entry.places.now) parts.new finish whole) }
    {
        'particles: for particle in particles {
            let kid = self.term_type(levels, particle)?;
            push_particle(self.alloc, parts, in_choice, particle.label(), kid)?;
        }
        Ok(())
    }
}
