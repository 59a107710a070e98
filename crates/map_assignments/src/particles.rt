//! The parts for particles.
ghost use Rattle.std.specs.Prelude.{◌≡◌, ◌∷◌, ◌&&◌, [], ℕ, IfOk, OnOk, true, false, not, map};
ghost use Rattle.simple_types.specs.declared.standards.Standard.TheVariants.{Free};
ghost use Rattle.base_trees.specs.Rose.{node, Rose};
ghost use Rattle.base_trees.specs.Rose as rose;
ghost use Rattle.asn_types.specs.declared.types.TypeLabel.{TypeLabel};
ghost use Rattle.content_models.specs.Particle.{Particles};
ghost use Rattle.content_models.specs.Seen.{term_seen};
ghost use Rattle.map_subjects.specs.declared.subjects.Subject.{Subject};
ghost use Rattle.map_assignments.specs.Plans.{TypePlan, Parts};
ghost use Rattle.map_assignments.specs.Plans as plan;
ghost use Rattle.map_assignments.specs.Planning.{label_of, list_label_of, is_once, is_optional, particle_part, texts_type, labels};
ghost use Rattle.map_assignments.specs.Naming.{type_label, repeated_part, wanted, IsNamed};
ghost use Rattle.map_assignments.specs.Private.Building.{AddsPart, Adds, LeadsToNamed, stands_as_parts};

use crate::instructions::{one_mark, push_qualified};
use crate::parts::PartList;
use crate::simple::{items_type, plain};
use asn_names::{NameKind, convert};
use asn_types::{Component, Form, Instruction, Marks, TypeLabel};
use base_texts::{Memory, Text};
use base_trees::Tree;
use content_models::{ParticleKind, ParticleLabel};
use simple_types::{Class, Standard};
use std::alloc::Global;

// Returns whether a particle occurs exactly once.
fn is_once(min: u32, max: Option<u32>) -> bool
    ensures { result ≡ is_once min max }
{
    match max {
        Some(max) => min == 1 && max == 1,
        None => false,
    }
}

/// Returns whether the particles of a top group are parts of the type itself: those of a sequence that occurs once, or of an all.
pub(crate) fn stands_as_parts(label: &ParticleLabel) -> bool
    ensures { result ≡ stands_as_parts label.now.kind label.now.min label.now.max }
{
    match label.kind {
        ParticleKind::Sequence => is_once(label.min, label.max),
        ParticleKind::All => true,
        _ => false,
    }
}

// Returns whether a particle is optional: its bounds are 0 and 1.
fn is_optional(min: u32, max: Option<u32>) -> bool
    ensures { result ≡ is_optional min max }
{
    match max {
        Some(max) => min == 0 && max == 1,
        None => false,
    }
}

// Returns whether the part of a particle is OPTIONAL.
fn is_optional_part(in_choice: bool, min: u32, max: Option<u32>) -> bool
    ensures { result ≡ (is_optional min max && not in_choice) }
{
    is_optional(min, max) && !in_choice
}

// Returns the word from which the identifier of one occurrence is made.
fn name_of(alloc: Global, kind: &ParticleKind) -> Result<Text, Memory>
    ensures { IfOk result (λ made. (ps : Particles) → made ≡ wanted (label_of (term_seen kind.now ps))) }
{
    match kind {
        ParticleKind::Element { name, .. } => convert(alloc, NameKind::Identifier, &name.local),
        ParticleKind::Sequence | ParticleKind::All => Text::from_str(alloc, "sequence"),
        ParticleKind::Choice => Text::from_str(alloc, "choice"),
    }
}

// Returns the word from which the identifier of several occurrences is made.
fn list_name_of(alloc: Global, kind: &ParticleKind) -> Result<Text, Memory>
    ensures { IfOk result (λ made. (ps : Particles) → made ≡ wanted (list_label_of (term_seen kind.now ps))) }
{
    let name = name_of(alloc, kind)?;
    let mut made = String::from_str(alloc, name.as_str())?;
    made.push_str("-list")?;
    Text::from_string(made)
}

/// Returns the word from which the identifier of the part for a particle of a sequence is made.
pub(crate) fn part_name(alloc: Global, label: &ParticleLabel) -> Result<Text, Memory>
    ensures { IfOk result (λ made. (ps : Particles) (type : TypePlan) (rest : Parts)
        → map wanted (labels (particle_part false (term_seen label.now.kind ps) type label.now.min label.now.max rest)) ≡ made ∷ map wanted (labels rest)) }
{
    if is_once(label.min, label.max) {
        name_of(alloc, &label.kind)
    } else if is_optional_part(false, label.min, label.max) {
        name_of(alloc, &label.kind)
    } else {
        list_name_of(alloc, &label.kind)
    }
}

// Returns the part of a SEQUENCE OF of such occurrences.
fn repeated_part(alloc: Global, kind: &ParticleKind) -> Result<Component, Memory>
    ensures { IfOk result (λ made. (ps : Particles) → made ≡ repeated_part (label_of (term_seen kind.now ps))) }
{
    let identifier = name_of(alloc, kind)?;
    let mut marks = Vec::new(alloc);
    match kind {
        ParticleKind::Element { name, .. } => push_qualified(alloc, &mut marks, &identifier, name)?,
        _ => marks.push(Instruction::Untagged)?,
    }
    Ok(Component {
        identifier,
        optional: false,
        standard: Standard::Free,
        marks: Marks::of(marks),
    })
}

// Returns a SEQUENCE OF of this type, with the bounds of the particle.
fn repeated(
    alloc: Global,
    label: &ParticleLabel,
    kid: Tree<TypeLabel>,
) -> Result<Tree<TypeLabel>, Memory>
    ensures { IfOk result (λ made. (ps : Particles) → made ≡ node (type_label (Form.SequenceOf (repeated_part (label_of (term_seen label.now.kind ps))) label.now.min label.now.max) []) (rose.more kid rose.none)) }
{
    let kids = vec![in alloc; kid]?;
    let part = repeated_part(alloc, &label.kind)?;
    let form = Form::SequenceOf {
        part,
        min: label.min,
        max: label.max,
    };
    let marks = Marks::of(Vec::new(alloc));
    Ok(Tree::join(TypeLabel { form, marks }, kids))
}

/// Adds a part that has no tags of its own, with an identifier made from this word.
pub(crate) fn push_untagged(
    alloc: Global,
    parts: &mut PartList,
    word: &str,
    optional: bool,
    kid: Tree<TypeLabel>,
) -> Result<(), Memory>
    ensures { OnOk result (AddsPart parts.old parts.new word.now Free (λ identifier. Instruction.Untagged ∷ []) optional kid) }
{
    let marks = one_mark(alloc, Instruction::Untagged)?;
    parts.push_marked(word, optional, marks, kid)
}

// Adds a part for one occurrence.
fn push_one(
    alloc: Global,
    parts: &mut PartList,
    kind: &ParticleKind,
    optional: bool,
    kid: Tree<TypeLabel>,
) -> Result<(), Memory>
    ensures { OnOk result ((ps : Particles) → Adds parts.old parts.new (label_of (term_seen kind.now ps)) optional kid) }
{
    match kind {
        ParticleKind::Element { name, .. } => parts.push_element(name, optional, kid),
        ParticleKind::Sequence | ParticleKind::All => {
            push_untagged(alloc, parts, "sequence", optional, kid)
        }
        ParticleKind::Choice => push_untagged(alloc, parts, "choice", optional, kid),
    }
}

// Adds a part for several occurrences.
fn push_several(
    alloc: Global,
    parts: &mut PartList,
    label: &ParticleLabel,
    kid: Tree<TypeLabel>,
) -> Result<(), Memory>
    ensures { OnOk result ((ps : Particles) → (made : Rose TypeLabel)
        × (made ≡ node (type_label (Form.SequenceOf (repeated_part (label_of (term_seen label.now.kind ps))) label.now.min label.now.max) []) (rose.more kid rose.none))
        × Adds parts.old parts.new (list_label_of (term_seen label.now.kind ps)) false made) }
{
    let made = repeated(alloc, label, kid)?;
    let name = list_name_of(alloc, &label.kind)?;
    push_untagged(alloc, parts, name.as_str(), false, made)
}

/// Adds the part for a particle whose term has this type.
pub(crate) fn push_particle(
    alloc: Global,
    parts: &mut PartList,
    in_choice: bool,
    label: &ParticleLabel,
    kid: Tree<TypeLabel>,
) -> Result<(), Memory>
    ensures { OnOk result ((place : Subject → ℕ) (ps : Particles) (type : TypePlan) (rest whole : Parts) → IsNamed place type kid
        → LeadsToNamed place parts.old (particle_part in_choice (term_seen label.now.kind ps) type label.now.min label.now.max rest) whole
        → LeadsToNamed place parts.new rest whole) }
{
    if is_once(label.min, label.max) {
        push_one(alloc, parts, &label.kind, false, kid)
    } else if is_optional_part(in_choice, label.min, label.max) {
        push_one(alloc, parts, &label.kind, true, kid)
    } else {
        push_several(alloc, parts, label, kid)
    }
}

// Returns the type of the texts between child elements.
fn texts_type(alloc: Global) -> Result<Tree<TypeLabel>, Memory>
    ensures { IfOk result (λ made. (place : Subject → ℕ) → IsNamed place texts_type made) }
{
    let form = Form::Utf8 {
        min: 0,
        max: None,
        class: Class::Any,
    };
    let text = plain(alloc, form);
    items_type(alloc, text, 0, None, Marks::of(Vec::new(alloc)))
}

/// Adds the part for the texts between child elements.
pub(crate) fn push_texts(alloc: Global, parts: &mut PartList) -> Result<(), Memory>
    ensures { OnOk result ((place : Subject → ℕ) (rest whole : Parts)
        → LeadsToNamed place parts.old (plan.part plan.texts false texts_type rest) whole → LeadsToNamed place parts.new rest whole) }
{
    let kid = texts_type(alloc)?;
    let marks = Marks::of(Vec::new(alloc));
    parts.push_marked("embed-values", false, marks, kid)
}

/// Adds the part for the content that a nillable element has if it isn't nil.
pub(crate) fn push_nillable(
    alloc: Global,
    parts: &mut PartList,
    kid: Tree<TypeLabel>,
) -> Result<(), Memory>
    ensures { OnOk result ((place : Subject → ℕ) (type : TypePlan) (whole : Parts) → IsNamed place type kid
        → LeadsToNamed place parts.old (plan.part plan.content true type plan.finish) whole → LeadsToNamed place parts.new plan.finish whole) }
{
    let marks = Marks::of(Vec::new(alloc));
    parts.push_marked("content", true, marks, kid)
}
