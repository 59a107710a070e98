//! The order of child elements that may appear in any order (X.693, USE-ORDER).
ghost use Rattle.std.specs.Prelude.{◌≡◌, ◌∷◌, ◌++◌, [], ℕ, IfOk, OnOk, List, false, map, if◌then◌else◌};
ghost use Rattle.base_trees.specs.Rose.{roses_of};
ghost use Rattle.content_models.specs.Seen.{all_seen};
ghost use Rattle.map_assignments.specs.Plans.{TypePlan, attribute};
ghost use Rattle.map_assignments.specs.Plans as plan;
ghost use Rattle.map_assignments.specs.Planning.{labels, labels_before, particle_parts};
ghost use Rattle.map_assignments.specs.Planning as plan_of;
ghost use Rattle.map_subjects.specs.declared.subjects.Subject.{Subject};
ghost use Rattle.map_assignments.specs.Naming.{wanted, AreTaken, IsNamed};
ghost use Rattle.map_assignments.specs.Private.Building.{LeadsToNames, LeadsToScope, order_tree};

use crate::particles::part_name;
use crate::simple::{items_type, plain};
use asn_names::{NameKind, Scope, convert};
use asn_types::{Form, Marks, TypeLabel};
use base_texts::{Memory, Text};
use base_trees::Tree;
use content_models::ParticleLabel;
use schema_components::AttributeUse;
use simple_types::TextList;
use std::alloc::Global;

// Adds an identifier made from this name to the scope.
fn take(scope: &mut Scope, name: &Text) -> Result<(), Memory>
    ensures { OnOk result ((rest names : List (List ℕ)) → LeadsToScope scope.old (name.now ∷ rest) names → LeadsToScope scope.new rest names) }
{
    scope.take(NameKind::Identifier, name)?;
    Ok(())
}

fn take_word(alloc: Global, scope: &mut Scope, word: &str) -> Result<(), Memory>
    ensures { OnOk result ((rest names : List (List ℕ)) → LeadsToScope scope.old (word.now ∷ rest) names → LeadsToScope scope.new rest names) }
{
    let name = Text::from_str(alloc, word)?;
    take(scope, &name)
}

// Adds the identifier of the texts, if there are any.
fn take_texts(alloc: Global, scope: &mut Scope, mixed: bool) -> Result<(), Memory>
    ensures { OnOk result ((rest names : List (List ℕ))
        → LeadsToScope scope.old (map wanted (if mixed then plan.texts ∷ [] else []) ++ rest) names → LeadsToScope scope.new rest names) }
{
    if mixed {
        take_word(alloc, scope, "embed-values")
    } else {
        Ok(())
    }
}

// Adds the identifiers of attributes.
fn take_attributes(alloc: Global, scope: &mut Scope, uses: &[AttributeUse]) -> Result<(), Memory>
    ensures { OnOk result ((names : List (List ℕ))
        → LeadsToScope scope.old (map wanted (map (λ u. attribute u.name u.standard) uses.now)) names → LeadsToScope scope.new [] names) }
{
    'uses: for attribute in uses {
        let name = convert(alloc, NameKind::Identifier, &attribute.name.local)?;
        take(scope, &name)?;
    }
    Ok(())
}

// Adds the identifiers of the parts before those of the elements.
fn take_before(
    alloc: Global,
    scope: &mut Scope,
    mixed: bool,
    uses: &[AttributeUse],
) -> Result<(), Memory>
    ensures { OnOk result ((names : List (List ℕ))
        → LeadsToScope scope.old (map wanted (labels_before mixed uses.now)) names → LeadsToScope scope.new [] names) }
{
    take_texts(alloc, scope, mixed)?;
    take_word(alloc, scope, "order")?;
    take_attributes(alloc, scope, uses)
}

// Returns a scope with the identifiers of the parts before those of the elements. It is empty if the elements are alone in the
// content of a nillable element.
fn scope_before(
    alloc: Global,
    nillable: bool,
    mixed: bool,
    uses: &[AttributeUse],
) -> Result<Scope, Memory>
    ensures { IfOk result (λ scope. AreTaken [] (map wanted (if nillable then [] else labels_before mixed uses.now)) scope) }
{
    if nillable {
        return Ok(Scope::new(alloc));
    }
    let mut scope = Scope::new(alloc);
    take_before(alloc, &mut scope, mixed, uses)?;
    Ok(scope)
}

// Adds the identifiers of the parts for particles of a group, after those already made.
fn take_elements(
    alloc: Global,
    scope: &mut Scope,
    made: &mut Vec<Text>,
    particles: &[Tree<ParticleLabel>],
) -> Result<(), Memory>
    ensures { OnOk result ((T : ℕ → TypePlan) (first names : List (List ℕ))
        → LeadsToNames first scope.old made.old.items (map wanted (labels (particle_parts T false (all_seen (roses_of particles.now))))) names
        → LeadsToNames first scope.new made.new.items [] names) }
{
    'particles: for particle in particles {
        let name = part_name(alloc, particle.label())?;
        let identifier = scope.take(NameKind::Identifier, &name)?;
        made.push(identifier)?;
    }
    Ok(())
}

// Returns the identifiers of the parts for particles of a group.
fn element_names(
    alloc: Global,
    scope: Scope,
    particles: &[Tree<ParticleLabel>],
) -> Result<Vec<Text>, Memory>
    ensures { IfOk result (λ made. (T : ℕ → TypePlan) → AreTaken scope (map wanted (labels (particle_parts T false (all_seen (roses_of particles.now))))) made.items) }
{
    let mut scope = scope;
    let mut made = Vec::new(alloc);
    take_elements(alloc, &mut scope, &mut made, particles)?;
    Ok(made)
}

// Returns the type of the order of elements whose parts have these identifiers.
fn order_tree(alloc: Global, identifiers: Vec<Text>) -> Result<Tree<TypeLabel>, Memory>
    ensures { IfOk result (λ made. made ≡ order_tree identifiers.items) }
{
    let identifiers = TextList::of(identifiers)?;
    let item = plain(alloc, Form::Order { identifiers });
    items_type(alloc, item, 0, None, Marks::of(Vec::new(alloc)))
}

/// Returns the type of the order of child elements, whose parts are those of these particles.
pub(crate) fn order_type(
    alloc: Global,
    nillable: bool,
    mixed: bool,
    uses: &[AttributeUse],
    particles: &[Tree<ParticleLabel>],
) -> Result<Tree<TypeLabel>, Memory>
    ensures { IfOk result (λ made. (place : Subject → ℕ) (T : ℕ → TypePlan)
        → IsNamed place (plan_of.order_type (if nillable then [] else labels_before mixed uses.now) (labels (particle_parts T false (all_seen (roses_of particles.now))))) made) }
{
    let scope = scope_before(alloc, nillable, mixed, uses)?;
    let names = element_names(alloc, scope, particles)?;
    order_tree(alloc, names)
}
