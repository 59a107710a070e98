//! Types.
ghost use Rattle.std.specs.Prelude.{◌≡◌, ◌<◌, ◌^◌, IfOk, length};
ghost use Rattle.base_trees.specs.Rose.{roses_of};
ghost use Rattle.module_text.specs.Texts.{parts_of};
ghost use Rattle.module_text.specs.Meaning as meant;
ghost use Rattle.module_check.specs.Known.{Knows};
ghost use Rattle.module_read.specs.Ready as ready;

use crate::forms::form;
use crate::marks::type_marks;
use crate::parts::{part_spot, parts_of};
use asn_types::TypeLabel;
use base_texts::Memory;
use base_trees::Tree;
use module_check::References;
use module_text::{PlainAssignment, PlainLabel, PlainPart, Spot};
use std::alloc::Global;

// Returns the types of the parts of a type at this spot.
#[cycle(types)]
fn part_types(
    alloc: Global,
    references: &References,
    assignments: &[PlainAssignment],
    spot: Spot,
    label: &PlainLabel,
    parts: &[PlainPart],
    kids: &[Tree<PlainLabel>],
) -> Result<Vec<Tree<TypeLabel>>, Memory>
    requires table { (Knows references.now assignments.now) × (length assignments.now < 2 ^ 32) }
    requires parts { (parts.now ≡ parts_of label.now.form) × ready.ArePartsReady assignments.now spot label.now 0 parts.now (roses_of kids.now) }
    ensures { IfOk result (λ made. roses_of made.items ≡ meant.types_meant assignments.now spot label.now 0 parts.now (roses_of kids.now)) }
{
    let count = parts.len().min(kids.len());
    let mut made = Vec::with_capacity(alloc, count)?;
    'parts: for i in 0..count {
        let inner = part_spot(spot, label, i, &parts[i]);
        let kid = type_of(alloc, references, assignments, inner, &kids[i])?;
        made.push(kid)?;
    }
    Ok(made)
}

/// Returns the type that this plain type at this spot states.
#[cycle(types)]
pub(crate) fn type_of(
    alloc: Global,
    references: &References,
    assignments: &[PlainAssignment],
    spot: Spot,
    node: &Tree<PlainLabel>,
) -> Result<Tree<TypeLabel>, Memory>
    requires table { (Knows references.now assignments.now) × (length assignments.now < 2 ^ 32) }
    requires ready { ready.IsTypeReady assignments.now spot node.now }
    ensures { IfOk result (λ made. made ≡ meant.type_meant assignments.now spot node.now) }
{
    let label = node.label();
    let kids = node.kids();
    let form = form(alloc, references, assignments, spot, label, kids)?;
    let marks = type_marks(alloc, spot, &label.form, label.marks.items())?;
    let parts = parts_of(&label.form);
    let types = part_types(alloc, references, assignments, spot, label, parts, kids)?;
    Ok(Tree::join(TypeLabel { form, marks }, types))
}
