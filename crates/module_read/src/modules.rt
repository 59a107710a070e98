//! All assignments of a text.
ghost use Rattle.std.specs.Prelude.{◌≡◌, ◌<◌, ◌^◌, [], IfOk, length};
ghost use Rattle.module_text.specs.Plain.{IsPlain};
ghost use Rattle.module_text.specs.Texts.{text_of};
ghost use Rattle.module_text.specs.Faults.{faults};
ghost use Rattle.module_text.specs.Meaning as meant;
ghost use Rattle.module_check.specs.Known.{Knows};
ghost use Rattle.module_read.specs.Ready as ready;

use crate::marks::part_marks;
use crate::types::type_of;
use asn_types::Assignment;
use base_texts::Memory;
use base_trees::Whole;
use module_check::References;
use module_text::{PlainAssignment, Spot};
use std::alloc::Global;

fn assignment(
    alloc: Global,
    references: &References,
    assignments: &[PlainAssignment],
    plain: &PlainAssignment,
) -> Result<Assignment, Memory>
    requires references { Knows references.now assignments.now }
    requires count { length assignments.now < 2 ^ 32 }
    requires ready { ready.IsAssignmentReady assignments.now plain.now }
    ensures { IfOk result (λ made. made ≡ meant.assignment_meant assignments.now plain.now) }
{
    let reference = plain.reference.copy(alloc)?;
    let marks = part_marks(alloc, &plain.reference, plain.marks.items())?;
    let body = type_of(alloc, references, assignments, Spot::Elsewhere, &plain.body)?;
    Ok(Assignment {
        reference,
        marks,
        body: Whole::of(body),
    })
}

fn make_ready(alloc: Global, assignments: &[PlainAssignment]) -> Result<Vec<Assignment>, Memory>
    requires count { length assignments.now < 2 ^ 32 }
    requires ready { ready.IsReady assignments.now }
    ensures { IfOk result (λ made. made.items ≡ meant.module_meant assignments.now) }
{
    let references = References::of(alloc, assignments)?;
    let mut made = Vec::with_capacity(alloc, assignments.len())?;
    'assignments: for plain in assignments {
        let assignment = assignment(alloc, &references, assignments, plain)?;
        made.push(assignment)?;
    }
    Ok(made)
}

/// Returns the assignments of the module that a plain text without faults states. The time is linear in the text.
pub fn make(alloc: Global, assignments: &[PlainAssignment]) -> Result<Vec<Assignment>, Memory>
    requires plain { IsPlain assignments.now }
    requires faultless { faults assignments.now ≡ [] }
    requires short { length (text_of assignments.now) < 2 ^ 32 }
    ensures { IfOk result (λ made. made.items ≡ meant.module_meant assignments.now) }
{
    make_ready(alloc, assignments)
}
