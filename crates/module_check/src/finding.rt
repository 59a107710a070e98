//! The first fault of a plain text.
ghost use Rattle.std.specs.Prelude.{◌≡◌, ◌&&◌, IfOk, is_some, not};
ghost use Rattle.asn_names.specs.ReservedWords.{reserved_words};
ghost use Rattle.module_text.specs.Listed.{first};
ghost use Rattle.module_text.specs.declared.spots.Spot.TheVariants.{Elsewhere};
ghost use Rattle.module_text.specs.Faults as rule;
ghost use Rattle.module_check.specs.Known.{AreSimples, all_within};
ghost use Rattle.module_check.specs.Judging.{IsKnown, body_faults};

use crate::attributes::{own_simple, shared_simple};
use crate::chains::{chains_end, within};
use crate::context::Context;
use crate::orders::contents_of;
use crate::references::References;
use crate::type_faults::type_fault;
use asn_names::is_reserved;
use base_texts::{Memory, Text};
use module_pieces::{Seen, has_attribute, part_mark_fault, unless};
use module_simple::simple_told;
use module_text::{ModuleWhy, PlainAssignment, Spot, TextFault};
use simple_types::Simple;
use std::alloc::Global;

// Returns for each assignment the simple type that its type represents.
fn simples_of(alloc: Global, assignments: &[PlainAssignment]) -> Result<Vec<Option<Simple>>, Memory>
    ensures { IfOk result (λ simples. AreSimples simples.items assignments.now) }
{
    let mut simples = Vec::with_capacity(alloc, assignments.len())?;
    'assignments: for assignment in assignments {
        simples.push(simple_told(alloc, Spot::Elsewhere, &assignment.body)?)?;
    }
    Ok(simples)
}

// Returns whether an assignment has ATTRIBUTE, and its type represents a simple type, through references.
fn is_simple_attribute(context: &Context, assignment: &PlainAssignment) -> Result<bool, Memory>
    requires { IsKnown context.now }
    ensures { IfOk result (λ is. is ≡ is_some (rule.space_at context.now.assignments.now Elsewhere assignment.now.marks assignment.now.body)) }
{
    let attribute = has_attribute(assignment.marks.items());
    let body = &assignment.body;
    match shared_simple(context, Spot::Elsewhere, attribute, body) {
        Some(found) => Ok(found.is_some()),
        None => {
            let own = own_simple(context.alloc, Spot::Elsewhere, attribute, body)?;
            Ok(own.is_some())
        }
    }
}

// Returns the first fault of the instructions of an assignment and of its type.
#[tactic(auto, using(crate::proofs::Firsts::firsts))]
fn body_fault(context: &Context, assignment: &PlainAssignment) -> Result<Option<TextFault>, Memory>
    requires { IsKnown context.now }
    ensures { IfOk result (λ found. found ≡ first (body_faults context.now.assignments.now assignment.now)) }
{
    let simple = is_simple_attribute(context, assignment)?;
    let name = assignment.reference.bytes();
    if let Some(fault) = part_mark_fault(simple, name, assignment.marks.items()) {
        return Ok(Some(fault));
    }
    type_fault(context, Spot::Elsewhere, false, &assignment.body)
}

// Returns whether the reference is not among these, and is not a reserved word.
fn is_free(seen: &Seen, reference: &Text) -> bool
    ensures { result ≡ (not (rule.has_text seen.now reference.now) && not (rule.has_text reserved_words reference.now)) }
{
    !seen.has(reference) && !is_reserved(reference.bytes())
}

// Returns the first fault of an assignment after those with these references. `within` states of each assignment whether at most
// three references follow one another from its type.
#[tactic(auto, using(crate::proofs::Firsts::firsts))]
fn assignment_fault(
    context: &Context,
    within: &[bool],
    seen: &Seen,
    assignment: &PlainAssignment,
) -> Result<Option<TextFault>, Memory>
    requires known { IsKnown context.now }
    requires within { within.now ≡ all_within 3 context.now.assignments.now }
    ensures { IfOk result (λ found. found ≡ first (rule.assignment_faults context.now.assignments.now seen.now assignment.now)) }
{
    let free = is_free(seen, &assignment.reference);
    if let Some(fault) = unless(free, assignment.at, ModuleWhy::Duplicate) {
        return Ok(Some(fault));
    }
    let ends = chains_end(
        &assignment.body,
        context.assignments,
        context.references,
        within,
    );
    if let Some(fault) = unless(ends, assignment.at, ModuleWhy::LongChain) {
        return Ok(Some(fault));
    }
    body_fault(context, assignment)
}

// Returns the first fault of the assignments.
fn fault_of(context: &Context, within: &[bool]) -> Result<Option<TextFault>, Memory>
    requires known { IsKnown context.now }
    requires within { within.now ≡ all_within 3 context.now.assignments.now }
    ensures { IfOk result (λ found. found ≡ first (rule.faults context.now.assignments.now)) }
{
    let assignments = context.assignments;
    let mut seen = Seen::new(context.alloc);
    'assignments: for assignment in assignments {
        if let Some(fault) = assignment_fault(context, within, &seen, assignment)? {
            return Ok(Some(fault));
        }
        seen.note(assignment.reference.copy(context.alloc)?)?;
    }
    Ok(None)
}

/// Returns the first fault of these assignments, if there is one. Of the assignments of a text it is the first in the text.
///
/// # Errors
/// The only error is `Memory`, if an allocation fails.
pub fn first_fault(
    alloc: Global,
    assignments: &[PlainAssignment],
) -> Result<Option<TextFault>, Memory>
    ensures { IfOk result (λ found. found ≡ first (rule.faults assignments.now)) }
{
    let references = References::of(alloc, assignments)?;
    let within = within(alloc, assignments, &references, 3)?;
    let simples = simples_of(alloc, assignments)?;
    let contents = contents_of(alloc, assignments)?;
    let context = Context {
        alloc,
        assignments,
        references: &references,
        simples: &simples,
        contents: &contents,
    };
    fault_of(&context, &within)
}
