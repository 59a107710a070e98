//! The form of a type, after its instructions and without its parts.
ghost use Rattle.std.specs.Prelude.{◌≡◌, None, IfOk, []};
ghost use Rattle.module_text.specs.Listed.{first};
ghost use Rattle.module_text.specs.Told as told;
ghost use Rattle.module_text.specs.Simple as simple;
ghost use Rattle.module_text.specs.Faults as rule;
ghost use Rattle.module_check.specs.Judging.{IsKnown};

use crate::context::Context;
use base_texts::Memory;
use module_pieces::{numbered_fault, range_fault, size_fault, unless, word_fault, written_words};
use module_simple::is_order_item;
use module_text::{ModuleWhy, PlainForm, PlainName, Spot, TextFault, TypeMark};
use std::alloc::Global;

/// Returns the fault of a reference without an assignment.
#[tactic(auto, unfolding(module_text::specs::Listed::first))]
pub fn reference_fault(context: &Context, form: &PlainForm) -> Option<TextFault>
    requires { IsKnown context.now }
    ensures { result ≡ first (rule.reference_faults context.now.assignments.now form.now) }
{
    match form {
        PlainForm::Ref { reference } => {
            let found = context
                .references
                .number_of(&reference.name, context.assignments);
            unless(found.is_some(), reference.at, ModuleWhy::Unresolved)
        }
        _ => None,
    }
}

// Returns the first fault of the items of an ENUMERATED that represent words.
fn items_fault(
    alloc: Global,
    spot: Spot,
    marks: &[TypeMark],
    items: &[PlainName],
) -> Result<Option<TextFault>, Memory>
    ensures { IfOk result (λ found. found ≡
        first (rule.word_faults (simple.is_order_item spot) [] None items.now (told.words_of marks.now items.now))) }
{
    let words = written_words(alloc, marks, items)?;
    word_fault(alloc, is_order_item(spot), items, &words)
}

/// Returns the first fault of the form of a type at this spot, without its parts.
#[tactic(auto, unfolding(module_text::specs::Listed::first))]
pub fn form_fault(
    context: &Context,
    spot: Spot,
    marks: &[TypeMark],
    form: &PlainForm,
) -> Result<Option<TextFault>, Memory>
    requires { IsKnown context.now }
    ensures { IfOk result (λ found. found ≡ first (rule.form_faults context.now.assignments.now spot marks.now form.now)) }
{
    match form {
        PlainForm::Int { range } => Ok(range_fault(range)),
        PlainForm::Numbers { items } => numbered_fault(context.alloc, items.items()),
        PlainForm::Words { identifiers } => {
            items_fault(context.alloc, spot, marks, identifiers.items())
        }
        PlainForm::Utf8 { size, .. } => Ok(size_fault(size)),
        PlainForm::SequenceOf { size, .. } => Ok(size_fault(size)),
        PlainForm::Ref { .. } => Ok(reference_fault(context, form)),
        _ => Ok(None),
    }
}
