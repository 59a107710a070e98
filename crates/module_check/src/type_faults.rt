//! The first fault of a type, and of the parts nested in it.
ghost use Rattle.std.specs.Prelude.{◌≡◌, ◌<◌, ◌++◌, None, IfOk, [], length};
ghost use Rattle.base_trees.specs.Rose.{label_of, kids_of, roses_of};
ghost use Rattle.module_text.specs.Texts as texts;
ghost use Rattle.module_text.specs.Listed.{first};
ghost use Rattle.module_text.specs.Faults as rule;
ghost use Rattle.module_simple.specs.Made.{Makes, IsMade, made_space};
ghost use Rattle.module_check.specs.Judging.{IsKnown, value_faults, faults_there, own_faults};

use crate::attributes::{own_simple, shared_simple};
use crate::context::Context;
use crate::forms::form_fault;
use crate::part_faults::{
    is_front, is_listed, is_nameless, note, part_front_fault, part_spot, value_fault,
};
use crate::parts::parts_of;
use crate::type_marks::type_mark_fault;
use base_texts::Memory;
use base_trees::Tree;
use module_pieces::{Seen, has_attribute};
use module_text::{ModuleWhy, PlainForm, PlainLabel, PlainPart, Spot, TextFault};
use simple_types::Simple;

// Returns the first fault of the type of a part, which is at this spot, and of what follows it. The type represents this simple
// type, if the part has ATTRIBUTE.
#[cycle(types)]
fn behind_fault(
    context: &Context,
    simple: &Option<Simple>,
    spot: Spot,
    front: bool,
    part: &PlainPart,
    kid: &Tree<PlainLabel>,
) -> Result<Option<TextFault>, Memory>
    requires known { IsKnown context.now }
    requires simple { IsMade simple.now }
    ensures { IfOk result (λ found. found ≡
        first (rule.type_faults context.now.assignments.now spot front kid.now ++ value_faults context.now.assignments.now (made_space simple.now) part.now kid.now)) }
{
    if let Some(fault) = type_fault(context, spot, front, kid)? {
        return Ok(Some(fault));
    }
    value_fault(context, simple, part, kid)
}

// Returns the first fault of a part: of what precedes its type, then of the type, then of its default or fixed value.
#[cycle(types)]
fn judged_fault(
    context: &Context,
    simple: &Option<Simple>,
    spot: Spot,
    nameless: bool,
    front: bool,
    form: &PlainForm,
    part: &PlainPart,
    kid: &Tree<PlainLabel>,
) -> Result<Option<TextFault>, Memory>
    requires known { IsKnown context.now }
    requires simple { Makes simple.now (rule.space_at context.now.assignments.now spot part.now.marks kid.now) }
    ensures { IfOk result (λ found. found ≡ first (faults_there context.now.assignments.now spot nameless form.now front part.now kid.now)) }
{
    let is_simple = simple.is_some();
    if let Some(fault) = part_front_fault(context, nameless, form, part, is_simple, kid.label()) {
        return Ok(Some(fault));
    }
    behind_fault(context, simple, spot, front, part, kid)
}

// Returns the first fault of a part, except Duplicate.
#[cycle(types)]
fn part_fault(
    context: &Context,
    spot: Spot,
    nameless: bool,
    front: bool,
    label: &PlainLabel,
    i: usize,
    part: &PlainPart,
    kid: &Tree<PlainLabel>,
) -> Result<Option<TextFault>, Memory>
    requires known { IsKnown context.now }
    requires within { i < length (texts.parts_of label.now.form) }
    ensures { IfOk result (λ found. found ≡ first (own_faults context.now.assignments.now spot nameless label.now i front part.now kid.now)) }
{
    let inner = part_spot(spot, label, i, part);
    let form = &label.form;
    let attribute = has_attribute(part.marks.items());
    match shared_simple(context, inner, attribute, kid) {
        Some(simple) => judged_fault(context, simple, inner, nameless, front, form, part, kid),
        None => {
            let own = own_simple(context.alloc, inner, attribute, kid)?;
            judged_fault(context, &own, inner, nameless, front, form, part, kid)
        }
    }
}

// Returns the first fault of the parts of a type.
#[cycle(types)]
fn parts_fault(
    context: &Context,
    spot: Spot,
    nameless: bool,
    label: &PlainLabel,
    kids: &[Tree<PlainLabel>],
) -> Result<Option<TextFault>, Memory>
    requires { IsKnown context.now }
    ensures { IfOk result (λ found. found ≡ first (rule.part_faults context.now.assignments.now spot nameless label.now 0 []
        (rule.nameless_parts label.now.marks) (texts.parts_of label.now.form) (roses_of kids.now))) }
{
    let mut seen = Seen::new(context.alloc);
    let parts = parts_of(&label.form);
    let count = parts.len().min(kids.len());
    'parts: for i in 0..count {
        let part = &parts[i];
        let kid = &kids[i];
        if is_listed(&seen, &part.identifier) {
            return Ok(Some(TextFault {
                at: part.at,
                why: ModuleWhy::Duplicate,
            }));
        }
        let front = is_front(label, i);
        if let Some(fault) = part_fault(context, spot, nameless, front, label, i, part, kid)? {
            return Ok(Some(fault));
        }
        note(context.alloc, &mut seen, &part.identifier)?;
    }
    Ok(None)
}

// Returns the first fault of a type at this spot, except those of its parts.
fn own_fault(
    context: &Context,
    spot: Spot,
    node: &Tree<PlainLabel>,
) -> Result<Option<TextFault>, Memory>
    requires { IsKnown context.now }
    ensures { IfOk result (λ found. found ≡
        first (rule.type_mark_faults context.now.assignments.now spot (label_of node.now) (roses_of (kids_of node.now)) None 0 (label_of node.now).marks
        ++ rule.form_faults context.now.assignments.now spot (label_of node.now).marks (label_of node.now).form)) }
{
    if let Some(fault) = type_mark_fault(context, spot, node)? {
        return Ok(Some(fault));
    }
    let label = node.label();
    form_fault(context, spot, label.marks.items(), &label.form)
}

/// Returns the first fault of a type at this spot. `nameless` states whether it is that of the texts of EMBED-VALUES or of an
/// order.
#[cycle(types)]
pub fn type_fault(
    context: &Context,
    spot: Spot,
    nameless: bool,
    node: &Tree<PlainLabel>,
) -> Result<Option<TextFault>, Memory>
    requires { IsKnown context.now }
    ensures { IfOk result (λ found. found ≡ first (rule.type_faults context.now.assignments.now spot nameless node.now)) }
{
    if let Some(fault) = own_fault(context, spot, node)? {
        return Ok(Some(fault));
    }
    let label = node.label();
    let inner = is_nameless(label, nameless);
    parts_fault(context, spot, inner, label, node.kids())
}
