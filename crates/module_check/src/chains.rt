//! References that follow one another.
ghost use Rattle.std.specs.Prelude.{◌≡◌, ◌<◌, IfOk, Some, length, map, option_map};
ghost use Rattle.module_text.specs.Texts as texts;
ghost use Rattle.module_text.specs.declared.modules.PlainAssignment.{PlainAssignment};
ghost use Rattle.module_text.specs.Resolving as rule;
ghost use Rattle.module_check.specs.Known.{Knows, leads_in, near_part, all_within};
ghost use Rattle.module_check.specs.Roles.{AreRoles};

use crate::parts::{Roles, is_element, parts_of, roles_of};
use crate::references::References;
use base_texts::{Memory, Text};
use base_trees::Tree;
use module_text::{PlainAssignment, PlainForm, PlainLabel, PlainPart};
use std::alloc::Global;

/// What is known of the assignments that references reach.
#[derive(Clone, Copy)]
pub struct Followed<'a, 'w> {
    pub assignments: &'a [PlainAssignment],
    pub references: &'a References,
    /// For each assignment, whether its type leads on within a number of references. None if no reference may follow.
    pub within: Option<&'w [bool]>,
}

// Returns whether a reference leads on within the number. A reference without an assignment leads no further.
fn leads(followed: &Followed, reference: &Text) -> bool
    requires { Knows followed.now.references.now followed.now.assignments.now }
    ensures { result ≡ leads_in (option_map (λ w. w.now) followed.now.within) followed.now.assignments.now reference.now }
{
    let Some(within) = followed.within else {
        return false;
    };
    match followed
        .references
        .number_of(reference, followed.assignments)
    {
        Some(number) => match within.get(number) {
            Some(is) => *is,
            None => true,
        },
        None => true,
    }
}

// Returns whether a type is not a reference, or its reference leads on within the number.
fn leads_itself(followed: &Followed, form: &PlainForm) -> bool
    requires { Knows followed.now.references.now followed.now.assignments.now }
    ensures { result ≡ rule.if_reference (leads_in (option_map (λ w. w.now) followed.now.within) followed.now.assignments.now) form.now }
{
    match form {
        PlainForm::Ref { reference } => leads(followed, &reference.name),
        _ => true,
    }
}

// Returns whether references lead on within the number: those that the part reaches without passing one with the role of an
// element.
#[cycle(near)]
fn is_near(
    followed: &Followed,
    own: Roles,
    label: &PlainLabel,
    i: usize,
    part: &PlainPart,
    kid: &Tree<PlainLabel>,
) -> bool
    requires known { Knows followed.now.references.now followed.now.assignments.now }
    requires own { AreRoles own label.now }
    requires within { i < length (texts.parts_of label.now.form) }
    ensures { result ≡ near_part (leads_in (option_map (λ w. w.now) followed.now.within) followed.now.assignments.now) label.now i part.now kid.now }
{
    is_element(own, label, i, part) || near(followed, kid)
}

// Returns whether each reference that is reached from the type without passing an element leads on within the number.
#[cycle(near)]
fn near(followed: &Followed, node: &Tree<PlainLabel>) -> bool
    requires { Knows followed.now.references.now followed.now.assignments.now }
    ensures { result ≡ rule.near_references (leads_in (option_map (λ w. w.now) followed.now.within) followed.now.assignments.now) node.now }
{
    let label = node.label();
    if !leads_itself(followed, &label.form) {
        return false;
    }
    let own = roles_of(label);
    let parts = parts_of(&label.form);
    let kids = node.kids();
    let count = parts.len().min(kids.len());
    'parts: for i in 0..count {
        if !is_near(followed, own, label, i, &parts[i], &kids[i]) {
            return false;
        }
    }
    true
}

// Returns for each assignment whether its type leads on within one reference more.
fn one_more(alloc: Global, followed: &Followed) -> Result<Vec<bool>, Memory>
    requires { Knows followed.now.references.now followed.now.assignments.now }
    ensures { IfOk result (λ within. within.items ≡
        map (λ (a : PlainAssignment). rule.near_references (leads_in (option_map (λ w. w.now) followed.now.within) followed.now.assignments.now) a.body)
        followed.now.assignments.now) }
{
    let assignments = followed.assignments;
    let mut within = Vec::with_capacity(alloc, assignments.len())?;
    'assignments: for assignment in assignments {
        within.push(near(followed, &assignment.body))?;
    }
    Ok(within)
}

/// Returns for each assignment whether at most n references follow one another from its type. The time is linear in the types, for
/// each number up to n.
pub fn within<'a>(
    alloc: Global,
    assignments: &'a [PlainAssignment],
    references: &'a References,
    n: u32,
) -> Result<Vec<bool>, Memory>
    requires { Knows references.now assignments.now }
    ensures { IfOk result (λ within. within.items ≡ all_within n assignments.now) }
{
    if n == 0 {
        let none = Followed {
            assignments,
            references,
            within: None,
        };
        return one_more(alloc, &none);
    }
    let less = within(alloc, assignments, references, n - 1)?;
    let behind = Followed {
        assignments,
        references,
        within: Some(&less),
    };
    one_more(alloc, &behind)
}

// Returns whether each reference in the type leads on within the number.
fn all_lead(followed: &Followed, node: &Tree<PlainLabel>) -> bool
    requires { Knows followed.now.references.now followed.now.assignments.now }
    ensures { result ≡ rule.all_references (leads_in (option_map (λ w. w.now) followed.now.within) followed.now.assignments.now) node.now }
{
    if !leads_itself(followed, &node.label().form) {
        return false;
    }
    let kids = node.kids();
    'kids: for kid in kids {
        if !all_lead(followed, kid) {
            return false;
        }
    }
    true
}

/// Returns whether each reference in the type leads on within three others. `within` states this of each assignment.
pub fn chains_end<'a>(
    node: &Tree<PlainLabel>,
    assignments: &'a [PlainAssignment],
    references: &'a References,
    within: &[bool],
) -> bool
    requires known { Knows references.now assignments.now }
    requires within { within.now ≡ all_within 3 assignments.now }
    ensures { result ≡ rule.chains_end assignments.now node.now }
{
    let followed = Followed {
        assignments,
        references,
        within: Some(within),
    };
    all_lead(&followed, node)
}
