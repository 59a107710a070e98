//! Parts of types, with their default and fixed values.
ghost use Rattle.std.specs.Prelude.{◌≡◌, ◌<◌, Some, IfOk, IfSome, length};
ghost use Rattle.module_text.specs.Texts.{parts_of};
ghost use Rattle.module_text.specs.Resolving.{resolve};
ghost use Rattle.module_text.specs.Faults as rule;
ghost use Rattle.module_text.specs.Defaults.{octets_of};
ghost use Rattle.module_pieces.specs.Indexed.{Indexes};
ghost use Rattle.module_check.specs.Known.{Knows};
ghost use Rattle.module_read.specs.Ready as ready;

use crate::marks::part_marks;
use asn_types::{Component, Role};
use base_texts::{Memory, Text};
use base_trees::Tree;
use module_check::References;
use module_pieces::{Index, is_sequence_of, may_be_absent, role_of};
use module_simple::{item_spot, octets_of, spelling_told};
use module_text::{
    Absence, PlainAssignment, PlainForm, PlainLabel, PlainOctets, PlainPart, PlainValueLabel, Spot,
};
use simple_types::Standard;
use std::alloc::Global;
use std::slice;

/// Returns the parts of a type.
pub(crate) fn parts_of(form: &PlainForm) -> &[PlainPart]
    ensures { result.now ≡ parts_of form.now }
{
    match form {
        PlainForm::Sequence { parts } => parts.items(),
        PlainForm::Choice { parts } => parts.items(),
        PlainForm::SequenceOf { part, .. } => slice::from_ref(part),
        _ => &[],
    }
}

/// Returns the spot of the type of a part.
pub(crate) fn part_spot(spot: Spot, label: &PlainLabel, i: usize, part: &PlainPart) -> Spot
    requires { i < length (parts_of label.now.form) }
    ensures { result ≡ rule.part_spot spot label.now i part.now }
{
    if is_sequence_of(&label.form) {
        return item_spot(spot);
    }
    match role_of(label, i, part) {
        Role::Order => Spot::Order,
        _ => Spot::Elsewhere,
    }
}

// Returns the text of a fixed value.
fn fixed_text(alloc: Global, octets: &PlainOctets) -> Result<Text, Memory>
    requires { ready.IsText (octets_of octets.now.digits) }
    ensures { IfOk result (λ text. octets_of octets.now.digits ≡ Some text) }
{
    match octets_of(alloc, octets.digits.bytes())? {
        Some(text) => Text::from_utf8(alloc, &text),
        None => unreachable!(),
    }
}

// Returns the text of a value that is written at this type, which has this index if it is known.
fn value_text(
    alloc: Global,
    index: Option<&Tree<Index>>,
    node: &Tree<PlainLabel>,
    value: &Tree<PlainValueLabel>,
) -> Result<Text, Memory>
    requires index { IfSome index (λ i. Indexes i.now node.now) }
    requires text { ready.IsText (ready.spelling_of node.now value.now) }
    ensures { IfOk result (λ text. ready.spelling_of node.now value.now ≡ Some text) }
{
    match spelling_told(alloc, index, node, value)? {
        Some(text) => Text::from_utf8(alloc, &text),
        None => unreachable!(),
    }
}

// Returns the default or fixed value of a part whose type, through references, is this. It has this index if it is known.
fn standard(
    alloc: Global,
    index: Option<&Tree<Index>>,
    node: &Tree<PlainLabel>,
    fixed: &Option<PlainOctets>,
    absence: &Absence,
) -> Result<Standard, Memory>
    requires index { IfSome index (λ i. Indexes i.now node.now) }
    requires ready { ready.IsStandardReady node.now fixed.now absence.now }
    ensures { IfOk result (λ standard. standard ≡ ready.standard_told node.now fixed.now absence.now) }
{
    if let Some(octets) = fixed {
        let text = fixed_text(alloc, octets)?;
        return Ok(Standard::Fixed(text));
    }
    match absence {
        Absence::Default { value } => {
            let text = value_text(alloc, index, node, value)?;
            Ok(Standard::Default(text))
        }
        Absence::Optional => Ok(Standard::Free),
        Absence::Never => Ok(Standard::Free),
    }
}

/// Returns the part with this type.
pub(crate) fn component(
    alloc: Global,
    references: &References,
    assignments: &[PlainAssignment],
    part: &PlainPart,
    kid: &Tree<PlainLabel>,
) -> Result<Component, Memory>
    requires references { Knows references.now assignments.now }
    requires marks { ready.ArePartMarksReady part.now.identifier part.now.marks }
    requires standard { ready.IsStandardReady (resolve assignments.now kid.now) part.now.fixed part.now.absence }
    ensures { IfOk result (λ made. made ≡ ready.component_told assignments.now part.now kid.now) }
{
    let node = references.resolve(assignments, kid);
    let index = references.index_meant(assignments, kid);
    let identifier = part.identifier.copy(alloc)?;
    let standard = standard(alloc, index, node, &part.fixed, &part.absence)?;
    let marks = part_marks(alloc, &part.identifier, part.marks.items())?;
    Ok(Component {
        identifier,
        optional: may_be_absent(&part.absence),
        standard,
        marks,
    })
}
