//! Encoding instructions that restore XML names.
ghost use Rattle.std.specs.Prelude.{◌≡◌, ◌++◌, ◌∷◌, [], IfOk, OnOk};
ghost use Rattle.asn_types.specs.Simples.{white_space_marks};
ghost use Rattle.asn_names.specs.Restoring.{form_of};
ghost use Rattle.map_assignments.specs.Naming.{name_marks, namespace_marks, qualified_marks, text_if};

use asn_names::restoring;
use asn_types::{Instruction, Marks};
use base_texts::{Memory, Name, Text, WhiteSpace};
use std::alloc::Global;

pub(crate) fn one_mark(alloc: Global, mark: Instruction) -> Result<Marks, Memory>
    ensures { IfOk result (λ marks. marks ≡ mark ∷ []) }
{
    let marks = vec![in alloc; mark]?;
    Ok(Marks::of(marks))
}

// Appends NAME, if the generated name isn't the name.
pub(crate) fn push_name(
    alloc: Global,
    marks: &mut Vec<Instruction>,
    generated: &Text,
    name: &Text,
) -> Result<(), Memory>
    ensures { OnOk result (marks.new.items ≡ marks.old.items ++ name_marks generated.now name.now) }
{
    if restoring(generated, name).is_some() {
        let name = name.copy(alloc)?;
        marks.push(Instruction::Name(name))?;
    }
    Ok(())
}

// Appends NAMESPACE, if there is a namespace.
fn push_namespace(alloc: Global, marks: &mut Vec<Instruction>, space: &Text) -> Result<(), Memory>
    ensures { OnOk result (marks.new.items ≡ marks.old.items ++ namespace_marks space.now) }
{
    if !space.bytes().is_empty() {
        let space = space.copy(alloc)?;
        marks.push(Instruction::Namespace(space))?;
    }
    Ok(())
}

// Appends NAME and NAMESPACE, each if it is required.
pub(crate) fn push_qualified(
    alloc: Global,
    marks: &mut Vec<Instruction>,
    generated: &Text,
    name: &Name,
) -> Result<(), Memory>
    ensures { OnOk result (marks.new.items ≡ marks.old.items ++ qualified_marks generated.now name.now) }
{
    push_name(alloc, marks, generated, &name.local)?;
    push_namespace(alloc, marks, &name.space)
}

// Appends WHITESPACE, unless white space is preserved.
pub(crate) fn push_white_space(marks: &mut Vec<Instruction>, how: WhiteSpace) -> Result<(), Memory>
    ensures { OnOk result (marks.new.items ≡ marks.old.items ++ white_space_marks how) }
{
    match how {
        WhiteSpace::Preserve => {}
        WhiteSpace::Replace => marks.push(Instruction::WhiteSpace(WhiteSpace::Replace))?,
        WhiteSpace::Collapse => marks.push(Instruction::WhiteSpace(WhiteSpace::Collapse))?,
    }
    Ok(())
}

// Appends TEXT for the item with this number, if its identifier isn't its word.
pub(crate) fn push_text(
    alloc: Global,
    marks: &mut Vec<Instruction>,
    item: u32,
    identifier: &Text,
    word: &Text,
) -> Result<(), Memory>
    ensures { OnOk result (marks.new.items ≡ marks.old.items ++ text_if (form_of identifier.now word.now) item word.now) }
{
    if restoring(identifier, word).is_some() {
        let text = word.copy(alloc)?;
        marks.push(Instruction::Text { item, text })?;
    }
    Ok(())
}
