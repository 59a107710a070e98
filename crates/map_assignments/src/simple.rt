//! Simple types in place.
ghost use Rattle.std.specs.Prelude.{◌≡◌, ◌∷◌, [], IfOk, OnOk};
ghost use Rattle.base_trees.specs.Rose.{node, roses_of};
ghost use Rattle.base_trees.specs.Rose as rose;
ghost use Rattle.simple_types.specs.Sound.{Sound, AreSound};
ghost use Rattle.simple_types.specs.Seen.{space_of, spaces_in};
ghost use Rattle.simple_types.specs.Space.{UnionOf};
ghost use Rattle.asn_types.specs.Simples.{white_space_marks};
ghost use Rattle.map_assignments.specs.Naming.{type_label, list_item, AreMembers, IsLeaf, IsSimpleType};

use crate::instructions::{one_mark, push_white_space};
use crate::parts::PartList;
use crate::words::words_type;
use asn_types::{Component, Form, Instruction, Marks, TypeLabel};
use base_texts::{Memory, Text, WhiteSpace};
use base_trees::Tree;
use simple_types::{Class, NumberList, Simple, Standard};
use std::alloc::Global;

/// Returns a type without parts and instructions.
pub(crate) fn plain(alloc: Global, form: Form) -> Tree<TypeLabel>
    ensures { IsLeaf form [] result }
{
    let marks = Marks::of(Vec::new(alloc));
    Tree::leaf(alloc, TypeLabel { form, marks })
}

fn numbers_type(alloc: Global, numbers: &NumberList) -> Result<Tree<TypeLabel>, Memory>
    ensures { IfOk result (λ made. IsLeaf (Form.Numbers numbers.now) (Instruction.UseNumber ∷ []) made) }
{
    let marks = one_mark(alloc, Instruction::UseNumber)?;
    let numbers = numbers.copy(alloc)?;
    let form = Form::Numbers { numbers };
    Ok(Tree::leaf(alloc, TypeLabel { form, marks }))
}

fn text_type(
    alloc: Global,
    space: WhiteSpace,
    min: u32,
    max: Option<u32>,
    class: Class,
) -> Result<Tree<TypeLabel>, Memory>
    ensures { IfOk result (λ made. IsLeaf (Form.Utf8 min max class) (white_space_marks space) made) }
{
    let mut marks = Vec::new(alloc);
    push_white_space(&mut marks, space)?;
    let form = Form::Utf8 { min, max, class };
    let marks = Marks::of(marks);
    Ok(Tree::leaf(alloc, TypeLabel { form, marks }))
}

/// Returns a SEQUENCE OF with `min` to `max` items of this type, whose part has no name.
pub(crate) fn items_type(
    alloc: Global,
    item: Tree<TypeLabel>,
    min: u32,
    max: Option<u32>,
    marks: Marks,
) -> Result<Tree<TypeLabel>, Memory>
    ensures { IfOk result (λ made. made ≡ node (type_label (Form.SequenceOf list_item min max) marks) (rose.more item rose.none)) }
{
    let kids = vec![in alloc; item]?;
    let part = Component {
        identifier: Text::empty(),
        optional: false,
        standard: Standard::Free,
        marks: Marks::of(Vec::new(alloc)),
    };
    let form = Form::SequenceOf { part, min, max };
    Ok(Tree::join(TypeLabel { form, marks }, kids))
}

// Returns a LIST of items of this type.
fn list_type(
    alloc: Global,
    item: Tree<TypeLabel>,
    min: u32,
    max: Option<u32>,
) -> Result<Tree<TypeLabel>, Memory>
    ensures { IfOk result (λ made. made ≡ node (type_label (Form.SequenceOf list_item min max) (Instruction.List ∷ [])) (rose.more item rose.none)) }
{
    let marks = one_mark(alloc, Instruction::List)?;
    items_type(alloc, item, min, max, marks)
}

// Appends the alternatives of a union for its members, which are the first parts.
#[cycle(simple)]
fn push_members(alloc: Global, parts: &mut PartList, members: &[Simple]) -> Result<(), Memory>
    requires sound { AreSound (spaces_in members.now) }
    requires scope { parts.old.scope ≡ [] }
    requires components { parts.old.components.items ≡ [] }
    requires kids { parts.old.kids.items ≡ [] }
    ensures { OnOk result (AreMembers [] (spaces_in members.now) parts.new.components.items (roses_of parts.new.kids.items)) }
{
    'members: for member in members {
        let kid = simple_type(alloc, member)?;
        parts.push_marked("alt", false, Marks::of(Vec::new(alloc)), kid)?;
    }
    Ok(())
}

#[cycle(simple)]
fn union_type(alloc: Global, members: &[Simple]) -> Result<Tree<TypeLabel>, Memory>
    requires { AreSound (spaces_in members.now) }
    ensures { IfOk result (λ made. IsSimpleType (UnionOf (spaces_in members.now)) made) }
{
    let mut parts = PartList::new(alloc);
    push_members(alloc, &mut parts, members)?;
    let marks = one_mark(alloc, Instruction::UseUnion)?;
    Ok(parts.into_choice(marks))
}

// Returns the type that a simple type in place is mapped to.
#[cycle(simple)]
#[tactic(auto, unfolding(simple_types::specs::Seen::space_of))]
pub(crate) fn simple_type(alloc: Global, simple: &Simple) -> Result<Tree<TypeLabel>, Memory>
    requires { Sound (space_of simple.now) }
    ensures { IfOk result (λ made. IsSimpleType (space_of simple.now) made) }
{
    match simple {
        Simple::Bool => Ok(plain(alloc, Form::Bool)),
        Simple::Whole { lo, hi } => Ok(plain(alloc, Form::Int { lo: *lo, hi: *hi })),
        Simple::Numbers(numbers) => numbers_type(alloc, numbers),
        Simple::Words { space, words } => words_type(alloc, *space, words),
        Simple::Chars {
            space,
            min,
            max,
            class,
        } => text_type(alloc, *space, *min, *max, *class),
        Simple::List { item, min, max } => {
            let kid = simple_type(alloc, item)?;
            list_type(alloc, kid, *min, *max)
        }
        Simple::Union(members) => union_type(alloc, members.items()),
    }
}
