//! Finds the simple type that a type represents.
ghost use Rattle.std.specs.Prelude.{◌≡◌, ◌↔◌, IfOk, IsTrue, MatchOption};
ghost use Rattle.base_trees.specs.Rose.{node, label_of, roses_of, Roses};
ghost use Rattle.simple_types.specs.Space.{Spaces};
ghost use Rattle.simple_types.specs.Seen.{space_of, spaces_in};
ghost use Rattle.simple_types.specs.Sound.{IsWord, AreWords, Sound, AreSound};
ghost use Rattle.asn_types.specs.declared.types.TypeLabel.{TypeLabel};
ghost use Rattle.asn_types.specs.Modules.{IsForm, AreWellFormed, AllWellFormed};
ghost use Rattle.asn_types.specs.Refs.{IsOf, resolve};
ghost use Rattle.asn_types.specs.Simples.{IsPlain, ArePlain, MapToEach};
ghost use Rattle.asn_types.specs.Spaces.{space_at, spaces_at, first_space};
ghost use Rattle.asn_types.specs.Private.Telling.{Finds, IsLeaf, IsFormOfWords};

use crate::modules::Module;
use crate::resolving::resolve;
use crate::types::{Component, Form, TypeLabel};
use base_texts::{Memory, Text, WhiteSpace, is_treated};
use base_trees::Tree;
use simple_types::{Class, Simple, SimpleList, TextList, has_characters, has_list, is_union};
use std::alloc::Global;

// Returns whether the word has only XML characters and the treatment leaves it unchanged.
#[tactic(auto, unfolding(simple_types::specs::Lexical::in_class))]
fn is_word(how: WhiteSpace, word: &Text) -> bool
    ensures { IsTrue result ↔ IsWord how word.now }
{
    has_characters(0, None, Class::Any, word.as_str()) && is_treated(how, word)
}

fn are_words(how: WhiteSpace, words: &[Text]) -> bool
    ensures { IsTrue result ↔ AreWords how words.now }
{
    'words: for word in words {
        if !is_word(how, word) {
            return false;
        }
    }
    true
}

// Returns whether an item or alternative is never absent and has no instructions except NAME.
fn is_always_there(part: &Component) -> bool
    ensures { IsTrue result ↔ IsPlain part.now }
{
    !part.optional && part.marks.tell_nothing()
}

fn are_always_there(parts: &[Component]) -> bool
    ensures { IsTrue result ↔ ArePlain parts.now }
{
    'parts: for part in parts {
        if !is_always_there(part) {
            return false;
        }
    }
    true
}

// Returns the simple type of an ENUMERATED of these words.
#[tactic(auto, unfolding(simple_types::specs::Seen::space_of))]
fn words_at(alloc: Global, label: &TypeLabel, words: &TextList) -> Result<Option<Simple>, Memory>
    requires form { IsFormOfWords label.now.form words.now }
    ensures { IfOk result (λ found. (ts : Roses TypeLabel) → Finds found (node label.now ts)) }
{
    let Some(space) = label.marks.tell_white_space() else {
        return Ok(None);
    };
    if !are_words(space, words.items()) {
        return Ok(None);
    }
    let words = words.copy(alloc)?;
    Ok(Some(Simple::Words { space, words }))
}

// Returns the simple type of a type without parts.
#[tactic(auto, unfolding(simple_types::specs::Seen::space_of))]
fn leaf_at(alloc: Global, module: &Module, label: &TypeLabel) -> Result<Option<Simple>, Memory>
    requires form { IsForm module.now label.now.form }
    requires leaf { IsLeaf label.now.form }
    ensures { IfOk result (λ found. (ts : Roses TypeLabel) → Finds found (node label.now ts)) }
{
    match &label.form {
        Form::Bool => {
            if label.marks.tell_nothing() {
                Ok(Some(Simple::Bool))
            } else {
                Ok(None)
            }
        }
        Form::Int { lo, hi } => {
            if label.marks.tell_nothing() {
                Ok(Some(Simple::Whole { lo: *lo, hi: *hi }))
            } else {
                Ok(None)
            }
        }
        Form::Numbers { numbers } => {
            if label.marks.tell_use_number() {
                let numbers = numbers.copy(alloc)?;
                Ok(Some(Simple::Numbers(numbers)))
            } else {
                Ok(None)
            }
        }
        Form::Words { words, .. } => words_at(alloc, label, words),
        Form::Utf8 { min, max, class } => match label.marks.tell_white_space() {
            Some(space) => Ok(Some(Simple::Chars {
                space,
                min: *min,
                max: *max,
                class: *class,
            })),
            None => Ok(None),
        },
        _ => Ok(None),
    }
}

// Returns the simple types of these types. None if one of them is a union, or has no simple type.
#[cycle(simples)]
fn members_at(
    alloc: Global,
    module: &Module,
    kids: &[Tree<TypeLabel>],
) -> Result<Option<Vec<Simple>>, Memory>
    requires { AllWellFormed module.now (roses_of kids.now) }
    ensures { IfOk result (λ found. MatchOption found
        ((ss : Spaces) → AreSound ss → MapToEach ss (roses_of kids.now) → ⊥)
        (λ members. AreSound (spaces_in members.items) × MapToEach (spaces_in members.items) (roses_of kids.now))) }
{
    let mut members = Vec::with_capacity(alloc, kids.len())?;
    'kids: for kid in kids {
        let Some(member) = find_simple(alloc, module, kid)? else {
            return Ok(None);
        };
        if is_union(&member) {
            return Ok(None);
        }
        members.push(member)?;
    }
    Ok(Some(members))
}

// Returns the simple type of a CHOICE.
#[cycle(simples)]
fn union_at(
    alloc: Global,
    module: &Module,
    node: &Tree<TypeLabel>,
    parts: &[Component],
) -> Result<Option<Simple>, Memory>
    requires sound { AreWellFormed module.now node.now }
    requires choice { (label_of node.now).form ≡ Form.Choice parts.now }
    ensures { IfOk result (λ found. Finds found node.now) }
{
    if !node.label().marks.tell_use_union() || !are_always_there(parts) {
        return Ok(None);
    }
    let kids = node.kids();
    if kids.is_empty() || kids.len() > u32::MAX as usize {
        return Ok(None);
    }
    match members_at(alloc, module, kids)? {
        Some(members) => Ok(Some(Simple::Union(SimpleList::of(members)))),
        None => Ok(None),
    }
}

// The least and the greatest number of items of a SEQUENCE OF.
#[derive(Clone, Copy)]
struct Bounds {
    min: u32,
    max: Option<u32>,
}

// Returns the simple type of a SEQUENCE OF.
#[cycle(simples)]
fn list_at(
    alloc: Global,
    module: &Module,
    node: &Tree<TypeLabel>,
    part: &Component,
    bounds: Bounds,
) -> Result<Option<Simple>, Memory>
    requires sound { AreWellFormed module.now node.now }
    requires list { (label_of node.now).form ≡ Form.SequenceOf part.now bounds.min bounds.max }
    ensures { IfOk result (λ found. Finds found node.now) }
{
    if !node.label().marks.tell_list() || !is_always_there(part) {
        return Ok(None);
    }
    let Some(kid) = node.kids().first() else {
        return Ok(None);
    };
    let Some(item) = find_simple(alloc, module, kid)? else {
        return Ok(None);
    };
    if has_list(&item) {
        return Ok(None);
    }
    let item = Box::new(alloc, item)?;
    Ok(Some(Simple::List {
        item,
        min: bounds.min,
        max: bounds.max,
    }))
}

// Returns the simple type that is mapped to the type, which is not a reference.
#[cycle(simples)]
fn find_simple(
    alloc: Global,
    module: &Module,
    node: &Tree<TypeLabel>,
) -> Result<Option<Simple>, Memory>
    requires { AreWellFormed module.now node.now }
    ensures { IfOk result (λ found. Finds found node.now) }
{
    let label = node.label();
    match &label.form {
        Form::SequenceOf { part, min, max } => {
            let bounds = Bounds {
                min: *min,
                max: *max,
            };
            list_at(alloc, module, node, part, bounds)
        }
        Form::Choice { parts } => union_at(alloc, module, node, parts.items()),
        _ => leaf_at(alloc, module, label),
    }
}

// Returns the simple type that is mapped to a type without parts, if there is one.
#[tactic(auto, unfolding(simple_types::specs::Seen::space_of))]
fn made_leaf(alloc: Global, label: &TypeLabel) -> Result<Simple, Memory>
    requires { IsLeaf label.now.form }
    ensures { IfOk result (λ simple. (ts : Roses TypeLabel) → space_of simple ≡ space_at (node label.now ts)) }
{
    match &label.form {
        Form::Int { lo, hi } => Ok(Simple::Whole { lo: *lo, hi: *hi }),
        Form::Numbers { numbers } => {
            let numbers = numbers.copy(alloc)?;
            Ok(Simple::Numbers(numbers))
        }
        Form::Words { words, .. } => {
            let space = label.marks.white_space();
            let words = words.copy(alloc)?;
            Ok(Simple::Words { space, words })
        }
        Form::Utf8 { min, max, class } => Ok(Simple::Chars {
            space: label.marks.white_space(),
            min: *min,
            max: *max,
            class: *class,
        }),
        _ => Ok(Simple::Bool),
    }
}

// Returns the simple types that are mapped to these types, if there are any.
#[cycle(making)]
fn made_members(alloc: Global, kids: &[Tree<TypeLabel>]) -> Result<Vec<Simple>, Memory>
    ensures { IfOk result (λ members. spaces_in members.items ≡ spaces_at (roses_of kids.now)) }
{
    let mut members = Vec::with_capacity(alloc, kids.len())?;
    'kids: for kid in kids {
        let member = simple_at(alloc, kid)?;
        members.push(member)?;
    }
    Ok(members)
}

// Returns the simple type that is mapped to the first of these types, if there is one.
#[cycle(making)]
fn made_item(alloc: Global, kids: &[Tree<TypeLabel>]) -> Result<Simple, Memory>
    ensures { IfOk result (λ item. space_of item ≡ first_space (roses_of kids.now)) }
{
    match kids {
        [kid, ..] => simple_at(alloc, kid),
        [] => Ok(Simple::Bool),
    }
}

/// Returns the simple type that is mapped to the type. It doesn't test whether there is one. The numbers and words of an ENUMERATED
/// are shared. So the time grows only with the number of types that the simple type is made of.
#[cycle(making)]
pub fn simple_at(alloc: Global, node: &Tree<TypeLabel>) -> Result<Simple, Memory>
    ensures { IfOk result (λ simple. space_of simple ≡ space_at node.now) }
{
    let label = node.label();
    match &label.form {
        Form::SequenceOf { min, max, .. } => {
            let item = made_item(alloc, node.kids())?;
            let item = Box::new(alloc, item)?;
            Ok(Simple::List {
                item,
                min: *min,
                max: *max,
            })
        }
        Form::Choice { .. } => {
            let members = made_members(alloc, node.kids())?;
            Ok(Simple::Union(SimpleList::of(members)))
        }
        _ => made_leaf(alloc, label),
    }
}

/// Returns the simple type that is mapped to the type, or to the type that its references reach. Identifiers, NAME and TEXT make no
/// difference. None if there is no such simple type.
pub fn simple_of(
    alloc: Global,
    module: &Module,
    node: &Tree<TypeLabel>,
) -> Result<Option<Simple>, Memory>
    requires { IsOf module.now node.now }
    ensures { IfOk result (λ found. Finds found (resolve module.now node.now)) }
{
    // Calling one of the module's readers makes its invariant known.
    let _ = module.count();
    find_simple(alloc, module, resolve(module, node))
}
