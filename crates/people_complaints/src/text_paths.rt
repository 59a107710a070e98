//! The path from the root of a document to a place in it.
ghost use Rattle.std.specs.Prelude.{◌≡◌, ◌++◌, List, count_by, IfOk, OnOk, MatchOption, string_bytes};
ghost use Rattle.base_trees.specs.Rose.{Rose};
ghost use Rattle.xml_items.specs.declared.label.ItemLabel.{ItemLabel as Label};
ghost use Rattle.xml_items.specs.Seen.{item_seen};
ghost use Rattle.people_complaints.specs.Paths as rule;
ghost use Rattle.people_complaints.specs.Paths.{IsLastBy, NoneBy, IsPath};

use base_texts::{Memory, Name};
use itoa::Buffer;
use std::alloc::{AllocError, Global};
use std::iter::Iterator;
use xml_items::{ItemKids, ItemNode, ItemRef};

// Returns whether the item is an element with the name.
fn is_named(item: ItemRef<'_>, name: &Name) -> bool
    ensures { result ≡ rule.is_named name.now (item_seen item.entry) }
{
    match item {
        ItemRef::Element { name: other, .. } => other == name,
        ItemRef::Text { .. } => false,
    }
}

// Counts the nodes that are elements with the name.
fn alike(mut kids: ItemKids<'_>, name: &Name) -> usize
    ensures { result ≡ count_by (rule.is_kid_named name.now) kids.entry }
{
    let most = kids.len();
    let mut count = 0;
    'kids: while let Some(kid) = kids.next() {
        if is_named(kid.label(), name) {
            count += 1;
        }
    }
    count
}

// Appends the number of an element among those with its name, if there are several.
fn put_place(path: &mut String, number: usize, of: usize) -> Result<(), AllocError>
    ensures { OnOk result (string_bytes path.new ≡ string_bytes path.old ++ rule.place number of) }
{
    if of <= 1 {
        return Ok(());
    }
    let mut digits = Buffer::new();
    path.push_str("[")?;
    path.push_str(digits.format(number))?;
    path.push_str("]")
}

// Appends the step to an element with the name.
fn put_step(path: &mut String, name: &Name, number: usize, of: usize) -> Result<(), AllocError>
    ensures { OnOk result (string_bytes path.new ≡ string_bytes path.old ++ rule.step name.now number of) }
{
    path.push_str("/")?;
    path.push_str(name.local.as_str())?;
    put_place(path, number, of)
}

// Returns the last of the nodes that begin by the byte, and those that follow it.
fn last_by<'a>(mut kids: ItemKids<'a>, at: u64) -> Option<(ItemNode<'a>, ItemKids<'a>)>
    ensures { MatchOption result (NoneBy at kids.entry) (λ found. (before : List (Rose Label)) × IsLastBy at kids.entry before found.0 found.1) }
{
    let mut found = None;
    'kids: while let Some(kid) = kids.next() {
        if kid.label().place() > at {
            return found;
        }
        found = Some((kid, kids.again()));
    }
    found
}

// Appends the step to the root.
fn put_root(path: &mut String, root: ItemRef<'_>) -> Result<(), AllocError>
    ensures { OnOk result (string_bytes path.new ≡ string_bytes path.old ++ rule.root_step (item_seen root.entry)) }
{
    match root {
        ItemRef::Element { name, .. } => put_step(path, name, 1, 1),
        ItemRef::Text { .. } => Ok(()),
    }
}

/// Returns the path from the root of a document to the element at the byte, or to the element with the text that begins there, as
/// XPath writes it with local names: `/order/line[3]/qty`.
pub fn path_of(alloc: Global, root: ItemNode<'_>, at: u64) -> Result<String, Memory>
    ensures { IfOk result (λ path. IsPath at root.entry (string_bytes path)) }
{
    let mut path = String::new(alloc);
    put_root(&mut path, root.label())?;
    let mut node = root.again();
    'levels: while let Some((kid, behind)) = last_by(node.kids(), at) {
        let ItemRef::Element { name, .. } = kid.label() else {
            return Ok(path);
        };
        let all = alike(node.kids(), name);
        put_step(&mut path, name, all - alike(behind, name), all)?;
        node = kid;
    }
    Ok(path)
}
