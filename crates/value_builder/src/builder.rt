//! Appends a value node by node.
ghost use Rattle.std.specs.Prelude.{◌≡◌, length, ◌<◌, ◌+◌, ◌-◌, ◌^◌, ◌≤◌, min, ◌↔◌, ℕ, Err, IsTrue, IsUtf8, IfOk, List, OnOk, MatchResult, take};
ghost use Rattle.base_trees.specs.Rose.{Rose, node, none};
ghost use Rattle.base_flat_trees.specs.Zips.{Zip, zip_count, opened, added, added_all, closed};
ghost use Rattle.simple_types.specs.declared.labels.ValueLabel.{ValueLabel};
ghost use Rattle.simple_types.specs.Seen.{space_of};
ghost use Rattle.simple_types.specs.Sound.{Sound};
ghost use Rattle.simple_types.specs.Answering.{AnswersReading};
ghost use Rattle.simple_types.specs.Reading.{reads, Accepts};
ghost use Rattle.value_builder.specs.Built.{nothing_of, Stands, Puts, flagged, flagged_label};

use crate::counting::count;
use base_flat_trees::{Builder, Flat};
use base_texts::{Memory, Text};
use simple_types::{Flags, Simple, SimpleError, ValueLabel, accept_front_into, accept_into};
use std::alloc::Global;
use std::marker::Model;
use xml_items::Characters;

// The greatest number of flags that a label stores without a list.
const FEW: usize = 22;

/// A value as far as it is appended. The nodes are counted, where 2^64 - 1 means that number or a greater one. They are kept if
/// there are at most `most`. With `most` 0 nothing is kept, so a document is judged without making its value.
#[derive(Drop)]
pub struct ValueBuilder {
    alloc: Global,
    kept: Builder<ValueLabel>,
    nodes: u64,
    most: u32,
}

impl Model for ValueBuilder {
    ghost use Rattle.value_builder.specs.Built.{Built, coded_built};

    ghost Value = { Built };

    ghost coded = { coded_built };

    ghost view = { λ a. record { kept = a.kept; nodes = a.nodes; most = a.most } };
}

impl ValueBuilder {
    /// Returns an empty builder.
    pub fn new(alloc: Global, most: u32) -> ValueBuilder
        ensures { result ≡ nothing_of most }
    {
        ValueBuilder {
            alloc,
            kept: Builder::new(alloc),
            nodes: 0,
            most,
        }
    }

    /// Returns an empty builder with room for `count` nodes, or for `most` if that is less.
    pub fn with_capacity(alloc: Global, most: u32, count: usize) -> Result<ValueBuilder, Memory>
        ensures { IfOk result (λ values. values ≡ nothing_of most) }
    {
        let kept = Builder::with_capacity(alloc, count.min(most as usize))?;
        Ok(ValueBuilder {
            alloc,
            kept,
            nodes: 0,
            most,
        })
    }

    /// Returns the number of nodes that may be kept.
    pub fn most(&self) -> u32
        ensures { result ≡ self.now.most }
    {
        self.most
    }

    /// Returns the number of nodes that were appended.
    pub fn count(&self) -> u64
        ensures { result ≡ self.now.nodes }
    {
        self.nodes
    }

    /// Returns whether all of them are kept.
    #[inline(always)]
    pub fn is_kept(&self) -> bool
        ensures { IsTrue result ↔ (self.now.nodes ≤ self.now.most) }
    {
        self.nodes <= u64::from(self.most)
    }

    /// Returns whether no node may be kept. Then nothing that is appended counts, so a caller need not append it.
    #[inline(always)]
    pub fn keeps_nothing(&self) -> bool
        ensures { IsTrue result ↔ (self.now.most ≡ 0) }
    {
        self.most == 0
    }

    /// Appends a node with children, which come next.
    #[inline(always)]
    pub fn open(&mut self, label: ValueLabel) -> Result<(), Memory>
        ensures { OnOk result (Puts (opened label) self.old self.new) }
    {
        self.nodes = self.nodes.saturating_add(1);
        if self.is_kept() {
            self.kept.open(label)?;
        }
        Ok(())
    }

    /// Appends a node without children.
    #[inline(always)]
    pub fn leaf(&mut self, label: ValueLabel) -> Result<(), Memory>
        ensures { OnOk result (Puts (added (node label none)) self.old self.new) }
    {
        self.nodes = self.nodes.saturating_add(1);
        if self.is_kept() {
            self.kept.leaf(label)?;
        }
        Ok(())
    }

    /// Closes the innermost open node, if there is one: it has no more children.
    #[inline(always)]
    pub fn close(&mut self)
        ensures { Puts closed self.old self.new }
    {
        if self.is_kept() && !self.kept.is_outside() {
            close_innermost(self.alloc, &mut self.kept);
        }
    }

    /// Adds one component to the innermost open node, a SEQUENCE. The component is present or absent.
    #[inline(always)]
    pub fn part(&mut self, present: bool) -> Result<(), Memory>
        ensures { OnOk result (Puts (flagged present) self.old self.new) }
    {
        if !self.is_kept() || self.kept.is_outside() {
            return Ok(());
        }
        add_flag(self.alloc, self.kept.innermost_mut(), present)
    }

    /// Appends the value that the type gives to the text. The value of a long list or union may have too many nodes to be kept.
    /// Then they are counted first, and no value is made if they are too many.
    #[inline(always)]
    pub fn text(&mut self, simple: &Simple, text: &Text) -> Result<(), SimpleError>
        requires { Sound (space_of simple.now) }
        ensures { MatchResult result
            (λ _. (value : Rose ValueLabel) × Accepts (space_of simple.now) text.now value × Puts (added value) self.old self.new)
            (λ error. AnswersReading (Err error) (reads (space_of simple.now) text.now)) }
    {
        // A list has no more items than one for each two bytes of its text. An item of a union has two nodes, the list has
        // one, and a union of lists one more.
        let has_items = matches!(simple, Simple::List { .. } | Simple::Union(_));
        let most = text.bytes().len() as u64 + 3;
        if !self.is_kept() || has_items && !self.has_room(most) {
            let nodes = count(self.alloc, simple, text)?;
            if !self.has_room(nodes) {
                self.nodes = self.nodes.saturating_add(nodes);
                return Ok(());
            }
        }
        accept_into(self.alloc, simple, text, &mut self.kept)?;
        self.nodes = self.kept.count() as u64;
        Ok(())
    }

    // Appends the value of the text in the first `len` bytes. The bytes are copied only if they are kept.
    #[inline(always)]
    fn front(&mut self, simple: &Simple, bytes: &[u8], len: usize) -> Result<(), SimpleError>
        requires sound { Sound (space_of simple.now) }
        requires within { len ≤ length bytes.now }
        requires utf8 { IsUtf8 (take len bytes.now) }
        ensures { MatchResult result
            (λ _. (value : Rose ValueLabel) × Accepts (space_of simple.now) (take len bytes.now) value × Puts (added value) self.old self.new)
            (λ error. AnswersReading (Err error) (reads (space_of simple.now) (take len bytes.now))) }
    {
        let has_items = matches!(simple, Simple::List { .. } | Simple::Union(_));
        if has_items || !self.is_kept() {
            let text = Text::of_front(self.alloc, bytes, len)?;
            return self.text(simple, &text);
        }
        accept_front_into(self.alloc, simple, bytes, len, &mut self.kept)?;
        self.nodes = self.kept.count() as u64;
        Ok(())
    }

    /// Appends the value of characters, which are read in the document itself.
    #[inline(always)]
    pub fn characters(
        &mut self,
        simple: &Simple,
        characters: &Characters<'_>,
    ) -> Result<(), SimpleError>
        requires { Sound (space_of simple.now) }
        ensures { MatchResult result
            (λ _. (value : Rose ValueLabel) × Accepts (space_of simple.now) characters.now value × Puts (added value) self.old self.new)
            (λ error. AnswersReading (Err error) (reads (space_of simple.now) characters.now)) }
    {
        match characters.front() {
            Some((bytes, len)) => self.front(simple, bytes, len),
            None => {
                let text = characters.to_text(self.alloc)?;
                self.text(simple, &text)
            }
        }
    }

    /// Moves the contents of another builder after the nodes of this one. The other has kept all its nodes, and none is open.
    pub fn append(&mut self, other: ValueBuilder) -> Result<(), Memory>
        requires some { 1 ≤ other.most }
        requires kept { other.nodes ≤ other.most }
        requires closed { (vs : List (Rose ValueLabel)) × Stands other (added_all vs (nothing_of 0).kept) }
        ensures { OnOk result ((vs : List (Rose ValueLabel)) → Stands other (added_all vs (nothing_of 0).kept) → Puts (added_all vs) self.old self.new) }
    {
        self.nodes = self.nodes.saturating_add(other.nodes);
        if self.is_kept() {
            self.kept.append(other.kept.finish())?;
        }
        Ok(())
    }

    /// Counts this number of nodes without appending them, because they are too many.
    pub fn count_alone(&mut self, nodes: u64)
        requires { self.old.most < min (self.old.nodes + nodes) (2 ^ 64 - 1) }
        ensures { (f : Zip ValueLabel → Zip ValueLabel) (more : ℕ) → nodes ≡ min more (2 ^ 64 - 1) → ((z : Zip ValueLabel) → zip_count (f z) ≡ zip_count z + more) → Puts f self.old self.new }
    {
        self.nodes = self.nodes.saturating_add(nodes);
    }

    /// Returns whether this number of nodes more may be kept.
    #[inline(always)]
    pub fn has_room(&self, nodes: u64) -> bool
        ensures { IsTrue result ↔ (min (self.now.nodes + nodes) (2 ^ 64 - 1) ≤ self.now.most) }
    {
        self.nodes.saturating_add(nodes) <= u64::from(self.most)
    }

    /// Returns the value, if one was appended and all of it is kept.
    pub fn finish(self) -> Flat<ValueLabel>
        requires some { 1 ≤ self.most }
        requires kept { self.nodes ≤ self.most }
        requires one { (v : Rose ValueLabel) × Stands self (added v (nothing_of 0).kept) }
        ensures { (v : Rose ValueLabel) → Stands self (added v (nothing_of 0).kept) → result ≡ v }
    {
        self.kept.finish_one()
    }
}

// Adds one component to a SEQUENCE.
#[inline(always)]
fn add_flag(alloc: Global, label: &mut ValueLabel, present: bool) -> Result<(), Memory>
    ensures { OnOk result (label.new ≡ flagged_label present label.old) }
{
    match label {
        ValueLabel::Sequence { present: flags } => flags.push(alloc, present),
        _ => Ok(()),
    }
}

// Shrinks the list of flags to its number of flags, if they are in a list, because it grew by doubling. If there is no memory for
// it, the flags stay as they are.
fn cut(alloc: Global, flags: Flags) -> Flags
    ensures { result ≡ flags }
{
    match flags.copy(alloc) {
        Ok(copied) => copied,
        Err(_) => flags,
    }
}

fn with_flags_cut(alloc: Global, label: ValueLabel) -> ValueLabel
    ensures { result ≡ label }
{
    match label {
        ValueLabel::Sequence { present } => ValueLabel::Sequence {
            present: cut(alloc, present),
        },
        other => other,
    }
}

// Returns whether the innermost open node is a SEQUENCE with more components than its label stores without a list.
#[inline(always)]
fn has_many_flags(kept: &Builder<ValueLabel>) -> bool {
    match kept.innermost() {
        Some(ValueLabel::Sequence { present }) => present.items().len() > FEW,
        _ => false,
    }
}

#[inline(never)]
fn cut_flags(alloc: Global, kept: &mut Builder<ValueLabel>)
    requires { 0 < length kept.old.above }
    ensures { kept.new ≡ kept.old }
{
    let label = kept.relabel(ValueLabel::SequenceOf);
    let _ = kept.relabel(with_flags_cut(alloc, label));
}

#[inline(always)]
fn close_innermost(alloc: Global, kept: &mut Builder<ValueLabel>)
    requires { 0 < length kept.old.above }
    ensures { kept.new ≡ closed kept.old }
{
    if has_many_flags(kept) {
        cut_flags(alloc, kept);
    }
    kept.close();
}
