//! The items of a list, counted one by one.
ghost use Rattle.std.specs.Prelude.{◌≡◌, ◌&&◌, ◌++◌, ◌∷◌, [], nat_le, List, length};
ghost use Rattle.base_trees.specs.Rose.{Rose, node, roses_of, shown_count};
ghost use Rattle.simple_types.specs.declared.labels.ValueLabel.{ValueLabel};
ghost use Rattle.simple_types.specs.Answering.{AnswersReading};
ghost use Rattle.simple_types.specs.Lexical.{is_at_most};
ghost use Rattle.simple_types.specs.Reading.{reads};
ghost use Rattle.simple_types.specs.Seen.{space_of};
ghost use Rattle.simple_types.specs.Sound.{Sound};
ghost use Rattle.value_builder.specs.Private.Kept.{AreCounted};

use base_flat_trees::{Flat, Node};
use base_texts::Text;
use simple_types::{Simple, SimpleError, ValueLabel, accept};
use std::alloc::Global;

/// The number of items of a list that were read, and the number of nodes of their values. 2^64 - 1 means that number or a greater
/// one.
#[derive(Drop)]
pub(crate) struct Items {
    count: u64,
    nodes: u64,
}

impl Items {
    /// Returns no items.
    pub(crate) fn none() -> Items
        ensures { AreCounted [] result }
    {
        Items { count: 0, nodes: 0 }
    }

    /// Counts one more item, with this value.
    pub(crate) fn add(&mut self, value: &Node<'_, ValueLabel>)
        ensures { (values : List (Rose ValueLabel)) → AreCounted values self.old → AreCounted (values ++ value.now ∷ []) self.new }
    {
        self.count = self.count.saturating_add(1);
        self.nodes = self.nodes.saturating_add(value.count());
    }

    /// Returns whether there are none.
    pub(crate) fn are_none(&self) -> bool
        ensures { (values : List (Rose ValueLabel)) → AreCounted values self.now → result ≡ nat_le (length values) 0 }
    {
        self.count == 0
    }

    /// Returns whether a list of these bounds may have this number of items.
    pub(crate) fn are_within(&self, min: u32, max: Option<u32>) -> bool
        ensures { (values : List (Rose ValueLabel)) → AreCounted values self.now → result ≡ (nat_le min (length values) && is_at_most (length values) max) }
    {
        let within = match max {
            Some(most) => self.count <= u64::from(most),
            None => true,
        };
        u64::from(min) <= self.count && within
    }

    /// Returns the number of nodes of the list of these items.
    pub(crate) fn list_nodes(&self) -> u64
        ensures { (values : List (Rose ValueLabel)) → AreCounted values self.now → result ≡ shown_count (node ValueLabel.SequenceOf (roses_of values)) }
    {
        self.nodes.saturating_add(1)
    }
}

/// Returns the value of one item of a list.
pub(crate) fn read_item(
    alloc: Global,
    item: &Simple,
    word: &str,
) -> Result<Flat<ValueLabel>, SimpleError>
    requires { Sound (space_of item.now) }
    ensures { AnswersReading result (reads (space_of item.now) word.now) }
{
    let word = Text::from_str(alloc, word)?;
    accept(alloc, item, &word)
}
