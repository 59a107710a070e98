//! Nodes as they are stored.
ghost use Rattle.std.specs.Prelude.{◌≡◌, ◌<◌, ◌^◌, ◌++◌, ◌∷◌, [], length, vec_len, OnOk, OnErr};
ghost use Rattle.std.specs.Borrow.{sem};
ghost use Rattle.base_flat_trees.specs.Entries.{GetsBelow, GetsLabel};

use std::alloc::AllocError;
use std::mem;

/// A node with the number of nodes below it, which follow it. In a builder an open node has the place of the open node around it
/// instead of that number.
#[derive(Clone, Copy, Drop)]
pub(crate) struct Entry<L> {
    pub(crate) label: L,
    pub(crate) below: u32,
}

impl<L> Entry<L> {
    ghost use Rattle.base_flat_trees.specs.Lends.{lends_label};

    // The label, to be changed in place.
    #[inline(always)]
    pub(crate) fn label_mut(&mut self) -> &mut L
        ensures* writes_back { sem 𝓛 (lends_label L.row self.entry result) }
        ensures value { result.now ≡ self.old.label }
    {
        &mut self.label
    }
}

/// Sets the number of nodes below an entry, and returns the previous number.
#[inline(always)]
pub(crate) fn set_below<L>(entries: &mut Vec<Entry<L>>, at: usize, below: u32) -> u32
    requires { at < vec_len entries.old }
    ensures { GetsBelow entries.old.items at below result entries.new.items }
{
    let entry = &mut entries[at];
    let before = entry.below;
    entry.below = below;
    before
}

/// Sets the label of an entry, and returns the previous label.
pub(crate) fn set_label<L>(entries: &mut Vec<Entry<L>>, at: usize, label: L) -> L
    requires { at < vec_len entries.old }
    ensures { GetsLabel entries.old.items at label result entries.new.items }
{
    let entry = &mut entries[at];
    mem::replace(&mut entry.label, label)
}

/// Adds an entry, if it has a place below 2^32 - 1.
#[inline(always)]
pub(crate) fn push_entry<L: Drop>(
    entries: &mut Vec<Entry<L>>,
    label: L,
    below: u32,
) -> Result<(), AllocError>
    ensures ok { OnOk result (entries.new.items ≡ entries.old.items ++ record { label = label; below = below } ∷ []) }
    ensures few { OnOk result (length entries.new.items < 2 ^ 32) }
    ensures err { OnErr result (entries.new.items ≡ entries.old.items) }
{
    if entries.len() >= u32::MAX as usize {
        return Err(AllocError);
    }
    entries.push(Entry { label, below })?;
    Ok(())
}

/// Moves entries to the end of others, if there are then fewer than 2^32.
pub(crate) fn append_entries<L: Drop>(
    entries: &mut Vec<Entry<L>>,
    more: Vec<Entry<L>>,
) -> Result<(), AllocError>
    requires { length entries.old.items < 2 ^ 32 }
    ensures ok { OnOk result (entries.new.items ≡ entries.old.items ++ more.items) }
    ensures few { OnOk result (length entries.new.items < 2 ^ 32) }
    ensures err { OnErr result (entries.new.items ≡ entries.old.items) }
{
    if more.len() > u32::MAX as usize - entries.len() {
        return Err(AllocError);
    }
    let mut more = more;
    entries.append(&mut more)
}
