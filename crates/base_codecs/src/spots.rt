//! A position in a list that is read.

/// The index of the next element of the list, and the number of nodes begun so far.
#[derive(Clone, Copy, Debug)]
pub struct Spot {
    pub at: u64,
    pub nodes: u32,
}
