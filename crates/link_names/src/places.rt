//! Places in the files of a set.
ghost use Rattle.std.specs.Prelude.{◌≡◌};
ghost use Rattle.link_names.specs.Order.{is_before};

/// The place where something was written.
#[derive(Clone, Copy, Debug, PartialEq, Eq)]
pub struct Place {
    /// The number of the file in the set, from 1.
    pub file: u32,
    /// The offset in the file, in bytes from 0.
    pub at: u64,
}

impl Place {
    /// Returns whether it precedes the other one in the order of files and places.
    pub fn is_before(self, other: Place) -> bool
        ensures { result ≡ is_before self other }
    {
        self.file < other.file || (self.file == other.file && self.at < other.at)
    }
}
