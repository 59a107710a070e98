//! How far reading has come, and why it stops.
ghost use Rattle.std.specs.Prelude.{◌≡◌, MatchResult};
ghost use Rattle.module_grammar.specs.Reached.{IsFinal};
ghost use Rattle.module_grammar.specs.Reading as reading;
ghost use Rattle.module_grammar.specs.declared.reach.Stop.TheVariants as stop;

use std::alloc::{AllocError, AllocFailed};

/// How many bytes are read, and how many of those tried begin a text.
#[derive(Clone, Copy, Debug)]
pub struct Reach {
    /// The place of the next byte.
    pub at: usize,
    /// The longest prefix so far that begins a text, of those that were tried.
    pub far: usize,
}

/// Why nothing is read.
#[derive(Debug, Drop)]
pub enum Stop {
    /// No text is at this place.
    Fails {
        /// The longest prefix that begins one.
        far: usize,
    },
    /// A node that is nested too deep begins.
    Deep {
        /// The offset of its first byte.
        at: usize,
        far: usize,
    },
    /// An allocation failed.
    Memory,
}

impl Stop {
    /// Returns the longest prefix that begins a text, if no text is at this place. Otherwise it returns the stop itself as the
    /// error.
    pub fn failed(self) -> Result<usize, Stop>
        ensures { MatchResult result (λ far. self ≡ stop.Fails far) (λ other. (other ≡ self) × IsFinal other) }
    {
        match self {
            Stop::Fails { far } => Ok(far),
            Stop::Deep { at, far } => Err(Stop::Deep { at, far }),
            Stop::Memory => Err(Stop::Memory),
        }
    }
}

impl From<AllocError> for Stop {
    ghost from_gives = { λ _ made. made ≡ stop.Memory };

    fn from(_error: AllocError) -> Stop {
        Stop::Memory
    }
}

impl<T: Drop> From<AllocFailed<T>> for Stop {
    ghost from_gives = { λ _ made. made ≡ stop.Memory };

    fn from(_failed: AllocFailed<T>) -> Stop {
        Stop::Memory
    }
}

/// Returns the later of two places.
pub fn later(a: usize, b: usize) -> usize
    ensures { result ≡ reading.later a b }
{
    if b > a { b } else { a }
}
