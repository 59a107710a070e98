//! Why reading ends before the value.
ghost use Rattle.per_decode.specs.declared.faults.PerEnd.TheVariants as faults;
ghost use Rattle.std.specs.Prelude.{◌≡◌, ◌⊎◌};

use base_codecs::CursorError;
use base_texts::Memory;
use per_fields::{Stop, Why};
use std::alloc::AllocError;

/// Why reading ends before the value. It is one octet, because every step of reading returns it. Everything else about a stop is in
/// the state of reading (`Run::stop`).
#[derive(Clone, Copy)]
pub(crate) enum PerEnd {
    /// A fault of a complete field, or of a node: the stop.
    Stopped,
    /// The octets end inside the field that begins at the bit of the stop.
    Short,
    /// The octets that may be read end inside that field.
    TooLong,
    Failed,
    Memory,
}

impl From<AllocError> for PerEnd {
    ghost from_gives = { λ _ fault. fault ≡ faults.Memory };

    fn from(_: AllocError) -> PerEnd {
        PerEnd::Memory
    }
}

impl From<Memory> for PerEnd {
    ghost from_gives = { λ _ fault. fault ≡ faults.Memory };

    fn from(_: Memory) -> PerEnd {
        PerEnd::Memory
    }
}

/// Returns the fault of a field or a node from `bit` to `end`, which becomes the stop.
#[inline(always)]
pub(crate) fn stopped(stop: &mut Stop, bit: u64, why: Why, end: u64) -> PerEnd
    ensures fault { result ≡ PerEnd.Stopped }
    ensures stop { stop.new ≡ record { bit = bit; why = why; end = end } }
{
    *stop = Stop { bit, why, end };
    PerEnd::Stopped
}

/// Returns the fault of a field whose bits couldn't all be read. If the octets end inside it, the bit at which it begins becomes
/// the bit of the stop.
#[inline(always)]
pub(crate) fn ended_inside(stop: &mut Stop, begin: u64, error: CursorError) -> PerEnd
    requires padding { error ≡ CursorError.Padding → ⊥ }
    requires memory { error ≡ CursorError.Memory → ⊥ }
    ensures fault { ((result ≡ PerEnd.Failed) × (error ≡ CursorError.Failed))
        ⊎ (((result ≡ PerEnd.Short) × (stop.new.bit ≡ begin) × (error ≡ CursorError.Short))
        ⊎ ((result ≡ PerEnd.TooLong) × (stop.new.bit ≡ begin) × (error ≡ CursorError.TooLong))) }
    ensures failed { result ≡ PerEnd.Failed → error ≡ CursorError.Failed }
{
    match error {
        CursorError::Failed => PerEnd::Failed,
        CursorError::Short => {
            stop.bit = begin;
            PerEnd::Short
        }
        CursorError::TooLong => {
            stop.bit = begin;
            PerEnd::TooLong
        }
        CursorError::Memory | CursorError::Padding => unreachable!(),
    }
}
