//! Why no value is read.
ghost use Rattle.der_decode.specs.declared.faults.DerEnd.TheVariants as faults;
ghost use Rattle.std.specs.Prelude.{◌≡◌};

use base_texts::Memory;
use der_fields::Stop;
use std::alloc::{AllocError, AllocFailed};

/// Why no value is read: the first fault of the octets, or a failed allocation.
#[derive(Clone, Copy)]
pub(crate) enum DerEnd {
    Stopped(Stop),
    Memory,
}

impl From<Stop> for DerEnd {
    ghost from_gives = { λ stop fault. fault ≡ faults.Stopped stop };

    fn from(stop: Stop) -> DerEnd {
        DerEnd::Stopped(stop)
    }
}

impl From<AllocError> for DerEnd {
    ghost from_gives = { λ _ fault. fault ≡ faults.Memory };

    fn from(_: AllocError) -> DerEnd {
        DerEnd::Memory
    }
}

impl<T: Drop> From<AllocFailed<T>> for DerEnd {
    ghost from_gives = { λ _ fault. fault ≡ faults.Memory };

    fn from(_: AllocFailed<T>) -> DerEnd {
        DerEnd::Memory
    }
}

impl From<Memory> for DerEnd {
    ghost from_gives = { λ _ fault. fault ≡ faults.Memory };

    fn from(_: Memory) -> DerEnd {
        DerEnd::Memory
    }
}
