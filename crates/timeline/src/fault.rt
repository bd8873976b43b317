//! What can go wrong where a history grows.
ghost use Rattle.std.specs.Prelude.{◌≡◌};
ghost use Rattle.timeline.specs.declared.fault.TimelineFault.TheVariants.{Memory};

use std::alloc::AllocFailed;

/// Why a history did not grow.
#[derive(Debug, Clone, Copy, PartialEq, Eq)]
pub enum TimelineFault {
    /// The history would be longer than `LONGEST_HISTORY`.
    TooLong,
    /// There was no memory for one more run.
    Memory,
}

impl<T: Drop> From<AllocFailed<T>> for TimelineFault {
    ghost from_gives = { λ _ fault. fault ≡ Memory };

    fn from(_: AllocFailed<T>) -> TimelineFault {
        TimelineFault::Memory
    }
}
