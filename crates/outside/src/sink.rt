//! A sink, to which bytes are sent.
ghost use Rattle.std.specs.Prelude.{◌≡◌, ℕ, List, Option};
ghost use Rattle.outside.specs.declared.sink.SinkFault.TheVariants.{Memory};
ghost use Rattle.outside.specs.Outside.{Sends, Counts, CountsSend};

use duty_core::NoMemory;
use std::alloc::{AllocError, AllocFailed};

/// Why a sink did not take a whole piece.
#[derive(Clone, Copy, Debug, PartialEq, Eq)]
pub enum SinkFault {
    /// The sink took a first part of the piece at most, and counted the fault.
    Failed,
    /// There was no memory, and nothing was taken. It is not counted.
    Memory,
}

impl From<NoMemory> for SinkFault {
    ghost from_gives = { λ _ fault. fault ≡ Memory };

    fn from(_: NoMemory) -> SinkFault {
        SinkFault::Memory
    }
}

impl From<AllocError> for SinkFault {
    ghost from_gives = { λ _ fault. fault ≡ Memory };

    fn from(_: AllocError) -> SinkFault {
        SinkFault::Memory
    }
}

impl<T: Drop> From<AllocFailed<T>> for SinkFault {
    ghost from_gives = { λ _ fault. fault ≡ Memory };

    fn from(_: AllocFailed<T>) -> SinkFault {
        SinkFault::Memory
    }
}

/// What takes bytes one piece after another, with a count of the sends and one of those that
/// failed. A count stops at the greatest `u64`.
pub trait Sink {
    /// The bytes so far. None where the sink tells nothing of content.
    ghost written: { Self → Option (List ℕ) };

    /// How many sends were answered `Ok` or `Failed`.
    ghost sends: { Self → ℕ };

    /// How many sends failed.
    ghost faults: { Self → ℕ };

    /// Appends these bytes, and counts the send.
    ///
    /// `Failed` where not all of them could be written: some first part of them was appended, and
    /// the fault is counted too. `Memory` where there is no memory: nothing was appended, and
    /// nothing is counted.
    fn send(&mut self, bytes: &[u8]) -> Result<(), SinkFault>
        ensures sent { Sends result (written self.old) (written self.new) bytes.now }
        ensures counted { CountsSend result (sends self.old) (sends self.new) }
        ensures told { Counts result (faults self.old) (faults self.new) };
}
