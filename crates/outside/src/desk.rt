//! A desk of named files, which are fetched and put as a whole.
ghost use Rattle.std.specs.Prelude.{◌≡◌, ◌≤◌, ℕ, List, Option, IfOk, IfSome, Some, length};
ghost use Rattle.outside.specs.declared.desk.DeskFault.TheVariants.{Memory};
ghost use Rattle.outside.specs.Outside.{Files, Tells, start_of, Puts};

use crate::word::Word;
use duty_core::NoMemory;
use std::alloc::{AllocError, AllocFailed, Global};

/// Why a desk did not fetch or put a file.
#[derive(Clone, Copy, Debug, PartialEq, Eq)]
pub enum DeskFault {
    /// The desk could not read or write the file. It counted that, and keeps the file's name.
    Failed,
    /// There was no memory for the call. It is not counted.
    Memory,
}

impl From<NoMemory> for DeskFault {
    ghost from_gives = { λ _ fault. fault ≡ Memory };

    fn from(_: NoMemory) -> DeskFault {
        DeskFault::Memory
    }
}

impl From<AllocError> for DeskFault {
    ghost from_gives = { λ _ fault. fault ≡ Memory };

    fn from(_: AllocError) -> DeskFault {
        DeskFault::Memory
    }
}

impl<T: Drop> From<AllocFailed<T>> for DeskFault {
    ghost from_gives = { λ _ fault. fault ≡ Memory };

    fn from(_: AllocFailed<T>) -> DeskFault {
        DeskFault::Memory
    }
}

/// Named files, with a count of the fetches and one of the puts that failed. A count stops at the
/// greatest `u64`.
pub trait Desk {
    /// The files, from their names to their bytes. None where the desk tells nothing of content.
    ghost files: { Self → Option Files };

    /// How many fetches failed.
    ghost read_faults: { Self → ℕ };

    /// How many puts failed.
    ghost write_faults: { Self → ℕ };

    /// The name of the last fetch that failed.
    ghost read_failed: { Self → Option (List ℕ) };

    /// The name of the last put that failed.
    ghost write_failed: { Self → Option (List ℕ) };

    /// The first `limit` bytes of the file of that name, all of them where it is shorter.
    ///
    /// `Failed` where there is no such file or it could not be read: the fault is counted, and
    /// the name kept. `Memory` where there is no memory for the bytes. The files stay as they are.
    fn fetch(&mut self, alloc: Global, name: &Word, limit: usize) -> Result<Vec<u8>, DeskFault>
        ensures bytes { IfOk result (λ bytes. IfSome (files self.old) (λ files. start_of files name.now limit ≡ Some bytes.items)) }
        ensures bound { IfOk result (λ bytes. length bytes.items ≤ limit) }
        ensures files { files self.new ≡ files self.old }
        ensures told { Tells result (read_faults self.old) (read_faults self.new) (read_failed self.old) (read_failed self.new) name.now }
        ensures write_faults { write_faults self.new ≡ write_faults self.old }
        ensures write_failed { write_failed self.new ≡ write_failed self.old };

    /// Makes the file of that name hold these bytes, and these alone.
    ///
    /// `Failed` where it could not be written: the fault is counted, the name kept, and nothing is
    /// known of that file. `Memory` where there is no memory for the call, and then all files
    /// stay. The files of other names stay in every case.
    fn put(&mut self, name: &Word, bytes: &[u8]) -> Result<(), DeskFault>
        ensures put { Puts result (files self.old) (files self.new) name.now bytes.now }
        ensures told { Tells result (write_faults self.old) (write_faults self.new) (write_failed self.old) (write_failed self.new) name.now }
        ensures read_faults { read_faults self.new ≡ read_faults self.old }
        ensures read_failed { read_failed self.new ≡ read_failed self.old };
}
