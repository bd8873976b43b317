//! The system's files as a desk, which tells nothing of content.
ghost use Rattle.std.specs.Prelude.{◌≡◌, ◌≤◌, Err, IfOk, IfSome, None, OnErr, false, length, take};
ghost use Rattle.outside.specs.declared.desk.DeskFault.TheVariants.{Failed};
ghost use Rattle.outside.specs.Disk.{no_faults};

use crate::desk::{Desk, DeskFault};
use crate::stdout::write_whole;
use crate::word::Word;
use std::alloc::Global;
use std::fs;
use std::io::{self, Read, Write};
use std::marker::Model;
use std::rt::Files;

/// How many bytes are read at once, at most.
const BLOCK: usize = 4096;

/// The files of a runtime, named by their paths. A contract sees the faults.
///
/// A fetch fails where the file cannot be opened or the system refuses a read, also one that was
/// interrupted. A put fails where the file cannot be made or the system refuses a write, also one
/// that was interrupted, or takes nothing of bytes that are left. The file may then be in pieces.
#[derive(Drop)]
pub struct DiskDesk<'a, R> {
    rt: &'a R,
    alloc: Global,
    read_faults: u64,
    write_faults: u64,
    read_failed: Option<Word>,
    write_failed: Option<Word>,
}

impl<'a, R> Model for DiskDesk<'a, R> {
    ghost use Rattle.outside.specs.Disk.{Faults};

    ghost Value = { Faults };

    ghost view = { λ d. record { read_faults = d.read_faults; write_faults = d.write_faults; read_failed = d.read_failed; write_failed = d.write_failed } };
}

impl<'a, R: Files> DiskDesk<'a, R> {
    /// The files of this runtime, with no faults. The copies of names come from `alloc`.
    pub fn new(rt: &'a R, alloc: Global) -> DiskDesk<'a, R>
        ensures { result ≡ no_faults }
    {
        DiskDesk {
            rt,
            alloc,
            read_faults: 0,
            write_faults: 0,
            read_failed: None,
            write_failed: None,
        }
    }
}

/// The first `limit` bytes of what a reader gives. `Failed` where a read fails.
fn read_start<R: Read>(alloc: Global, reader: &mut R, limit: usize) -> Result<Vec<u8>, DeskFault>
    ensures bytes { IfOk result (λ bytes. IfSome (R.remaining reader.old) (λ all. bytes.items ≡ take limit all)) }
    ensures bound { IfOk result (λ bytes. length bytes.items ≤ limit) }
{
    let mut bytes = Vec::new(alloc);
    let mut buffer = [0u8; BLOCK];
    let mut left = limit;
    while left > 0 {
        let want = left.min(BLOCK);
        match reader.read(&mut buffer[..want]) {
            Ok(0) => break,
            Ok(count) => {
                bytes.extend_from_slice(&buffer[..count])?;
                left -= count;
            }
            Err(_) => return Err(DeskFault::Failed),
        }
    }
    Ok(bytes)
}

/// The first `limit` bytes of what was opened. `Failed` where it could not be opened, or a read fails.
fn read_opened<R: Read + Drop>(
    alloc: Global,
    opened: io::Result<R>,
    limit: usize,
) -> Result<Vec<u8>, DeskFault>
    ensures bytes { IfOk result (λ bytes. IfOk opened (λ reader. IfSome (R.remaining reader) (λ all. bytes.items ≡ take limit all))) }
    ensures bound { IfOk result (λ bytes. length bytes.items ≤ limit) }
    ensures unopened { OnErr opened (result ≡ Err Failed) }
{
    match opened {
        Ok(reader) => {
            let mut reader = reader;
            read_start(alloc, &mut reader, limit)
        }
        Err(_) => Err(DeskFault::Failed),
    }
}

/// Writes all the bytes to what was made; false where it could not be made, or a write of bytes that
/// are left fails or takes nothing.
fn write_made<W: Write + Drop>(made: io::Result<W>, bytes: &[u8]) -> bool
    ensures { OnErr made (result ≡ false) }
{
    match made {
        Ok(writer) => {
            let mut writer = writer;
            write_whole(&mut writer, bytes)
        }
        Err(_) => false,
    }
}

impl<'a, R: Files> Desk for DiskDesk<'a, R> {
    ghost files = { λ _. None };

    ghost read_faults = { λ d. d.read_faults };

    ghost write_faults = { λ d. d.write_faults };

    ghost read_failed = { λ d. d.read_failed };

    ghost write_failed = { λ d. d.write_failed };

    fn fetch(&mut self, alloc: Global, name: &Word, limit: usize) -> Result<Vec<u8>, DeskFault> {
        let failed = name.copy(self.alloc)?;
        match read_opened(alloc, fs::open(self.rt, name.as_str()), limit) {
            Err(DeskFault::Failed) => {
                self.read_faults = self.read_faults.saturating_add(1);
                self.read_failed = Some(failed);
                Err(DeskFault::Failed)
            }
            other => other,
        }
    }

    fn put(&mut self, name: &Word, bytes: &[u8]) -> Result<(), DeskFault> {
        let failed = name.copy(self.alloc)?;
        if write_made(fs::create(self.rt, name.as_str()), bytes) {
            return Ok(());
        }
        self.write_faults = self.write_faults.saturating_add(1);
        self.write_failed = Some(failed);
        Err(DeskFault::Failed)
    }
}

#[cfg(test)]
mod tests {
    use super::*;
    use crate::pipe::Pipe;
    use std::alloc::AllocError;
    use std::process;
    use std::test::Fail;

    /// How many numbers make a text that is longer than a block, and one of some megabytes.
    const LONGER_THAN_A_BLOCK: u32 = 2_000;

    const MEGABYTES: u32 = 500_000;

    /// The numbers below `count`, a line each.
    fn numbers(alloc: Global, count: u32) -> Result<String, AllocError> {
        let mut text = String::new(alloc);
        for number in 0..count {
            writeln!(text, "{number}")?;
        }
        Ok(text)
    }

    /// Whether a file that is put holds these bytes and no others, and a fetch of fewer gives the first.
    fn holds<D: Desk>(
        alloc: Global,
        desk: &mut D,
        name: &Word,
        bytes: &[u8],
    ) -> Result<bool, DeskFault> {
        desk.put(name, bytes)?;
        let whole = desk.fetch(alloc, name, usize::MAX)?;
        let front = bytes.len() / 2;
        let start = desk.fetch(alloc, name, front)?;
        Ok(whole.as_slice() == bytes && start.as_slice() == &bytes[..front])
    }

    #[test]
    fn puts_and_fetches_a_file(rt: HostRuntime) -> Result<(), Fail> {
        let text = format!(in rt.alloc(); "outside-{}.tmp", process::id(rt.process()))?;
        let name = Word::new(rt.alloc(), text.as_str())?;
        let mut desk = DiskDesk::new(&rt, rt.alloc());
        assert!(rt; matches!(desk.fetch(rt.alloc(), &name, 9), Err(DeskFault::Failed)));
        assert_eq!(rt; desk.read_faults, 1);
        for count in [MEGABYTES, LONGER_THAN_A_BLOCK, 3, 0] {
            let text = numbers(rt.alloc(), count)?;
            assert!(rt;
                holds(rt.alloc(), &mut desk, &name, text.as_bytes())?,
                "of {count} numbers"
            );
        }
        fs::remove_file(&rt, name.as_str())?;
        assert_eq!(rt; desk.read_faults, 1);
        assert_eq!(rt; desk.write_faults, 0);
        Ok(())
    }

    #[test]
    fn fails_at_what_is_no_file(rt: HostRuntime) -> Result<(), Fail> {
        let alloc = rt.alloc();
        let text = numbers(alloc, LONGER_THAN_A_BLOCK)?;
        let mut desk = DiskDesk::new(&rt, alloc);
        for name in ["no-folder/tour.json", "."] {
            let fetched = desk.fetch(alloc, &Word::new(alloc, name)?, 9);
            assert!(rt; matches!(fetched, Err(DeskFault::Failed)), "fetched {name}");
        }
        for name in ["no-folder/plan.cert", ".", "/dev/full"] {
            let put = desk.put(&Word::new(alloc, name)?, text.as_bytes());
            assert!(rt; matches!(put, Err(DeskFault::Failed)), "put {name}");
        }
        assert_eq!(rt; desk.read_faults, 2);
        assert_eq!(rt; desk.write_faults, 3);
        Ok(())
    }

    #[test]
    fn writes_all_or_tells_that_it_did_not(rt: HostRuntime) -> Result<(), Fail> {
        let bytes = [b'x'; 10_000];
        for (room, is_whole, left) in [(10_001, true, 1), (9_999, false, 0), (5_000, false, 0)] {
            let pipe = Pipe::new(room);
            let written = write_made(Ok(io::writer(&pipe)), &bytes);
            assert_eq!(rt; written, is_whole, "with room for {room}");
            assert_eq!(rt; pipe.room(), left, "with room for {room}");
        }
        Ok(())
    }
}
