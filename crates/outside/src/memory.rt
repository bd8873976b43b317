//! A desk and a sink in memory, which fail at the calls that they are told.
ghost use Rattle.std.specs.Prelude.{◌≡◌, ◌≤◌, ◌++◌, ◌∷◌, [], length, OnOk, OnErr, IfOk, MatchOption, true, false, Some};
ghost use Rattle.std.specs.Option.{option_copied};
ghost use Rattle.std.specs.FinMap.{get, insert};
ghost use Rattle.outside.specs.Outside.{start_of, Tells, Puts, Sends, Counts, CountsSend};
ghost use Rattle.outside.specs.Memory.{new_desk, fetch_fails, put_fails, FailsWhere, Fetches, PutsFile, new_sink, failing_prefix, SendsPiece};

use crate::desk::{Desk, DeskFault};
use crate::sink::{Sink, SinkFault};
use crate::word::Word;
use duty_core::NoMemory;
use std::alloc::Global;
use std::cmp::Ordering;
use std::collections::VecDeque;
use std::marker::Model;

/// The bytes of a file.
#[derive(Drop)]
struct Body {
    bytes: Vec<u8>,
}

impl Model for Body {
    ghost use Rattle.std.specs.Prelude.{List, ℕ};

    ghost Value = { List ℕ };

    ghost view = { λ b. b.bytes.items };
}

impl Body {
    fn new(alloc: Global, bytes: &[u8]) -> Result<Body, NoMemory>
        ensures { IfOk result (λ body. body ≡ bytes.now) }
    {
        Ok(Body {
            bytes: bytes.to_vec(alloc)?,
        })
    }

    fn bytes(&self) -> &[u8]
        ensures { result.now ≡ self.now }
    {
        self.bytes.as_slice()
    }
}

/// Files in memory. The fetches and the puts are counted from 1, and those whose numbers it was
/// told fail. A call that answers `Memory` is not counted.
///
/// The bytes that a file held before a put stay in memory as long as the desk.
#[derive(Drop)]
pub struct MemoryDesk {
    /// The file that was put last in front. Of two with one name the front one counts.
    files: VecDeque<(Word, Body)>,
    alloc: Global,
    fetches: u64,
    puts: u64,
    failing_fetches: Vec<u64>,
    failing_puts: Vec<u64>,
    read_faults: u64,
    write_faults: u64,
    read_failed: Option<Word>,
    write_failed: Option<Word>,
}

impl Model for MemoryDesk {
    ghost use Rattle.std.specs.FinMap.{from_entries};
    ghost use Rattle.outside.specs.Memory.{DeskState, desk_code};

    ghost Value = { DeskState };

    ghost coded = { desk_code };

    ghost view = { λ d. record { files = from_entries d.files.items; fetches = d.fetches; puts = d.puts; failing_fetches = d.failing_fetches.items; failing_puts = d.failing_puts.items; read_faults = d.read_faults; write_faults = d.write_faults; read_failed = d.read_failed; write_failed = d.write_failed } };
}

impl MemoryDesk {
    /// A desk with no files, no call that is to fail, and no faults.
    pub fn new(alloc: Global) -> MemoryDesk
        ensures { result ≡ new_desk }
    {
        MemoryDesk {
            files: VecDeque::new(alloc),
            alloc,
            fetches: 0,
            puts: 0,
            failing_fetches: Vec::new(alloc),
            failing_puts: Vec::new(alloc),
            read_faults: 0,
            write_faults: 0,
            read_failed: None,
            write_failed: None,
        }
    }

    /// Makes the file of that name hold these bytes. It is not counted as a put and cannot fail
    /// as one. `NoMemory` where there is no memory for the file, and then nothing changes.
    pub fn hold(&mut self, name: &Word, bytes: &[u8]) -> Result<(), NoMemory>
        ensures held { OnOk result (self.new ≡ record self.old { files = insert self.old.files name.now bytes.now }) }
        ensures kept { OnErr result (self.new ≡ self.old) }
    {
        let held = (name.copy(self.alloc)?, Body::new(self.alloc, bytes)?);
        self.files.push_front(held)?;
        Ok(())
    }

    /// The bytes of the file of that name, None where there is no such file.
    pub fn file(&self, name: &Word) -> Option<&[u8]>
        ensures { option_copied result ≡ get self.now.files name.now }
    {
        for (held, body) in &self.files {
            if name.as_bytes().cmp(held.as_bytes()) == Ordering::Equal {
                return Some(body.bytes());
            }
        }
        None
    }

    /// Has the fetch of this number fail. `NoMemory` where there is no memory for the list of
    /// such numbers, and then nothing changes.
    pub fn fail_fetch(&mut self, n: u32) -> Result<(), NoMemory>
        ensures listed { OnOk result (self.new ≡ record self.old { failing_fetches = self.old.failing_fetches ++ n ∷ [] }) }
        ensures kept { OnErr result (self.new ≡ self.old) }
    {
        self.failing_fetches.push(u64::from(n))?;
        Ok(())
    }

    /// Has the put of this number fail. `NoMemory` where there is no memory for the list of such
    /// numbers, and then nothing changes.
    pub fn fail_put(&mut self, n: u32) -> Result<(), NoMemory>
        ensures listed { OnOk result (self.new ≡ record self.old { failing_puts = self.old.failing_puts ++ n ∷ [] }) }
        ensures kept { OnErr result (self.new ≡ self.old) }
    {
        self.failing_puts.push(u64::from(n))?;
        Ok(())
    }

    /// What the next fetch gives of a file, None where it fails.
    fn start_of_file(
        &self,
        alloc: Global,
        name: &Word,
        limit: usize,
    ) -> Result<Option<Vec<u8>>, NoMemory>
        ensures { IfOk result (λ start. MatchOption start (fetch_fails self.now name.now ≡ true) (λ bytes. (fetch_fails self.now name.now ≡ false) × (start_of self.now.files name.now limit ≡ Some bytes.items))) }
    {
        if self
            .failing_fetches
            .contains(&self.fetches.saturating_add(1))
        {
            return Ok(None);
        }
        match self.file(name) {
            Some(bytes) => {
                let end = bytes.len().min(limit);
                Ok(Some(bytes[..end].to_vec(alloc)?))
            }
            None => Ok(None),
        }
    }
}

impl Desk for MemoryDesk {
    ghost files = { λ d. Some d.files };

    ghost read_faults = { λ d. d.read_faults };

    ghost write_faults = { λ d. d.write_faults };

    ghost read_failed = { λ d. d.read_failed };

    ghost write_failed = { λ d. d.write_failed };

    fn fetch(&mut self, alloc: Global, name: &Word, limit: usize) -> Result<Vec<u8>, DeskFault>
        ensures bytes { IfOk result (λ bytes. start_of self.old.files name.now limit ≡ Some bytes.items) }
        ensures bound { IfOk result (λ bytes. length bytes.items ≤ limit) }
        ensures files { Some self.new.files ≡ Some self.old.files }
        ensures told { Tells result self.old.read_faults self.new.read_faults self.old.read_failed self.new.read_failed name.now }
        ensures write_faults { self.new.write_faults ≡ self.old.write_faults }
        ensures write_failed { self.new.write_failed ≡ self.old.write_failed }
        ensures fails { FailsWhere result (fetch_fails self.old name.now) }
        ensures state { Fetches result self.old self.new name.now }
    {
        match self.start_of_file(alloc, name, limit)? {
            Some(bytes) => {
                self.fetches = self.fetches.saturating_add(1);
                Ok(bytes)
            }
            None => {
                let failed = name.copy(self.alloc)?;
                self.fetches = self.fetches.saturating_add(1);
                self.read_faults = self.read_faults.saturating_add(1);
                self.read_failed = Some(failed);
                Err(DeskFault::Failed)
            }
        }
    }

    fn put(&mut self, name: &Word, bytes: &[u8]) -> Result<(), DeskFault>
        ensures put { Puts result (Some self.old.files) (Some self.new.files) name.now bytes.now }
        ensures told { Tells result self.old.write_faults self.new.write_faults self.old.write_failed self.new.write_failed name.now }
        ensures read_faults { self.new.read_faults ≡ self.old.read_faults }
        ensures read_failed { self.new.read_failed ≡ self.old.read_failed }
        ensures fails { FailsWhere result (put_fails self.old) }
        ensures state { PutsFile result self.old self.new name.now bytes.now }
    {
        let number = self.puts.saturating_add(1);
        let name = name.copy(self.alloc)?;
        if self.failing_puts.contains(&number) {
            self.puts = number;
            self.write_faults = self.write_faults.saturating_add(1);
            self.write_failed = Some(name);
            return Err(DeskFault::Failed);
        }
        let held = (name, Body::new(self.alloc, bytes)?);
        self.files.push_front(held)?;
        self.puts = number;
        Ok(())
    }
}

/// A send that is to fail.
#[derive(Clone, Copy, Drop)]
pub struct FailingSend {
    /// Which send, counted from 1.
    pub number: u64,
    /// How many bytes of its piece are appended first.
    pub prefix: usize,
}

/// A sink that keeps what it is sent in memory. The sends are counted from 1, and those that it
/// was told fail. A send that answers `Memory` is not counted.
#[derive(Drop)]
pub struct MemorySink {
    bytes: Vec<u8>,
    sends: u64,
    failing_sends: Vec<FailingSend>,
    faults: u64,
}

impl Model for MemorySink {
    ghost use Rattle.outside.specs.Memory.{SinkState};

    ghost Value = { SinkState };

    ghost view = { λ s. record { written = s.bytes.items; sends = s.sends; failing_sends = s.failing_sends.items; faults = s.faults } };
}

impl MemorySink {
    /// A sink to which nothing was sent, with no send that is to fail, and no faults.
    pub fn new(alloc: Global) -> MemorySink
        ensures { result ≡ new_sink }
    {
        MemorySink {
            bytes: Vec::new(alloc),
            sends: 0,
            failing_sends: Vec::new(alloc),
            faults: 0,
        }
    }

    /// What was written.
    pub fn bytes(&self) -> &[u8]
        ensures { result.now ≡ self.now.written }
    {
        self.bytes.as_slice()
    }

    /// Has the send of this number fail after `prefix` bytes of its piece, all of them where the
    /// piece is shorter. Of two calls with one number the earlier one holds. `NoMemory` where
    /// there is no memory for the list of such sends, and then nothing changes.
    pub fn fail_send(&mut self, n: u32, prefix: u32) -> Result<(), NoMemory>
        ensures listed { OnOk result (self.new ≡ record self.old { failing_sends = self.old.failing_sends ++ record { number = n; prefix = prefix } ∷ [] }) }
        ensures kept { OnErr result (self.new ≡ self.old) }
    {
        self.failing_sends.push(FailingSend {
            number: u64::from(n),
            prefix: prefix as usize,
        })?;
        Ok(())
    }

    /// How much of its piece the next send appends before it fails, None where it does not fail.
    fn failing_prefix(&self) -> Option<usize>
        ensures { result ≡ failing_prefix self.now }
    {
        let number = self.sends.saturating_add(1);
        self.failing_sends
            .iter()
            .find(|fail| fail.number == number)
            .map(|fail| fail.prefix)
    }
}

impl Sink for MemorySink {
    ghost written = { λ s. Some s.written };

    ghost sends = { λ s. s.sends };

    ghost faults = { λ s. s.faults };

    fn send(&mut self, bytes: &[u8]) -> Result<(), SinkFault>
        ensures sent { Sends result (Some self.old.written) (Some self.new.written) bytes.now }
        ensures counted { CountsSend result self.old.sends self.new.sends }
        ensures told { Counts result self.old.faults self.new.faults }
        ensures state { SendsPiece result self.old self.new bytes.now }
    {
        match self.failing_prefix() {
            Some(prefix) => {
                let end = bytes.len().min(prefix);
                self.bytes.extend_from_slice(&bytes[..end])?;
                self.sends = self.sends.saturating_add(1);
                self.faults = self.faults.saturating_add(1);
                Err(SinkFault::Failed)
            }
            None => {
                self.bytes.extend_from_slice(bytes)?;
                self.sends = self.sends.saturating_add(1);
                Ok(())
            }
        }
    }
}

#[cfg(test)]
mod tests {
    use super::*;
    use std::test::Fail;

    #[test]
    fn fails_the_listed_fetch(rt: HostRuntime) -> Result<(), Fail> {
        let name = Word::new(rt.alloc(), "tour")?;
        let mut desk = MemoryDesk::new(rt.alloc());
        desk.hold(&name, b"first")?;
        desk.fail_fetch(2)?;
        assert_eq!(rt;
            desk.fetch(rt.alloc(), &name, 3)?.as_slice(),
            b"fir".as_slice()
        );
        assert!(rt; matches!(desk.fetch(rt.alloc(), &name, 3), Err(DeskFault::Failed)));
        assert_eq!(rt;
            desk.fetch(rt.alloc(), &name, 9)?.as_slice(),
            b"first".as_slice()
        );
        let missing = Word::new(rt.alloc(), "Tour")?;
        assert!(rt; matches!(desk.fetch(rt.alloc(), &missing, 9), Err(DeskFault::Failed)));
        assert_eq!(rt; desk.read_faults, 2);
        Ok(())
    }

    #[test]
    fn fails_the_listed_put(rt: HostRuntime) -> Result<(), Fail> {
        let name = Word::new(rt.alloc(), "save")?;
        let mut desk = MemoryDesk::new(rt.alloc());
        desk.fail_put(2)?;
        desk.put(&name, b"one")?;
        assert_eq!(rt; desk.put(&name, b"two"), Err(DeskFault::Failed));
        assert!(rt; matches!(desk.file(&name), Some(b"one")));
        desk.put(&name, b"three")?;
        assert!(rt; matches!(desk.file(&name), Some(b"three")));
        assert_eq!(rt; desk.write_faults, 1);
        Ok(())
    }

    #[test]
    fn fails_a_send_after_the_earlier_prefix(rt: HostRuntime) -> Result<(), Fail> {
        let mut sink = MemorySink::new(rt.alloc());
        sink.fail_send(2, 3)?;
        sink.fail_send(2, 1)?;
        sink.send(b"ab")?;
        assert_eq!(rt; sink.send(b"cdefg"), Err(SinkFault::Failed));
        sink.send(b"hi")?;
        assert_eq!(rt; sink.bytes(), b"abcdehi".as_slice());
        assert_eq!(rt; sink.faults, 1);
        Ok(())
    }
}
