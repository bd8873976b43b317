//! Standard output as a sink, which tells nothing of content.
ghost use Rattle.std.specs.Prelude.{◌≡◌, None};
ghost use Rattle.std.specs.Bool.{OnTrue, OnFalse};
ghost use Rattle.std.specs.Io.KnownBytes.{Appends};
ghost use Rattle.outside.specs.Whole.{AppendsPart};
ghost use Rattle.outside.specs.Stdout.{no_sends};

use crate::sink::{Sink, SinkFault};
use std::io::{self, Write};
use std::marker::Model;

/// The standard output of a runtime. A contract sees the counts of the sends and of those that
/// failed.
///
/// A send fails where the system refuses a write, also one that was interrupted, or takes nothing
/// of a piece that is not empty. It needs no memory.
#[derive(Drop)]
pub struct StdSink<'a, R> {
    rt: &'a R,
    sends: u64,
    faults: u64,
}

impl<'a, R> Model for StdSink<'a, R> {
    ghost use Rattle.outside.specs.Stdout.{SendCounts};

    ghost Value = { SendCounts };

    ghost view = { λ s. record { sends = s.sends; faults = s.faults } };
}

impl<'a, R: Print> StdSink<'a, R> {
    /// The standard output of this runtime, with no sends and no faults.
    pub fn new(rt: &'a R) -> StdSink<'a, R>
        ensures { result ≡ no_sends }
    {
        StdSink {
            rt,
            sends: 0,
            faults: 0,
        }
    }
}

/// Writes all the bytes; false where the writer fails or takes nothing while some are left.
pub(crate) fn write_whole<W: Write>(writer: &mut W, bytes: &[u8]) -> bool
    ensures whole { OnTrue result (Appends (W.contents writer.old) (W.contents writer.new) bytes.now) }
    ensures part { OnFalse result (AppendsPart (W.contents writer.old) (W.contents writer.new) bytes.now) }
{
    let mut at = 0usize;
    while at < bytes.len() {
        match writer.write(&bytes[at..]) {
            Ok(0) => return false,
            Ok(count) => at += count,
            Err(_) => return false,
        }
    }
    true
}

impl<'a, R: Print> Sink for StdSink<'a, R> {
    ghost written = { λ _. None };

    ghost sends = { λ s. s.sends };

    ghost faults = { λ s. s.faults };

    fn send(&mut self, bytes: &[u8]) -> Result<(), SinkFault> {
        self.sends = self.sends.saturating_add(1);
        let mut writer = io::writer(self.rt);
        if write_whole(&mut writer, bytes) {
            return Ok(());
        }
        self.faults = self.faults.saturating_add(1);
        Err(SinkFault::Failed)
    }
}

#[cfg(test)]
mod tests {
    use super::*;
    use crate::pipe::Pipe;
    use std::test::Fail;

    #[test]
    fn sends_a_line(rt: HostRuntime) -> Result<(), Fail> {
        let mut sink = StdSink::new(&rt);
        assert_eq!(rt; sink.send(b"sent\n"), Ok(()));
        assert_eq!(rt; (sink.sends, sink.faults), (1, 0));
        Ok(())
    }

    #[test]
    fn sends_a_long_text_whole_or_fails(rt: HostRuntime) -> Result<(), Fail> {
        let bytes = [b'x'; 10_000];
        // How much room there is before the send, what it tells, and how much room is left.
        let cases = [
            (10_001, Ok(()), 1),
            (10_000, Ok(()), 0),
            (9_999, Err(SinkFault::Failed), 0),
            (5_000, Err(SinkFault::Failed), 0),
            (0, Err(SinkFault::Failed), 0),
        ];
        for (room, told, left) in cases {
            let pipe = Pipe::new(room);
            assert_eq!(rt;
                StdSink::new(&pipe).send(&bytes),
                told,
                "with room for {room}"
            );
            assert_eq!(rt; pipe.room(), left, "with room for {room}");
        }
        Ok(())
    }
}
