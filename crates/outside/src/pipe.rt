//! A pipe that breaks, for tests of what fails after some first part.
use std::cell::Cell;
use std::fmt::Display;
use std::io::{self, ErrorKind};

/// How many bytes it takes at once, at most.
const BLOCK: usize = 4096;

/// What prints into a pipe that takes so many bytes more, and then breaks.
#[derive(Drop)]
pub(crate) struct Pipe {
    room: Cell<usize>,
}

impl Pipe {
    pub(crate) fn new(room: usize) -> Pipe {
        Pipe {
            room: Cell::new(room),
        }
    }

    /// How many bytes more it takes.
    pub(crate) fn room(&self) -> usize {
        self.room.get()
    }
}

impl Print for Pipe {
    fn print<D: Display + Drop>(&self, _value: D) -> io::Result<()> {
        Err(io::Error::from(ErrorKind::Unsupported))
    }

    fn println<D: Display + Drop>(&self, _value: D) -> io::Result<()> {
        Err(io::Error::from(ErrorKind::Unsupported))
    }

    fn write_all(&self, _bytes: &[u8]) -> io::Result<()> {
        Err(io::Error::from(ErrorKind::Unsupported))
    }

    fn write_some(&self, bytes: &[u8]) -> io::Result<usize> {
        let room = self.room.get();
        if room == 0 {
            return Err(io::Error::from(ErrorKind::BrokenPipe));
        }
        let count = bytes.len().min(room).min(BLOCK);
        self.room.set(room.saturating_sub(count));
        Ok(count)
    }
}
