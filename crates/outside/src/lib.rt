//! The planner's outside: a desk of named files, and a sink of bytes.
#![tactic(auto)]

mod desk;
mod disk;
mod memory;
#[cfg(test)]
mod pipe;
mod sink;
mod stdout;
mod word;

pub use desk::{Desk, DeskFault};
pub use disk::DiskDesk;
pub use memory::{FailingSend, MemoryDesk, MemorySink};
pub use sink::{Sink, SinkFault};
pub use stdout::StdSink;
pub use word::Word;
