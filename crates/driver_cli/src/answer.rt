//! An answer of the planner, and how it is sent.
ghost use Rattle.std.specs.Prelude.{◌≡◌, IfOk};
ghost use Rattle.driver_cli.specs.declared.answer.Halt.TheVariants.{Memory};
ghost use Rattle.driver_cli.specs.Sent.{Sent};
ghost use Rattle.driver_cli.specs.Sides.{sink_side};
ghost use Rattle.driver_cli.specs.Status.{exit_code_of};

use duty_core::NoMemory;
use outside::{Sink, SinkFault};
use std::alloc::Global;
use text_parts::Text;

/// How a call of the planner ended. The numbers are the program's exit codes.
#[derive(Clone, Copy, Debug, PartialEq, Eq)]
pub enum Status {
    /// `plan` put a certificate and sent a shortest schedule, `check` found a certificate valid,
    /// `audit` found the log lawful, `graph` sent its graph, and `make` put a tour and found a shortest
    /// schedule.
    Done = 0,
    /// The words are no command.
    Usage = 1,
    /// The tour's file or the log's holds none.
    Refused = 2,
    /// After the log the tour has no schedule; `plan` put a certificate of that.
    Infeasible = 3,
    /// The log breaks a rule.
    LogUnlawful = 4,
    /// The search may keep no more labels.
    Spent = 5,
    /// A file could not be read.
    ReadFault = 6,
    /// A file could not be put, or the answer could not be sent, or not all of it.
    WriteFault = 7,
    /// There was no memory for the answer, and nothing was sent.
    Memory = 8,
    /// The certificate is not valid, or its file is longer than one may be.
    Rejected = 9,
}

impl Status {
    /// The exit code of a program that ends with this status.
    pub fn exit_code(self) -> u8
        ensures { result ≡ exit_code_of self }
    {
        self as u8
    }
}

/// A status and the text that is sent with it.
#[derive(Drop)]
pub struct Answer {
    pub status: Status,
    pub text: Text,
}

impl Answer {
    /// An answer with a text of its own.
    pub fn of(alloc: Global, status: Status, text: &str) -> Result<Answer, NoMemory>
        ensures { IfOk result (λ answer. (answer.status ≡ status) × (answer.text ≡ text.now)) }
    {
        let text = Text::of(alloc, text)?;
        Ok(Answer { status, text })
    }
}

/// Why a command goes no further.
#[derive(Drop)]
pub enum Halt {
    /// It has its answer.
    Answered(Answer),
    /// There is no memory.
    Memory,
}

impl From<NoMemory> for Halt {
    ghost from_gives = { λ _ halt. halt ≡ Memory };

    fn from(_: NoMemory) -> Halt {
        Halt::Memory
    }
}

/// Sends the answer's text in one send, and gives its status. `WriteFault` where the sink fails,
/// `Memory` where it has no memory.
pub fn send_answer<S: Sink>(answer: &Answer, out: &mut S) -> Status
    ensures { Sent answer.now.status answer.now.text (sink_side S.Sink out.old out.new) result }
{
    match out.send(answer.text.as_bytes()) {
        Ok(()) => answer.status,
        Err(SinkFault::Failed) => Status::WriteFault,
        Err(SinkFault::Memory) => Status::Memory,
    }
}
