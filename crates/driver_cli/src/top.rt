//! All that the planner does, over any desk and any sink.
ghost use Rattle.driver_cli.specs.Sides.{read_side, write_side, sink_side};
ghost use Rattle.command_words.specs.Command.{HasBudget};
ghost use Rattle.driver_cli.specs.Ends.{Ends};
ghost use Rattle.driver_cli.specs.Steps.{Concludes, CommandAnswers, CommandLeaves, WordsAnswers, WordsLeave, Settles};

use crate::answer::{Answer, Halt, Status, send_answer};
use crate::audit::audit;
use crate::check::check;
use crate::graph::graph;
use crate::make::make;
use crate::plan::plan;
use crate::texts::USAGE;
use command_words::{Command, command_of};
use duty_core::NoMemory;
use outside::{Desk, Sink, Word};
use std::alloc::Global;

/// The answer to a command.
fn run<D: Desk>(alloc: Global, command: &Command, desk: &mut D) -> Result<Answer, Halt>
    requires { HasBudget command.now }
    ensures answer { let read = read_side D.Desk desk.old desk.new in
        let write = write_side D.Desk desk.old desk.new in
        Concludes result (CommandAnswers command.now read write) (CommandLeaves command.now read write) }
{
    match command {
        Command::Plan {
            tour,
            log,
            cert,
            budget,
        } => plan(alloc, tour, log, cert, *budget, desk),
        Command::Check { tour, log, cert } => check(alloc, tour, log, cert, desk),
        Command::Audit { tour, log } => audit(alloc, tour, log, desk),
        Command::Graph { tour, log } => graph(alloc, tour, log, desk),
        Command::Make { number, tour, log } => make(alloc, *number, tour, log, desk),
    }
}

/// The answer to the words.
fn answer<D: Desk>(alloc: Global, words: &[Word], desk: &mut D) -> Result<Answer, Halt>
    ensures answer { let read = read_side D.Desk desk.old desk.new in
        let write = write_side D.Desk desk.old desk.new in
        Concludes result (WordsAnswers words.now read write) (WordsLeave words.now read write) }
{
    match command_of(alloc, words)? {
        Some(command) => run(alloc, &command, desk),
        None => Ok(Answer::of(alloc, Status::Usage, USAGE)?),
    }
}

/// The answer with which a command ended, early or not.
fn settled(ended: Result<Answer, Halt>) -> Result<Answer, NoMemory>
    ensures { Settles ended result }
{
    match ended {
        Ok(answer) => Ok(answer),
        Err(Halt::Answered(answer)) => Ok(answer),
        Err(Halt::Memory) => Err(NoMemory),
    }
}

/// Does all that the planner does with these words over the files of the desk, and sends one text.
///
/// - `plan TOUR LOG CERT` reads a tour and a log from the files of the first two names, plans the tour
///   after the log, puts a certificate of what it found into the file of the third name, and then sends
///   the report of a shortest schedule, or that there is none. After it may stand `--budget` and the
///   number of labels that the search may keep, from 1 to 500,000 (else 200,000).
/// - `check TOUR LOG CERT` reads three files, and says whether the third holds a valid certificate of
///   the tour after the log.
/// - `audit TOUR LOG` says whether the log is lawful.
/// - `graph TOUR LOG` sends the graph of the log, and does not judge it.
/// - `make N TOUR LOG` puts the tour of the number N, from 0 to 999,999, and its log into the files of
///   these names, the tour first, plans that tour with 200,000 labels, and says how many stops it has
///   and how long a shortest schedule takes.
///
/// The status tells how the call ended. It is the first of these that holds:
///
/// - `Usage` where the words are others,
/// - `ReadFault` where the tour's file cannot be read, `Refused` where it gives no tour,
/// - `ReadFault` where the log's file cannot be read, `Refused` where it gives no log,
/// - of `graph` then `Done`,
/// - `LogUnlawful` where the log breaks a rule,
/// - of `audit` then `Done`,
/// - of `check`: `ReadFault` where the certificate's file cannot be read, `Rejected` where it holds no
///   valid certificate or is longer than one may be, else `Done`,
/// - of `plan`: `Spent` where the search may keep no more labels, `WriteFault` where the certificate
///   cannot be put, `Infeasible` where no schedule serves the tour lawfully, else `Done`.
///
/// `make` reads no file. It ends with `WriteFault` where the tour's file or then the log's cannot be
/// put, `Spent` where the search may keep no more labels, `Infeasible` where no schedule serves the tour
/// lawfully, else `Done`.
///
/// `WriteFault` too where the sink did not take the whole text, `Memory` where there was no memory; a
/// file may have been put then.
pub fn drive_tool<D: Desk, S: Sink>(
    alloc: Global,
    words: &[Word],
    desk: &mut D,
    out: &mut S,
) -> Status
    // For each sentence: what each status means, byte for byte, and which status may come where.
    ensures ends { Ends words.now
        (read_side D.Desk desk.old desk.new)
        (write_side D.Desk desk.old desk.new)
        (sink_side S.Sink out.old out.new) result }
{
    match settled(answer(alloc, words, desk)) {
        Ok(answer) => send_answer(&answer, out),
        Err(_) => Status::Memory,
    }
}
