//! The commands, and how they are read.
ghost use Rattle.std.specs.Prelude.{◌≡◌, Some, map, slice_get, IfOk, IfNone, IfSome, MatchOption};
ghost use Rattle.command_words.specs.Calls.{call_of};
ghost use Rattle.command_words.specs.Command.{Takes, IsCommandLine, IsNoCommandLine, AreRefused, HasBudget};

use crate::calls::{self, Verb};
use crate::matched::{number_of, parse, word_of};
use duty_core::NoMemory;
use outside::Word;
use std::alloc::Global;

/// The most labels that a search may keep, where the words name no other number.
pub const BUDGET: u32 = 200_000;

/// What the planner is to do, and the names of the files that it is for.
#[derive(Drop)]
pub enum Command {
    /// `plan`: to find a shortest schedule of the tour after the log, with a search that may keep so
    /// many labels, and to put a certificate of it.
    Plan {
        tour: Word,
        log: Word,
        cert: Word,
        budget: u32,
    },
    /// `check`: to say whether the certificate is valid for the tour after the log.
    Check {
        tour: Word,
        log: Word,
        cert: Word,
    },
    /// `audit`: to say whether the log is lawful.
    Audit {
        tour: Word,
        log: Word,
    },
    /// `graph`: to send the graph of the log.
    Graph {
        tour: Word,
        log: Word,
    },
    /// `make`: to put the tour and the log of this number, and to plan them.
    Make {
        number: u32,
        tour: Word,
        log: Word,
    },
}

/// The command of this name with the words after it.
fn command_by(alloc: Global, verb: Verb, words: &[&str]) -> Result<Option<Command>, NoMemory>
    requires { slice_get (map (λ w. w.now) words.now) 0 ≡ Some (call_of verb).top.name }
    ensures { IfOk result (λ read. MatchOption read (Takes (call_of verb) (map (λ w. w.now) words.now) → ⊥) (IsCommandLine (map (λ w. w.now) words.now))) }
{
    let call = calls::call_of(alloc, verb)?;
    let Some(matches) = parse(call, words)? else {
        return Ok(None);
    };
    let tour = word_of(alloc, &matches, "tour")?;
    let log = word_of(alloc, &matches, "log")?;
    match verb {
        Verb::Plan => {
            let cert = word_of(alloc, &matches, "cert")?;
            let budget = number_of(&matches, "budget");
            Ok(Some(Command::Plan {
                tour,
                log,
                cert,
                budget,
            }))
        }
        Verb::Check => {
            let cert = word_of(alloc, &matches, "cert")?;
            Ok(Some(Command::Check { tour, log, cert }))
        }
        Verb::Audit => Ok(Some(Command::Audit { tour, log })),
        Verb::Graph => Ok(Some(Command::Graph { tour, log })),
        Verb::Make => {
            let number = number_of(&matches, "number");
            Ok(Some(Command::Make { number, tour, log }))
        }
    }
}

/// The command of texts, `None` where they are no command.
fn read_texts(alloc: Global, words: &[&str]) -> Result<Option<Command>, NoMemory>
    ensures { IfOk result (λ read. MatchOption read (AreRefused (map (λ w. w.now) words.now)) (IsCommandLine (map (λ w. w.now) words.now))) }
{
    match words.first() {
        Some(&"plan") => command_by(alloc, Verb::Plan, words),
        Some(&"check") => command_by(alloc, Verb::Check, words),
        Some(&"audit") => command_by(alloc, Verb::Audit, words),
        Some(&"graph") => command_by(alloc, Verb::Graph, words),
        Some(&"make") => command_by(alloc, Verb::Make, words),
        _ => Ok(None),
    }
}

/// The words as texts.
fn texts_of<'a>(alloc: Global, words: &'a [Word]) -> Result<Vec<&'a str>, NoMemory>
    ensures { IfOk result (λ texts. map (λ t. t.now) texts.items ≡ words.now) }
{
    let mut texts = Vec::new(alloc);
    for word in words {
        texts.push(word.as_str())?;
    }
    Ok(texts)
}

/// What the words ask for, `None` where they are no command.
///
/// The first word names the command, and `clap` reads the words after it. They are refused exactly
/// where no command of that name takes them. `NoMemory` where there is no memory to read them.
pub fn command_of(alloc: Global, words: &[Word]) -> Result<Option<Command>, NoMemory>
    ensures read { IfOk result (λ read. MatchOption read (IsNoCommandLine words.now) (IsCommandLine words.now)) }
    ensures refused { IfOk result (λ read. IfNone read (AreRefused words.now)) }
    ensures budget { IfOk result (λ read. IfSome read HasBudget) }
{
    let texts = texts_of(alloc, words)?;
    read_texts(alloc, texts.as_slice())
}
