//! The forms of calls, one row each.
use crate::{Command, command_of};
use outside::Word;
use std::alloc::Global;
use std::process::Abort;
use std::test::Fail;

/// What the words ask for, in one line: the command's name, its names of files and its number;
/// `usage` where they are no command.
fn told(alloc: Global, words: &[&str]) -> Result<String, Fail> {
    let mut given = Vec::new(alloc);
    for word in words {
        given.push(Word::new(alloc, word)?)?;
    }
    let text = match command_of(alloc, given.as_slice())? {
        None => "usage".to_string(alloc)?,
        Some(
            Command::Plan {
                tour,
                log,
                cert,
                budget,
            },
        ) => {
            format!(in alloc;
                "plan {} {} {} {budget}",
                tour.as_str(),
                log.as_str(),
                cert.as_str()
            )?
        }
        Some(Command::Check { tour, log, cert }) => {
            format!(in alloc;
                "check {} {} {}",
                tour.as_str(),
                log.as_str(),
                cert.as_str()
            )?
        }
        Some(Command::Audit { tour, log }) => {
            format!(in alloc; "audit {} {}", tour.as_str(), log.as_str())?
        }
        Some(Command::Graph { tour, log }) => {
            format!(in alloc; "graph {} {}", tour.as_str(), log.as_str())?
        }
        Some(Command::Make { number, tour, log }) => {
            format!(in alloc; "make {number} {} {}", tour.as_str(), log.as_str())?
        }
    };
    Ok(text)
}

/// Each row's words ask for what the row says.
fn rows_hold(rt: &impl Abort, alloc: Global, rows: &[(&[&str], &str)]) -> Result<(), Fail> {
    for (words, wanted) in rows {
        assert_eq!(rt; told(alloc, words)?.as_str(), *wanted, "at {words:?}");
    }
    Ok(())
}

/// Forms without options.
const PLAIN: &[(&[&str], &str)] = &[
    // Plain forms.
    (&["plan", "T", "L", "C"], "plan T L C 200000"),
    (&["check", "T", "L", "C"], "check T L C"),
    (&["audit", "T", "L"], "audit T L"),
    (&["graph", "T", "L"], "graph T L"),
    (&["make", "7", "T", "L"], "make 7 T L"),
    // Two names may be equal.
    (&["plan", "F", "F", "F"], "plan F F F 200000"),
    (&["graph", "F", "F"], "graph F F"),
];

/// Budgets.
const BUDGETS: &[(&[&str], &str)] = &[
    // A budget stands anywhere after the name.
    (&["plan", "T", "L", "C", "--budget", "3"], "plan T L C 3"),
    (&["plan", "T", "L", "C", "--budget=3"], "plan T L C 3"),
    (&["plan", "--budget", "3", "T", "L", "C"], "plan T L C 3"),
    (&["plan", "T", "--budget=3", "L", "C"], "plan T L C 3"),
    (&["--budget", "3", "plan", "T", "L", "C"], "usage"),
    // A budget is a number in its bounds.
    (&["plan", "T", "L", "C", "--budget", "0"], "usage"),
    (&["plan", "T", "L", "C", "--budget", "1"], "plan T L C 1"),
    (
        &["plan", "T", "L", "C", "--budget", "500000"],
        "plan T L C 500000",
    ),
    (&["plan", "T", "L", "C", "--budget", "500001"], "usage"),
    (
        &["plan", "T", "L", "C", "--budget", "18446744073709551617"],
        "usage",
    ),
    // A budget is read as a `u32`.
    (&["plan", "T", "L", "C", "--budget", "+3"], "plan T L C 3"),
    (&["plan", "T", "L", "C", "--budget", "007"], "plan T L C 7"),
    (&["plan", "T", "L", "C", "--budget", "x"], "usage"),
    (&["plan", "T", "L", "C", "--budget", "3 "], "usage"),
    (&["plan", "T", "L", "C", "--budget", "-3"], "usage"),
    (&["plan", "T", "L", "C", "--budget=-3"], "usage"),
    (&["plan", "T", "L", "C", "--budget", ""], "usage"),
    (&["plan", "T", "L", "C", "--budget="], "usage"),
    // A budget is given once and whole.
    (
        &["plan", "T", "L", "C", "--budget", "3", "--budget", "3"],
        "usage",
    ),
    (
        &["plan", "T", "L", "C", "--budget=3", "--budget=4"],
        "usage",
    ),
    (&["plan", "T", "L", "C", "--budget"], "usage"),
    (&["plan", "T", "L", "C", "--budget", "--", "3"], "usage"),
    (&["plan", "T", "L", "C", "--bud", "3"], "usage"),
    (&["check", "T", "L", "C", "--budget", "3"], "usage"),
    (&["make", "7", "T", "L", "--budget", "3"], "usage"),
];

/// Two hyphens, and names that begin with one.
const HYPHENS: &[(&[&str], &str)] = &[
    // Two hyphens end the options.
    (&["plan", "--", "T", "L", "C"], "plan T L C 200000"),
    (&["plan", "T", "L", "C", "--"], "plan T L C 200000"),
    (&["plan", "T", "L", "--", "-c"], "plan T L -c 200000"),
    (
        &["plan", "--budget", "3", "--", "-t", "-l", "--budget"],
        "plan -t -l --budget 3",
    ),
    (&["plan", "--", "T", "L", "C", "--budget", "3"], "usage"),
    (&["audit", "--", "--", "-l"], "audit -- -l"),
    (&["--", "audit", "T", "L"], "usage"),
    // Names that begin with a hyphen.
    (&["plan", "-", "-", "-"], "plan - - - 200000"),
    (&["audit", "-t", "L"], "usage"),
    (&["audit", "T", "--log"], "usage"),
    (&["audit", "T", "-1"], "usage"),
    (&["audit", "T", "--", "-1"], "audit T -1"),
    (&["audit", "", "L"], "audit  L"),
];

/// Numbers of made tours.
const NUMBERS: &[(&[&str], &str)] = &[
    (&["make", "0", "T", "L"], "make 0 T L"),
    (&["make", "999999", "T", "L"], "make 999999 T L"),
    (&["make", "1000000", "T", "L"], "usage"),
    (&["make", "+3", "T", "L"], "make 3 T L"),
    (&["make", "x", "T", "L"], "usage"),
    (&["make", "", "T", "L"], "usage"),
    (&["make", "-3", "T", "L"], "usage"),
    (&["make", "--", "-3", "T", "L"], "usage"),
    (&["make", "--", "-0", "T", "L"], "usage"),
    (&["make", "T", "L", "3"], "usage"),
];

/// Words that are too few or too many.
const COUNTS: &[(&[&str], &str)] = &[
    // Too few words.
    (&[], "usage"),
    (&["plan"], "usage"),
    (&["plan", "T", "L"], "usage"),
    (&["check", "T", "L"], "usage"),
    (&["audit", "T"], "usage"),
    (&["graph", "T"], "usage"),
    (&["make", "7", "T"], "usage"),
    // Too many words.
    (&["plan", "T", "L", "C", "D"], "usage"),
    (&["check", "T", "L", "C", "D"], "usage"),
    (&["audit", "T", "L", "C"], "usage"),
    (&["graph", "T", "L", "C"], "usage"),
    (&["make", "7", "T", "L", "C"], "usage"),
];

/// Other first words, and flags.
const OTHERS: &[(&[&str], &str)] = &[
    // Other first words.
    (&["help"], "usage"),
    (&["Plan", "T", "L", "C"], "usage"),
    (&["pla", "T", "L", "C"], "usage"),
    (&["", "T", "L"], "usage"),
    (&["--help"], "usage"),
    // No flag asks for help or a version.
    (&["plan", "--help"], "usage"),
    (&["plan", "T", "L", "C", "--help"], "usage"),
    (&["audit", "T", "L", "-h"], "usage"),
    (&["audit", "T", "L", "--version"], "usage"),
    (&["audit", "T", "L", "-V"], "usage"),
    (&["audit", "help", "L"], "audit help L"),
];

#[test]
fn words_ask_for_commands(rt: HostRuntime) -> Result<(), Fail> {
    for rows in [PLAIN, BUDGETS, HYPHENS, NUMBERS, COUNTS, OTHERS] {
        rows_hold(&rt, rt.alloc(), rows)?;
    }
    Ok(())
}
