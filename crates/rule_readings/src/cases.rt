//! Cases told in words: histories with their marks, and the rules that they break.
//!
//! A history's words are activities, each with its units, as `drive 300 off 180`. Besides, `times 3`
//! has all that stands before it three times, `split 300` and `defer 0` are marks, of a rest so many
//! minutes after 2026-03-01T00:00 and of a day so many days after it, and a history with `from 4`
//! begins four quarters of an hour after that time.
ghost use Rattle.std.specs.Prelude.{◌<◌, ◌≤◌, ◌^◌};
ghost use Rattle.duty_core.specs.Params.{AreGoodParams};

use crate::{Rules, broken};
use Activity::{Berth, Drive, Off, Serve, Wait};
use duty_core::{Activity, Mark, Marks, Minute, NoMemory, Params, Rule};
use std::alloc::Global;
use std::process::Abort;
use std::test::Fail;
use timeline::{Run, Timeline};

/// 2026-03-01T00:00, in quarters of an hour from 2000-01-01T00:00.
pub(crate) const FIRST_OF_MARCH: u32 = 917_376;

/// The day that begins there.
const FIRST_DAY: i32 = 9_556;

/// A history that begins at a quarter of an hour, with its marks.
#[derive(Drop)]
pub(crate) struct Case {
    pub(crate) quarter: u32,
    pub(crate) history: Timeline,
    pub(crate) marks: Marks,
}

/// What a number tells.
#[derive(Clone, Copy)]
enum Kind {
    Units(Activity),
    Times,
    Split,
    Defer,
    From,
}

/// What a number after this word tells.
fn kind_of(word: &str) -> Result<Kind, &'static str> {
    match word {
        "drive" => Ok(Kind::Units(Drive)),
        "serve" => Ok(Kind::Units(Serve)),
        "wait" => Ok(Kind::Units(Wait)),
        "off" => Ok(Kind::Units(Off)),
        "berth" => Ok(Kind::Units(Berth)),
        "times" => Ok(Kind::Times),
        "split" => Ok(Kind::Split),
        "defer" => Ok(Kind::Defer),
        "from" => Ok(Kind::From),
        _ => Err("word"),
    }
}

/// Puts the runs after the history.
fn push_runs(history: &mut Timeline, runs: &[Run]) -> Result<(), Fail> {
    for run in runs {
        history.push_run(run.act, run.to.saturating_sub(run.from))?;
    }
    Ok(())
}

/// Puts so many copies of the history after it.
fn push_copies(history: &mut Timeline, copies: u32) -> Result<(), Fail> {
    let copy = history.copy()?;
    for _ in 0..copies {
        push_runs(history, copy.runs())?;
    }
    Ok(())
}

impl Case {
    /// The case of these words.
    pub(crate) fn new(alloc: Global, words: &str) -> Result<Case, Fail> {
        let mut case = Case {
            quarter: FIRST_OF_MARCH,
            history: Timeline::new(alloc),
            marks: Marks::new(alloc),
        };
        case.read(words)?;
        Ok(case)
    }

    /// Puts what these words tell after what has been told.
    pub(crate) fn read(&mut self, words: &str) -> Result<(), Fail> {
        let mut kind = Kind::From;
        for word in words.split_whitespace() {
            match word.parse::<i32>() {
                Ok(number) => self.put(kind, number)?,
                Err(_) => kind = kind_of(word)?,
            }
        }
        Ok(())
    }

    /// Puts what a number tells after what has been told.
    fn put(&mut self, kind: Kind, number: i32) -> Result<(), Fail> {
        let count = number.unsigned_abs();
        match kind {
            Kind::Units(act) => self.history.push_run(act, count)?,
            Kind::Times => push_copies(&mut self.history, count.saturating_sub(1))?,
            Kind::Split => self.marks.push(Mark::SplitRest {
                at: (15 * FIRST_OF_MARCH).saturating_add(count),
            })?,
            Kind::Defer => self.marks.push(Mark::DeferDay {
                day: FIRST_DAY.saturating_add(number),
            })?,
            Kind::From => self.quarter = FIRST_OF_MARCH.saturating_add(count),
        }
        Ok(())
    }
}

/// The names of the rules, with a space between them, or `none`.
fn names_of(alloc: Global, rules: &[Rule]) -> Result<String, Fail> {
    let mut names = String::new(alloc);
    for rule in rules {
        if !names.is_empty() {
            names.push_str(" ")?;
        }
        names.push_str(rule.name())?;
    }
    if names.is_empty() {
        names.push_str("none")?;
    }
    Ok(names)
}

/// The rules that the case's history breaks with its marks.
fn broken_by(alloc: Global, params: Params, case: &Case) -> Result<Rules, NoMemory>
    requires good { AreGoodParams params }
    requires late { 96 ≤ case.now.quarter }
    requires early { case.now.quarter < 2 ^ 20 }
{
    let _length = case.history.len();
    let first: Minute = 15 * case.quarter;
    broken(alloc, params, &case.history, first, &case.marks)
}

/// Asserts that the history before the colon breaks just the rules after it.
fn assert_case(rt: &impl Abort, alloc: Global, params: Params, case: &str) -> Result<(), Fail>
    requires { AreGoodParams params }
{
    let (words, wanted) = case.split_once(": ").ok_or("no colon")?;
    let told = Case::new(alloc, words)?;
    assert!(rt; 96 <= told.quarter && told.quarter < 1_000_000);
    let rules = broken_by(alloc, params, &told)?;
    assert_eq!(rt; names_of(alloc, rules.items())?.as_str(), wanted, "{case}");
    Ok(())
}

/// Asserts that each history breaks just the rules that stand after it.
pub(crate) fn assert_broken(
    rt: &impl Abort,
    alloc: Global,
    params: Params,
    cases: &[&str],
) -> Result<(), Fail>
    requires { AreGoodParams params }
{
    for case in cases {
        assert_case(rt, alloc, params, case)?;
    }
    Ok(())
}
