//! Prints the rules that a log breaks with marks that are given as words, or `none`: a program with
//! which the definitions of the rules are compared with others. It is no command of the planner.
//!
//! Its words are `TOUR LOG`, then `split TIME` for each rest run that a mark names and `defer TIME`
//! for each day that one defers; the time of a day is its first minute.
#![tactic(auto)]

mod marks;

use crate::marks::read_marks;
use duty_core::{NoMemory, unit_of};
use duty_log::{LOG_LIMIT, read_log};
use outside::{Desk, DiskDesk, Sink, StdSink, Word};
use rule_readings::{Rules, broken};
use std::alloc::Global;
use std::env;
use std::process::ExitCode;
use std::rt::Env;
use tour_reader::{TOUR_LIMIT, read_tour};

/// The program's arguments, or none where one of them cannot be had.
fn words(rt: &(impl Env + AllocGlobal)) -> Result<Vec<Word>, NoMemory> {
    let mut words = Vec::new(rt.alloc());
    if let Ok(args) = env::args(rt) {
        for argument in args.skip(1) {
            words.push(Word::new(rt.alloc(), argument.as_str())?)?;
        }
    }
    Ok(words)
}

/// The rules' names with one space between them and a line feed after, or `none`.
fn told(alloc: Global, rules: &Rules) -> Result<Vec<u8>, NoMemory> {
    let mut line = Vec::new(alloc);
    for rule in rules.items() {
        if !line.is_empty() {
            line.push(b' ')?;
        }
        line.extend_from_slice(rule.name().as_bytes())?;
    }
    if line.is_empty() {
        line.extend_from_slice(b"none")?;
    }
    line.push(b'\n')?;
    Ok(line)
}

/// The line that the program prints for these words, or what stopped it.
fn line<D: Desk>(alloc: Global, words: &[Word], desk: &mut D) -> Result<Vec<u8>, &'static str> {
    if words.len() < 2 {
        return Err("words\n");
    }
    let bytes = desk
        .fetch(alloc, &words[0], TOUR_LIMIT)
        .map_err(|_| "tour file\n")?;
    let tour = read_tour(alloc, &bytes).map_err(|_| "tour\n")?;
    let bytes = desk
        .fetch(alloc, &words[1], LOG_LIMIT)
        .map_err(|_| "log file\n")?;
    let log = read_log(alloc, &bytes, tour.params, tour.start).map_err(|_| "log\n")?;
    let marks = read_marks(alloc, &words[2..], tour.params)?;
    let first = tour.start - unit_of(tour.params) * log.len();
    if first % unit_of(tour.params) != 0 {
        return Err("log\n");
    }
    let rules = broken(alloc, tour.params, &log, first, &marks).map_err(|_| "memory\n")?;
    told(alloc, &rules).map_err(|_| "memory\n")
}

fn main(rt: HostRuntime) -> ExitCode {
    let mut desk = DiskDesk::new(&rt, rt.alloc());
    let mut out = StdSink::new(&rt);
    let Ok(words) = words(&rt) else {
        return ExitCode::from(2);
    };
    match line(rt.alloc(), &words, &mut desk) {
        Ok(line) => {
            let sent = out.send(&line);
            ExitCode::from(u8::from(sent.is_err()))
        }
        Err(cause) => {
            let _ = out.send(cause.as_bytes());
            ExitCode::from(2)
        }
    }
}
