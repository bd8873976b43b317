//! A certificate by hand, and what becomes of it where its text is changed.
ghost use Rattle.std.specs.Prelude.{◌≡◌, IfOk, false};
ghost use Rattle.duty_core.specs.declared.params.Params.TheVariants.{UsProperty};
ghost use Rattle.tour_model.specs.Tour.{IsStop, IsTour};

use crate::top::check_cert;
use crate::verdict::{Reason, Verdict};
use Reason::{Finished, Grammar, Lawful, Length, Repeated, Root, Serves, State, Successor};
use duty_core::{NoMemory, Params};
use rule_core::{Replayed, replay};
use std::alloc::Global;
use std::process::Abort;
use std::test::Fail;
use timeline::Timeline;
use tour_model::{Name, Stop, Stops, Tour, Window, Windows};
use us_rules::UsBook;

/// The rested driver waits for half an hour, drives for one and serves for one. Of the two labels
/// each has departed nowhere: whoever drives at once takes an hour and a half.
const LINES: [&str; 14] = [
    "duty-cert 1",
    "kind shortest",
    "target 2",
    "schedule 3",
    "r 1 O",
    "r 1 D",
    "r 1 S",
    "marks 0",
    "layers 2",
    "layer 0 1",
    "l - 0 40320 0 0 0 0 40320 0 0 40320 0 0 30 0 2040 0 0 0 0 0 0 0 0",
    "layer 1 1",
    "l - 0 40350 0 0 0 0 40350 0 0 40350 0 0 30 0 2040 0 0 0 0 0 0 0 0",
    "end",
];

/// Lines that are no target.
const NO_TARGETS: [&str; 7] = [
    "target 02",
    "target +2",
    "target 2\r",
    "target\t2",
    "target  2",
    "target 2 ",
    "target 0",
];

/// Lines of labels that are none of layer 1: no state, a departure with nothing done, the reverse, a
/// departure that is to come, and more done than there is to do.
const NO_LABELS: [&str; 5] = [
    "l - 0 7",
    "l 0 0 40350 0 0 0 0 40350 0 0 40350 0 0 30 0 2040 0 0 0 0 0 0 0 0",
    "l - 1 40350 0 0 0 0 40350 0 0 40350 0 0 30 0 2040 0 0 0 0 0 0 0 0",
    "l 1 1 40350 0 0 0 0 40350 0 0 40350 0 0 30 0 2040 0 0 0 0 0 0 0 0",
    "l 0 3 40350 0 0 0 0 40350 0 0 40350 0 0 30 0 2040 0 0 0 0 0 0 0 0",
];

/// A stop of one step of driving and one of service, which begins an hour after the start.
fn stop_of(alloc: Global) -> Result<Stop, NoMemory>
    ensures { IfOk result (IsStop 30) }
{
    let mut name = Name::new(alloc);
    name.push(b'A')?;
    let mut windows = Windows::new(alloc);
    windows.push(Window {
        opens: 2,
        closes: 2,
    })?;
    Ok(Stop {
        name,
        drive: 1,
        service: 1,
        windows,
    })
}

/// The tour of that stop, in the United States, from 2026-03-02T00:00 on.
fn tour_of(alloc: Global, stop: Stop) -> Result<Tour, NoMemory>
    requires { IsStop 30 stop }
    ensures tour { IfOk result IsTour }
    ensures params { IfOk result (λ tour. tour.params ≡ UsProperty false 8 0) }
{
    let mut stops = Stops::new(alloc);
    stops.push(stop)?;
    Ok(Tour {
        params: Params::UsProperty {
            berth: false,
            days: 8,
            day_start: 0,
        },
        grid: 30,
        start: 13_762_080,
        stops,
    })
}

/// What a check of the bytes finds, for the tour after an empty log.
fn verdict(alloc: Global, tour: &Tour, text: &[u8]) -> Result<Option<Verdict>, NoMemory>
    requires tour { IsTour tour.now }
    requires params { tour.now.params ≡ UsProperty false 8 0 }
{
    let log = Timeline::new(alloc);
    let book = UsBook::new(false, 8, 0);
    let replayed = replay(alloc, &book, &log, tour.start)?;
    match replayed {
        Replayed::Lawful(_) => Ok(Some(check_cert(alloc, tour, &log, text)?)),
        Replayed::Unlawful { .. } => Ok(None),
    }
}

/// Puts a line after the text.
fn put_line(text: &mut Vec<u8>, line: &str) -> Result<(), NoMemory> {
    text.extend_from_slice(line.as_bytes())?;
    text.push(b'\n')?;
    Ok(())
}

/// A change of the text: so many lines from the line `first` on, counted from 1, are replaced.
#[derive(Clone, Copy)]
struct Change<'a> {
    first: usize,
    count: usize,
    new: &'a [&'a str],
}

/// The change that puts these lines in place of so many.
fn swap<'a>(first: usize, count: usize, new: &'a [&'a str]) -> Change<'a> {
    Change { first, count, new }
}

/// The text after the change.
fn text_with(alloc: Global, change: Change<'_>) -> Result<Vec<u8>, NoMemory> {
    let Change { first, count, new } = change;
    let mut text = Vec::new(alloc);
    for (index, line) in LINES.iter().enumerate() {
        let number = index + 1;
        if number == first {
            for line in new {
                put_line(&mut text, *line)?;
            }
        }
        if number < first || number - first >= count {
            put_line(&mut text, *line)?;
        }
    }
    Ok(text)
}

/// Checks that the text after the change is rejected at this line, for this reason.
fn is_rejected(
    rt: &impl Abort,
    alloc: Global,
    change: Change<'_>,
    line: u64,
    reason: Reason,
) -> Result<(), Fail> {
    let tour = tour_of(alloc, stop_of(alloc)?)?;
    let text = text_with(alloc, change)?;
    assert_eq!(rt;
        verdict(alloc, &tour, &text)?,
        Some(Verdict::Rejected { line, reason })
    );
    Ok(())
}

#[test]
fn accepts_a_certificate_by_hand(rt: HostRuntime) -> Result<(), Fail> {
    let alloc = rt.alloc();
    let tour = tour_of(alloc, stop_of(alloc)?)?;
    let text = text_with(alloc, swap(1, 0, &[]))?;
    assert_eq!(rt;
        verdict(alloc, &tour, &text)?,
        Some(Verdict::Shortest { steps: 2 })
    );
    Ok(())
}

#[test]
fn rejects_each_cut_and_each_line_twice(rt: HostRuntime) -> Result<(), Fail> {
    let alloc = rt.alloc();
    for (index, line) in LINES.iter().enumerate() {
        let number = index as u64 + 1;
        is_rejected(&rt, alloc, swap(index + 1, 14, &[]), number, Grammar)?;
        let twice = &[*line, *line];
        is_rejected(&rt, alloc, swap(index + 1, 1, twice), number + 1, Grammar)?;
    }
    Ok(())
}

#[test]
fn rejects_what_is_no_text(rt: HostRuntime) -> Result<(), Fail> {
    let alloc = rt.alloc();
    for line in NO_TARGETS.iter() {
        is_rejected(&rt, alloc, swap(3, 1, &[*line]), 3, Grammar)?;
    }
    is_rejected(&rt, alloc, swap(4, 1, &["schedule 2"]), 7, Grammar)?;
    is_rejected(&rt, alloc, swap(4, 1, &["schedule 4"]), 8, Grammar)?;
    is_rejected(&rt, alloc, swap(8, 1, &["marks 1"]), 9, Grammar)?;
    is_rejected(&rt, alloc, swap(9, 1, &["layers 1"]), 12, Grammar)?;
    is_rejected(&rt, alloc, swap(9, 1, &["layers 3"]), 14, Grammar)?;
    is_rejected(&rt, alloc, swap(10, 1, &["layer 1 1"]), 10, Grammar)?;
    let tour = tour_of(alloc, stop_of(alloc)?)?;
    let mut text = text_with(alloc, swap(1, 0, &[]))?;
    let last = text.pop();
    assert_eq!(rt; last, Some(b'\n'));
    let reason = Grammar;
    assert_eq!(rt;
        verdict(alloc, &tour, &text)?,
        Some(Verdict::Rejected { line: 14, reason })
    );
    Ok(())
}

#[test]
fn names_the_first_condition_on_the_claim_that_fails(rt: HostRuntime) -> Result<(), Fail> {
    let alloc = rt.alloc();
    is_rejected(&rt, alloc, swap(3, 1, &["target 3"]), 4, Length)?;
    is_rejected(&rt, alloc, swap(5, 2, &["r 1 D", "r 1 O"]), 4, Length)?;
    is_rejected(&rt, alloc, swap(6, 2, &["r 1 S", "r 1 D"]), 4, Serves)?;
    is_rejected(&rt, alloc, swap(5, 1, &["r 2 O"]), 4, Serves)?;
    let marks = &["marks 1", "m split 2026-03-02T00:00"];
    is_rejected(&rt, alloc, swap(8, 1, marks), 8, Lawful)?;
    is_rejected(&rt, alloc, swap(9, 5, &["layers 0"]), 9, Root)?;
    is_rejected(&rt, alloc, swap(10, 2, &["layer 0 0"]), 10, Root)?;
    is_rejected(&rt, alloc, swap(11, 1, &["l - 0 7"]), 10, Root)
}

/// The label of layer 1 with another one after it.
fn layer_with(label: &str) -> [&str; 3] {
    ["layer 1 2", LINES[12], label]
}

#[test]
fn names_the_first_label_that_fails(rt: HostRuntime) -> Result<(), Fail> {
    let alloc = rt.alloc();
    for label in NO_LABELS.iter() {
        is_rejected(&rt, alloc, swap(12, 2, &layer_with(*label)), 14, State)?;
    }
    let finished = layer_with("l 0 2 40350 0 0 0 0 40350 0 0 40350 0 0 30 0 2040 0 0 0 0 0 0 0 0");
    is_rejected(&rt, alloc, swap(12, 2, &finished), 14, Finished)?;
    let repeated = layer_with(LINES[12]);
    is_rejected(&rt, alloc, swap(12, 2, &repeated), 14, Repeated)?;
    // The wait of the first label is not answered by a label that has departed.
    let departed = &["l 0 1 40350 0 0 0 0 40350 0 0 40350 0 0 30 0 2040 0 0 0 0 0 0 0 0"];
    is_rejected(&rt, alloc, swap(13, 1, departed), 11, Successor)?;
    // A schedule of three steps is no shortest one: to drive at the second step takes two.
    let slower = &["target 3", "schedule 3", "r 1 D", "r 1 O"];
    is_rejected(&rt, alloc, swap(3, 4, slower), 13, Successor)?;
    let none = &["kind infeasible", "target -", "schedule 0", "marks 0"];
    is_rejected(&rt, alloc, swap(2, 7, none), 8, Successor)
}
