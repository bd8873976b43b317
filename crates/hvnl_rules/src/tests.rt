//! The book's calls, and logs that it goes over.
use crate::book::HvnlBook;
use crate::nights::NightLog;
use crate::state::HvnlState;
use duty_core::{Activity, Params};
use rule_core::{Idles, Replayed, RuleBook, replay};
use std::alloc::Global;
use std::test::Fail;
use timeline::{Timeline, TimelineFault};

/// The unit up to which the log, which begins at 03:00, breaks a rule, or the number of roots that
/// it leaves.
fn replayed(alloc: Global, book: &HvnlBook, log: &Timeline) -> Result<Result<usize, u32>, Fail> {
    let _length = log.len();
    match replay(alloc, book, log, 180)? {
        Replayed::Lawful(roots) => Ok(Ok(roots.len())),
        Replayed::Unlawful { unit } => Ok(Err(unit)),
    }
}

/// Four hours or less of driving and a quarter of an hour of rest, four times, and two hours more.
fn twelve_hours(log: &mut Timeline) -> Result<(), TimelineFault> {
    for _ in 0..4 {
        log.push_run(Activity::Drive, 10)?;
        log.push_run(Activity::Off, 1)?;
    }
    log.push_run(Activity::Drive, 8)
}

/// So many days with a quarter of an hour of driving each, and then a day of rest.
fn short_nights(log: &mut Timeline, days: u32) -> Result<(), TimelineFault> {
    for _ in 0..days {
        log.push_run(Activity::Drive, 1)?;
        log.push_run(Activity::Off, 95)?;
    }
    log.push_run(Activity::Drive, 1)?;
    log.push_run(Activity::Off, 96)
}

#[test]
fn works_five_and_a_quarter_hours(rt: HostRuntime) -> Result<(), Fail> {
    let book = HvnlBook::new(rt.alloc());
    for (driving, outcome) in [(21, Ok(1)), (22, Err(21))] {
        let mut log = Timeline::new(rt.alloc());
        log.push_run(Activity::Drive, driving)?;
        log.push_run(Activity::Off, 1)?;
        log.push_run(Activity::Serve, 1)?;
        assert_eq!(rt; replayed(rt.alloc(), &book, &log)?, outcome, "{driving}");
    }
    Ok(())
}

#[test]
fn works_twelve_hours_in_a_day(rt: HostRuntime) -> Result<(), Fail> {
    let book = HvnlBook::new(rt.alloc());
    for (rest, outcome) in [(44, Ok(1)), (43, Err(95))] {
        let mut log = Timeline::new(rt.alloc());
        twelve_hours(&mut log)?;
        log.push_run(Activity::Off, rest)?;
        log.push_run(Activity::Serve, 1)?;
        assert_eq!(rt; replayed(rt.alloc(), &book, &log)?, outcome, "{rest}");
    }
    Ok(())
}

#[test]
fn wants_four_nights_of_fourteen_days(rt: HostRuntime) -> Result<(), Fail> {
    let book = HvnlBook::new(rt.alloc());
    let mut log = Timeline::new(rt.alloc());
    // Each night is interrupted after 03:00, but for two with a day of rest over their midnight.
    short_nights(&mut log, 4)?;
    short_nights(&mut log, 5)?;
    log.push_run(Activity::Drive, 1)?;
    log.push_run(Activity::Off, 95)?;
    assert_eq!(rt; replayed(rt.alloc(), &book, &log)?, Ok(1));
    // Of the thirteen nights only one is left.
    log.push_run(Activity::Drive, 1)?;
    assert_eq!(rt; replayed(rt.alloc(), &book, &log)?, Err(1154));
    Ok(())
}

/// So many times two days with one night's break: the second day begins at 08:00, and all others at
/// 03:00. Then as many days as that, with no break.
fn single_nights(log: &mut Timeline, times: u32) -> Result<(), TimelineFault> {
    for _ in 0..times {
        log.push_run(Activity::Drive, 1)?;
        log.push_run(Activity::Off, 115)?;
        log.push_run(Activity::Drive, 1)?;
        log.push_run(Activity::Off, 75)?;
    }
    for _ in 0..times {
        log.push_run(Activity::Drive, 1)?;
        log.push_run(Activity::Off, 95)?;
    }
    Ok(())
}

#[test]
fn wants_two_nights_on_end(rt: HostRuntime) -> Result<(), Fail> {
    let book = HvnlBook::new(rt.alloc());
    let mut log = Timeline::new(rt.alloc());
    single_nights(&mut log, 4)?;
    assert_eq!(rt; replayed(rt.alloc(), &book, &log)?, Ok(1));
    // Four nights have a break, and only one is left.
    log.push_run(Activity::Drive, 1)?;
    assert_eq!(rt; replayed(rt.alloc(), &book, &log)?, Err(1152));
    Ok(())
}

/// A day's short rests, the longest of so many quarters, and work in its eighteenth hour.
fn short_rests(log: &mut Timeline, longest: u32) -> Result<(), TimelineFault> {
    log.push_run(Activity::Drive, 10)?;
    log.push_run(Activity::Off, 1)?;
    log.push_run(Activity::Drive, 10)?;
    log.push_run(Activity::Off, longest)?;
    log.push_run(Activity::Drive, 1)?;
    log.push_run(Activity::Off, 19)?;
    log.push_run(Activity::Serve, 1)
}

#[test]
fn wants_seven_hours_of_rest_on_end(rt: HostRuntime) -> Result<(), Fail> {
    let book = HvnlBook::new(rt.alloc());
    for (longest, outcome) in [(27, Err(68)), (28, Ok(1))] {
        let mut log = Timeline::new(rt.alloc());
        short_rests(&mut log, longest)?;
        assert_eq!(rt; replayed(rt.alloc(), &book, &log)?, outcome, "{longest}");
    }
    Ok(())
}

/// The numbers of a state after a first quarter of driving: six limits, two needs, a period that
/// began a quarter ago, and no rest.
const NUMBERS: [u32; 21] = [
    6, 2, 1, 0, 21, 20, 31, 29, 43, 39, 95, 47, 671, 287, 1343, 575, 95, 28, 671, 96, 15,
];

#[test]
fn reads_no_other_numbers(rt: HostRuntime) -> Result<(), Fail> {
    let book = HvnlBook::new(rt.alloc());
    assert!(rt; book.read_state(&[], 15)?.is_none());
    assert!(rt; book.read_state(&NUMBERS[1..], 15)?.is_none());
    // The period of fourteen days began before the first minute, and at no later one.
    assert!(rt; book.read_state(&NUMBERS, 14)?.is_none());
    let mut rested = [0, 0, 0, 96];
    assert!(rt; book.read_state(&rested, 15)?.is_some());
    rested[3] = 97;
    assert!(rt; book.read_state(&rested, 15)?.is_none());
    Ok(())
}

#[test]
fn notes_a_night_at_its_seventh_hour(rt: HostRuntime) -> Result<(), Fail> {
    let mut nights = NightLog::new(rt.alloc());
    nights.work(480, 28)?;
    assert_eq!(rt; nights.starts(), [480].as_slice());
    nights.rest(1725, 27)?;
    assert!(rt; nights.dates().is_empty());
    nights.rest(1725, 28)?;
    assert_eq!(rt; nights.dates(), [1].as_slice());
    nights.keep_open(20639);
    assert_eq!(rt; nights.dates(), [1].as_slice());
    nights.keep_open(20640);
    assert!(rt; nights.starts().is_empty() && nights.dates().is_empty());
    Ok(())
}

#[test]
fn answers_each_call(rt: HostRuntime) -> Result<(), Fail> {
    let book = HvnlBook::new(rt.alloc());
    assert_eq!(rt; book.params(), Params::Hvnl {});
    let root = book.root(0)?;
    let idles = Idles {
        first: Activity::Off,
        second: Some(Activity::Wait),
    };
    assert_eq!(rt; book.idles(&root), idles);
    let copy = book.copy(&root)?;
    assert!(rt; book.covers(&root, &copy, 0));
    assert!(rt; !book.ahead(&root));
    Ok(())
}

/// Whether the state with these numbers may stand for the one with those, at a minute at which no
/// period of fourteen days is open.
fn state_covers(alloc: Global, numbers: &[u32], others: &[u32]) -> Result<bool, Fail> {
    let state = HvnlState::of_numbers(alloc, numbers, 15)?;
    let other = HvnlState::of_numbers(alloc, others, 15)?;
    match (state, other) {
        (Some(state), Some(other)) => Ok(state.covers(&other, 15)),
        _ => Ok(false),
    }
}

/// Whether a history that asks nothing and ends with so many rest units may stand for one that ends
/// with `other` of them.
fn run_covers(alloc: Global, run: u32, other: u32) -> Result<bool, Fail> {
    state_covers(alloc, &[0, 0, 0, run], &[0, 0, 0, other])
}

#[test]
fn a_longer_run_covers_from_seven_hours_on(rt: HostRuntime) -> Result<(), Fail> {
    let alloc = rt.alloc();
    assert!(rt; run_covers(alloc, 40, 28)?);
    assert!(rt; run_covers(alloc, 96, 95)?);
    assert!(rt; run_covers(alloc, 27, 27)?);
    // The longer run is the first to begin further periods.
    assert!(rt; !run_covers(alloc, 28, 27)?);
    assert!(rt; !run_covers(alloc, 1, 0)?);
    assert!(rt; !run_covers(alloc, 28, 40)?);
    Ok(())
}

#[test]
fn a_need_that_forces_rest_covers(rt: HostRuntime) -> Result<(), Fail> {
    let alloc = rt.alloc();
    // The other rests until it has seven hours, and this one has them half an hour earlier.
    assert!(rt; state_covers(alloc, &[0, 1, 0, 2, 26, 28], &[0, 1, 0, 0, 28, 28])?);
    assert!(rt; !state_covers(alloc, &[0, 1, 0, 0, 28, 28], &[0, 1, 0, 2, 26, 28])?);
    // The other may work for a quarter of an hour first.
    assert!(rt; !state_covers(alloc, &[0, 1, 0, 2, 27, 28], &[0, 1, 0, 0, 29, 28])?);
    // It rests until it has a day, and so meets a need of seven hours, but not where it need not yet.
    assert!(rt; state_covers(alloc, &[0, 2, 0, 9, 19, 28, 96, 96], &[0, 1, 0, 9, 96, 96])?);
    assert!(rt; !state_covers(alloc, &[0, 2, 0, 9, 19, 28, 97, 96], &[0, 1, 0, 9, 97, 96])?);
    Ok(())
}

/// Whether a period that began so many minutes ago asks no more at this minute of a day than another
/// one, where in both histories no night has a break.
fn begun_covers(alloc: Global, minute: u32, ago: u32, other: u32) -> Result<bool, Fail> {
    let at = 20_u32.saturating_mul(1440).saturating_add(minute);
    let nights = NightLog::of_ago(alloc, at, &[ago], &[])?;
    let others = NightLog::of_ago(alloc, at, &[other], &[])?;
    Ok(nights.covers(&others, at))
}

#[test]
fn periods_with_the_same_nights_cover(rt: HostRuntime) -> Result<(), Fail> {
    let alloc = rt.alloc();
    // At 10:00: both began from 08:00 on.
    assert!(rt; begun_covers(alloc, 600, 120, 15)?);
    assert!(rt; begun_covers(alloc, 600, 15, 120)?);
    // One began before 08:00, and has a night less at its end.
    assert!(rt; begun_covers(alloc, 600, 120, 135)?);
    assert!(rt; !begun_covers(alloc, 600, 135, 120)?);
    // At 23:30: one began after 22:00, and this night does not count in it.
    assert!(rt; begun_covers(alloc, 1410, 90, 150)?);
    assert!(rt; !begun_covers(alloc, 1410, 75, 150)?);
    // At 10:00: the other has an earlier night, and it can get no break any more.
    assert!(rt; begun_covers(alloc, 600, 2880, 3600)?);
    Ok(())
}

/// Whether a period that began ten days ago asks nothing more, where the nights of so many days ago
/// have breaks.
fn covers_any(alloc: Global, days: &[u32]) -> Result<bool, Fail> {
    let at = 20 * 1440 + 600;
    let nights = NightLog::of_ago(alloc, at, &[14400], days)?;
    let others = NightLog::new(alloc);
    Ok(nights.covers(&others, at))
}

#[test]
fn a_period_with_its_nights_asks_nothing(rt: HostRuntime) -> Result<(), Fail> {
    let alloc = rt.alloc();
    assert!(rt; covers_any(alloc, &[8, 7, 5, 3])?);
    assert!(rt; !covers_any(alloc, &[8, 7, 5])?);
    // No two of them are on end.
    assert!(rt; !covers_any(alloc, &[8, 6, 4, 2])?);
    // The night of ten days ago began before the period.
    assert!(rt; !covers_any(alloc, &[10, 7, 6, 5])?);
    Ok(())
}

#[test]
fn a_night_of_the_other_is_one_here(rt: HostRuntime) -> Result<(), Fail> {
    let alloc = rt.alloc();
    let at = 20 * 1440 + 600;
    let one = NightLog::of_ago(alloc, at, &[14400], &[3])?;
    let two = NightLog::of_ago(alloc, at, &[14400], &[3, 2])?;
    assert!(rt; two.covers(&one, at));
    assert!(rt; !one.covers(&two, at));
    // A later period has not that night.
    let later = NightLog::of_ago(alloc, at, &[3600], &[2])?;
    assert!(rt; !later.covers(&one, at));
    Ok(())
}
