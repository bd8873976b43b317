//! The calls of the United States' book, at days of driving and rest, and logs of such days.
ghost use Rattle.std.specs.Prelude.{◌+◌, IfOk};
ghost use Rattle.us_rules.specs.Machine.{IsUsState};

use crate::histories::{declared, moved, replayed};
use duty_core::{Activity, Mark, Minute, Params};
use rule_core::{Idles, Nexts, Numbers, RuleBook};
use std::test::Fail;
use us_rules::{UsBook, UsState};

#[test]
fn marks_a_rest_that_may_be_split(rt: HostRuntime) -> Result<(), Fail> {
    let book = UsBook::new(true, 8, 0);
    let root = book.root(0)?;
    let tired = moved(&book, &root, 0, Activity::Drive, 300)?.ok_or("refused")?;
    let rested = moved(&book, &tired, 300, Activity::Berth, 420)?.ok_or("refused")?;
    let Nexts { a, b, c } = book.step(&rested, 720, Activity::Drive)?;
    let plain = a.ok_or("refused")?;
    let split = b.ok_or("no split rest")?;
    assert!(rt; plain.mark.is_none() && c.is_none());
    assert_eq!(rt; split.mark, Some(Mark::SplitRest { at: 300 }));
    Ok(())
}

#[test]
fn answers_each_call(rt: HostRuntime) -> Result<(), Fail> {
    let book = UsBook::new(true, 7, 240);
    let params = Params::UsProperty {
        berth: true,
        days: 7,
        day_start: 240,
    };
    assert_eq!(rt; book.params(), params);
    let root = book.root(0)?;
    let copy = book.copy(&root)?;
    assert!(rt; book.covers(&root, &copy, 0));
    let driving = moved(&book, &root, 0, Activity::Drive, 1)?.ok_or("refused")?;
    let resting = moved(&book, &root, 0, Activity::Berth, 1)?.ok_or("refused")?;
    assert!(rt; book.covers(&resting, &driving, 1));
    assert!(rt; !book.covers(&driving, &resting, 1));
    let idles = Idles {
        first: Activity::Berth,
        second: None,
    };
    assert!(rt; book.ahead(&root));
    assert_eq!(rt; book.idles(&root), idles);
    Ok(())
}

#[test]
fn waits_where_a_split_rest_owes_its_pair(rt: HostRuntime) -> Result<(), Fail> {
    let book = UsBook::new(true, 8, 0);
    let root = book.root(0)?;
    let tired = moved(&book, &root, 0, Activity::Drive, 300)?.ok_or("refused")?;
    let rested = moved(&book, &tired, 300, Activity::Berth, 300)?.ok_or("refused")?;
    let split = declared(&book, &rested, 600, Activity::Wait)?.ok_or("refused")?;
    let plain = moved(&book, &rested, 600, Activity::Wait, 1)?.ok_or("refused")?;
    // Less is used since the base, but the next rest owes its pair.
    assert!(rt; !book.covers(&split, &plain, 601));
    assert!(rt; !book.covers(&plain, &split, 601));
    let off = moved(&book, &split, 601, Activity::Off, 10)?.ok_or("refused")?;
    assert!(rt; !book.ahead(&off));
    let both = Idles {
        first: Activity::Berth,
        second: Some(Activity::Wait),
    };
    assert_eq!(rt; book.idles(&off), both);
    let asleep = moved(&book, &split, 601, Activity::Berth, 10)?.ok_or("refused")?;
    assert!(rt; book.ahead(&asleep));
    assert!(rt; book.covers(&asleep, &off, 611));
    Ok(())
}

/// A Monday at six in the morning.
const FIRST: Minute = 13_762_440;

/// The state of an hour of rest and an hour of driving from then on.
fn rested_and_drove(book: &UsBook) -> Result<UsState, Fail>
    ensures { IfOk result (λ s. IsUsState book.now.berth book.now.days book.now.day_start s (FIRST + 120)) }
{
    let root = book.root(FIRST)?;
    let rested = moved(book, &root, FIRST, Activity::Off, 60)?.ok_or("refused")?;
    Ok(moved(book, &rested, FIRST + 60, Activity::Drive, 60)?.ok_or("refused")?)
}

#[test]
fn covers_where_less_is_driven(rt: HostRuntime) -> Result<(), Fail> {
    let book = UsBook::new(false, 8, 0);
    let a = rested_and_drove(&book)?;
    let root = book.root(FIRST)?;
    let b = moved(&book, &root, FIRST, Activity::Drive, 120)?.ok_or("refused")?;
    assert!(rt; book.covers(&a, &b, FIRST + 120));
    assert!(rt; !book.covers(&b, &a, FIRST + 120));
    assert!(rt; book.ahead(&a));
    let off_alone = Idles {
        first: Activity::Off,
        second: None,
    };
    assert_eq!(rt; book.idles(&a), off_alone);
    Ok(())
}

#[test]
fn counts_on_over_midnight(rt: HostRuntime) -> Result<(), Fail> {
    let book = UsBook::new(false, 8, 0);
    let root = book.root(0)?;
    let worked = moved(&book, &root, 0, Activity::Serve, 1500)?.ok_or("refused")?;
    assert_eq!(rt; worked.week.sums.today(), 60);
    assert_eq!(rt; worked.week.sums.total(), 1500);
    let rested = moved(&book, &worked, 1500, Activity::Off, 2039)?.ok_or("refused")?;
    assert_eq!(rt; rested.week.sums.total(), 1500);
    let restarted = moved(&book, &rested, 3539, Activity::Off, 1)?.ok_or("refused")?;
    assert_eq!(rt; restarted.week.sums.total(), 0);
    Ok(())
}

/// The numbers of that state: an hour of driving since the rest, without a break and in this day.
const NUMBERS: [u32; 22] = [
    0, 0, 0, 60, 60, 60, 60, 60, 60, 0, 0, 0, 60, 0, 60, 0, 0, 0, 0, 0, 0, 0,
];

#[test]
fn writes_and_reads_a_state(rt: HostRuntime) -> Result<(), Fail> {
    let book = UsBook::new(false, 8, 0);
    let a = rested_and_drove(&book)?;
    let mut out = Numbers::new(rt.alloc());
    book.write_state(&a, FIRST + 120, &mut out)?;
    assert_eq!(rt; out.items(), NUMBERS.as_slice());
    let read = book
        .read_state(out.items(), FIRST + 120)?
        .ok_or("no state")?;
    assert_eq!(rt; read.split, a.split);
    assert_eq!(rt; read.rest_break, a.rest_break);
    assert_eq!(rt; read.week.rest, a.week.rest);
    assert_eq!(rt; read.week.sums.sums(), a.week.sums.sums());
    Ok(())
}

#[test]
fn reads_no_other_numbers(rt: HostRuntime) -> Result<(), Fail> {
    let book = UsBook::new(false, 8, 0);
    assert!(rt; book.read_state(&[], FIRST)?.is_none());
    assert!(rt; book.read_state(&NUMBERS[1..], FIRST + 120)?.is_none());
    // At midnight no minute of the day has passed that could hold duty.
    assert!(rt; book.read_state(&NUMBERS, 1440 * 9557 + 61)?.is_some());
    assert!(rt; book.read_state(&NUMBERS, 1440 * 9557 + 59)?.is_none());
    let mut numbers = NUMBERS;
    numbers[12] = 481;
    assert!(rt; book.read_state(&numbers, FIRST + 120)?.is_none());
    numbers[12] = 480;
    assert!(rt; book.read_state(&numbers, FIRST + 120)?.is_some());
    // No split rest waits where there is no berth.
    numbers[9] = 120;
    assert!(rt; book.read_state(&numbers, FIRST + 120)?.is_none());
    Ok(())
}

#[test]
fn counts_the_window_of_fourteen_hours(rt: HostRuntime) -> Result<(), Fail> {
    let book = UsBook::new(false, 8, 0);
    let at_its_end = [(Activity::Wait, 839), (Activity::Drive, 1)];
    assert_eq!(rt; replayed(rt.alloc(), &book, 0, &at_its_end)?, Ok((1, 0)));
    let after_it = [(Activity::Wait, 840), (Activity::Drive, 1)];
    assert_eq!(rt; replayed(rt.alloc(), &book, 0, &after_it)?, Err(840));
    Ok(())
}

#[test]
fn counts_driving_between_full_rests(rt: HostRuntime) -> Result<(), Fail> {
    let book = UsBook::new(false, 8, 0);
    let eleven_hours = [
        (Activity::Drive, 480),
        (Activity::Serve, 30),
        (Activity::Drive, 181),
    ];
    assert_eq!(rt; replayed(rt.alloc(), &book, 0, &eleven_hours)?, Err(690));
    let short_rest = [
        (Activity::Drive, 330),
        (Activity::Wait, 30),
        (Activity::Drive, 330),
        (Activity::Off, 599),
        (Activity::Drive, 1),
    ];
    assert_eq!(rt; replayed(rt.alloc(), &book, 0, &short_rest)?, Err(1289));
    Ok(())
}

#[test]
fn pairs_two_rests(rt: HostRuntime) -> Result<(), Fail> {
    let berth = UsBook::new(true, 8, 0);
    let ten_hours = [
        (Activity::Drive, 300),
        (Activity::Berth, 420),
        (Activity::Drive, 300),
        (Activity::Off, 180),
        (Activity::Drive, 361),
    ];
    assert_eq!(rt; replayed(rt.alloc(), &berth, 0, &ten_hours)?, Err(1560));
    let a_minute_less = [
        (Activity::Drive, 300),
        (Activity::Berth, 420),
        (Activity::Drive, 300),
        (Activity::Off, 179),
        (Activity::Drive, 360),
    ];
    assert_eq!(rt; replayed(rt.alloc(), &berth, 0, &a_minute_less)?, Err(1259));
    let no_berth = UsBook::new(false, 8, 0);
    assert_eq!(rt; replayed(rt.alloc(), &no_berth, 0, &ten_hours)?, Err(840));
    Ok(())
}
