//! The calls of Canada's book, at days of duty and rest, and logs of such days.
use crate::histories::{moved, replayed};
use canada_rules::CanadaBook;
use duty_core::{Activity, Mark, Minute, Params, RestWay};
use rule_core::{Idles, Nexts, Numbers, RuleBook};
use std::test::Fail;

#[test]
fn marks_a_rest_that_is_all_berth(rt: HostRuntime) -> Result<(), Fail> {
    let book = CanadaBook::new(true, RestWay::Split, 1, 0);
    let root = book.root(0)?;
    let tired = moved(&book, &root, 0, Activity::Drive, 300)?.ok_or("refused")?;
    let slept = moved(&book, &tired, 300, Activity::Berth, 120)?.ok_or("refused")?;
    let Nexts { a, b, c } = book.step(&slept, 420, Activity::Drive)?;
    let plain = a.ok_or("refused")?;
    let split = b.ok_or("no split rest")?;
    assert!(rt; plain.mark.is_none() && c.is_none());
    assert_eq!(rt; split.mark, Some(Mark::SplitRest { at: 300 }));
    let rested = moved(&book, &slept, 420, Activity::Off, 1)?.ok_or("refused")?;
    let Nexts { a, b, c } = book.step(&rested, 421, Activity::Drive)?;
    assert!(rt; a.is_some() && b.is_none() && c.is_none());
    Ok(())
}

#[test]
fn answers_each_call(rt: HostRuntime) -> Result<(), Fail> {
    let book = CanadaBook::new(true, RestWay::Split, 2, 240);
    let params = Params::Canada {
        berth: true,
        way: RestWay::Split,
        cycle: 2,
        day_start: 240,
    };
    assert_eq!(rt; book.params(), params);
    let root = book.root(0)?;
    let copy = book.copy(&root)?;
    assert!(rt; book.covers(&root, &copy, 0));
    let driving = moved(&book, &root, 0, Activity::Drive, 1)?.ok_or("refused")?;
    let resting = moved(&book, &root, 0, Activity::Berth, 1)?.ok_or("refused")?;
    assert!(rt; book.covers(&resting, &driving, 1));
    assert!(rt; !book.covers(&driving, &resting, 1));
    assert!(rt; book.ahead(&root));
    let rest_alone = Idles {
        first: Activity::Berth,
        second: None,
    };
    assert_eq!(rt; book.idles(&root), rest_alone);
    // A run out of the berth becomes no split rest, so it may be better to end it.
    let paused = moved(&book, &driving, 1, Activity::Off, 1)?.ok_or("refused")?;
    assert!(rt; !book.ahead(&paused));
    let rest_or_wait = Idles {
        first: Activity::Berth,
        second: Some(Activity::Wait),
    };
    assert_eq!(rt; book.idles(&paused), rest_or_wait);
    assert_eq!(rt; book.least_rest(&driving, 779, 60), 0);
    assert_eq!(rt; book.least_rest(&driving, 780, 0), 480);
    assert_eq!(rt; book.least_rest(&paused, 780, 0), 479);
    assert_eq!(rt; book.least_rest(&root, 1560, 121), 960);
    Ok(())
}

/// The numbers of a state after the first minute of a day, of driving.
const NUMBERS: [u32; 33] = [
    0, 0, 0, 1, 1, 1, 1, 1, 1, 0, 0, 1, 1, 1, 0, 1, 0, 0, 0, 0, 600, 0, 0, 0, 1, 0, 1, 0, 0, 0, 0,
    0, 0,
];

#[test]
fn writes_and_reads_a_state(rt: HostRuntime) -> Result<(), Fail> {
    let book = CanadaBook::new(false, RestWay::Defer, 1, 0);
    let root = book.root(0)?;
    let driving = moved(&book, &root, 0, Activity::Drive, 1)?.ok_or("refused")?;
    let mut out = Numbers::new(rt.alloc());
    book.write_state(&driving, 1, &mut out)?;
    assert_eq!(rt; out.items(), NUMBERS.as_slice());
    let read = book.read_state(&NUMBERS, 1)?.ok_or("no state")?;
    assert_eq!(rt; read.calendar.day, driving.calendar.day);
    assert_eq!(rt; read.calendar.days, driving.calendar.days);
    assert!(rt; book.read_state(&[], 1)?.is_none());
    assert!(rt; book.read_state(&NUMBERS[1..], 1)?.is_none());
    // One minute of the day has passed, and it can't hold two of duty.
    let mut numbers = NUMBERS;
    numbers[12] = 2;
    assert!(rt; book.read_state(&numbers, 1)?.is_none());
    Ok(())
}

/// The beginning of 2026-03-01.
const FIRST: Minute = 13_760_640;

#[test]
fn replays_days_that_defer_their_rest(rt: HostRuntime) -> Result<(), Fail> {
    let defer = CanadaBook::new(false, RestWay::Defer, 1, 0);
    let split = CanadaBook::new(false, RestWay::Split, 1, 0);
    let sixteen_hours = [(Activity::Serve, 960), (Activity::Off, 2280)];
    assert_eq!(rt;
        replayed(rt.alloc(), &defer, FIRST, &sixteen_hours)?,
        Ok((1, 1))
    );
    assert_eq!(rt;
        replayed(rt.alloc(), &split, FIRST, &sixteen_hours)?,
        Err(840)
    );
    let a_minute_more = [(Activity::Serve, 961), (Activity::Off, 2279)];
    assert_eq!(rt;
        replayed(rt.alloc(), &defer, FIRST, &a_minute_more)?,
        Err(960)
    );
    let second_day = [
        (Activity::Serve, 960),
        (Activity::Off, 600),
        (Activity::Serve, 721),
        (Activity::Off, 959),
    ];
    assert_eq!(rt;
        replayed(rt.alloc(), &defer, FIRST, &second_day)?,
        Err(2280)
    );
    Ok(())
}

#[test]
fn replays_shifts_and_their_rests(rt: HostRuntime) -> Result<(), Fail> {
    let defer = CanadaBook::new(false, RestWay::Defer, 1, 0);
    for (rest, outcome) in [(480, Ok((1, 0))), (479, Err(1800 + 1259))] {
        // From six in the morning on: thirteen hours at the wheel, and the rest of the tour after
        // eight hours of rest.
        let parts = [
            (Activity::Off, 1800),
            (Activity::Drive, 780),
            (Activity::Off, rest),
            (Activity::Drive, 60),
            (Activity::Serve, 30),
        ];
        assert_eq!(rt;
            replayed(rt.alloc(), &defer, FIRST, &parts)?,
            outcome,
            "{rest}"
        );
    }
    for (driving, outcome) in [(380, Ok((1, 0))), (381, Err(1260))] {
        let parts = [
            (Activity::Drive, 400),
            (Activity::Off, 480),
            (Activity::Drive, driving),
        ];
        assert_eq!(rt;
            replayed(rt.alloc(), &defer, FIRST, &parts)?,
            outcome,
            "{driving}"
        );
    }
    let sixteen_hours = [
        (Activity::Drive, 60),
        (Activity::Off, 420),
        (Activity::Drive, 60),
        (Activity::Off, 419),
        (Activity::Drive, 2),
    ];
    assert_eq!(rt;
        replayed(rt.alloc(), &defer, FIRST, &sixteen_hours)?,
        Err(960)
    );
    Ok(())
}

#[test]
fn replays_a_rest_that_is_split_in_the_berth(rt: HostRuntime) -> Result<(), Fail> {
    let book = CanadaBook::new(true, RestWay::Split, 1, 0);
    for (rest, outcome) in [(390, Ok((1, 2))), (389, Err(1800 + 1439))] {
        // Three and a half hours in the berth, and six and a half later on.
        let parts = [
            (Activity::Off, 1800),
            (Activity::Serve, 30),
            (Activity::Drive, 300),
            (Activity::Berth, 210),
            (Activity::Serve, 30),
            (Activity::Drive, 480),
            (Activity::Berth, rest),
            (Activity::Drive, 60),
            (Activity::Serve, 30),
        ];
        assert_eq!(rt;
            replayed(rt.alloc(), &book, FIRST, &parts)?,
            outcome,
            "{rest}"
        );
    }
    Ok(())
}
