//! Logs of three weeks with eight naps in the berth a day, each of which may be declared a split rest
//! or may not, by the rules that let rest be parted or put off.
use crate::calls::{AUDIT, Given, call, stop, tour_of};
use driver_cli::Status;
use duty_core::NoMemory;
use std::alloc::Global;
use std::test::Fail;

/// So many times a nap of so many minutes and then work of a status for so many minutes.
type Turns = (u32, &'static str, u32, u32);

/// What stands before the stops of a tour, the status of its naps, and what a driver does on a first
/// day and on the one after it. The two take turns, and each seventh day is free.
struct Weeks {
    head: &'static str,
    nap: &'static str,
    day: &'static [Turns],
    day_after: &'static [Turns],
}

const DAY: u32 = 1440;

const FREE_DAY: &[Turns] = &[(DAY, "", 0, 1)];

/// No full rest on a day of work: each nap of 120 minutes makes a pair with that of 480.
const US_DAY: &[Turns] = &[(480, "D", 15, 1), (120, "D", 15, 7)];

/// Two naps make 600 minutes where one of them is the long one.
const SPLIT_DAY: &[Turns] = &[(479, "D", 16, 1), (121, "D", 14, 7)];

/// Loses 904 minutes, 64 more than a day may, so the next day has to have a rest of 544.
const DEFERRED_DAY: &[Turns] = &[(67, "ON", 113, 8)];

const DAY_AFTER: &[Turns] = &[(600, "D", 21, 1), (100, "D", 17, 7)];

const HVNL_DAY: &[Turns] = &[(480, "WORK", 15, 1), (120, "WORK", 15, 7)];

const WEEKS: [Weeks; 4] = [
    Weeks {
        head: r#""book":"us","grid":30,"start":"2026-03-22T00:00","berth":true,"days":8,"day_start":"00:00""#,
        nap: "SB",
        day: US_DAY,
        day_after: US_DAY,
    },
    Weeks {
        head: r#""book":"canada","grid":30,"start":"2026-03-22T00:00","berth":true,"rest":"split","cycle":1,"day_start":"00:00""#,
        nap: "SB",
        day: SPLIT_DAY,
        day_after: SPLIT_DAY,
    },
    Weeks {
        head: r#""book":"canada","grid":30,"start":"2026-03-22T00:00","berth":true,"rest":"defer","cycle":1,"day_start":"00:00""#,
        nap: "SB",
        day: DEFERRED_DAY,
        day_after: DAY_AFTER,
    },
    Weeks {
        head: r#""book":"hvnl","grid":30,"start":"2026-03-22T00:00""#,
        nap: "REST",
        day: HVNL_DAY,
        day_after: HVNL_DAY,
    },
];

/// The time of a minute that is counted from 2026-03-01T00:00.
fn time(alloc: Global, minute: u32) -> Result<String, NoMemory> {
    let (day, of_day) = (minute / DAY + 1, minute % DAY);
    Ok(format!(in alloc; "2026-03-{day:02}T{:02}:{:02}", of_day / 60, of_day % 60)?)
}

/// Adds a row of so many minutes, if there are any, and gives the minute after it.
fn add_row(
    alloc: Global,
    log: &mut String,
    from: u32,
    minutes: u32,
    status: &str,
) -> Result<u32, NoMemory> {
    let to = from.saturating_add(minutes);
    if minutes > 0 {
        let (begins, ends) = (time(alloc, from)?, time(alloc, to)?);
        log.push_str(format!(in alloc; "{begins},{ends},{status}\n")?.as_str())?;
    }
    Ok(to)
}

/// Adds the naps and the work of some turns, and gives the minute after them.
fn add_turns(
    alloc: Global,
    log: &mut String,
    from: u32,
    naps: &str,
    turns: &Turns,
) -> Result<u32, NoMemory> {
    let (nap, status, work, times) = *turns;
    let mut minute = from;
    for _ in 0..times {
        minute = add_row(alloc, log, minute, nap, naps)?;
        minute = add_row(alloc, log, minute, work, status)?;
    }
    Ok(minute)
}

/// Adds a day's turns, and gives the minute after them.
fn add_day(
    alloc: Global,
    log: &mut String,
    from: u32,
    naps: &str,
    day: &[Turns],
) -> Result<u32, NoMemory> {
    let mut minute = from;
    for turns in day {
        minute = add_turns(alloc, log, minute, naps, turns)?;
    }
    Ok(minute)
}

/// The log of the three weeks.
fn log_of(alloc: Global, weeks: &Weeks) -> Result<String, NoMemory> {
    let mut log = String::new(alloc);
    log.push_str("from,to,status\n")?;
    let mut minute = 0;
    for _ in 0..3 {
        for _ in 0..3 {
            minute = add_day(alloc, &mut log, minute, weeks.nap, weeks.day)?;
            minute = add_day(alloc, &mut log, minute, weeks.nap, weeks.day_after)?;
        }
        minute = add_day(alloc, &mut log, minute, weeks.nap, FREE_DAY)?;
    }
    Ok(log)
}

#[test]
fn audits_weeks_of_naps(rt: HostRuntime) -> Result<(), Fail> {
    let alloc = rt.alloc();
    let stop = stop(alloc, 30, 30, "2026-03-22T00:00", "2026-03-24T00:00")?;
    for weeks in &WEEKS {
        let tour = tour_of(alloc, weeks.head, stop.as_str())?;
        let log = log_of(alloc, weeks)?;
        let audit = call(alloc, Given::new(&AUDIT, tour.as_str(), log.as_str()))?;
        assert_eq!(rt;
            audit.sent.as_slice(),
            "lawful\n".as_bytes(),
            "where {} is told",
            weeks.head
        );
        assert_eq!(rt; audit.status, Status::Done);
    }
    Ok(())
}
