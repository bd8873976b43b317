//! Tours worked by hand: how long a shortest schedule takes, and when it may depart. Each answer has a
//! certificate that is accepted.
use crate::calls::{
    CHECK, Given, MONDAY, Outcome, PLAN, RESTED, THURSDAY, call, named, stop, tour_of,
};
use driver_cli::Status;
use duty_core::NoMemory;
use std::alloc::Global;
use std::process::Abort;
use std::test::Fail;

/// A tour of the United States on half hours from Monday 06:00, in a truck without a berth.
pub(crate) const US: &str =
    r#""book":"us","grid":30,"start":"2026-03-02T06:00","berth":false,"days":8,"day_start":"00:00""#;

/// The same in a truck with a berth.
pub(crate) const US_BERTH: &str =
    r#""book":"us","grid":30,"start":"2026-03-02T06:00","berth":true,"days":8,"day_start":"00:00""#;

/// Tours of Canada on half hours from Monday 06:00: without a berth, by deferral; and by split rests
/// without a berth and with one.
const CANADA_DEFER: &str =
    r#""book":"canada","grid":30,"start":"2026-03-02T06:00","berth":false,"rest":"defer","cycle":1,"day_start":"00:00""#;

const CANADA_SPLIT: &str =
    r#""book":"canada","grid":30,"start":"2026-03-02T06:00","berth":false,"rest":"split","cycle":1,"day_start":"00:00""#;

const CANADA_BERTH: &str =
    r#""book":"canada","grid":30,"start":"2026-03-02T06:00","berth":true,"rest":"split","cycle":1,"day_start":"00:00""#;

/// A tour of Australia on quarter hours from Monday 06:00.
const AUSTRALIA: &str = r#""book":"hvnl","grid":15,"start":"2026-03-02T06:00""#;

/// The form of a tour, but for its stops, and the log before it.
#[derive(Clone, Copy)]
pub(crate) struct Setting<'a> {
    form: &'a str,
    log: &'a str,
}

impl<'a> Setting<'a> {
    pub(crate) fn new(form: &'a str, log: &'a str) -> Setting<'a> {
        Setting { form, log }
    }
}

/// What planning these stops does.
pub(crate) fn planned(alloc: Global, setting: Setting, stops: &str) -> Result<Outcome, NoMemory> {
    let tour = tour_of(alloc, setting.form, stops)?;
    call(alloc, Given::new(&PLAN, tour.as_str(), setting.log))
}

/// What checking a certificate of them does.
pub(crate) fn checked(
    alloc: Global,
    setting: Setting,
    stops: &str,
    cert: &[u8],
) -> Result<Outcome, NoMemory> {
    let tour = tour_of(alloc, setting.form, stops)?;
    call(
        alloc,
        Given {
            cert: Some(cert),
            ..Given::new(&CHECK, tour.as_str(), setting.log)
        },
    )
}

/// Whether the text tells a shortest schedule of this duration that departs between these times.
fn tells(
    alloc: Global,
    sent: &[u8],
    duration: &str,
    departs: (&str, &str),
) -> Result<bool, NoMemory> {
    let (least, most) = departs;
    let head = format!(in alloc; "shortest {duration} from ")?;
    let from = head.len();
    if !sent.starts_with(head.as_bytes()) || sent.len() < from || sent.len() - from < 16 {
        return Ok(false);
    }
    let departs = &sent[from..from + 16];
    Ok(least.as_bytes() <= departs && departs <= most.as_bytes())
}

/// Checks that a shortest schedule takes so long and departs between these times, and that its
/// certificate is accepted. Gives the report of the schedule.
fn taken(
    rt: &impl Abort,
    alloc: Global,
    setting: Setting,
    stops: &str,
    duration: &str,
    departs: (&str, &str),
) -> Result<Vec<u8>, Fail> {
    let plan = planned(alloc, setting, stops)?;
    assert_eq!(rt; plan.status, Status::Done, "where it takes {duration}");
    assert!(rt;
        tells(alloc, &plan.sent, duration, departs)?,
        "where it takes {duration}"
    );
    let cert = plan.cert.unwrap_or(Vec::new(alloc));
    let check = checked(alloc, setting, stops, &cert)?;
    assert_eq!(rt; check.status, Status::Done, "where it takes {duration}");
    let accepted = format!(in alloc; "accepted shortest {duration}\n")?;
    assert_eq!(rt; check.sent.as_slice(), accepted.as_bytes());
    Ok(plan.sent)
}

/// Checks that a shortest schedule takes so long and departs between these times, as `taken` does.
fn takes(
    rt: &impl Abort,
    alloc: Global,
    setting: Setting,
    stops: &str,
    duration: &str,
    departs: (&str, &str),
) -> Result<(), Fail> {
    let _ = taken(rt, alloc, setting, stops, duration, departs)?;
    Ok(())
}

/// Checks that there is no schedule, and that the certificate of it is accepted.
fn has_none(rt: &impl Abort, alloc: Global, setting: Setting, stops: &str) -> Result<(), Fail> {
    let plan = planned(alloc, setting, stops)?;
    assert_eq!(rt; plan.status, Status::Infeasible);
    assert_eq!(rt; plan.sent.as_slice(), "infeasible\n".as_bytes());
    let cert = plan.cert.unwrap_or(Vec::new(alloc));
    let check = checked(alloc, setting, stops, &cert)?;
    assert_eq!(rt; check.status, Status::Done);
    assert_eq!(rt; check.sent.as_slice(), "accepted infeasible\n".as_bytes());
    Ok(())
}

#[test]
fn drives_within_a_shift_and_its_break(rt: HostRuntime) -> Result<(), Fail> {
    let alloc = rt.alloc();
    let us = Setting::new(US, RESTED);
    let wide = (MONDAY, THURSDAY);
    let plain = stop(alloc, 240, 60, MONDAY, THURSDAY)?;
    takes(&rt, alloc, us, plain.as_str(), "5:00", wide)?;
    let eleven = stop(alloc, 660, 30, MONDAY, THURSDAY)?;
    takes(&rt, alloc, us, eleven.as_str(), "12:00", wide)?;
    let eight = stop(alloc, 480, 30, MONDAY, THURSDAY)?;
    let three = named(alloc, "B", (180, 30), MONDAY, THURSDAY)?;
    let served = format!(in alloc; "{eight},{three}")?;
    takes(&rt, alloc, us, served.as_str(), "12:00", wide)
}

#[test]
fn rests_overnight_where_it_must(rt: HostRuntime) -> Result<(), Fail> {
    let alloc = rt.alloc();
    let us = Setting::new(US, RESTED);
    let wide = (MONDAY, THURSDAY);
    let long = stop(alloc, 690, 30, MONDAY, THURSDAY)?;
    takes(&rt, alloc, us, long.as_str(), "22:00", wide)?;
    let early = stop(alloc, 690, 30, MONDAY, "2026-03-03T00:00")?;
    has_none(&rt, alloc, us, early.as_str())
}

/// Three stops, two of which fix the time.
pub(crate) fn fixed_stops(alloc: Global, last_drive: u32) -> Result<String, NoMemory> {
    let noon = "2026-03-02T15:00";
    let first = stop(alloc, 0, 30, MONDAY, MONDAY)?;
    let second = named(alloc, "B", (300, 30), noon, noon)?;
    let third = named(alloc, "C", (last_drive, 30), MONDAY, THURSDAY)?;
    Ok(format!(in alloc; "{first},{second},{third}")?)
}

#[test]
fn splits_its_rest_in_the_berth(rt: HostRuntime) -> Result<(), Fail> {
    let alloc = rt.alloc();
    let berth = Setting::new(US_BERTH, RESTED);
    let us = Setting::new(US, RESTED);
    let at_once = (MONDAY, MONDAY);
    let stops = fixed_stops(alloc, 390)?;
    takes(&rt, alloc, us, stops.as_str(), "26:30", at_once)?;
    takes(&rt, alloc, berth, stops.as_str(), "23:30", at_once)
}

/// Ten hours of service on each day of a week, and rest between and up to the start.
const FULL_WEEK: &str = "from,to,status
2026-03-02T06:00,2026-03-02T16:00,ON
2026-03-02T16:00,2026-03-03T06:00,OFF
2026-03-03T06:00,2026-03-03T16:00,ON
2026-03-03T16:00,2026-03-04T06:00,OFF
2026-03-04T06:00,2026-03-04T16:00,ON
2026-03-04T16:00,2026-03-05T06:00,OFF
2026-03-05T06:00,2026-03-05T16:00,ON
2026-03-05T16:00,2026-03-06T06:00,OFF
2026-03-06T06:00,2026-03-06T16:00,ON
2026-03-06T16:00,2026-03-07T06:00,OFF
2026-03-07T06:00,2026-03-07T16:00,ON
2026-03-07T16:00,2026-03-08T06:00,OFF
2026-03-08T06:00,2026-03-08T16:00,ON
2026-03-08T16:00,2026-03-09T06:00,OFF
";

#[test]
fn waits_until_a_day_leaves_the_week(rt: HostRuntime) -> Result<(), Fail> {
    let alloc = rt.alloc();
    let week = Setting::new(
        r#""book":"us","grid":30,"start":"2026-03-09T06:00","berth":false,"days":8,"day_start":"00:00""#,
        FULL_WEEK,
    );
    let start = "2026-03-09T06:00";
    let wide = stop(alloc, 120, 30, start, "2026-03-11T06:00")?;
    let departs = ("2026-03-10T00:00", "2026-03-11T06:00");
    takes(&rt, alloc, week, wide.as_str(), "2:30", departs)?;
    let early = stop(alloc, 120, 30, start, "2026-03-09T20:00")?;
    has_none(&rt, alloc, week, early.as_str())
}

/// Fourteen hours of service on each of five days, and rest between and up to the start.
const FIVE_LONG_DAYS: &str = "from,to,status
2026-03-03T06:00,2026-03-03T20:00,ON
2026-03-03T20:00,2026-03-04T06:00,OFF
2026-03-04T06:00,2026-03-04T20:00,ON
2026-03-04T20:00,2026-03-05T06:00,OFF
2026-03-05T06:00,2026-03-05T20:00,ON
2026-03-05T20:00,2026-03-06T06:00,OFF
2026-03-06T06:00,2026-03-06T20:00,ON
2026-03-06T20:00,2026-03-07T06:00,OFF
2026-03-07T06:00,2026-03-07T20:00,ON
2026-03-07T20:00,2026-03-08T06:00,OFF
";

#[test]
fn begins_the_week_anew_after_a_restart(rt: HostRuntime) -> Result<(), Fail> {
    let alloc = rt.alloc();
    let week = Setting::new(
        r#""book":"us","grid":30,"start":"2026-03-08T06:00","berth":false,"days":8,"day_start":"00:00""#,
        FIVE_LONG_DAYS,
    );
    let start = "2026-03-08T06:00";
    let restarted = "2026-03-09T06:00";
    let late = stop(alloc, 120, 30, start, "2026-03-09T08:00")?;
    let departs = (restarted, restarted);
    takes(&rt, alloc, week, late.as_str(), "2:30", departs)?;
    let early = stop(alloc, 120, 30, start, "2026-03-09T07:30")?;
    has_none(&rt, alloc, week, early.as_str())
}

/// Nine hours of service on each of five days, and rest between and up to the start.
pub(crate) const WORKING_WEEK: &str = "from,to,status
2026-02-23T08:00,2026-02-23T17:00,ON
2026-02-23T17:00,2026-02-24T08:00,OFF
2026-02-24T08:00,2026-02-24T17:00,ON
2026-02-24T17:00,2026-02-25T08:00,OFF
2026-02-25T08:00,2026-02-25T17:00,ON
2026-02-25T17:00,2026-02-26T08:00,OFF
2026-02-26T08:00,2026-02-26T17:00,ON
2026-02-26T17:00,2026-02-27T08:00,OFF
2026-02-27T08:00,2026-02-27T17:00,ON
2026-02-27T17:00,2026-03-02T06:00,OFF
";

#[test]
fn plans_two_days_of_four_stops(rt: HostRuntime) -> Result<(), Fail> {
    let alloc = rt.alloc();
    let week = Setting::new(
        r#""book":"us","grid":15,"start":"2026-03-02T06:00","berth":true,"days":8,"day_start":"00:00""#,
        WORKING_WEEK,
    );
    let first = stop(alloc, 90, 45, "2026-03-02T07:30", "2026-03-02T08:00")?;
    let second = named(
        alloc,
        "B",
        (135, 30),
        "2026-03-02T10:00",
        "2026-03-02T11:00",
    )?;
    let third = named(
        alloc,
        "C",
        (210, 60),
        "2026-03-02T14:00",
        "2026-03-02T15:30",
    )?;
    let fourth = named(
        alloc,
        "D",
        (330, 45),
        "2026-03-03T06:00",
        "2026-03-03T08:00",
    )?;
    let stops = format!(in alloc; "{first},{second},{third},{fourth}")?;
    let departs = (MONDAY, "2026-03-02T06:30");
    takes(&rt, alloc, week, stops.as_str(), "25:45", departs)
}

#[test]
fn plans_up_to_the_last_minute_of_the_horizon(rt: HostRuntime) -> Result<(), Fail> {
    let alloc = rt.alloc();
    let us = Setting::new(US, RESTED);
    let last = "2026-03-16T05:30";
    let far = stop(alloc, 240, 30, MONDAY, last)?;
    takes(&rt, alloc, us, far.as_str(), "4:30", (MONDAY, last))
}

#[test]
fn rounds_times_to_its_grid(rt: HostRuntime) -> Result<(), Fail> {
    let alloc = rt.alloc();
    let us = Setting::new(US, RESTED);
    let rounded = stop(alloc, 31, 1, "2026-03-02T09:10", THURSDAY)?;
    let departs = ("2026-03-02T08:30", THURSDAY);
    takes(&rt, alloc, us, rounded.as_str(), "1:30", departs)?;
    let empty = stop(alloc, 0, 30, "2026-03-02T06:10", "2026-03-02T06:20")?;
    has_none(&rt, alloc, us, empty.as_str())
}

/// The number that two digits spell.
fn two_digits(tens: u8, units: u8) -> u32 {
    u32::from(tens.saturating_sub(b'0')) * 10 + u32::from(units.saturating_sub(b'0'))
}

/// The minute of its month, from that of day 0 on, of the time that the line has at the place.
fn minute_at(line: &[u8], place: usize) -> u32 {
    if line.len() < 16 || line.len() - 16 < place {
        return 0;
    }
    let day = two_digits(line[place + 8], line[place + 9]);
    let hour = two_digits(line[place + 11], line[place + 12]);
    let minute = two_digits(line[place + 14], line[place + 15]);
    day.saturating_mul(1440)
        .saturating_add(hour.saturating_mul(60))
        .saturating_add(minute)
}

/// The minutes at the wheel in a day of the month, by the lines of a report's runs.
fn driven_on(sent: &[u8], day: u32) -> u32 {
    let begin = day.saturating_mul(1440);
    let end = begin.saturating_add(1440);
    let mut driven = 0u32;
    for line in sent.split(|byte| *byte == b'\n') {
        if line.ends_with(b" DRIVE A") {
            let from = minute_at(line, 0).max(begin);
            let to = minute_at(line, 17).min(end);
            driven = driven.saturating_add(to.saturating_sub(from));
        }
    }
    driven
}

#[test]
fn plans_a_canadian_shift_and_its_rest(rt: HostRuntime) -> Result<(), Fail> {
    let alloc = rt.alloc();
    let defer = Setting::new(CANADA_DEFER, RESTED);
    let wide = (MONDAY, THURSDAY);
    let shift = stop(alloc, 780, 30, MONDAY, THURSDAY)?;
    takes(&rt, alloc, defer, shift.as_str(), "13:30", wide)?;
    let longer = stop(alloc, 840, 30, MONDAY, THURSDAY)?;
    let report = taken(&rt, alloc, defer, longer.as_str(), "22:30", wide)?;
    assert_eq!(rt; driven_on(&report, 2), 780);
    assert_eq!(rt; driven_on(&report, 3), 60);
    Ok(())
}

#[test]
fn defers_rest_only_where_it_may(rt: HostRuntime) -> Result<(), Fail> {
    let alloc = rt.alloc();
    let midnight = "2026-03-02T00:00";
    let one = "2026-03-02T13:00";
    let stop = stop(alloc, 780, 180, one, one)?;
    let defer = Setting::new(
        r#""book":"canada","grid":30,"start":"2026-03-02T00:00","berth":false,"rest":"defer","cycle":1,"day_start":"00:00""#,
        RESTED,
    );
    let split = Setting::new(
        r#""book":"canada","grid":30,"start":"2026-03-02T00:00","berth":false,"rest":"split","cycle":1,"day_start":"00:00""#,
        RESTED,
    );
    let departs = (midnight, midnight);
    takes(&rt, alloc, defer, stop.as_str(), "16:00", departs)?;
    has_none(&rt, alloc, split, stop.as_str())
}

#[test]
fn splits_its_rest_in_a_canadian_berth(rt: HostRuntime) -> Result<(), Fail> {
    let alloc = rt.alloc();
    let split = Setting::new(CANADA_SPLIT, RESTED);
    let berth = Setting::new(CANADA_BERTH, RESTED);
    let at_once = (MONDAY, MONDAY);
    let stops = fixed_stops(alloc, 540)?;
    takes(&rt, alloc, berth, stops.as_str(), "25:30", at_once)?;
    takes(&rt, alloc, split, stops.as_str(), "27:00", at_once)
}

#[test]
fn rests_a_quarter_of_an_hour_in_australia(rt: HostRuntime) -> Result<(), Fail> {
    let alloc = rt.alloc();
    let australia = Setting::new(AUSTRALIA, RESTED);
    let at_once = (MONDAY, MONDAY);
    let five = stop(alloc, 300, 15, MONDAY, "2026-03-02T11:00")?;
    takes(&rt, alloc, australia, five.as_str(), "5:15", at_once)?;
    let more = stop(alloc, 315, 15, MONDAY, "2026-03-02T11:30")?;
    takes(&rt, alloc, australia, more.as_str(), "5:45", at_once)?;
    let twelve = stop(alloc, 705, 15, MONDAY, "2026-03-02T18:45")?;
    takes(&rt, alloc, australia, twelve.as_str(), "13:00", at_once)
}

/// Twelve hours of work in thirteen, up to the evening.
const WORKED_DAY: &str = "from,to,status
2026-03-02T06:00,2026-03-02T11:00,WORK
2026-03-02T11:00,2026-03-02T11:30,REST
2026-03-02T11:30,2026-03-02T16:00,WORK
2026-03-02T16:00,2026-03-02T16:30,REST
2026-03-02T16:30,2026-03-02T19:00,WORK
";

#[test]
fn waits_for_the_end_of_an_australian_day(rt: HostRuntime) -> Result<(), Fail> {
    let alloc = rt.alloc();
    let day = Setting::new(
        r#""book":"hvnl","grid":15,"start":"2026-03-02T19:00""#,
        WORKED_DAY,
    );
    let evening = "2026-03-02T19:00";
    let noon = "2026-03-03T12:00";
    let wide = stop(alloc, 0, 15, evening, noon)?;
    let departs = ("2026-03-03T06:00", noon);
    takes(&rt, alloc, day, wide.as_str(), "0:15", departs)?;
    let early = stop(alloc, 0, 15, evening, "2026-03-03T05:45")?;
    has_none(&rt, alloc, day, early.as_str())
}
