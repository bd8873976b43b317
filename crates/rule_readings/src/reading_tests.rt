//! Histories that end with a schedule, and their readings.
ghost use Rattle.std.specs.Prelude.{◌*◌, ◌<◌, ◌^◌};
ghost use Rattle.duty_core.specs.Params.{AreGoodParams};

use crate::{Reading, readings};
use Activity::{Berth, Drive, Off, Serve};
use duty_core::{Activity, Mark, Marks, Minute, Params, RestWay, Rule};
use std::alloc::Global;
use std::process::Abort;
use std::test::Fail;
use timeline::Timeline;

/// 2026-03-01T00:00, in quarters of an hour from 2000-01-01T00:00.
const FIRST_OF_MARCH: u32 = 917_376;

/// A history that begins at a quarter of an hour: the runs of its log, then those of its schedule.
#[derive(Clone, Copy)]
struct Planned<'a> {
    quarter: u32,
    log: &'a [(Activity, u32)],
    schedule: &'a [(Activity, u32)],
    marks: &'a [Mark],
}

/// A reading, so many minutes after 2026-03-01T00:00.
fn reading(used: u32, limit: u32, minutes: u16) -> Option<Reading> {
    Some(Reading {
        used,
        limit,
        at: 15 * FIRST_OF_MARCH + u32::from(minutes),
    })
}

/// The mark of a rest run that begins so many minutes after 2026-03-01T00:00.
fn split(minutes: u16) -> Mark {
    Mark::SplitRest {
        at: 15 * FIRST_OF_MARCH + u32::from(minutes),
    }
}

/// Asserts that these are the readings.
fn assert_reads(
    rt: &impl Abort,
    alloc: Global,
    params: Params,
    planned: Planned<'_>,
    wanted: &[(Rule, Option<Reading>)],
) -> Result<(), Fail>
    requires good { AreGoodParams params }
    requires early { planned.quarter < 2 ^ 20 }
{
    let mut history = Timeline::new(alloc);
    for (act, count) in planned.log {
        history.push_run(*act, *count)?;
    }
    let from = history.len();
    for (act, count) in planned.schedule {
        history.push_run(*act, *count)?;
    }
    let mut marks = Marks::new(alloc);
    for mark in planned.marks {
        marks.push(*mark)?;
    }
    let first: Minute = 15 * planned.quarter;
    assert!(rt; from <= history.len() && 1_440 <= first);
    let list = readings(alloc, params, &history, first, from, &marks)?;
    assert_eq!(rt; list.items(), wanted);
    Ok(())
}

#[test]
fn a_deferral_in_canada(rt: HostRuntime) -> Result<(), Fail> {
    use Rule::*;
    let params = Params::Canada {
        berth: false,
        way: RestWay::Defer,
        cycle: 1,
        day_start: 0,
    };
    let planned = Planned {
        quarter: FIRST_OF_MARCH + 96,
        log: &[],
        schedule: &[(Drive, 780), (Serve, 180)],
        marks: &[Mark::DeferDay { day: 9_557 }],
    };
    let wanted = [
        (CaDay13, reading(780, 780, 2_219)),
        (CaDay14, reading(780, 840, 2_219)),
        (CaShift13, reading(780, 780, 2_219)),
        (CaShift14, reading(780, 840, 2_219)),
        (CaElapsed16, reading(780, 960, 2_219)),
        (CaOff10, None),
        (CaDefer, reading(960, 1_680, 1_440)),
        (CaPair, None),
        (Ca24in14, reading(779, 18_720, 2_219)),
        (CaCycle, reading(780, 4_200, 2_219)),
        (Ca70without24, None),
    ];
    assert_reads(&rt, rt.alloc(), params, planned, &wanted)
}

#[test]
fn a_split_rest_in_canada(rt: HostRuntime) -> Result<(), Fail> {
    use Rule::*;
    let params = Params::Canada {
        berth: true,
        way: RestWay::Split,
        cycle: 2,
        day_start: 0,
    };
    let planned = Planned {
        quarter: FIRST_OF_MARCH - 168,
        log: &[
            (Serve, 600),
            (Off, 1_560),
            (Drive, 240),
            (Off, 500),
            (Serve, 10),
            (Off, 10),
            (Drive, 260),
            (Off, 1_140),
        ],
        schedule: &[
            (Drive, 540),
            (Serve, 30),
            (Berth, 240),
            (Drive, 180),
            (Berth, 360),
            (Drive, 360),
            (Serve, 30),
        ],
        marks: &[split(2_370), split(2_790)],
    };
    let wanted = [
        (CaDay13, reading(720, 780, 2_789)),
        (CaDay14, reading(750, 840, 2_789)),
        (CaShift13, reading(720, 780, 2_789)),
        (CaShift14, reading(750, 840, 2_789)),
        (CaElapsed16, reading(750, 960, 2_789)),
        (CaOff10, reading(750, 840, 1_440)),
        (CaDefer, None),
        (CaPair, reading(600, 600, 2_370)),
        (Ca24in14, reading(3_869, 18_720, 3_509)),
        (CaCycle, reading(2_220, 7_200, 3_509)),
        (Ca70without24, reading(1_620, 4_200, 3_509)),
    ];
    assert_reads(&rt, rt.alloc(), params, planned, &wanted)
}

#[test]
fn two_pairs_in_the_united_states(rt: HostRuntime) -> Result<(), Fail> {
    use Rule::*;
    let params = Params::UsProperty {
        berth: true,
        days: 7,
        day_start: 360,
    };
    let planned = Planned {
        quarter: FIRST_OF_MARCH,
        log: &[
            (Drive, 300),
            (Berth, 420),
            (Drive, 300),
            (Off, 180),
            (Serve, 300),
            (Drive, 60),
        ],
        schedule: &[
            (Berth, 420),
            (Drive, 60),
            (Serve, 30),
            (Drive, 240),
            (Serve, 30),
        ],
        marks: &[split(300), split(1_020), split(1_560)],
    };
    let wanted = [
        (UsWindow14, reading(690, 840, 2_309)),
        (UsDrive11, reading(360, 660, 2_309)),
        (UsBreak8, reading(240, 480, 2_309)),
        (UsWeek, reading(1_290, 3_600, 2_309)),
        (UsPair, reading(600, 600, 300)),
    ];
    assert_reads(&rt, rt.alloc(), params, planned, &wanted)
}

#[test]
fn a_second_day_in_australia(rt: HostRuntime) -> Result<(), Fail> {
    use Rule::*;
    let planned = Planned {
        quarter: FIRST_OF_MARCH + 120,
        log: &[(Serve, 20), (Off, 2), (Serve, 18), (Off, 2), (Serve, 10)],
        schedule: &[(Off, 44), (Serve, 1)],
        marks: &[],
    };
    let wanted = [
        (Au5h30, reading(150, 315, 2_430)),
        (Au8h, reading(420, 450, 2_130)),
        (Au11h, reading(420, 600, 2_130)),
        (Au24h, reading(720, 720, 1_800)),
        (Au24hRest, reading(660, 420, 1_800)),
        (Au7d, reading(735, 4_320, 1_800)),
        (Au7dRest, reading(8_625, 1_440, 1_800)),
        (Au14d, reading(735, 8_640, 1_800)),
        (Au14dNights, reading(13, 4, 1_800)),
    ];
    assert_reads(&rt, rt.alloc(), Params::Hvnl {}, planned, &wanted)
}
