//! Histories of Australia told in words, each with the rules that it breaks, and what is counted of
//! them. A unit is a quarter of an hour.
ghost use Rattle.std.specs.Prelude.{◌<◌, ◌^◌};
ghost use Rattle.duty_core.specs.declared.params.Params.TheVariants.{Hvnl};
ghost use Rattle.duty_core.specs.Params.{BeginsUnit};

use crate::au_nights::{Nights, has_break, keeps_nights, nights_from};
use crate::au_periods::{Start, duty_from, rest_from};
use crate::cases::{Case, FIRST_OF_MARCH, assert_broken};
use crate::padded::Padded;
use duty_core::{Minute, Params};
use std::alloc::Global;
use std::test::Fail;

/// Histories from 2 March 2026 on, and the rules that they break.
const BROKEN: &[&str] = &[
    // Five hours of driving and a service: 21 quarters of duty from 06:00 on.
    "from 120 drive 20 serve 1: none",
    "from 120 drive 21 serve 1: AU-5H30",
    // A quarter more of driving, with a quarter of rest on the way.
    "from 120 drive 20 off 1 drive 1 serve 1: none",
    "from 120 drive 21 serve 1 off 1 drive 1: AU-5H30",
    // Twelve hours of duty in thirteen.
    "from 120 drive 20 off 2 drive 20 off 2 drive 7 serve 1: none",
    "from 120 drive 20 off 2 drive 20 off 2 drive 8 serve 1: AU-24H",
    "from 120 drive 20 off 1 drive 20 off 2 drive 7 serve 1: AU-8H AU-11H",
    "from 120 drive 20 off 2 drive 20 off 1 drive 7 serve 1: AU-11H",
    "from 120 drive 21 off 1 drive 10 off 3 drive 8 serve 1: AU-8H",
    // Twelve hours of duty from 06:00 on: a service waits for 06:00 of the next day.
    "from 120 drive 20 off 2 drive 18 off 2 drive 10 off 44 serve 1: none",
    "from 120 drive 20 off 2 drive 18 off 2 drive 10 off 43 serve 1: AU-24H",
    // From 18:00 on, and again from 18:00 of the next day on, whose hours from midnight to midnight
    // hold 50 quarters of duty.
    "from 72 drive 16 off 3 drive 20 off 2 drive 12 off 43 drive 21 off 1 drive 2: none",
    // The second period of twenty-four hours holds 49 quarters of duty. It begins after 28 quarters
    // of rest, and after 27 there is none.
    "from 96 drive 20 off 28 drive 16 off 2 drive 10 off 28 drive 18 off 2 drive 5: AU-24H",
    "from 96 drive 20 off 27 drive 16 off 2 drive 10 off 28 drive 18 off 2 drive 5: AU-24H-REST",
];

/// The padding before a history: the place of its first unit.
const FIRST: u32 = 2_688;

/// A day of twelve hours of duty in thirteen.
const DAY: &str = "drive 20 off 2 drive 20 off 2 drive 7 serve 1";

/// The duty in periods of that day: from which start, of how many units, and from which unit on.
const DUTY: [(Start, u16, u16, Option<u32>); 5] = [
    (Start::Long, 96, 0, Some(48)),
    (Start::Short, 44, 0, Some(40)),
    (Start::Short, 22, 22, Some(20)),
    (Start::Long, 96, 22, None),
    (Start::Short, 22, 1, None),
];

/// Histories, their midnight, and whether the night round it has a break.
const BREAKS: [(&str, u16, bool); 4] = [
    // From 14:00 on: rest from 14:15 to 04:45, which has 27 quarters of the night, and to 05:00.
    ("drive 1 off 58 drive 1", 40, false),
    ("drive 1 off 59 drive 1", 40, true),
    // From 04:30 on: rest of 95 quarters, and of 96, of which the night has 26, and 27.
    ("drive 1 off 95 drive 1", 78, false),
    ("drive 1 off 96 drive 1", 78, true),
];

/// Fourteen days from 14:00 of 2 March 2026 on by their nights, with how many of these have a break,
/// whether two that follow each other do, and whether the rule of nights is kept.
const NIGHTS: [(&str, u32, bool, bool); 7] = [
    ("WWWWWWWWWWWWWW", 0, false, false),
    ("WWWWWWWWWWFFFF", 4, true, true),
    ("WWWWWWWWWWWFFF", 3, true, false),
    ("WWWWWWFWFWWWFF", 4, true, true),
    ("WWWWWWWFWFWFWF", 4, false, false),
    ("WWWWWWWWWWRFFF", 4, true, true),
    ("WWWWWWWWWWSFFF", 3, true, false),
];

/// A day from 14:00 to 14:00, which begins with a quarter of driving. The next one is at 02:00 (W),
/// at 04:45 (S) or at 05:00 (R), or there is none (F).
fn day_of_night(night: char) -> &'static str {
    match night {
        'S' => "drive 1 off 58 drive 1 off 36",
        'R' => "drive 1 off 59 drive 1 off 35",
        'F' => "drive 1 off 95",
        _ => "drive 1 off 47 drive 1 off 47",
    }
}

/// The history of these words, padded.
fn padded_of(alloc: Global, words: &str) -> Result<Padded, Fail> {
    let case = Case::new(alloc, words)?;
    Ok(Padded::new(alloc, Params::Hvnl {}, &case.history)?)
}

/// The days of these nights, padded.
fn padded_nights(alloc: Global, nights: &str) -> Result<Padded, Fail> {
    let mut case = Case::new(alloc, "")?;
    for night in nights.chars() {
        case.read(day_of_night(night))?;
    }
    Ok(Padded::new(alloc, Params::Hvnl {}, &case.history)?)
}

/// 14:00 of 2 March 2026.
fn first_of_nights() -> Minute
    ensures begins { BeginsUnit Hvnl result }
    ensures bound { result < 2 ^ 24 }
{
    15 * (FIRST_OF_MARCH + 152)
}

#[test]
fn rules_of_australia(rt: HostRuntime) -> Result<(), Fail> {
    assert_broken(&rt, rt.alloc(), Params::Hvnl {}, BROKEN)
}

#[test]
fn counts_at_a_start_alone(rt: HostRuntime) -> Result<(), Fail> {
    let day = padded_of(rt.alloc(), DAY)?;
    for (start, units, place, duty) in DUTY {
        let found = duty_from(&day, start, u32::from(units), FIRST + u32::from(place));
        assert_eq!(rt; found, duty, "{units} from {place}");
    }
    assert_eq!(rt; rest_from(&day, 96, FIRST), Some(44));
    assert_eq!(rt; rest_from(&day, 96, FIRST + 1), None);
    Ok(())
}

#[test]
fn breaks_a_night_by_rest(rt: HostRuntime) -> Result<(), Fail> {
    for (words, midnight, wanted) in BREAKS {
        let padded = padded_of(rt.alloc(), words)?;
        let found = has_break(&padded, FIRST + u32::from(midnight));
        assert_eq!(rt; found, wanted, "{words}");
    }
    Ok(())
}

#[test]
fn asks_for_four_nights(rt: HostRuntime) -> Result<(), Fail> {
    let first = first_of_nights();
    for (nights, broken, consecutive, kept) in NIGHTS {
        let padded = padded_nights(rt.alloc(), nights)?;
        let found = nights_from(&padded, first, FIRST);
        let wanted = Nights {
            broken,
            consecutive,
        };
        assert_eq!(rt; found, Some(wanted), "{nights}");
        assert_eq!(rt; keeps_nights(&padded, first), kept, "{nights}");
    }
    Ok(())
}
