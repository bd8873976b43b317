//! The rules of Canada at histories told in words, each with the rules that it breaks: at the limit,
//! and with one minute more or less.
ghost use Rattle.std.specs.Prelude.{◌≤◌};
ghost use Rattle.duty_core.specs.Params.{AreGoodParams};

use crate::cases::assert_broken;
use duty_core::{Params, RestWay};
use std::test::Fail;

/// The rules in a truck with a berth or without one, by a way to rest and a cycle.
fn canada(berth: bool, way: RestWay, cycle: u8) -> Params
    requires least { 1 ≤ cycle }
    requires most { cycle ≤ 2 }
    ensures { AreGoodParams result }
{
    Params::Canada {
        berth,
        way,
        cycle,
        day_start: 0,
    }
}

/// Days and shifts.
const DAYS: &[&str] = &[
    // Thirteen hours of driving in a day.
    "drive 780: none",
    "drive 781: CA-DAY13 CA-SHIFT13",
    // A shift over midnight, and another one in the second day.
    "off 960 drive 780 off 480 drive 480: none",
    "off 960 drive 780 off 480 drive 481: CA-DAY13",
    "off 960 drive 781: CA-SHIFT13",
    // Driving within fourteen hours of duty.
    "wait 839 drive 1: none",
    "wait 840 drive 1: CA-DAY14 CA-SHIFT14 CA-OFF10",
    // Fourteen hours of duty over midnight.
    "off 960 wait 839 drive 1: none",
    "off 960 wait 840 drive 1: CA-SHIFT14",
    // Work after the last driving is no matter of these rules.
    "off 960 drive 1 wait 1000: none",
    // Driving within sixteen hours of the begin of a shift.
    "wait 100 off 400 wait 100 off 359 drive 1: none",
    "wait 100 off 400 wait 100 off 360 drive 1: CA-ELAPSED16",
    // Eight hours of rest begin a new shift, and a minute less does not.
    "wait 500 off 480 drive 1: none",
    "wait 500 off 479 drive 1: CA-ELAPSED16",
];

/// The minutes that a day loses, and the rest that is deferred to the next one.
const LOST: &[&str] = &[
    // A day loses fourteen hours.
    "wait 840: none",
    "wait 841: CA-OFF10",
    // A rest of 29 minutes is lost, and one of 30 is not.
    "wait 811 off 29 wait 1: CA-OFF10",
    "wait 811 off 30 wait 1: none",
    // Over midnight: 15 minutes of the short rest are lost in the first day.
    "off 599 wait 826 off 29 wait 1: CA-OFF10",
    "off 600 wait 825 off 29 wait 1: none",
    "off 599 wait 826 off 30 wait 1: none",
    // And 14 of them in the second one.
    "off 1424 wait 1 off 29 wait 827: CA-OFF10",
    "off 1424 wait 1 off 29 wait 826: none",
    "off 1424 wait 1 off 30 wait 827: none",
    // The rest that a history ends with goes on, however short it is.
    "wait 840 off 10: none",
    // On duty to 16:00, and off to the second day after at 06:00.
    "wait 960 off 2280 defer 0: none",
    "wait 960 off 2280: CA-OFF10",
    "wait 961 off 2279 defer 0: CA-DEFER",
    // A day that loses no more than it may defers nothing.
    "wait 840 off 2400 defer 0: CA-DEFER",
    "wait 841 off 2399 defer 0: none",
    // On duty to 16:00, off to 02:00, and on duty to 14:00: 28 hours in two days.
    "wait 960 off 600 wait 720 off 960 defer 0: none",
    "wait 960 off 600 wait 721 off 959 defer 0: CA-DEFER",
    // The rest in the second day has ten hours, and a minute less is too short.
    "wait 960 off 599 wait 300 off 500 wait 1 off 540 wait 1 defer 0: CA-DEFER",
    "wait 960 off 600 wait 300 off 500 wait 1 off 540 wait 1 defer 0: none",
    // Two deferrals, one after the other.
    "wait 960 off 600 wait 720 off 720 wait 960 off 600 wait 720 defer 0 defer 2: none",
    // The day after a deferred one is not deferred itself.
    "wait 960 off 2280 defer 0 defer 1: CA-DEFER",
    "wait 841 off 599 wait 841 off 959 defer 0 defer 1: CA-DEFER",
    // A mark of a day long before.
    "wait 60 defer -9557: CA-DEFER",
];

/// Split rests in a truck with a berth.
const BERTH: &[&str] = &[
    "wait 300 berth 240 wait 300 berth 360 drive 1 split 300 split 840: none",
    "wait 300 berth 240 wait 300 berth 359 drive 1 split 300 split 840: CA-PAIR",
    // The second rest is a full one, and not all in the berth.
    "wait 300 berth 240 wait 300 berth 479 off 1 drive 1 split 300: CA-PAIR",
    "wait 300 berth 240 wait 300 berth 480 drive 1 split 300: none",
    // The first rest has two hours at least, all in the berth.
    "wait 300 berth 120 wait 300 berth 480 drive 1 split 300: none",
    "wait 300 berth 119 wait 300 berth 481 drive 1 split 300: CA-PAIR",
    "wait 300 off 1 berth 239 wait 300 berth 480 drive 1 split 300: CA-PAIR",
    // Nothing is asked while the second rest has not ended.
    "wait 300 berth 240 wait 300 off 100 split 300: none",
];

/// Where rest is split, none is deferred, and without a berth no rest is split.
const NO_BERTH: &[&str] = &[
    "wait 960 off 2280: CA-OFF10",
    "wait 960 off 2280 defer 0: CA-DEFER",
    "wait 300 berth 240 wait 300 split 300: CA-PAIR",
];

/// A day of rest in fourteen days, and cycle 1.
const CYCLE_1: &[&str] = &[
    // The 24 hours end where the first work begins.
    "wait 60 off 1380 times 13 drive 1: none",
    "wait 60 off 1380 times 13 drive 2: CA-24IN14",
    // Ten hours in each of seven days. The first one counts no longer in the eighth.
    "wait 600 off 840 times 6 wait 599 drive 1: none",
    "wait 600 off 840 times 6 wait 599 drive 2: CA-CYCLE",
    "wait 600 off 840 times 6 wait 600 off 840 drive 600: none",
    // Fourteen hours in each of five days, and 36 hours of rest, or a minute less.
    "wait 840 off 600 times 4 wait 840 off 2160 drive 1: none",
    "wait 840 off 600 times 4 wait 840 off 2159 drive 1: CA-CYCLE",
];

/// Cycle 2.
const CYCLE_2: &[&str] = &[
    // Fourteen hours in each of five days, and a day off, or a minute less.
    "wait 840 off 600 times 4 wait 840 off 1440 drive 1: none",
    "wait 840 off 600 times 4 wait 840 off 1439 drive 1: CA-70WITHOUT24",
    // Seventy hours in five days, a day off, and fifty hours in four days.
    "wait 840 off 600 times 4 wait 840 off 2040 wait 750 off 690 wait 750 off 690 wait 750 off 690 \
     wait 749 drive 1: none",
    "wait 840 off 600 times 4 wait 840 off 2040 wait 750 off 690 wait 750 off 690 wait 750 off 690 \
     wait 749 drive 2: CA-CYCLE",
    // A hundred and twenty hours in ten days, and 72 hours of rest, or a minute less.
    "wait 720 off 720 times 9 wait 720 off 4320 drive 1: none",
    "wait 720 off 720 times 9 wait 720 off 4319 drive 1: CA-CYCLE",
];

#[test]
fn rules_of_days_in_canada(rt: HostRuntime) -> Result<(), Fail> {
    assert_broken(&rt, rt.alloc(), canada(false, RestWay::Defer, 1), DAYS)?;
    assert_broken(&rt, rt.alloc(), canada(false, RestWay::Defer, 1), LOST)
}

#[test]
fn split_rests_and_cycles_in_canada(rt: HostRuntime) -> Result<(), Fail> {
    assert_broken(&rt, rt.alloc(), canada(true, RestWay::Split, 1), BERTH)?;
    assert_broken(&rt, rt.alloc(), canada(false, RestWay::Split, 1), NO_BERTH)?;
    assert_broken(&rt, rt.alloc(), canada(false, RestWay::Defer, 1), CYCLE_1)?;
    assert_broken(&rt, rt.alloc(), canada(false, RestWay::Defer, 2), CYCLE_2)
}
