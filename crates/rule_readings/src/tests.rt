//! Histories of the United States told in words, each with the rules that it breaks.
use crate::cases::assert_broken;
use duty_core::Params;
use std::test::Fail;

/// A truck without a berth, and a week of seven days.
const SEVEN_DAYS: Params = Params::UsProperty {
    berth: false,
    days: 7,
    day_start: 0,
};

/// A truck without a berth, and a week of eight days.
const EIGHT_DAYS: Params = Params::UsProperty {
    berth: false,
    days: 8,
    day_start: 0,
};

/// A truck with a berth, and a week of eight days.
const WITH_BERTH: Params = Params::UsProperty {
    berth: true,
    days: 8,
    day_start: 0,
};

/// Without a berth, in seven days: the week begins anew after a restart, and has seven days.
const IN_SEVEN_DAYS: &[&str] = &[
    "serve 3600 off 2040 drive 1: none",
    "serve 3600 off 2039 drive 1: US-WEEK",
    "serve 3600 off 2000 wait 1 off 2000 wait 1 off 2000 wait 1 off 476 drive 1: US-WEEK",
    "serve 3600 off 2000 wait 1 off 2000 wait 1 off 2000 wait 1 off 477 drive 1: none",
];

/// Without a berth, in eight days.
const IN_EIGHT_DAYS: &[&str] = &[
    // Twelve hours of driving, from 18:00 on.
    "from 72 drive 720: US-DRIVE11 US-BREAK8",
    // Driving ends with the window.
    "serve 840 drive 1 off 959: US-WINDOW14",
    "serve 839 drive 1 off 960: none",
    // No rest is split.
    "drive 300 berth 420 drive 300 off 180 drive 360 off 240 split 300 split 1020: US-PAIR",
    "drive 300 berth 420 drive 300 off 180 drive 360 off 240: US-WINDOW14 US-DRIVE11",
    // Half an hour of several kinds is a break.
    "drive 480 serve 10 off 10 wait 10 drive 1: none",
    // Seventy hours in eight days.
    "serve 3600 off 2039 drive 1: none",
    "serve 4200 off 2039 drive 1: US-WEEK",
    "serve 4200 off 2040 drive 1: none",
    "serve 4200 off 2000 wait 1 off 2000 wait 1 off 2000 wait 1 off 1316 drive 1: US-WEEK",
    "serve 4200 off 2000 wait 1 off 2000 wait 1 off 2000 wait 1 off 1317 drive 1: none",
];

/// With a berth: two rests are a pair.
const PAIRS: &[&str] = &[
    "drive 300 berth 420 drive 300 off 180 drive 360 off 240 split 300 split 1020: none",
    // Nothing declared: both rests are within the window.
    "drive 300 berth 420 drive 300 off 180 drive 360 off 240: US-WINDOW14 US-DRIVE11",
    // A mark that names no rest run.
    "drive 300 berth 420 drive 300 off 180 drive 360 off 240 split 300 split 720 split 1020: \
     US-PAIR",
    // A minute more or less than a pair.
    "drive 300 berth 420 drive 300 off 180 drive 361 off 239 split 300 split 1020: US-DRIVE11",
    "drive 300 berth 420 drive 300 off 179 drive 361 off 240 split 300 split 1020: \
     US-DRIVE11 US-PAIR",
    // Less than seven hours of the berth in either rest.
    "drive 300 berth 419 off 1 drive 300 off 180 drive 360 off 240 split 300 split 1020: US-PAIR",
    // A rest that waits for its pair is not in the window.
    "serve 300 berth 120 wait 539 drive 1 split 300: none",
    "serve 300 berth 120 wait 540 drive 1 split 300: US-WINDOW14",
    // Less than two hours is no split rest.
    "serve 300 berth 119 wait 539 drive 1 split 300: US-PAIR",
];

/// With a berth: half an hour without driving is a break.
const BREAKS: &[&str] = &[
    "drive 480 off 30 drive 1: none",
    "drive 480 off 29 drive 1: US-BREAK8",
    "drive 480 berth 30 drive 1: none",
    "drive 480 berth 29 drive 1: US-BREAK8",
    "drive 480 serve 30 drive 1: none",
    "drive 480 serve 29 drive 1: US-BREAK8",
    "drive 480 wait 30 drive 1: none",
    "drive 480 wait 29 drive 1: US-BREAK8",
];

#[test]
fn rules_of_the_united_states(rt: HostRuntime) -> Result<(), Fail> {
    assert_broken(&rt, rt.alloc(), SEVEN_DAYS, IN_SEVEN_DAYS)?;
    assert_broken(&rt, rt.alloc(), EIGHT_DAYS, IN_EIGHT_DAYS)?;
    assert_broken(&rt, rt.alloc(), WITH_BERTH, PAIRS)?;
    assert_broken(&rt, rt.alloc(), WITH_BERTH, BREAKS)
}
