//! The days that hold a civil minute, where each day begins at one minute of the calendar's day.
ghost use Rattle.std.specs.Prelude.{◌≡◌, ◌<◌, ℤ, neg_ℤ, pos, ◌+ℤ◌, ◌≤ℤ◌, ◌<ℤ◌};
ghost use Rattle.duty_core.specs.declared.limits.TheConstants.{DAY_MINUTES};
ghost use Rattle.civil_minutes.specs.Day.{day_of_minute, minute_in_day, first_of_day};

use duty_core::{DAY_MINUTES, Day, Minute};

/// The day that holds the minute, where a day begins `day_start` minutes after midnight.
///
/// Day 0 begins on 2000-01-01. A minute before that beginning is of day -1, and of none earlier.
pub fn day_of(at: Minute, day_start: u16) -> Day
    requires { day_start < DAY_MINUTES }
    ensures value { result ≡ day_of_minute at day_start }
    ensures begins { first_of_day result day_start ≤ℤ pos at }
    ensures ends { pos at <ℤ (first_of_day result day_start +ℤ pos DAY_MINUTES) }
    ensures only { (day : ℤ) → first_of_day day day_start ≤ℤ pos at
        → pos at <ℤ (first_of_day day day_start +ℤ pos DAY_MINUTES) → day ≡ result }
    ensures early { neg_ℤ (pos 1) ≤ℤ result }
{
    let since_day_before = u64::from(at) + u64::from(DAY_MINUTES - u32::from(day_start));
    (since_day_before / u64::from(DAY_MINUTES)) as i32 - 1
}

/// How many minutes of its day lie before the minute: from 0 to 1439.
pub fn minute_of_day(at: Minute, day_start: u16) -> u16
    requires { day_start < DAY_MINUTES }
    ensures value { result ≡ minute_in_day at day_start }
    ensures range { result < DAY_MINUTES }
    ensures sum { first_of_day (day_of_minute at day_start) day_start +ℤ pos result ≡ pos at }
{
    let since_day_before = u64::from(at) + u64::from(DAY_MINUTES - u32::from(day_start));
    (since_day_before % u64::from(DAY_MINUTES)) as u16
}

/// The civil minute at which the day begins. It is negative for a day before day 0.
pub fn day_first(day: Day, day_start: u16) -> i64
    requires { day_start < DAY_MINUTES }
    ensures { result ≡ first_of_day day day_start }
{
    i64::from(day) * i64::from(DAY_MINUTES) + i64::from(day_start)
}
