//! Days by the minute: their numbers and the places at which they begin.
ghost use Rattle.std.specs.Prelude.{◌≡◌, ◌+◌, ◌≤◌};
ghost use Rattle.duty_core.specs.Day.{day_number};
ghost use Rattle.duty_core.specs.declared.limits.TheConstants.{MINUTE_LIMIT};
ghost use Rattle.rule_readings.specs.CaHistory.{IsByMinutes};
ghost use Rattle.rule_readings.specs.CaDays.{BeginsDay};
ghost use Rattle.rule_readings.specs.declared.ca_day.TheConstants.{DAY_LIMIT};

use crate::book::start_of_day;
use duty_core::{DAY_MINUTES, Minute, Params};

/// A number that no day of a history has.
pub(crate) const DAY_LIMIT: u32 = 150_000;

/// The number of the day of place `i`.
pub(crate) fn day_of(params: Params, first: Minute, i: u32) -> u32
    requires minutes { IsByMinutes params first }
    requires inside { i ≤ MINUTE_LIMIT }
    ensures { result ≡ day_number params first i }
{
    (first + i + (DAY_MINUTES - start_of_day(params))) / DAY_MINUTES
}

/// The first place whose day has this number or a later one.
pub(crate) fn day_begin(params: Params, first: Minute, number: u32) -> u32
    requires minutes { IsByMinutes params first }
    requires small { number ≤ DAY_LIMIT + 1 }
    ensures { BeginsDay (day_number params first) number result }
{
    (number * DAY_MINUTES).saturating_sub(first + (DAY_MINUTES - start_of_day(params)))
}
