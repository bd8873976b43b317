//! Days and long rests: from which place the duty of some days, or since a rest, is counted.
ghost use Rattle.std.specs.Bool.{OnTrue};
ghost use Rattle.std.specs.Prelude.{◌≡◌, ◌<◌, ◌≤◌, ◌↔◌, IsTrue, length};
ghost use Rattle.duty_core.specs.declared.activity.Activity.TheVariants.{Drive};
ghost use Rattle.duty_core.specs.declared.limits.TheConstants.{MINUTE_LIMIT};
ghost use Rattle.duty_core.specs.History.{unit_at};
ghost use Rattle.duty_core.specs.Counting.{IsDaysBase};
ghost use Rattle.duty_core.specs.Day.{day_number, IsFirstOfDays};
ghost use Rattle.rule_readings.specs.declared.padded.TheConstants.{LONGEST_PADDED};
ghost use Rattle.rule_readings.specs.EndFound.{IsEndFound};

use crate::book::start_of_day;
use crate::declared::ended_by;
use crate::padded::Padded;
use duty_core::{Activity, DAY_MINUTES, Minute, Params, unit_of};

/// Whether the unit at place `i` is driving.
pub(crate) fn is_driving(padded: &Padded, i: u32) -> bool
    ensures value { IsTrue result ↔ (unit_at padded.now i ≡ Drive) }
    ensures inside { OnTrue result (i < length padded.now) }
{
    i < padded.len() && matches!(padded.at(i), Activity::Drive)
}

/// Where the last rest run of at least `least` units ended that ended at place `i` or before. `None`
/// where none has ended.
pub(crate) fn last_end(padded: &Padded, least: u32, i: u32) -> Option<u32>
    ensures { IsEndFound least padded.now i result }
{
    let runs = padded.rest_runs();
    let mut rest = ended_by(runs, i);
    while rest > 0 {
        rest -= 1;
        let run = runs[rest];
        if run.to.saturating_sub(run.from) >= least {
            return Some(run.to);
        }
    }
    None
}

/// The first place of the last `days` days, the day of place `i` counted.
pub(crate) fn first_of_days(params: Params, first: Minute, days: u32, i: u32) -> u32
    requires early { first ≤ MINUTE_LIMIT }
    requires inside { i ≤ LONGEST_PADDED }
    requires some { 0 < days }
    ensures first { IsFirstOfDays (day_number params first) days i result }
    ensures before { result ≤ i }
{
    let unit = unit_of(params);
    let begins = first + DAY_MINUTES.saturating_sub(start_of_day(params));
    let today = (begins + unit * i) / DAY_MINUTES;
    let earliest = (today + 1).saturating_sub(days);
    let missing = (earliest * DAY_MINUTES).saturating_sub(begins);
    (missing + unit - 1) / unit
}

/// The place from which the duty of the last `days` days is counted, the day of place `i` counted,
/// since the last rest of at least `restart` units.
pub(crate) fn days_base(
    padded: &Padded,
    params: Params,
    first: Minute,
    days: u32,
    restart: u32,
    i: u32,
) -> u32
    requires early { first ≤ MINUTE_LIMIT }
    requires inside { i ≤ LONGEST_PADDED }
    requires some { 0 < days }
    ensures base { IsDaysBase (day_number params first) days restart padded.now i result }
    ensures before { result ≤ i }
{
    let day = first_of_days(params, first, days, i);
    match last_end(padded, restart, i) {
        Some(end) => day.max(end),
        None => day,
    }
}
