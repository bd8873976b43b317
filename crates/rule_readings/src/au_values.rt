//! What readings look at in Australia's counted periods.
ghost use Rattle.std.specs.Prelude.{◌≡◌, ◌+◌, ◌*◌, ◌^◌, ◌<◌};
ghost use Rattle.duty_core.specs.declared.limits.TheConstants.{AU_LONG_START, AU_14D_PERIOD};
ghost use Rattle.duty_core.specs.declared.params.Params.TheVariants.{Hvnl};
ghost use Rattle.duty_core.specs.Params.{BeginsUnit, unit_minutes};
ghost use Rattle.rule_readings.specs.AuCounts.{rest_of};
ghost use Rattle.rule_readings.specs.Count.{IsCount};
ghost use Rattle.rule_readings.specs.Values.{IsPeriodDuty, IsPeriodRest, IsPeriodNights};

use crate::au_nights::nights_from;
use crate::au_periods::{Start, duty_from, rest_from};
use crate::padded::Padded;
use crate::scope::{Span, meets};
use duty_core::{AU_14D_PERIOD, Minute, Params, unit_of};

/// So many quarters of an hour, in minutes.
fn minutes_of(quarters: u32) -> u32
    requires { unit_minutes Hvnl * quarters < 2 ^ 32 }
    ensures { result ≡ unit_minutes Hvnl * quarters }
{
    unit_of(Params::Hvnl {}) * quarters
}

/// The duty in the period of so many units that begins at place `i`, in minutes. `None` where none
/// begins, and where it has no unit of the schedule.
pub(crate) fn period_duty(
    padded: &Padded,
    planned: Span,
    start: Start,
    units: u32,
    i: u32,
) -> Option<u32>
    requires { i + units < 2 ^ 28 }
    ensures { IsCount (IsPeriodDuty planned (rest_of start) units padded.now i) result }
{
    if !meets(planned, i, i + units) {
        return None;
    }
    Some(minutes_of(duty_from(padded, start, units, i)?))
}

/// The longest stretch of rest in the period of so many units that begins at place `i`, in minutes.
/// `None` where none begins, and where it has no unit of the schedule.
pub(crate) fn period_rest(padded: &Padded, planned: Span, units: u32, i: u32) -> Option<u32>
    requires { i + units < 2 ^ 28 }
    ensures { IsCount (IsPeriodRest planned AU_LONG_START units padded.now i) result }
{
    if !meets(planned, i, i + units) {
        return None;
    }
    Some(minutes_of(rest_from(padded, units, i)?))
}

/// How many nights of the fourteen days that begin at place `i` have a break. `None` where none
/// begin, and where they have no unit of the schedule.
pub(crate) fn period_nights(padded: &Padded, planned: Span, first: Minute, i: u32) -> Option<u32>
    requires begins { BeginsUnit Hvnl first }
    requires range { i < 2 ^ 28 }
    ensures { IsCount (IsPeriodNights planned AU_LONG_START AU_14D_PERIOD first padded.now i) result }
{
    if !meets(planned, i, i + AU_14D_PERIOD) {
        return None;
    }
    Some(nights_from(padded, first, i)?.broken)
}
