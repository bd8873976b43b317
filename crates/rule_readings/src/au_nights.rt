//! Australia's nights, from 22:00 of a date to 08:00 of the next, and their breaks. A night is named
//! by the place of its midnight (Heavy Vehicle (Fatigue Management) National Regulation, Schedule 1,
//! standard hours, solo).
ghost use Rattle.std.specs.Prelude.{◌≡◌, ◌↔◌, ℕ, ◌+◌, ◌^◌, ◌<◌, ◌≤◌, length, IsTrue};
ghost use Rattle.duty_core.specs.declared.params.Params.TheVariants.{Hvnl};
ghost use Rattle.duty_core.specs.Params.{day_units, BeginsUnit};
ghost use Rattle.duty_core.specs.AuNights.{HasBreak, MeetsAu14dNights};
ghost use Rattle.rule_readings.specs.AuCounts.{IsAtLongStart};
ghost use Rattle.rule_readings.specs.AuNightCounts.{IsLongAcross, IsNextMidnight, AreNights};

use crate::au_periods::{Start, is_start, longest_rest, rest_after, rest_before};
use crate::padded::Padded;
use duty_core::{
    AU_14D_NIGHTS, AU_14D_PERIOD, AU_NIGHT_AFTER, AU_NIGHT_BEFORE, AU_NIGHT_LONG_REST,
    AU_NIGHT_REST, DAY_MINUTES, Minute, Params, unit_of,
};

/// What is counted of the nights that lie wholly in a period.
#[derive(Clone, Copy, Debug, PartialEq, Eq)]
pub(crate) struct Nights {
    /// How many of them have a break.
    pub broken: u32,
    /// Whether some two consecutive ones have a break each.
    pub consecutive: bool,
}

/// The length of a day, in quarters of an hour.
fn quarters_of_day() -> u32
    ensures { result ≡ day_units Hvnl }
{
    DAY_MINUTES / unit_of(Params::Hvnl {})
}

/// Whether the night of this midnight has a break: seven consecutive hours of rest inside it, or
/// twenty-four that hold the unit before and the unit after midnight.
pub(crate) fn has_break(padded: &Padded, midnight: u32) -> bool
    requires { midnight < 2 ^ 31 }
    ensures { IsTrue result ↔ HasBreak padded.now midnight }
{
    let begins = midnight.saturating_sub(AU_NIGHT_BEFORE);
    let inside = longest_rest(padded, begins, midnight + AU_NIGHT_AFTER);
    if is_long_inside(inside) {
        return true;
    }
    let before = rest_before(padded, midnight, AU_NIGHT_LONG_REST);
    let after = rest_after(padded, midnight, AU_NIGHT_LONG_REST);
    is_long_across(before, after)
}

/// Whether so much consecutive rest inside a night is seven hours.
fn is_long_inside(rest: u32) -> bool
    ensures { IsTrue result ↔ (AU_NIGHT_REST ≤ rest) }
{
    rest >= AU_NIGHT_REST
}

/// Whether so much rest right before and right after a midnight holds the unit before and the unit
/// after it, and is twenty-four hours together.
fn is_long_across(before: u32, after: u32) -> bool
    requires { before + after < 2 ^ 32 }
    ensures { IsTrue result ↔ IsLongAcross before after }
{
    before > 0 && after > 0 && before + after >= AU_NIGHT_LONG_REST
}

/// The first midnight at the place or after, where the history begins at the minute `first`.
fn next_midnight(first: Minute, place: u32) -> u32
    requires begins { BeginsUnit Hvnl first }
    requires range { place < 2 ^ 31 }
    ensures { IsNextMidnight first place result }
{
    let day = quarters_of_day();
    let since = (first / unit_of(Params::Hvnl {}) + place) % day;
    if since == 0 {
        place
    } else {
        place + (day - since)
    }
}

/// The nights of so many units from the place on, where the history begins at the minute `first`.
pub(crate) fn nights_in(padded: &Padded, first: Minute, place: u32, units: u32) -> Nights
    requires begins { BeginsUnit Hvnl first }
    requires range { place + units < 2 ^ 30 }
    ensures { AreNights first padded.now place units result }
{
    let end = place + units;
    let day = quarters_of_day();
    let mut midnight = next_midnight(first, place + AU_NIGHT_BEFORE);
    let mut last = false;
    let mut broken: u32 = 0;
    let mut consecutive = false;
    while midnight + AU_NIGHT_AFTER <= end {
        let now = has_break(padded, midnight);
        if now {
            broken += 1;
            consecutive |= last;
        }
        last = now;
        midnight += day;
    }
    Nights {
        broken,
        consecutive,
    }
}

/// The nights of the fourteen days that begin at the place, or `None` where no long start is there.
pub(crate) fn nights_from(padded: &Padded, first: Minute, place: u32) -> Option<Nights>
    requires begins { BeginsUnit Hvnl first }
    requires range { place < 2 ^ 29 }
    ensures { IsAtLongStart (AreNights first padded.now place AU_14D_PERIOD) padded.now place result }
{
    if is_start(padded, Start::Long, place) {
        Some(nights_in(padded, first, place, AU_14D_PERIOD))
    } else {
        None
    }
}

/// Whether the fourteen days that begin at the place, if a long start is there, have their nights
/// with a break.
fn meets_nights(padded: &Padded, first: Minute, place: u32) -> bool
    requires begins { BeginsUnit Hvnl first }
    requires range { place < 2 ^ 29 }
    ensures { IsTrue result ↔ MeetsAu14dNights first padded.now place }
{
    match nights_from(padded, first, place) {
        Some(nights) => nights.broken >= AU_14D_NIGHTS && nights.consecutive,
        None => true,
    }
}

/// Whether each fourteen days from a long start on have their nights with a break.
pub(crate) fn keeps_nights(padded: &Padded, first: Minute) -> bool
    requires begins { BeginsUnit Hvnl first }
    ensures { IsTrue result ↔ ((i : ℕ) → MeetsAu14dNights first padded.now i) }
{
    for place in 0..padded.len() {
        if !meets_nights(padded, first, place) {
            return false;
        }
    }
    true
}
