//! Australia's counted periods: where they begin, and what each holds. A unit is a quarter of an
//! hour (Heavy Vehicle (Fatigue Management) National Regulation, Schedule 1, standard hours, solo).
ghost use Rattle.std.specs.Prelude.{◌≡◌, ◌↔◌, ℕ, ◌+◌, ◌^◌, ◌<◌, ◌≤◌, length, IsTrue, SomeIff};
ghost use Rattle.duty_core.specs.Counting.{duty};
ghost use Rattle.duty_core.specs.AuPeriods.{IsStart};
ghost use Rattle.rule_readings.specs.AuCounts.{rest_of, IsRestBefore, IsRestAfter, IsLongestRest, IsAtLongStart};

use crate::padded::Padded;
use duty_core::{AU_LONG_START, AU_SHORT_START, is_duty, is_rest};

/// Where a counted period begins: at a unit of duty that follows rest.
#[derive(Clone, Copy, Debug, PartialEq, Eq)]
pub(crate) enum Start {
    /// Any rest stands before it.
    Short,
    /// Seven consecutive hours of rest stand before it.
    Long,
}

impl Start {
    /// The rest before a start of this kind, in units.
    pub(crate) fn rest(self) -> u32
        ensures value { result ≡ rest_of self }
        ensures bound { result ≤ AU_LONG_START }
    {
        match self {
            Start::Short => AU_SHORT_START,
            Start::Long => AU_LONG_START,
        }
    }
}

/// How much rest stands right before a place, in units, of which at most `most` are looked at.
pub(crate) fn rest_before(padded: &Padded, place: u32, most: u32) -> u32
    ensures { IsRestBefore padded.now place most result }
{
    let end = most.min(place);
    for rested in 0..end {
        if !is_rest(padded.at(place - rested - 1)) {
            return rested;
        }
    }
    end
}

/// How much rest begins at a place, in units, of which at most `most` are looked at.
pub(crate) fn rest_after(padded: &Padded, place: u32, most: u32) -> u32
    requires { place + most < 2 ^ 32 }
    ensures { IsRestAfter padded.now place most result }
{
    for rested in 0..most {
        if !is_rest(padded.at(place + rested)) {
            return rested;
        }
    }
    most
}

/// The longest stretch of rest from place `from` up to place `to`, without `to`, in units.
pub(crate) fn longest_rest(padded: &Padded, from: u32, to: u32) -> u32
    requires { from ≤ to }
    ensures { IsLongestRest padded.now from to result }
{
    let mut longest: u32 = 0;
    let mut run: u32 = 0;
    for place in from..to {
        run = if is_rest(padded.at(place)) {
            run + 1
        } else {
            0
        };
        longest = longest.max(run);
    }
    longest
}

/// Whether a counted period begins at the place.
pub(crate) fn is_start(padded: &Padded, start: Start, place: u32) -> bool
    ensures { IsTrue result ↔ IsStart (rest_of start) padded.now place }
{
    is_duty(padded.at(place)) && rest_before(padded, place, start.rest()) == start.rest()
}

/// The duty in so many units from the place on, in units. Past the end of the list there is rest.
fn duty_in(padded: &Padded, place: u32, units: u32) -> u32
    requires { place + units < 2 ^ 32 }
    ensures { result ≡ duty padded.now place (place + units) }
{
    let end = (place + units).min(padded.len());
    padded.duty(place.min(end), end)
}

/// The duty in the period of so many units that begins at the place, in units, or `None` where no
/// start of this kind is there.
pub(crate) fn duty_from(padded: &Padded, start: Start, units: u32, place: u32) -> Option<u32>
    requires { place + units < 2 ^ 32 }
    ensures { SomeIff result (IsStart (rest_of start) padded.now place) (duty padded.now place (place + units)) }
{
    if is_start(padded, start, place) {
        Some(duty_in(padded, place, units))
    } else {
        None
    }
}

/// The longest stretch of rest inside the period of so many units that begins at the place, in
/// units, or `None` where no long start is there.
pub(crate) fn rest_from(padded: &Padded, units: u32, place: u32) -> Option<u32>
    requires { place + units < 2 ^ 32 }
    ensures { IsAtLongStart (IsLongestRest padded.now place (place + units)) padded.now place result }
{
    if is_start(padded, Start::Long, place) {
        Some(longest_rest(padded, place, place + units))
    } else {
        None
    }
}
