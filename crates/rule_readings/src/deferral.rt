//! Ten hours of rest in each day in Canada, and its deferral, after SOR/2005-313, sections 14 and
//! 16.
ghost use Rattle.std.specs.Prelude.{◌≡◌, ℕ, ℤ, ◌+◌, ◌^◌, ◌<◌, ◌≤◌, ◌↔◌, Contains, IsTrue, IfSome, MatchOption};
ghost use Rattle.duty_core.specs.declared.mark.Mark.TheVariants.{DeferDay};
ghost use Rattle.duty_core.specs.Day.{day_number, IsNumberOfDay};
ghost use Rattle.duty_core.specs.Marks.{IsDeferred};
ghost use Rattle.duty_core.specs.Deferral.{IsInDeferral, MeetsCaOff10, HasRestIn, IsDeferral, IsCaDeferral, MeetsCaDefer};
ghost use Rattle.rule_readings.specs.CaHistory.{IsByMinutes};
ghost use Rattle.rule_readings.specs.declared.ca_day.TheConstants.{DAY_LIMIT};
ghost use Rattle.rule_readings.specs.declared.deferral.TheConstants.{DAY_ZERO};
ghost use Rattle.rule_readings.specs.Lost.{AreLostCounts};
ghost use Rattle.rule_readings.specs.Deferring.{IsOpenRest, HasRunIn, DefersDay, MeetsMark};
ghost use Rattle.rule_readings.specs.Histories.{day_in};

use crate::book::is_defer_way;
use crate::ca_day::{DAY_LIMIT, day_begin, day_of};
use crate::history::History;
use crate::padded::{Padded, RestRun};
use duty_core::{
    CA_BOTH_LOST_LIMIT, CA_DEFERRED_LOST_LIMIT, CA_FULL_REST, CA_LOST_LIMIT, Day, Mark, Marks,
    Minute, PADDING_DAYS, Params, is_duty,
};

/// The number of day 0: the days of the padding and one more.
const DAY_ZERO: u32 = PADDING_DAYS + 1;

/// The number of a day. None where a padded history has no place so early.
pub(crate) fn number_of(day: Day) -> Option<u32>
    ensures value { MatchOption result ((n : ℕ) → IsNumberOfDay day n → ⊥) (λ n. IsNumberOfDay day n) }
    ensures bound { IfSome result (λ n. n ≤ DAY_ZERO + 2 ^ 31) }
{
    let days = day.unsigned_abs();
    if day < 0 {
        DAY_ZERO.checked_sub(days)
    } else {
        Some(DAY_ZERO + days)
    }
}

/// Whether the mark defers the day with this number.
fn defers_day(mark: Mark, number: u32) -> bool
    ensures { IsTrue result ↔ DefersDay number mark }
{
    match mark {
        Mark::DeferDay { day } => is_number_of(day, number),
        Mark::SplitRest { .. } => false,
    }
}

/// Whether the day has this number.
fn is_number_of(day: Day, number: u32) -> bool
    ensures { IsTrue result ↔ IsNumberOfDay day number }
{
    match number_of(day) {
        Some(own) => own == number,
        None => false,
    }
}

/// Whether a mark defers the day with this number.
pub(crate) fn is_deferred(marks: &Marks, number: u32) -> bool
    ensures { IsTrue result ↔ IsDeferred marks.now number }
{
    for mark in marks.items() {
        if defers_day(*mark, number) {
            return true;
        }
    }
    false
}

/// Whether the day with this number is deferred, or the day after a deferred one.
pub(crate) fn is_in_deferral(marks: &Marks, number: u32) -> bool
    ensures { IsTrue result ↔ IsInDeferral (IsDeferred marks.now) number }
{
    if is_deferred(marks, number) {
        return true;
    }
    match number.checked_sub(1) {
        Some(before) => is_deferred(marks, before),
        None => false,
    }
}

/// Whether the day with this number is in a deferral, or loses at most as much as it may.
fn meets_off10(history: &History<'_>, number: u32) -> bool
    requires counts { AreLostCounts history.now.padded.now history.now.lost.now }
    requires minutes { IsByMinutes history.now.scope.params history.now.scope.first }
    requires small { number ≤ DAY_LIMIT }
    ensures { IsTrue result ↔ MeetsCaOff10 (day_in history.now) history.now.padded.now (IsDeferred history.now.marks.now) number }
{
    history.lost_in(number) <= CA_LOST_LIMIT || is_in_deferral(history.marks, number)
}

/// Whether each day that is in no deferral has its ten hours of rest.
pub(crate) fn keeps_off10(history: &History<'_>) -> bool
    requires counts { AreLostCounts history.now.padded.now history.now.lost.now }
    requires minutes { IsByMinutes history.now.scope.params history.now.scope.first }
    ensures { IsTrue result ↔ ((j : ℕ) → MeetsCaOff10 (day_in history.now) history.now.padded.now (IsDeferred history.now.marks.now) j) }
{
    let params = history.scope.params;
    let first = history.scope.first;
    let begin = day_of(params, first, 0);
    let end = day_of(params, first, history.padded.len()) + 1;
    for number in begin..end {
        if !meets_off10(history, number) {
            return false;
        }
    }
    true
}

/// The place from which on all is rest.
fn open_rest(padded: &Padded) -> u32
    ensures { IsOpenRest padded.now result }
{
    let mut from = padded.len();
    while from > 0 {
        if is_duty(padded.at(from - 1)) {
            return from;
        }
        from -= 1;
    }
    from
}

/// Whether the run has at least `least` minutes, and one from place `begin` up to place `end`.
fn is_run_in(run: RestRun, least: u32, begin: u32, end: u32) -> bool
    ensures { IsTrue result ↔ HasRunIn least begin end run }
{
    least <= run.to && run.from <= run.to - least && run.from < end && begin < run.to
}

/// Whether some rest has at least `least` minutes, and one of them in the day with this number.
fn has_rest_in(padded: &Padded, params: Params, first: Minute, least: u32, number: u32) -> bool
    requires minutes { IsByMinutes params first }
    requires some { 0 < least }
    requires small { number ≤ DAY_LIMIT }
    ensures { IsTrue result ↔ HasRestIn (day_number params first) padded.now least number }
{
    let begin = day_begin(params, first, number);
    let end = day_begin(params, first, number + 1);
    if begin >= end {
        return false;
    }
    if open_rest(padded) < end {
        return true;
    }
    for run in padded.rest_runs() {
        if is_run_in(*run, least, begin, end) {
            return true;
        }
    }
    false
}

/// Whether rest of the day with this number may be deferred to the next day.
pub(crate) fn is_deferral(history: &History<'_>, number: u32) -> bool
    requires counts { AreLostCounts history.now.padded.now history.now.lost.now }
    requires minutes { IsByMinutes history.now.scope.params history.now.scope.first }
    ensures { IsTrue result ↔ IsDeferral (day_in history.now) history.now.padded.now number }
{
    let _places = history.padded.len();
    if number >= DAY_LIMIT {
        return false;
    }
    let own = history.lost_in(number);
    let next = history.lost_in(number + 1);
    if own <= CA_LOST_LIMIT || own > CA_DEFERRED_LOST_LIMIT || own + next > CA_BOTH_LOST_LIMIT {
        return false;
    }
    let least = CA_FULL_REST + (own - CA_LOST_LIMIT);
    has_rest_in(
        history.padded,
        history.scope.params,
        history.scope.first,
        least,
        number + 1,
    )
}

/// Whether a mark of this day stands for a deferral under the way `defer`, and the next day has no
/// mark.
fn meets_day(history: &History<'_>, day: Day) -> bool
    requires counts { AreLostCounts history.now.padded.now history.now.lost.now }
    requires minutes { IsByMinutes history.now.scope.params history.now.scope.first }
    ensures { IsTrue result ↔ IsCaDeferral history.now.scope.params (day_in history.now) history.now.padded.now history.now.marks.now day }
{
    match number_of(day) {
        Some(number) => {
            is_defer_way(history.scope.params)
                && is_deferral(history, number)
                && !is_deferred(history.marks, number + 1)
        }
        None => false,
    }
}

/// Whether the mark, if it defers a day, may do so.
fn meets_mark(history: &History<'_>, mark: Mark) -> bool
    requires counts { AreLostCounts history.now.padded.now history.now.lost.now }
    requires minutes { IsByMinutes history.now.scope.params history.now.scope.first }
    ensures { IsTrue result ↔ MeetsMark history.now.scope.params (day_in history.now) history.now.padded.now history.now.marks.now mark }
{
    match mark {
        Mark::DeferDay { day } => meets_day(history, day),
        Mark::SplitRest { .. } => true,
    }
}

/// Whether each mark that defers a day may do so.
pub(crate) fn keeps_defer(history: &History<'_>) -> bool
    requires counts { AreLostCounts history.now.padded.now history.now.lost.now }
    requires minutes { IsByMinutes history.now.scope.params history.now.scope.first }
    ensures { IsTrue result ↔ MeetsCaDefer history.now.scope.params (day_in history.now) history.now.padded.now history.now.marks.now }
{
    for mark in history.marks.items() {
        if !meets_mark(history, *mark) {
            return false;
        }
    }
    true
}
