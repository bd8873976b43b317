//! The lost minutes of days in Canada that readings look at, after SOR/2005-313, sections 14 and 16.
ghost use Rattle.std.specs.Prelude.{◌<◌, ◌≤◌, ◌↔◌, IsTrue, length};
ghost use Rattle.duty_core.specs.Day.{day_number};
ghost use Rattle.duty_core.specs.Marks.{IsDeferred};
ghost use Rattle.rule_readings.specs.declared.padded.TheConstants.{LONGEST_PADDED};
ghost use Rattle.rule_readings.specs.CaHistory.{IsByMinutes};
ghost use Rattle.rule_readings.specs.Count.{IsCount};
ghost use Rattle.rule_readings.specs.Lost.{AreLostCounts};
ghost use Rattle.rule_readings.specs.Values.{BeginsDayOf, IsLoss, IsDeferredLoss};
ghost use Rattle.rule_readings.specs.Histories.{day_in};

use crate::ca_day::{day_begin, day_of};
use crate::deferral::{is_deferred, is_in_deferral};
use crate::history::History;
use crate::scope::{Scope, Span, meets};

/// Whether place `i` is the first one of its day, and a place of the span lies in that day.
fn begins_day_of(scope: Scope, span: Span, i: u32) -> bool
    requires minutes { IsByMinutes scope.params scope.first }
    requires inside { i ≤ LONGEST_PADDED }
    ensures { IsTrue result ↔ BeginsDayOf span (day_number scope.params scope.first) i }
{
    let number = day_of(scope.params, scope.first, i);
    day_begin(scope.params, scope.first, number) == i
        && meets(span, i, day_begin(scope.params, scope.first, number + 1))
}

/// The lost minutes of the day that begins at place `i`. `None` where none does, where it has no
/// minute of the schedule and where it is in a deferral.
pub(crate) fn loss(history: &History<'_>, i: u32) -> Option<u32>
    requires counts { AreLostCounts history.now.padded.now history.now.lost.now }
    requires minutes { IsByMinutes history.now.scope.params history.now.scope.first }
    requires inside { i < length history.now.padded.now }
    ensures { IsCount
        (IsLoss history.now.scope.planned (day_in history.now) history.now.padded.now (IsDeferred history.now.marks.now) i)
        result }
{
    let _places = history.padded.len();
    let scope = history.scope;
    let number = day_of(scope.params, scope.first, i);
    if !begins_day_of(scope, scope.planned, i) || is_in_deferral(history.marks, number) {
        return None;
    }
    Some(history.lost_in(number))
}

/// The lost minutes of the deferred day that begins at place `i` and of the next day. `None` where
/// no day begins, where it has no minute of the history and where it is not deferred.
pub(crate) fn deferred_loss(history: &History<'_>, i: u32) -> Option<u32>
    requires counts { AreLostCounts history.now.padded.now history.now.lost.now }
    requires minutes { IsByMinutes history.now.scope.params history.now.scope.first }
    requires inside { i < length history.now.padded.now }
    ensures { IsCount
        (IsDeferredLoss history.now.scope.history (day_in history.now) history.now.padded.now (IsDeferred history.now.marks.now) i)
        result }
{
    let _places = history.padded.len();
    let scope = history.scope;
    let number = day_of(scope.params, scope.first, i);
    if !begins_day_of(scope, scope.history, i) || !is_deferred(history.marks, number) {
        return None;
    }
    Some(history.lost_in(number) + history.lost_in(number + 1))
}
