//! Pairs of rests: a split rest, and the declared rest after it.
ghost use Rattle.std.specs.Prelude.{◌≡◌, ℕ, ◌≤◌, ◌↔◌, IsTrue, length};
ghost use Rattle.duty_core.specs.declared.activity.Activity.TheVariants.{Berth};
ghost use Rattle.duty_core.specs.declared.limits.TheConstants.{MINUTE_LIMIT};
ghost use Rattle.duty_core.specs.Stretch.{HoldsBerth, IsBerth};
ghost use Rattle.duty_core.specs.Marks.{IsMinuteOf};
ghost use Rattle.duty_core.specs.RestRun.{IsRun};
ghost use Rattle.duty_core.specs.DeclaredRest.{ArePairedAt};
ghost use Rattle.rule_readings.specs.declared.padded.TheConstants.{LONGEST_PADDED};
ghost use Rattle.rule_readings.specs.Pairs.{IsPair, IsPairedRun, IsSplitFound};
ghost use Rattle.rule_readings.specs.Histories.{IsMarkedIn};

use crate::declared::{is_declared, last_declared, minute_of};
use crate::history::History;
use crate::padded::{Padded, RestRun};
use duty_core::{Activity, Minute, Params, has_berth};

/// What a book asks of the sleeper berth in a pair of rests.
#[derive(Clone, Copy, Debug, PartialEq, Eq)]
pub(crate) enum PairBerth {
    /// At least so many consecutive units of `Berth` in one of the two.
    InEither { least: u32 },
    /// The second of the two is all `Berth`.
    AllOfSecond,
}

/// What a book asks of a pair of rests: how long a full rest is, how long the two are together at
/// least, in units, and what is asked of the berth.
#[derive(Clone, Copy, Debug, PartialEq, Eq)]
pub(crate) struct PairTerms {
    pub full: u32,
    pub least: u32,
    pub berth: PairBerth,
}

/// Whether a unit is in the sleeper berth.
fn is_in_berth(act: Activity) -> bool
    ensures { IsTrue result ↔ (act ≡ Berth) }
{
    matches!(act, Activity::Berth)
}

/// Whether the units from place `from` up to place `to` are all `Berth`.
pub(crate) fn is_berth(padded: &Padded, from: u32, to: u32) -> bool
    ensures { IsTrue result ↔ IsBerth padded.now from to }
{
    for place in from..to {
        if !is_in_berth(padded.at(place)) {
            return false;
        }
    }
    true
}

/// Whether the units from place `from` up to place `to` hold so many consecutive units of `Berth`.
pub(crate) fn holds_berth(padded: &Padded, least: u32, from: u32, to: u32) -> bool
    ensures { IsTrue result ↔ HoldsBerth least padded.now from to }
{
    let mut run: u32 = 0;
    for place in from..to {
        if run >= least {
            return true;
        }
        run = if is_in_berth(padded.at(place)) {
            run + 1
        } else {
            0
        };
    }
    from <= to && run >= least
}

/// Whether two rests are a pair.
pub(crate) fn is_pair(padded: &Padded, terms: PairTerms, one: RestRun, next: RestRun) -> bool
    requires one { one.to ≤ LONGEST_PADDED }
    requires next { next.to ≤ LONGEST_PADDED }
    ensures { IsTrue result ↔ IsPair terms padded.now one.from one.to next.from next.to }
{
    let sum = one.to.saturating_sub(one.from) + next.to.saturating_sub(next.from);
    let berth = match terms.berth {
        PairBerth::InEither { least } => {
            holds_berth(padded, least, one.from, one.to)
                || holds_berth(padded, least, next.from, next.to)
        }
        PairBerth::AllOfSecond => is_berth(padded, next.from, next.to),
    };
    sum >= terms.least && berth
}

/// Whether the rest, if it is declared and a split rest is the last declared rest before it, is the
/// other rest of that one's pair.
fn pairs_with_last(history: &History<'_>, terms: PairTerms, next: RestRun) -> bool
    requires early { history.now.scope.first ≤ MINUTE_LIMIT }
    requires run { IsRun history.now.padded.now next.from next.to }
    requires bound { length history.now.padded.now ≤ LONGEST_PADDED }
    ensures { IsTrue result
        ↔ IsPairedRun terms.full (IsPair terms history.now.padded.now) history.now.padded.now (IsMarkedIn history.now) next.from next.to }
{
    if !is_declared(history, terms.full, next) {
        return true;
    }
    match last_declared(history, terms.full, next.from) {
        Some(one) => {
            one.to.saturating_sub(one.from) >= terms.full
                || is_pair(history.padded, terms, one, next)
        }
        None => true,
    }
}

/// Whether each split rest and the next declared rest are a pair, once that has ended.
pub(crate) fn are_paired(history: &History<'_>, terms: PairTerms) -> bool
    requires early { history.now.scope.first ≤ MINUTE_LIMIT }
    ensures { IsTrue result
        ↔ ((d : ℕ) → ArePairedAt terms.full (IsPair terms history.now.padded.now) history.now.padded.now (IsMarkedIn history.now) d) }
{
    for next in history.padded.rest_runs() {
        if !pairs_with_last(history, terms, *next) {
            return false;
        }
    }
    true
}

/// Whether the minute `at` is that of the place.
fn is_minute_of(params: Params, first: Minute, at: Minute, place: u32) -> bool
    requires early { first ≤ MINUTE_LIMIT }
    requires inside { place ≤ LONGEST_PADDED }
    ensures { IsTrue result ↔ IsMinuteOf params first at place }
{
    match minute_of(params, first, place) {
        Some(minute) => minute == at,
        None => false,
    }
}

/// The rest run that begins at the minute `at`, where it may be split: at least `least` and less
/// than `full` units long, in a truck with a berth. `None` where there is none.
pub(crate) fn split_run(history: &History<'_>, least: u32, full: u32, at: Minute) -> Option<RestRun>
    requires early { history.now.scope.first ≤ MINUTE_LIMIT }
    ensures { IsSplitFound history.now.scope.params history.now.scope.first least full history.now.padded.now at result }
{
    if !has_berth(history.scope.params) {
        return None;
    }
    for run in history.padded.rest_runs() {
        let length = run.to.saturating_sub(run.from);
        if length >= least
            && length < full
            && is_minute_of(history.scope.params, history.scope.first, at, run.from)
        {
            return Some(*run);
        }
    }
    None
}
