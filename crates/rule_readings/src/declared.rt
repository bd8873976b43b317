//! The declared rests of a history: full rests, and shorter ones that a mark names.
ghost use Rattle.std.specs.Prelude.{◌≡◌, ℕ, ◌+◌, ◌*◌, ◌≤◌, ◌↔◌, IsTrue, Contains, Some, length, leb, true, false};
ghost use Rattle.std.specs.List.Sorted.{IsNonDecreasingBy, IsPartitionPoint};
ghost use Rattle.duty_core.specs.declared.mark.Mark.TheVariants.{SplitRest};
ghost use Rattle.duty_core.specs.declared.limits.TheConstants.{MINUTE_LIMIT, PADDING_MINUTES};
ghost use Rattle.duty_core.specs.Params.{unit_minutes};
ghost use Rattle.duty_core.specs.Marks.{IsMinuteOf};
ghost use Rattle.rule_readings.specs.declared.padded.TheConstants.{LONGEST_PADDED};
ghost use Rattle.rule_readings.specs.Found.{DeclaresRun, IsLastFound, IsFirstFound};
ghost use Rattle.rule_readings.specs.Histories.{IsMarkedIn};

use crate::history::History;
use crate::padded::RestRun;
use duty_core::{Mark, Minute, PADDING_MINUTES, Params, unit_of};

/// The civil minute at which a place of a padded history begins. `None` where it lies before year
/// 2000.
pub(crate) fn minute_of(params: Params, first: Minute, place: u32) -> Option<Minute>
    requires early { first ≤ MINUTE_LIMIT }
    requires inside { place ≤ LONGEST_PADDED }
    ensures { (at : ℕ) → IsMinuteOf params first at place ↔ (result ≡ Some at) }
{
    (first + unit_of(params) * place).checked_sub(PADDING_MINUTES)
}

/// The civil minute at which a place of a padded history begins that does not lie before year 2000.
pub(crate) fn minute_at(params: Params, first: Minute, place: u32) -> Minute
    requires early { first ≤ MINUTE_LIMIT }
    requires inside { place ≤ LONGEST_PADDED }
    requires late { PADDING_MINUTES ≤ first + unit_minutes params * place }
    ensures { IsMinuteOf params first result place }
{
    first + unit_of(params) * place - PADDING_MINUTES
}

/// Whether a mark names the rest run that begins at this minute.
fn splits_at(mark: Mark, at: Minute) -> bool
    ensures { IsTrue result ↔ (mark ≡ SplitRest at) }
{
    match mark {
        Mark::SplitRest { at: other } => other == at,
        Mark::DeferDay { .. } => false,
    }
}

/// Whether one of the marks names the rest run that begins at this minute.
fn has_split(marks: &[Mark], at: Minute) -> bool
    ensures { IsTrue result ↔ Contains marks.now (SplitRest at) }
{
    for mark in marks {
        if splits_at(*mark, at) {
            return true;
        }
    }
    false
}

/// Whether a mark names the rest run that begins at the place.
pub(crate) fn is_split_at(history: &History<'_>, place: u32) -> bool
    requires early { history.now.scope.first ≤ MINUTE_LIMIT }
    requires inside { place ≤ LONGEST_PADDED }
    ensures { IsTrue result ↔ IsMarkedIn history.now place }
{
    match minute_of(history.scope.params, history.scope.first, place) {
        Some(at) => has_split(history.marks.items(), at),
        None => false,
    }
}

/// Whether a rest run is declared: it is at least `full` units long, or a mark names it.
pub(crate) fn is_declared(history: &History<'_>, full: u32, run: RestRun) -> bool
    requires early { history.now.scope.first ≤ MINUTE_LIMIT }
    requires inside { run.from ≤ LONGEST_PADDED }
    requires order { run.from ≤ run.to }
    ensures { IsTrue result ↔ DeclaresRun full (IsMarkedIn history.now) run.from run.to }
{
    run.to - run.from >= full || is_split_at(history, run.from)
}

/// How many of the rest runs, which end one after the other, have ended at place `i` or before.
pub(crate) fn ended_by(runs: &[RestRun], i: u32) -> usize
    requires { IsNonDecreasingBy (λ run. run.to) runs.now }
    ensures bound { result ≤ length runs.now }
    ensures first { IsPartitionPoint (λ run. leb run.to i ≡ true) (λ run. leb run.to i ≡ false) runs.now result }
{
    runs.partition_point(|run| run.to <= i)
}

/// The last declared rest that has ended at place `i` or before. `None` where there is none.
pub(crate) fn last_declared(history: &History<'_>, full: u32, i: u32) -> Option<RestRun>
    requires early { history.now.scope.first ≤ MINUTE_LIMIT }
    ensures { IsLastFound full history.now.padded.now (IsMarkedIn history.now) i result }
{
    let runs = history.padded.rest_runs();
    let mut rest = ended_by(runs, i);
    while rest > 0 {
        rest -= 1;
        let run = runs[rest];
        if is_declared(history, full, run) {
            return Some(run);
        }
    }
    None
}

/// The first declared rest that ends after place `i`. `None` where there is none.
pub(crate) fn next_declared(history: &History<'_>, full: u32, i: u32) -> Option<RestRun>
    requires early { history.now.scope.first ≤ MINUTE_LIMIT }
    ensures { IsFirstFound full history.now.padded.now (IsMarkedIn history.now) i result }
{
    let runs = history.padded.rest_runs();
    for next in ended_by(runs, i)..runs.len() {
        let run = runs[next];
        if is_declared(history, full, run) {
            return Some(run);
        }
    }
    None
}
