//! Split rests and their pairs in Canada, after SOR/2005-313, section 18.
ghost use Rattle.std.specs.Prelude.{◌≡◌, ℕ, ◌≤◌, ◌↔◌, Contains, IsTrue};
ghost use Rattle.duty_core.specs.declared.mark.Mark.TheVariants.{SplitRest};
ghost use Rattle.duty_core.specs.declared.limits.TheConstants.{MINUTE_LIMIT};
ghost use Rattle.duty_core.specs.CaShift.{IsCaSplit, MeetsCaPair};
ghost use Rattle.rule_readings.specs.Splits.{MeetsSplitMark};

use crate::book::is_split_way;
use crate::history::History;
use crate::pairs::{PairBerth, PairTerms, are_paired, is_berth, split_run};
use duty_core::{CA_FULL_REST, CA_PAIR_LEAST, CA_SPLIT_LEAST, Mark, Minute};

/// What Canada asks of a pair: ten hours together, and the second rest all in the berth.
const CA_PAIR: PairTerms = PairTerms {
    full: CA_FULL_REST,
    least: CA_PAIR_LEAST,
    berth: PairBerth::AllOfSecond,
};

/// Whether a mark of the minute `at` names a run that may be split and is all in the berth, under
/// the way `split`.
fn meets_minute(history: &History<'_>, at: Minute) -> bool
    requires early { history.now.scope.first ≤ MINUTE_LIMIT }
    ensures { IsTrue result ↔ IsCaSplit history.now.scope.params history.now.scope.first history.now.padded.now at }
{
    match split_run(history, CA_SPLIT_LEAST, CA_FULL_REST, at) {
        Some(rest) => is_split_way(history.scope.params)
            && is_berth(history.padded, rest.from, rest.to),
        None => false,
    }
}

/// Whether the mark, if it splits a rest, may do so.
fn meets_split_mark(history: &History<'_>, mark: Mark) -> bool
    requires early { history.now.scope.first ≤ MINUTE_LIMIT }
    ensures { IsTrue result ↔ MeetsSplitMark history.now.scope.params history.now.scope.first history.now.padded.now mark }
{
    match mark {
        Mark::SplitRest { at } => meets_minute(history, at),
        Mark::DeferDay { .. } => true,
    }
}

/// Whether each mark that splits a rest may do so.
fn meets_split_marks(history: &History<'_>, marks: &[Mark]) -> bool
    requires early { history.now.scope.first ≤ MINUTE_LIMIT }
    ensures { IsTrue result
        ↔ ((at : ℕ) → Contains marks.now (SplitRest at) → IsCaSplit history.now.scope.params history.now.scope.first history.now.padded.now at) }
{
    for mark in marks {
        if !meets_split_mark(history, *mark) {
            return false;
        }
    }
    true
}

/// Whether each mark of a split rest names a run that may be split, and each split rest and the
/// next declared rest are a pair, once that has ended.
pub(crate) fn keeps_pair(history: &History<'_>) -> bool
    requires early { history.now.scope.first ≤ MINUTE_LIMIT }
    ensures { IsTrue result ↔ MeetsCaPair history.now.scope.params history.now.scope.first history.now.padded.now history.now.marks.now }
{
    meets_split_marks(history, history.marks.items()) && are_paired(history, CA_PAIR)
}
