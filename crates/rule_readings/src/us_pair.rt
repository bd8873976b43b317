//! Split rests and their pairs in the United States, after 49 CFR 395.1(g)(1).
ghost use Rattle.std.specs.Prelude.{◌≡◌, ◌≤◌, ◌↔◌, IsTrue};
ghost use Rattle.duty_core.specs.declared.limits.TheConstants.{MINUTE_LIMIT};
ghost use Rattle.duty_core.specs.UsRules.{MeetsUsPair};
ghost use Rattle.rule_readings.specs.Splits.{IsUsMark};

use crate::history::History;
use crate::pairs::{PairBerth, PairTerms, are_paired, split_run};
use duty_core::{Mark, US_FULL_REST, US_PAIR_BERTH, US_PAIR_LEAST, US_SPLIT_LEAST};

/// Whether a mark names what it may in the United States: a rest run that may be split.
fn names_split(history: &History<'_>, mark: Mark) -> bool
    requires early { history.now.scope.first ≤ MINUTE_LIMIT }
    ensures { IsTrue result ↔ IsUsMark history.now.scope.params history.now.scope.first history.now.padded.now mark }
{
    match mark {
        Mark::SplitRest { at } => { split_run(history, US_SPLIT_LEAST, US_FULL_REST, at).is_some() }
        Mark::DeferDay { .. } => false,
    }
}

/// Whether the marks name rest runs that may be split, two by two.
pub(crate) fn keeps_us_pair(history: &History<'_>) -> bool
    requires early { history.now.scope.first ≤ MINUTE_LIMIT }
    ensures { IsTrue result ↔ MeetsUsPair history.now.scope.params history.now.scope.first history.now.padded.now history.now.marks.now }
{
    for mark in history.marks.items() {
        if !names_split(history, *mark) {
            return false;
        }
    }
    let terms = PairTerms {
        full: US_FULL_REST,
        least: US_PAIR_LEAST,
        berth: PairBerth::InEither {
            least: US_PAIR_BERTH,
        },
    };
    are_paired(history, terms)
}
