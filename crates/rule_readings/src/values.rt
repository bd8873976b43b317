//! What a measure looks at at each place, and the best of it.
ghost use Rattle.std.specs.Prelude.{◌≡◌, ◌<◌, ◌≤◌, length};
ghost use Rattle.duty_core.specs.declared.limits.TheConstants.{MINUTE_LIMIT};
ghost use Rattle.rule_readings.specs.Asked.{order_of};
ghost use Rattle.rule_readings.specs.Best.{IsBestFound};
ghost use Rattle.rule_readings.specs.Count.{IsCount};
ghost use Rattle.rule_readings.specs.Lost.{AreLostCounts};
ghost use Rattle.rule_readings.specs.Readings.{IsScope};
ghost use Rattle.rule_readings.specs.Values.{IsAskable, IsMeasured};

use crate::au_values::{period_duty, period_nights, period_rest};
use crate::best::{Best, beats};
use crate::driving::planned_count;
use crate::history::History;
use crate::losses::{deferred_loss, loss};
use crate::measure::{Measure, order_of};
use crate::pair_sums::pair_sum;

/// What is looked at at place `i`. `None` where nothing is.
pub(crate) fn value_at(history: &History<'_>, measure: Measure, i: u32) -> Option<u32>
    requires early { history.now.scope.first ≤ MINUTE_LIMIT }
    requires counts { AreLostCounts history.now.padded.now history.now.lost.now }
    requires askable { IsAskable history.now.scope.params history.now.scope.first measure }
    requires inside { i < length history.now.padded.now }
    ensures { IsCount (IsMeasured measure history.now.scope history.now.padded.now history.now.marks.now i) result }
{
    let padded = history.padded;
    let planned = history.scope.planned;
    let _places = padded.len();
    match measure {
        Measure::Nothing => None,
        Measure::AtDriving { amount, since } => { planned_count(history, amount, since, i) }
        Measure::PairSum { full } => pair_sum(history, full, i),
        Measure::Loss => loss(history, i),
        Measure::DeferredLoss => deferred_loss(history, i),
        Measure::PeriodDuty { start, units } => { period_duty(padded, planned, start, units, i) }
        Measure::PeriodRest { units } => period_rest(padded, planned, units, i),
        Measure::PeriodNights => period_nights(padded, planned, history.scope.first, i),
    }
}

/// The best value that is looked at, and the first place with it. `None` where there is none.
pub(crate) fn best_of(history: &History<'_>, measure: Measure) -> Option<Best>
    requires early { history.now.scope.first ≤ MINUTE_LIMIT }
    requires counts { AreLostCounts history.now.padded.now history.now.lost.now }
    requires askable { IsAskable history.now.scope.params history.now.scope.first measure }
    requires scope { IsScope history.now.scope history.now.padded.now }
    ensures { IsBestFound (order_of measure) (IsMeasured measure history.now.scope history.now.padded.now history.now.marks.now) result }
{
    let order = order_of(measure);
    let mut best = None;
    for i in 0..history.padded.len() {
        if let Some(used) = value_at(history, measure, i) {
            if beats(order, used, best) {
                best = Some(Best { at: i, used });
            }
        }
    }
    best
}
