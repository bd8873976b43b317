//! What rules count at units of driving.
ghost use Rattle.std.specs.Prelude.{◌≡◌, ◌≤◌, ◌<◌, IfSome, length};
ghost use Rattle.duty_core.specs.declared.limits.TheConstants.{MINUTE_LIMIT};
ghost use Rattle.rule_readings.specs.BaseFound.{IsBaseFound, whole};
ghost use Rattle.rule_readings.specs.Count.{IsCount};
ghost use Rattle.rule_readings.specs.Counts.{HasDays, CountsFrom, amount_of, IsCountAt};
ghost use Rattle.rule_readings.specs.Values.{IsPlannedCount};
ghost use Rattle.rule_readings.specs.Histories.{IsMarkedIn, day_in};

use crate::base::{Base, base_at};
use crate::breaks::last_break;
use crate::days::{days_base, first_of_days, is_driving, last_end};
use crate::history::History;
use crate::measure::{Amount, Since};
use crate::padded::Padded;
use crate::scope::is_in;

/// A place from which all is counted, if there is one.
fn whole(from: Option<u32>) -> Option<Base>
    ensures { result ≡ whole from }
{
    match from {
        Some(base) => Some(Base { base, omitted: 0 }),
        None => None,
    }
}

/// The place from which is counted at place `i`. `None` where there is none.
fn base_since(history: &History<'_>, since: Since, i: u32) -> Option<Base>
    requires early { history.now.scope.first ≤ MINUTE_LIMIT }
    requires days { HasDays since }
    requires inside { i < length history.now.padded.now }
    ensures found { IsBaseFound
        (CountsFrom since (day_in history.now) history.now.padded.now
        (IsMarkedIn history.now) i)
        result }
    ensures before { IfSome result (λ at. at.base ≤ i) }
{
    let padded = history.padded;
    let params = history.scope.params;
    let first = history.scope.first;
    let _places = padded.len();
    match since {
        Since::Base { full } => base_at(history, full, i),
        Since::Break => whole(last_break(padded, i)),
        Since::Day => whole(Some(first_of_days(params, first, 1, i))),
        Since::Days { days, restart } => {
            whole(Some(days_base(padded, params, first, days, restart, i)))
        }
        Since::Rest { least } => whole(last_end(padded, least, i)),
    }
}

/// What is counted from there up to place `i`, in units.
fn amount_from(padded: &Padded, amount: Amount, from: Base, i: u32) -> u32
    requires inside { i < length padded.now }
    requires before { from.base ≤ i }
    ensures { result ≡ amount_of amount padded.now from.base from.omitted i }
{
    let _places = padded.len();
    match amount {
        Amount::Driving => padded.driving(from.base, i + 1),
        Amount::Duty => padded.duty(from.base, i + 1),
        Amount::Time => (i + 1 - from.base).saturating_sub(from.omitted),
        Amount::TimeBefore => (i - from.base).saturating_sub(from.omitted),
    }
}

/// What is counted at place `i`. `None` where that is no unit of driving of the schedule, and where
/// there is no place from which is counted.
pub(crate) fn planned_count(
    history: &History<'_>,
    amount: Amount,
    since: Since,
    i: u32,
) -> Option<u32>
    requires early { history.now.scope.first ≤ MINUTE_LIMIT }
    requires days { HasDays since }
    requires inside { i < length history.now.padded.now }
    ensures { IsCount
        (IsPlannedCount history.now.scope.planned
        (IsCountAt amount since (day_in history.now) history.now.padded.now
        (IsMarkedIn history.now))
        i)
        result }
{
    if !is_in(history.scope.planned, i) || !is_driving(history.padded, i) {
        return None;
    }
    match base_since(history, since, i) {
        Some(from) => Some(amount_from(history.padded, amount, from, i)),
        None => None,
    }
}
