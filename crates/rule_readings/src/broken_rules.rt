//! Which rules of a book a history breaks.
ghost use Rattle.std.specs.Prelude.{◌≡◌, ◌+◌, ◌*◌, ◌≤◌, ◌↔◌, Contains, IsTrue, IfSome, IfOk, length};
ghost use Rattle.civil_minutes.specs.declared.century.TheConstants.{MINUTES_OF_CENTURY};
ghost use Rattle.duty_core.specs.declared.limits.TheConstants.{DAY_MINUTES, MINUTE_LIMIT};
ghost use Rattle.duty_core.specs.Params.{unit_minutes, BeginsUnit, AreGoodParams};
ghost use Rattle.duty_core.specs.RuleBooks.{rules_of, Keeps, KeepsPadded};
ghost use Rattle.rule_readings.specs.Asked.{asked_of};
ghost use Rattle.rule_readings.specs.CaHistory.{IsPadded};
ghost use Rattle.rule_readings.specs.Broken.{AreBroken};
ghost use Rattle.rule_readings.specs.Lost.{AreLostCounts};
ghost use Rattle.rule_readings.specs.Values.{IsAskable, IsAskedAtPlaces, IsWhole, MeetsAsked};

use crate::au_nights::keeps_nights;
use crate::best::Order;
use crate::book::rules_of_book;
use crate::ca_pair::keeps_pair;
use crate::deferral::{keeps_defer, keeps_off10};
use crate::history::History;
use crate::lost::LostMinutes;
use crate::measure::{Asked, asked_of, order_of};
use crate::padded::Padded;
use crate::scope::{Scope, Span};
use crate::us_pair::keeps_us_pair;
use crate::values::value_at;
use duty_core::{Marks, Minute, NoMemory, Params, Rule, TryVec};
use std::alloc::Global;
use timeline::Timeline;

/// Rules of a book, in the order of the book. Contracts see their list.
pub type Rules = TryVec<Rule>;

/// Whether a value, if there is one, is within the limit.
fn is_within(asked: Asked, value: Option<u32>) -> bool
    ensures { IsTrue result ↔ IfSome value (MeetsAsked asked) }
{
    match value {
        Some(n) => match order_of(asked.measure) {
            Order::Greatest => n <= asked.limit,
            Order::Least => asked.limit <= n,
        },
        None => true,
    }
}

/// Whether each value that the rule looks at is within its limit.
fn keeps_at_places(history: &History<'_>, rule: Rule) -> bool
    requires early { history.now.scope.first ≤ MINUTE_LIMIT }
    requires padded { IsPadded history.now.scope.params history.now.padded.now }
    requires counts { AreLostCounts history.now.padded.now history.now.lost.now }
    requires askable { IsAskable history.now.scope.params history.now.scope.first (asked_of history.now.scope.params rule).measure }
    requires whole { IsWhole history.now.scope history.now.padded.now }
    requires places { IsAskedAtPlaces rule }
    ensures { IsTrue result ↔ KeepsPadded history.now.scope.params history.now.scope.first history.now.padded.now history.now.marks.now rule }
{
    let asked = asked_of(history.scope.params, rule);
    for i in 0..history.padded.len() {
        if !is_within(asked, value_at(history, asked.measure, i)) {
            return false;
        }
    }
    true
}

/// Whether the history keeps the rule of the book with these marks.
fn keeps(history: &History<'_>, rule: Rule) -> bool
    requires good { AreGoodParams history.now.scope.params }
    requires begins { BeginsUnit history.now.scope.params history.now.scope.first }
    requires early { history.now.scope.first ≤ MINUTE_LIMIT }
    requires padded { IsPadded history.now.scope.params history.now.padded.now }
    requires counts { AreLostCounts history.now.padded.now history.now.lost.now }
    requires whole { IsWhole history.now.scope history.now.padded.now }
    requires of_book { Contains (rules_of history.now.scope.params) rule }
    ensures { IsTrue result ↔ KeepsPadded history.now.scope.params history.now.scope.first history.now.padded.now history.now.marks.now rule }
{
    match rule {
        Rule::UsPair => keeps_us_pair(history),
        Rule::CaOff10 => keeps_off10(history),
        Rule::CaDefer => keeps_defer(history),
        Rule::CaPair => keeps_pair(history),
        Rule::Au14dNights => keeps_nights(history.padded, history.scope.first),
        _ => keeps_at_places(history, rule),
    }
}

/// The rules of the book that a history breaks with these marks, in the order of the book. The
/// history begins at the minute `first`. `NoMemory` if there is none for what is counted.
pub fn broken(
    alloc: Global,
    params: Params,
    history: &Timeline,
    first: Minute,
    marks: &Marks,
) -> Result<Rules, NoMemory>
    requires good { AreGoodParams params }
    requires begins { BeginsUnit params first }
    requires early { DAY_MINUTES ≤ first }
    requires ends { first + unit_minutes params * length history.now ≤ MINUTES_OF_CENTURY }
    ensures { IfOk result (λ rules. AreBroken (Keeps params first history.now marks.now) (rules_of params) rules) }
{
    let padded = Padded::new(alloc, params, history)?;
    let lost = LostMinutes::new(alloc, &padded)?;
    let all = Span {
        from: 0,
        to: padded.len(),
    };
    let whole = History {
        padded: &padded,
        lost: &lost,
        marks,
        scope: Scope {
            params,
            first,
            history: all,
            planned: all,
        },
    };
    let mut rules = Rules::new(alloc);
    for rule in rules_of_book(params) {
        if !keeps(&whole, *rule) {
            rules.push(*rule)?;
        }
    }
    Ok(rules)
}
