//! The readings of a history that ends with a schedule.
ghost use Rattle.std.specs.Prelude.{◌≡◌, ◌+◌, ◌*◌, ◌≤◌, Contains, IfOk, length};
ghost use Rattle.civil_minutes.specs.declared.century.TheConstants.{MINUTES_OF_CENTURY};
ghost use Rattle.duty_core.specs.declared.limits.TheConstants.{DAY_MINUTES};
ghost use Rattle.duty_core.specs.Params.{unit_minutes, BeginsUnit, AreGoodParams};
ghost use Rattle.duty_core.specs.RuleBooks.{rules_of};
ghost use Rattle.rule_readings.specs.Lost.{AreLostCounts};
ghost use Rattle.rule_readings.specs.Readings.{IsScope, IsReadingFound, AreReadings, AreTimedBefore};

use crate::book::rules_of_book;
use crate::declared::minute_at;
use crate::history::History;
use crate::lost::LostMinutes;
use crate::measure::asked_of;
use crate::padded::Padded;
use crate::reading::{Reading, ReadingList};
use crate::scope::scope_of;
use crate::values::best_of;
use duty_core::{Marks, Minute, NoMemory, Params, Rule};
use std::alloc::Global;
use timeline::Timeline;

/// The reading of the rule. `None` where it looks at nothing.
fn reading_of(history: &History<'_>, rule: Rule) -> Option<Reading>
    requires good { AreGoodParams history.now.scope.params }
    requires begins { BeginsUnit history.now.scope.params history.now.scope.first }
    requires early { DAY_MINUTES ≤ history.now.scope.first }
    requires late { history.now.scope.first ≤ MINUTES_OF_CENTURY }
    requires counts { AreLostCounts history.now.padded.now history.now.lost.now }
    requires of_book { Contains (rules_of history.now.scope.params) rule }
    requires scope { IsScope history.now.scope history.now.padded.now }
    ensures { IsReadingFound history.now.scope history.now.padded.now history.now.marks.now rule result }
{
    let _places = history.padded.len();
    let scope = history.scope;
    let asked = asked_of(scope.params, rule);
    let best = best_of(history, asked.measure)?;
    Some(Reading {
        used: best.used,
        limit: asked.limit,
        at: minute_at(scope.params, scope.first, best.at),
    })
}

/// The readings of a history with these marks, in the order of the book: for each rule what it
/// counts at most in the schedule, or at least where the rule asks for at least its limit, and the
/// first minute at which it does. A rule that looks at nothing there has no reading.
///
/// The history begins at the minute `first`, and its units from number `planned_from` on are the
/// schedule. Most rules look at the schedule's driving minutes. Pairs of rests and deferred days are
/// looked at in the whole history, and days and counted periods where they hold a unit of the
/// schedule. `NoMemory` if there is none for what is counted.
pub fn readings(
    alloc: Global,
    params: Params,
    history: &Timeline,
    first: Minute,
    planned_from: u32,
    marks: &Marks,
) -> Result<ReadingList, NoMemory>
    requires good { AreGoodParams params }
    requires begins { BeginsUnit params first }
    requires early { DAY_MINUTES ≤ first }
    requires ends { first + unit_minutes params * length history.now ≤ MINUTES_OF_CENTURY }
    requires planned { planned_from ≤ length history.now }
    ensures readings { IfOk result (AreReadings params first history.now planned_from marks.now) }
    ensures times { IfOk result (AreTimedBefore (first + unit_minutes params * length history.now)) }
{
    let padded = Padded::new(alloc, params, history)?;
    let lost = LostMinutes::new(alloc, &padded)?;
    let whole = History {
        padded: &padded,
        lost: &lost,
        marks,
        scope: scope_of(params, history, first, planned_from),
    };
    let mut readings = ReadingList::new(alloc);
    for rule in rules_of_book(params) {
        readings.push((*rule, reading_of(&whole, *rule)))?;
    }
    Ok(readings)
}
