//! What a state of the rule book counts, in steps.
ghost use Rattle.std.specs.Prelude.{◌≡◌, ◌≤◌, IfSome};
ghost use Rattle.duty_core.specs.declared.limits.TheConstants.{COUNT_LIMIT, US_UNBROKEN_LIMIT};
ghost use Rattle.sleeper_split.specs.Machine.{IsSplitCount};
ghost use Rattle.us_bound.specs.declared.steps.TheConstants.{MOST_GRID};
ghost use Rattle.us_bound.specs.Projection.{waiting_steps, streak_steps, counts_of};

use crate::steps::steps_of;
use rest_bound::Counts;
use sleeper_split::WaitingRest;
use us_rules::{BreakCount, UsState};

/// The split rest that waits, in steps.
fn waiting_of(grid: u32, waiting: Option<WaitingRest>) -> Option<u32>
    requires some { 1 ≤ grid }
    requires few { grid ≤ MOST_GRID }
    requires counted { IfSome waiting (λ w. w.long ≤ COUNT_LIMIT) }
    ensures { result ≡ waiting_steps grid waiting }
{
    match waiting {
        None => None,
        Some(rest) => Some(steps_of(grid, rest.long)),
    }
}

/// The driving in a row that the history ends with, in steps: the driving since the last break, and
/// none just after anything else.
fn streak_of(grid: u32, rest_break: BreakCount) -> u32
    requires some { 1 ≤ grid }
    requires few { grid ≤ MOST_GRID }
    requires driven { rest_break.driven ≤ US_UNBROKEN_LIMIT }
    ensures { result ≡ streak_steps grid rest_break }
{
    if rest_break.still == 0 {
        steps_of(grid, rest_break.driven)
    } else {
        0
    }
}

/// What the state counts, in steps of `grid` minutes. Each number is rounded up.
pub fn state_counts(state: &UsState, grid: u32) -> Counts
    requires some { 1 ≤ grid }
    requires few { grid ≤ MOST_GRID }
    requires split { IsSplitCount state.now.split }
    requires driven { state.now.rest_break.driven ≤ US_UNBROKEN_LIMIT }
    ensures counts { result ≡ counts_of grid state.now }
{
    let split = state.split;
    let base = split.base();
    let last = split.last();
    Counts {
        driving: steps_of(grid, base.driving),
        elapsed: steps_of(grid, base.elapsed),
        driven: steps_of(grid, last.driving),
        since: steps_of(grid, last.elapsed),
        run: steps_of(grid, split.run().long),
        waiting: waiting_of(grid, split.waiting()),
        streak: streak_of(grid, state.rest_break),
    }
}
