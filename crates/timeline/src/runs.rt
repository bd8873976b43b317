//! Work on a list of runs, below the timeline that keeps one.
ghost use Rattle.std.specs.Prelude.{◌≡◌, ◌-◌, ◌<◌, ◌≤◌, ◌++◌, length, replicate, slice_index_or, count_by, OnOk, OnErr, IsOkUnless, MatchBool};
ghost use Rattle.duty_core.specs.History.{between};
ghost use Rattle.duty_core.specs.declared.activity.Activity.TheVariants.{Off};
ghost use Rattle.duty_core.specs.declared.limits.TheConstants.{LONGEST_HISTORY};
ghost use Rattle.timeline.specs.Runs.{spread, AreRuns, EndsIn, EndsOther};
ghost use Rattle.timeline.specs.Kinds.{test_of};
ghost use Rattle.timeline.specs.declared.fault.TimelineFault.TheVariants.{Memory};

use crate::fault::TimelineFault;
use crate::kind::CountOf;
use crate::run::Run;
use duty_core::Activity;

/// Puts the units from `from` up to `to` after the runs, into the last one where it has the same
/// activity. `Memory` if there is none for one more run; then the runs stay as they were.
pub fn extend(runs: &mut Vec<Run>, act: Activity, from: u32, to: u32) -> Result<(), TimelineFault>
    requires runs { AreRuns runs.old.items (spread runs.old.items) }
    requires thereafter { length (spread runs.old.items) ≡ from }
    requires some { from < to }
    ensures runs { OnOk result (AreRuns runs.new.items (spread runs.new.items)) }
    ensures units { OnOk result (spread runs.new.items ≡ spread runs.old.items ++ replicate (to - from) act) }
    ensures err { OnErr result (runs.new.items ≡ runs.old.items) }
    ensures memory { IsOkUnless result Memory }
{
    if continues(runs, act) {
        let last = runs.len() - 1;
        runs[last].to = to;
        return Ok(());
    }
    runs.push(Run { act, from, to })?;
    Ok(())
}

/// Whether there is a last run, with this activity.
fn continues(runs: &[Run], act: Activity) -> bool
    ensures { MatchBool result (EndsIn act runs.now) (EndsOther act runs.now) }
{
    match runs.last() {
        Some(last) => last.act == act,
        None => false,
    }
}

/// The unit at place `k`.
pub fn unit_at(runs: &[Run], k: u32) -> Activity
    requires runs { AreRuns runs.now (spread runs.now) }
    requires inside { k < length (spread runs.now) }
    ensures { slice_index_or (spread runs.now) k Off ≡ result }
{
    let index = runs.partition_point(|run| run.to <= k);
    runs[index].act
}

/// The number of units of the kind from place `from` up to place `to`, without `to`.
pub fn count(runs: &[Run], kind: CountOf, from: u32, to: u32) -> u32
    requires runs { AreRuns runs.now (spread runs.now) }
    requires short { length (spread runs.now) ≤ LONGEST_HISTORY }
    requires order { from ≤ to }
    ensures { result ≡ count_by (test_of kind) (between (spread runs.now) from to) }
{
    let mut total = 0;
    for run in runs {
        if kind.has(run.act) {
            total += run.to.min(to).saturating_sub(run.from.max(from));
        }
    }
    total
}
