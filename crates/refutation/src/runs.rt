//! The runs of a schedule.
ghost use Rattle.std.specs.Prelude.{◌≡◌, ◌+◌, ◌^◌, ◌<◌, ◌≤◌, ◌++◌, ◌∷◌, [], None, Some, length, IfOk};
ghost use Rattle.cert_text.specs.Cert.{acts_of_runs};
ghost use Rattle.refutation.specs.Runs.{acts_so_far, count_of, AreMaximal, AreSoFar};

use cert_text::{StepRun, StepRuns};
use duty_core::{Activity, NoMemory};
use std::alloc::Global;

/// The last run of the steps with one more after them. The run before it is put after the others
/// where the step is of another activity.
fn add_step(runs: &mut StepRuns, last: Option<StepRun>, act: Activity) -> Result<StepRun, NoMemory>
    requires { count_of last + 1 < 2 ^ 32 }
    ensures acts { IfOk result (λ run. acts_so_far runs.new (Some run) ≡ acts_so_far runs.old last ++ act ∷ []) }
    ensures count { IfOk result (λ run. run.count ≤ count_of last + 1) }
    ensures maximal { IfOk result (λ run. AreSoFar runs.old last → AreSoFar runs.new (Some run)) }
{
    let first = StepRun { count: 1, act };
    let Some(run) = last else {
        return Ok(first);
    };
    if run.act == act {
        return Ok(StepRun {
            count: run.count + 1,
            act,
        });
    }
    runs.push(run)?;
    Ok(first)
}

/// The maximal runs of the steps.
pub fn runs_of(alloc: Global, steps: &[Activity]) -> Result<StepRuns, NoMemory>
    requires { length steps.now + 1 < 2 ^ 32 }
    ensures acts { IfOk result (λ runs. acts_of_runs runs ≡ steps.now) }
    ensures maximal { IfOk result (AreMaximal None) }
{
    let mut runs = StepRuns::new(alloc);
    let mut last = None;
    for act in steps {
        last = Some(add_step(&mut runs, last, *act)?);
    }
    if let Some(run) = last {
        runs.push(run)?;
    }
    Ok(runs)
}
