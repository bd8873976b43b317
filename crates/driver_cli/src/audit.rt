//! Whether the log of a tour is lawful.
ghost use Rattle.std.specs.Prelude.{◌≡◌, ◌*◌, ◌+◌, ◌≤◌, ◌<◌, [], ◌∷◌, ◌++◌, length, take, IfOk, OnOk};
ghost use Rattle.duty_core.specs.Params.{unit_minutes};
ghost use Rattle.duty_core.specs.declared.limits.TheConstants.{LONGEST_LOG, LONGEST_HISTORY};
ghost use Rattle.rule_core.specs.Replay.{IsFirstUnlawful};
ghost use Rattle.tour_model.specs.Schedule.{log_start};
ghost use Rattle.tour_model.specs.Tour.{IsTour};
ghost use Rattle.driver_cli.specs.Inputs.{IsUnlawful, AreBrokenUpTo, InputsLeave};
ghost use Rattle.driver_cli.specs.Sides.{read_side, write_side, IsKept};
ghost use Rattle.driver_cli.specs.Answers.{AuditAnswers};
ghost use Rattle.driver_cli.specs.Steps.{Concludes, IsLawfulOr};

use crate::answer::{Answer, Halt, Status};
use crate::fetch::{Inputs, fetch_inputs};
use crate::texts::unlawful_text;
use duty_core::{Activity, Marks, NoMemory, unit_of};
use outside::{Desk, Word};
use rule_readings::{Rules, broken};
use std::alloc::Global;
use timeline::{Timeline, TimelineFault};
use tour_model::Tour;
use tour_plan::{first_unlawful, log_start};

/// Puts one unit after a history that has room for it.
fn append(history: &mut Timeline, act: Activity) -> Result<(), NoMemory>
    requires { length history.old < LONGEST_HISTORY }
    ensures { OnOk result (history.new ≡ history.old ++ act ∷ []) }
{
    match history.push_run(act, 1) {
        Ok(()) => Ok(()),
        Err(TimelineFault::Memory) => Err(NoMemory),
        Err(TimelineFault::TooLong) => unreachable!(),
    }
}

/// The units of the log up to this one.
fn units_up_to(alloc: Global, log: &Timeline, unit: u32) -> Result<Timeline, NoMemory>
    requires inside { unit < length log.now }
    requires short { length log.now ≤ LONGEST_HISTORY }
    ensures { IfOk result (λ units. units ≡ take (unit + 1) log.now) }
{
    let longest = log.len();
    let mut units = Timeline::new(alloc);
    for k in 0..unit + 1 {
        append(&mut units, log.at(k))?;
    }
    Ok(units)
}

/// The rules that the units of the log up to this one break with no marks.
fn broken_up_to(alloc: Global, inputs: &Inputs, unit: u32) -> Result<Rules, NoMemory>
    requires tour { IsTour inputs.now.tour }
    requires short { unit_minutes inputs.now.tour.params * length inputs.now.log ≤ LONGEST_LOG }
    requires inside { unit < length inputs.now.log }
    ensures { IfOk result (AreBrokenUpTo inputs.now.tour inputs.now.log unit) }
{
    let units = units_up_to(alloc, &inputs.log, unit)?;
    let first = log_start(&inputs.tour, &inputs.log);
    broken(alloc, inputs.tour.params, &units, first, &Marks::new(alloc))
}

/// The answer to a log that breaks a rule in this unit and in none before it.
pub fn unlawful(alloc: Global, inputs: &Inputs, unit: u32) -> Result<Answer, NoMemory>
    requires tour { IsTour inputs.now.tour }
    requires short { unit_minutes inputs.now.tour.params * length inputs.now.log ≤ LONGEST_LOG }
    requires unit { IsFirstUnlawful inputs.now.tour.params (log_start inputs.now.tour inputs.now.log) inputs.now.log unit }
    ensures { IfOk result (λ answer. (answer.status ≡ Status.LogUnlawful) × IsUnlawful inputs.now.tour inputs.now.log answer.text) }
{
    let at = log_start(&inputs.tour, &inputs.log) + unit_of(inputs.tour.params) * unit;
    let rules = broken_up_to(alloc, inputs, unit)?;
    Ok(Answer {
        status: Status::LogUnlawful,
        text: unlawful_text(alloc, at, rules.items())?,
    })
}

/// Nothing where the log is lawful. Answered as `LogUnlawful` where it breaks a rule.
pub fn require_lawful(alloc: Global, inputs: &Inputs) -> Result<(), Halt>
    requires tour { IsTour inputs.now.tour }
    requires short { unit_minutes inputs.now.tour.params * length inputs.now.log ≤ LONGEST_LOG }
    ensures { IsLawfulOr inputs.now.tour inputs.now.log result }
{
    match first_unlawful(alloc, &inputs.tour, &inputs.log)? {
        None => Ok(()),
        Some(unit) => Err(Halt::Answered(unlawful(alloc, inputs, unit)?)),
    }
}

/// Says whether the log is lawful, after the refusals of the two files.
pub fn audit<D: Desk>(alloc: Global, tour: &Word, log: &Word, desk: &mut D) -> Result<Answer, Halt>
    ensures kept { IsKept (write_side D.Desk desk.old desk.new) }
    ensures answer { let read = read_side D.Desk desk.old desk.new in Concludes result (AuditAnswers tour.now log.now read) (InputsLeave tour.now log.now read) }
{
    let inputs = fetch_inputs(alloc, tour, log, desk)?;
    require_lawful(alloc, &inputs)?;
    Ok(Answer::of(alloc, Status::Done, "lawful\n")?)
}
