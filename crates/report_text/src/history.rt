//! The history of a log and a schedule after it.
ghost use Rattle.std.specs.Prelude.{◌≡◌, ◌+◌, ◌*◌, ◌≤◌, ◌++◌, length, replicate, IfOk, OnOk};
ghost use Rattle.duty_core.specs.declared.limits.TheConstants.{LONGEST_HISTORY};
ghost use Rattle.duty_core.specs.Params.{unit_minutes};
ghost use Rattle.tour_model.specs.Schedule.{step_units, history_of, log_start};

use duty_core::{Activity, Minute, NoMemory, unit_of};
use timeline::{Timeline, TimelineFault};
use tour_model::Tour;

/// The units of the log and, after them, those of the schedule.
pub fn history_of(tour: &Tour, log: &Timeline, schedule: &[Activity]) -> Result<Timeline, NoMemory>
    requires { length (history_of tour.now log.now schedule.now) ≤ LONGEST_HISTORY }
    ensures { IfOk result (λ history. history ≡ history_of tour.now log.now schedule.now) }
{
    let each = step_units(tour);
    let mut history = log.copy()?;
    for act in schedule {
        append(&mut history, *act, each)?;
    }
    Ok(history)
}

/// The number of units of a step.
fn step_units(tour: &Tour) -> u32
    ensures { result ≡ step_units tour.now }
{
    tour.grid / unit_of(tour.params)
}

/// The civil minute at which a log begins that ends where the tour starts.
pub fn log_start(tour: &Tour, log: &Timeline) -> Minute
    requires { unit_minutes tour.now.params * length log.now ≤ tour.now.start }
    ensures { result ≡ log_start tour.now log.now }
{
    tour.start - unit_of(tour.params) * log.len()
}

/// Puts `n` units of the activity after a history that has room for them.
fn append(history: &mut Timeline, act: Activity, n: u32) -> Result<(), NoMemory>
    requires { length history.old + n ≤ LONGEST_HISTORY }
    ensures { OnOk result (history.new ≡ history.old ++ replicate n act) }
{
    match history.push_run(act, n) {
        Ok(()) => Ok(()),
        Err(TimelineFault::Memory) => Err(NoMemory),
        Err(TimelineFault::TooLong) => unreachable!(),
    }
}
