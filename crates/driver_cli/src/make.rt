//! A tour and a log that are made by number: put, and planned.
ghost use Rattle.std.specs.Prelude.{◌≡◌, ◌*◌, ◌≤◌, length, IfOk};
ghost use Rattle.duty_core.specs.Params.{unit_minutes};
ghost use Rattle.duty_core.specs.declared.limits.TheConstants.{LONGEST_LOG};
ghost use Rattle.made_tours.specs.Drawn.{IsMade};
ghost use Rattle.report_text.specs.Made.{tour_made, log_made};
ghost use Rattle.report_text.specs.declared.maker.TheConstants.{MOST_MADE};
ghost use Rattle.tour_model.specs.declared.limits.TheConstants.{LONGEST_TOUR};
ghost use Rattle.tour_model.specs.Schedule.{duration};
ghost use Rattle.tour_model.specs.Tour.{IsTour};
ghost use Rattle.driver_cli.specs.Make.{MakeAnswers, MakeLeaves};
ghost use Rattle.driver_cli.specs.Sides.{read_side, write_side, IsUnfailed};
ghost use Rattle.driver_cli.specs.Steps.{Concludes, AreMadePut, Summarizes};

use crate::answer::{Answer, Halt, Status};
use crate::put::put;
use crate::texts::{made_infeasible_text, made_shortest_text, made_spent_text};
use command_words::BUDGET;
use duty_core::{Activity, NoMemory};
use made_tours::{MadeTour, made_tour};
use outside::{Desk, Word};
use std::alloc::Global;
use tour_model::{Tour, duration};
use tour_plan::{Planned, plan_tour};

/// Puts the tour of this number, and then its log. Answered as `WriteFault` where one of them cannot
/// be put.
fn put_both<D: Desk>(
    alloc: Global,
    number: u32,
    made: &MadeTour,
    tour: &Word,
    log: &Word,
    desk: &mut D,
) -> Result<(), Halt>
    requires tour { made.now.texts.tour ≡ tour_made number }
    requires log { made.now.texts.log ≡ log_made }
    ensures unfailed { IsUnfailed (read_side D.Desk desk.old desk.new) }
    ensures put { AreMadePut number tour.now log.now (write_side D.Desk desk.old desk.new) result }
{
    let _ = number;
    put(alloc, tour, made.texts.tour.as_bytes(), desk)?;
    put(alloc, log, made.texts.log.as_bytes(), desk)
}

/// How many minutes a schedule of the tour takes.
fn minutes_of(tour: &Tour, steps: &[Activity]) -> u32
    requires tour { IsTour tour.now }
    requires short { length steps.now * tour.now.grid ≤ LONGEST_TOUR }
    ensures { result ≡ duration steps.now * tour.now.grid }
{
    duration(steps) * tour.grid
}

/// What is told of a made tour: its number of stops, and how long a shortest schedule takes.
fn summary(alloc: Global, number: u32, made: &MadeTour) -> Result<Answer, NoMemory>
    requires tour { IsTour made.now.tour }
    requires short { unit_minutes made.now.tour.params * length made.now.log ≤ LONGEST_LOG }
    requires made { IsMade number made.now.tour made.now.log }
    ensures { IfOk result (λ answer. Summarizes number made.now.tour made.now.log answer.status answer.text) }
{
    let stops = made.tour.stops.items().len();
    match plan_tour(alloc, &made.tour, &made.log, BUDGET)? {
        Planned::Shortest { schedule, .. } => {
            let minutes = minutes_of(&made.tour, schedule.steps.items());
            Ok(Answer {
                status: Status::Done,
                text: made_shortest_text(alloc, number, stops, minutes)?,
            })
        }
        Planned::Infeasible { .. } => Ok(Answer {
            status: Status::Infeasible,
            text: made_infeasible_text(alloc, number, stops)?,
        }),
        Planned::Spent => Ok(Answer {
            status: Status::Spent,
            text: made_spent_text(alloc, number, stops, BUDGET)?,
        }),
        Planned::Unlawful { .. } => unreachable!(),
    }
}

/// Puts the tour of this number and its log, plans that tour with the usual budget, and tells how
/// long a shortest schedule takes.
pub fn make<D: Desk>(
    alloc: Global,
    number: u32,
    tour: &Word,
    log: &Word,
    desk: &mut D,
) -> Result<Answer, Halt>
    requires { number ≤ MOST_MADE }
    ensures unfailed { IsUnfailed (read_side D.Desk desk.old desk.new) }
    ensures answer { let write = write_side D.Desk desk.old desk.new in
        Concludes result (MakeAnswers number tour.now log.now write) (MakeLeaves number tour.now log.now write) }
{
    let made = made_tour(alloc, number)?;
    put_both(alloc, number, &made, tour, log, desk)?;
    Ok(summary(alloc, number, &made)?)
}
