//! The graph of the log of a tour.
ghost use Rattle.std.specs.Prelude.{◌≡◌, ◌*◌, ◌≤◌, length, IfOk};
ghost use Rattle.duty_core.specs.Params.{unit_minutes};
ghost use Rattle.duty_core.specs.declared.limits.TheConstants.{LONGEST_LOG};
ghost use Rattle.log_graph.specs.Graph.{IsGraph};
ghost use Rattle.tour_model.specs.Schedule.{log_start};
ghost use Rattle.tour_model.specs.Tour.{IsTour};
ghost use Rattle.driver_cli.specs.Inputs.{InputsLeave};
ghost use Rattle.driver_cli.specs.Sides.{read_side, write_side, IsKept};
ghost use Rattle.driver_cli.specs.Answers.{GraphAnswers};
ghost use Rattle.driver_cli.specs.Steps.{Concludes};

use crate::answer::{Answer, Halt, Status};
use crate::fetch::{Inputs, fetch_inputs};
use duty_core::NoMemory;
use outside::{Desk, Word};
use std::alloc::Global;
use tour_plan::log_start;

/// The answer to a log that was read: its graph.
fn drawn(alloc: Global, inputs: &Inputs) -> Result<Answer, NoMemory>
    requires tour { IsTour inputs.now.tour }
    requires short { unit_minutes inputs.now.tour.params * length inputs.now.log ≤ LONGEST_LOG }
    ensures { IfOk result (λ answer. (answer.status ≡ Status.Done) × IsGraph inputs.now.tour.params (log_start inputs.now.tour inputs.now.log) inputs.now.log answer.text) }
{
    let first = log_start(&inputs.tour, &inputs.log);
    Ok(Answer {
        status: Status::Done,
        text: log_graph::graph(alloc, inputs.tour.params, &inputs.log, first)?,
    })
}

/// Sends the graph of the log, lawful or not, after the refusals of the two files.
pub fn graph<D: Desk>(alloc: Global, tour: &Word, log: &Word, desk: &mut D) -> Result<Answer, Halt>
    ensures kept { IsKept (write_side D.Desk desk.old desk.new) }
    ensures answer { let read = read_side D.Desk desk.old desk.new in Concludes result (GraphAnswers tour.now log.now read) (InputsLeave tour.now log.now read) }
{
    let inputs = fetch_inputs(alloc, tour, log, desk)?;
    Ok(drawn(alloc, &inputs)?)
}
