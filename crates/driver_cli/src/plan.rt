//! A tour planned after a log, and the certificate of it put.
ghost use Rattle.std.specs.Prelude.{◌≡◌, ◌*◌, ◌≤◌, length, IfOk};
ghost use Rattle.duty_core.specs.Params.{unit_minutes};
ghost use Rattle.duty_core.specs.declared.limits.TheConstants.{LONGEST_LOG};
ghost use Rattle.tour_model.specs.Tour.{IsTour};
ghost use Rattle.tour_plan.specs.Planned.{IsBudget};
ghost use Rattle.driver_cli.specs.Sides.{read_side, write_side};
ghost use Rattle.driver_cli.specs.Answers.{PlanAnswers, PlanLeaves};
ghost use Rattle.driver_cli.specs.Steps.{Concludes, IsProposed};

use crate::answer::{Answer, Halt, Status};
use crate::audit::unlawful;
use crate::fetch::{Inputs, fetch_inputs};
use crate::put::put;
use crate::texts::spent_text;
use duty_core::NoMemory;
use outside::{Desk, Word};
use report_text::report;
use std::alloc::Global;
use tour_plan::{Planned, plan_tour};

/// What planning answers where its certificate can be put.
#[derive(Drop)]
struct Proposal {
    answer: Answer,
    cert: Vec<u8>,
}

/// The answer to a tour after its log, with the bytes of the certificate that proves it. Answered at
/// once, and as `LogUnlawful`, where the log breaks a rule, and as `Spent` where the search may keep no
/// more labels.
fn propose(alloc: Global, inputs: &Inputs, budget: u32) -> Result<Proposal, Halt>
    requires tour { IsTour inputs.now.tour }
    requires short { unit_minutes inputs.now.tour.params * length inputs.now.log ≤ LONGEST_LOG }
    requires budget { IsBudget budget }
    ensures { IsProposed inputs.now.tour inputs.now.log budget result }
{
    match plan_tour(alloc, &inputs.tour, &inputs.log, budget)? {
        Planned::Shortest { schedule, cert } => {
            let answer = Answer {
                status: Status::Done,
                text: report(alloc, &inputs.tour, &inputs.log, &schedule)?,
            };
            Ok(Proposal { answer, cert })
        }
        Planned::Infeasible { cert } => {
            let answer = Answer::of(alloc, Status::Infeasible, "infeasible\n")?;
            Ok(Proposal { answer, cert })
        }
        Planned::Spent => Err(Halt::Answered(Answer {
            status: Status::Spent,
            text: spent_text(alloc, budget)?,
        })),
        Planned::Unlawful { unit } => Err(Halt::Answered(unlawful(alloc, inputs, unit)?)),
    }
}

/// Plans a tour after a log, and puts the certificate of what is answered: a shortest schedule, or
/// that there is none. It does so after the refusals of the two files and of a log that breaks a rule.
pub fn plan<D: Desk>(
    alloc: Global,
    tour: &Word,
    log: &Word,
    cert: &Word,
    budget: u32,
    desk: &mut D,
) -> Result<Answer, Halt>
    requires { IsBudget budget }
    ensures answer { let read = read_side D.Desk desk.old desk.new in
        let write = write_side D.Desk desk.old desk.new in
        Concludes result (PlanAnswers tour.now log.now cert.now budget read write) (PlanLeaves tour.now log.now cert.now read write) }
{
    let inputs = fetch_inputs(alloc, tour, log, desk)?;
    let proposal = propose(alloc, &inputs, budget)?;
    put(alloc, cert, &proposal.cert, desk)?;
    Ok(proposal.answer)
}
