//! Whether a certificate is valid for a tour after a log.
ghost use Rattle.std.specs.Prelude.{◌≡◌, ◌*◌, ◌≤◌, length, IfOk};
ghost use Rattle.duty_core.specs.Lawful.{IsLawful};
ghost use Rattle.duty_core.specs.Params.{unit_minutes};
ghost use Rattle.duty_core.specs.declared.limits.TheConstants.{LONGEST_LOG};
ghost use Rattle.tour_model.specs.Schedule.{log_start};
ghost use Rattle.tour_model.specs.Tour.{IsTour};
ghost use Rattle.driver_cli.specs.Sides.{read_side, write_side, IsKept};
ghost use Rattle.driver_cli.specs.Answers.{BytesAnswers, CheckAnswers, CheckLeaves};
ghost use Rattle.driver_cli.specs.Steps.{Concludes};
ghost use Rattle.driver_cli.specs.Texts.{rejected_text};

use crate::answer::{Answer, Halt, Status};
use crate::audit::require_lawful;
use crate::fetch::{Inputs, fetch, fetch_inputs};
use crate::texts::{accepted_shortest_text, rejected_text};
use cert_checker::{Reason, Verdict, check_cert};
use cert_text::CERT_LIMIT;
use duty_core::NoMemory;
use outside::{Desk, Word};
use std::alloc::Global;

/// How many bytes of a certificate's file are fetched: one more than a certificate may have.
const CERT_FETCH: usize = CERT_LIMIT + 1;

/// The answer to a certificate that is not valid: the line at which it fails, and why.
fn rejected(alloc: Global, line: u64, reason: Reason) -> Result<Answer, NoMemory>
    ensures { IfOk result (λ answer. (answer.status ≡ Status.Rejected) × (answer.text ≡ rejected_text line reason)) }
{
    Ok(Answer {
        status: Status::Rejected,
        text: rejected_text(alloc, line, reason)?,
    })
}

/// The answer to the bytes of a certificate's file, after a lawful log.
fn checked(alloc: Global, inputs: &Inputs, bytes: &[u8]) -> Result<Answer, NoMemory>
    requires tour { IsTour inputs.now.tour }
    requires short { unit_minutes inputs.now.tour.params * length inputs.now.log ≤ LONGEST_LOG }
    requires lawful { IsLawful inputs.now.tour.params (log_start inputs.now.tour inputs.now.log) inputs.now.log }
    ensures { IfOk result (λ answer. BytesAnswers inputs.now.tour inputs.now.log bytes.now answer.status answer.text) }
{
    if bytes.len() > CERT_LIMIT {
        return rejected(alloc, 0, Reason::TooBig);
    }
    match check_cert(alloc, &inputs.tour, &inputs.log, bytes)? {
        Verdict::Shortest { steps } => Ok(Answer {
            status: Status::Done,
            text: accepted_shortest_text(alloc, steps * inputs.tour.grid)?,
        }),
        Verdict::Infeasible => Answer::of(alloc, Status::Done, "accepted infeasible\n"),
        Verdict::Rejected { line, reason } => rejected(alloc, line, reason),
    }
}

/// Says whether a certificate is valid for a tour after a log, after the refusals of the two files
/// and of a log that breaks a rule.
pub fn check<D: Desk>(
    alloc: Global,
    tour: &Word,
    log: &Word,
    cert: &Word,
    desk: &mut D,
) -> Result<Answer, Halt>
    ensures kept { IsKept (write_side D.Desk desk.old desk.new) }
    ensures answer { let read = read_side D.Desk desk.old desk.new in Concludes result (CheckAnswers tour.now log.now cert.now read) (CheckLeaves tour.now log.now cert.now read) }
{
    let inputs = fetch_inputs(alloc, tour, log, desk)?;
    require_lawful(alloc, &inputs)?;
    let bytes = fetch(alloc, cert, CERT_FETCH, desk)?;
    Ok(checked(alloc, &inputs, &bytes)?)
}
