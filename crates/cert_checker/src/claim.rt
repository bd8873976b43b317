//! The conditions on a certificate's schedule and marks.
ghost use Rattle.std.specs.Prelude.{◌≡◌, ◌*◌, ◌<◌, ◌≤◌, ◌++◌, [], length, replicate, None, Decides, IfOk, OnOk, MatchOption};
ghost use Rattle.duty_core.specs.declared.limits.TheConstants.{LONGEST_LOG};
ghost use Rattle.duty_core.specs.Lawful.{IsLawfulWith};
ghost use Rattle.duty_core.specs.Params.{unit_minutes};
ghost use Rattle.tour_model.specs.declared.limits.TheConstants.{LONGEST_TOUR};
ghost use Rattle.tour_model.specs.Schedule.{history_of, log_start, ServesTour};
ghost use Rattle.tour_model.specs.Tour.{IsTour};
ghost use Rattle.cert_text.specs.declared.cert.CertKind.TheVariants.{Shortest, Infeasible};
ghost use Rattle.cert_text.specs.Cert.{acts_of_runs};
ghost use Rattle.cert_checker.specs.Verdicts.{ClaimHolds, StepsHold, StepsFail};

use crate::answered::progress_after;
use crate::follow::is_lawful_with;
use crate::verdict::Reason;
use cert_text::{Cert, CertKind, StepRun};
use duty_core::{Activity, Mark, NoMemory, allowed, unit_of};
use rule_core::RuleBook;
use std::alloc::Global;
use timeline::Timeline;
use tour_model::{LONGEST_TOUR, Tour, duration};

/// Adds so many steps of the activity.
fn push_steps(steps: &mut Vec<Activity>, count: u32, act: Activity) -> Result<(), NoMemory>
    ensures ok { OnOk result (steps.new.items ≡ steps.old.items ++ replicate count act) }
{
    for _ in 0..count {
        steps.push(act)?;
    }
    Ok(())
}

/// The steps of the runs, one by one; None where there are more than the longest tour has minutes.
fn steps_of(alloc: Global, runs: &[StepRun]) -> Result<Option<Vec<Activity>>, NoMemory>
    ensures steps { IfOk result (λ o. MatchOption o (LONGEST_TOUR < length (acts_of_runs runs.now)) (λ v. v.items ≡ acts_of_runs runs.now)) }
    ensures few { IfOk result (λ o. MatchOption o (Unit {0}) (λ v. length v.items ≤ LONGEST_TOUR)) }
{
    let mut steps = Vec::new(alloc);
    for run in runs {
        if run.count > LONGEST_TOUR - steps.len() as u32 {
            return Ok(None);
        }
        push_steps(&mut steps, run.count, run.act)?;
    }
    Ok(Some(steps))
}

/// Whether the steps serve the tour.
fn serves(tour: &Tour, steps: &[Activity]) -> bool
    requires tour { IsTour tour.now }
    requires few { length steps.now ≤ LONGEST_TOUR }
    ensures { Decides result (ServesTour tour.now steps.now) }
{
    let goal = tour.word_len();
    let mut progress = 0;
    for (step, act) in steps.iter().enumerate() {
        if !allowed(tour.params, *act) {
            return false;
        }
        if !tour.may_do(step as u32, progress, *act) {
            return false;
        }
        progress = progress_after(progress, *act);
    }
    progress == goal
}

/// The log, and after it the steps.
fn history_with(tour: &Tour, log: &Timeline, steps: &[Activity]) -> Result<Timeline, NoMemory>
    requires { IsTour tour.now }
    ensures { IfOk result (λ history. history ≡ history_of tour.now log.now steps.now) }
{
    let units = tour.grid / unit_of(tour.params);
    let mut history = log.copy()?;
    for act in steps {
        if history.push_run(*act, units).is_err() {
            return Err(NoMemory);
        }
    }
    Ok(history)
}

/// Whether the log with the steps after it is lawful with these marks.
fn is_lawful<B: RuleBook>(
    alloc: Global,
    book: &B,
    tour: &Tour,
    log: &Timeline,
    steps: &[Activity],
    marks: &[Mark],
) -> Result<bool, NoMemory>
    requires tour { IsTour tour.now }
    requires params { (B.machine book.now).params ≡ tour.now.params }
    requires short { unit_minutes tour.now.params * length log.now ≤ LONGEST_LOG }
    requires serves { ServesTour tour.now steps.now }
    ensures { IfOk result (λ b. Decides b (IsLawfulWith tour.now.params (log_start tour.now log.now) (history_of tour.now log.now steps.now) marks.now)) }
{
    let history = history_with(tour, log, steps)?;
    let first = tour.start - unit_of(tour.params) * log.len();
    is_lawful_with(alloc, book, &history, first, marks)
}

/// The first condition on these steps and the certificate's marks that fails, where one does.
fn fault_of_steps<B: RuleBook>(
    alloc: Global,
    book: &B,
    tour: &Tour,
    log: &Timeline,
    cert: &Cert,
    steps: &[Activity],
) -> Result<Option<Reason>, NoMemory>
    requires tour { IsTour tour.now }
    requires params { (B.machine book.now).params ≡ tour.now.params }
    requires short { unit_minutes tour.now.params * length log.now ≤ LONGEST_LOG }
    requires few { length steps.now ≤ LONGEST_TOUR }
    ensures { IfOk result (λ o. MatchOption o (StepsHold tour.now log.now cert.now steps.now) (StepsFail tour.now log.now cert.now steps.now)) }
{
    if !serves(tour, steps) {
        return Ok(Some(Reason::Serves));
    }
    if cert.target != Some(duration(steps)) {
        return Ok(Some(Reason::Length));
    }
    if !is_lawful(alloc, book, tour, log, steps, cert.marks.items())? {
        return Ok(Some(Reason::Lawful));
    }
    Ok(None)
}

/// The first condition on the certificate's claim that fails, where one does.
pub fn fault_of_claim<B: RuleBook>(
    alloc: Global,
    book: &B,
    tour: &Tour,
    log: &Timeline,
    cert: &Cert,
) -> Result<Option<Reason>, NoMemory>
    requires tour { IsTour tour.now }
    requires params { (B.machine book.now).params ≡ tour.now.params }
    requires short { unit_minutes tour.now.params * length log.now ≤ LONGEST_LOG }
    requires none { cert.now.kind ≡ Infeasible → (cert.now.target ≡ None) × (cert.now.schedule ≡ []) × (cert.now.marks ≡ []) }
    ensures { IfOk result (λ o. MatchOption o (ClaimHolds tour.now log.now cert.now) (λ r. (cert.now.kind ≡ Shortest) × StepsFail tour.now log.now cert.now (acts_of_runs cert.now.schedule) r)) }
{
    match cert.kind {
        CertKind::Infeasible => Ok(None),
        CertKind::Shortest => match steps_of(alloc, cert.schedule.items())? {
            None => Ok(Some(Reason::Serves)),
            Some(steps) => fault_of_steps(alloc, book, tour, log, cert, &steps),
        },
    }
}
