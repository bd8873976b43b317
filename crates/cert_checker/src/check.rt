//! The check of a certificate.
ghost use Rattle.std.specs.Prelude.{◌≡◌, ◌*◌, ◌≤◌, length, Decides, IfOk};
ghost use Rattle.duty_core.specs.declared.limits.TheConstants.{LONGEST_LOG};
ghost use Rattle.duty_core.specs.Params.{unit_minutes};
ghost use Rattle.rule_core.specs.Replay.{AreRootStates, AreRootsOf};
ghost use Rattle.tour_model.specs.Schedule.{log_start};
ghost use Rattle.tour_model.specs.Tour.{IsTour};
ghost use Rattle.tour_model.specs.Word.{word_length};
ghost use Rattle.cert_text.specs.CoverLists.Planning.{problem_of, minute_of};
ghost use Rattle.cert_text.specs.CoverLists.Bound.{ObeysBound, IsBoundOf};
ghost use Rattle.cert_checker.specs.Parsed.{there};
ghost use Rattle.cert_checker.specs.Terms.{AreTerms};
ghost use Rattle.cert_checker.specs.Conditions.{layer_of};
ghost use Rattle.cert_checker.specs.Rooted.{AreRooted};
ghost use Rattle.cert_checker.specs.Verdicts.{IsSmallCert, IsVerdictBy, IsVerdict, Proves, verdict_of, claim_line, layers_line, root_line};

use crate::claim::fault_of_claim;
use crate::layers::first_label;
use crate::parse::read_layer;
use crate::roots::are_rooted;
use crate::terms::Terms;
use crate::verdict::{Reason, Rejection, SCHEDULE_LINE, Verdict};
use cert_text::{Cert, EtaBound, LabelBound};
use duty_core::NoMemory;
use rule_core::{Roots, RuleBook};
use std::alloc::Global;
use timeline::Timeline;
use tour_model::Tour;

/// The line of a condition on the claim.
fn claim_line(cert: &Cert, reason: Reason) -> u64
    requires { IsSmallCert cert.now }
    ensures { result ≡ claim_line cert.now reason }
{
    match reason {
        Reason::Lawful => SCHEDULE_LINE + cert.schedule.items().len() as u64 + 1,
        _ => SCHEDULE_LINE,
    }
}

/// The line of the number of layers.
fn layers_line(cert: &Cert) -> u64
    requires { IsSmallCert cert.now }
    ensures { result ≡ layers_line cert.now }
{
    SCHEDULE_LINE + cert.schedule.items().len() as u64 + 1 + cert.marks.items().len() as u64 + 1
}

/// The line of layer 0, or of the number of layers where there is none.
fn root_line(cert: &Cert) -> u64
    requires { IsSmallCert cert.now }
    ensures { result ≡ root_line cert.now cert.now.layers }
{
    let line = layers_line(cert);
    if cert.layers.items().is_empty() {
        line
    } else {
        line + 1
    }
}

/// Whether each state that the log reaches is covered by a label of layer 0 that has not departed
/// and has done nothing.
fn do_roots_hold<B: RuleBook, K>(
    alloc: Global,
    terms: &Terms<'_, B, K>,
    roots: &Roots<B::State>,
    cert: &Cert,
) -> Result<bool, NoMemory>
    requires terms { AreTerms terms.now (B.machine terms.now.book.now) }
    requires roots { AreRootStates (B.machine terms.now.book.now) (minute_of terms.now.tour.now 0) roots.now }
    ensures { IfOk result (λ b. Decides b (AreRooted (problem_of terms.now.tour.now (B.machine terms.now.book.now))
        (there (layer_of (B.machine terms.now.book.now).state_of terms.now.tour.now (word_length terms.now.tour.now) cert.now.layers 0)) roots.now)) }
{
    let labels = read_layer(alloc, terms, cert.layers.items(), 0)?;
    Ok(are_rooted(terms, &labels, roots.items()))
}

/// What an accepted certificate says.
fn accepted(cert: &Cert) -> Verdict
    ensures { result ≡ verdict_of cert.now.target }
{
    match cert.target {
        None => Verdict::Infeasible,
        Some(steps) => Verdict::Shortest { steps },
    }
}

/// Checks a certificate by these terms, after a log that leaves these roots.
pub fn check_by_terms<B: RuleBook, K: LabelBound<B::State>>(
    alloc: Global,
    terms: &Terms<'_, B, K>,
    log: &Timeline,
    roots: &Roots<B::State>,
    cert: &Cert,
) -> Result<Verdict, NoMemory>
    requires terms { AreTerms terms.now (B.machine terms.now.book.now) }
    requires bound { IsBoundOf terms.now.tour.now (B.machine terms.now.book.now) (K.bounds terms.now.bound.now) }
    requires obeys { ObeysBound terms.now.tour.now (B.machine terms.now.book.now) (K.bounds terms.now.bound.now).bound }
    requires target { terms.now.target ≡ cert.now.target }
    requires short { unit_minutes terms.now.tour.now.params * length log.now ≤ LONGEST_LOG }
    requires roots { AreRootsOf (unit_minutes terms.now.tour.now.params) (B.machine terms.now.book.now) (log_start terms.now.tour.now log.now) log.now roots.now }
    requires cert { IsSmallCert cert.now }
    ensures verdict { IfOk result (IsVerdictBy terms.now.tour.now log.now (B.machine terms.now.book.now) (K.bounds terms.now.bound.now).bound cert.now) }
    ensures proves { IfOk result (Proves terms.now.tour.now log.now cert.now) }
{
    if let Some(reason) = fault_of_claim(alloc, terms.book, terms.tour, log, cert)? {
        let line = claim_line(cert, reason);
        return Ok(Verdict::Rejected { line, reason });
    }
    if !do_roots_hold(alloc, terms, roots, cert)? {
        let line = root_line(cert);
        return Ok(Verdict::Rejected {
            line,
            reason: Reason::Root,
        });
    }
    let first = layers_line(cert) + 1;
    if let Some(failure) = first_label(alloc, terms, first, &cert.layers)? {
        let Rejection { line, reason } = failure;
        return Ok(Verdict::Rejected { line, reason });
    }
    Ok(accepted(cert))
}

/// Checks a certificate of the tour after the log, which leaves these roots.
///
/// It is accepted exactly where it is valid. Then the schedule of one of kind shortest is lawful with
/// its marks and a shortest one, and where one of kind infeasible is accepted, there is no solution. Else the first line at
/// which a condition fails is named, and the first that fails there.
pub fn check_parsed<B: RuleBook>(
    alloc: Global,
    book: &B,
    tour: &Tour,
    log: &Timeline,
    roots: &Roots<B::State>,
    cert: &Cert,
) -> Result<Verdict, NoMemory>
    requires tour { IsTour tour.now }
    requires params { (B.machine book.now).params ≡ tour.now.params }
    requires short { unit_minutes tour.now.params * length log.now ≤ LONGEST_LOG }
    requires roots { AreRootsOf (unit_minutes tour.now.params) (B.machine book.now) (log_start tour.now log.now) log.now roots.now }
    requires cert { IsSmallCert cert.now }
    ensures verdict { IfOk result (IsVerdict tour.now log.now (B.machine book.now) cert.now) }
    ensures proves { IfOk result (Proves tour.now log.now cert.now) }
{
    let bound = EtaBound { tour };
    let terms = Terms {
        book,
        tour,
        bound: &bound,
        goal: tour.word_len(),
        target: cert.target,
    };
    check_by_terms(alloc, &terms, log, roots, cert)
}
