//! What follows from cover lists and certificates. The function does nothing: its clauses are the
//! laws.
ghost use Rattle.std.specs.Prelude.{◌≡◌, ℕ, ◌*◌, ◌≤◌, List, Option, None, Some, length};
ghost use Rattle.duty_core.specs.declared.activity.Activity.{Activity};
ghost use Rattle.duty_core.specs.declared.limits.TheConstants.{LONGEST_LOG};
ghost use Rattle.duty_core.specs.Params.{unit_minutes};
ghost use Rattle.tour_model.specs.declared.label.Label.{Label};
ghost use Rattle.tour_model.specs.Tour.{IsTour};
ghost use Rattle.tour_model.specs.Schedule.{duration, IsSolution, IsShortest, IsInfeasible};
ghost use Rattle.cert_text.specs.declared.cert.Cert.{Cert};
ghost use Rattle.cert_text.specs.declared.cert.CertKind.TheVariants.{Shortest, Infeasible};
ghost use Rattle.cert_text.specs.CoverLists.Planning.{problem_of, state_at, IsLogState};
ghost use Rattle.cert_text.specs.CoverLists.Cover.{IsAtLeast, IsCoverList};
ghost use Rattle.cert_text.specs.Cert.{IsValidCert, acts_of_runs};

use rule_core::RuleBook;
use timeline::Timeline;
use tour_model::Tour;

/// From a cover list over the states that the log reaches it follows, whoever made its layers, that
/// no solution takes less than its target, and where it has no target, that there is no solution.
/// So the schedule of a valid certificate of kind shortest is a shortest solution, and where one of
/// kind infeasible is valid, there is no solution.
pub fn cover_lists_prove<B: RuleBook>(book: &B, tour: &Tour, log: &Timeline)
    requires tour { IsTour tour.now }
    requires params { (B.machine book.now).params ≡ tour.now.params }
    requires short { unit_minutes tour.now.params * length log.now ≤ LONGEST_LOG }
    ensures least { (target : Option ℕ) (layers : List (List (Label B.State))) →
        IsCoverList (problem_of tour.now (B.machine book.now)) (state_at tour.now (B.machine book.now))
        (IsLogState tour.now log.now (B.machine book.now)) target layers →
        (schedule : List Activity) → IsSolution tour.now log.now schedule → IsAtLeast target (duration schedule) }
    ensures none { (layers : List (List (Label B.State))) →
        IsCoverList (problem_of tour.now (B.machine book.now)) (state_at tour.now (B.machine book.now))
        (IsLogState tour.now log.now (B.machine book.now)) None layers →
        IsInfeasible tour.now log.now }
    ensures shortest { (cert : Cert) → IsValidCert tour.now log.now (B.machine book.now) cert → cert.kind ≡ Shortest → IsShortest tour.now log.now (acts_of_runs cert.schedule) }
    ensures infeasible { (cert : Cert) → IsValidCert tour.now log.now (B.machine book.now) cert → cert.kind ≡ Infeasible → IsInfeasible tour.now log.now }
{
    let _ = book;
    let _ = tour;
    let _ = log;
}
