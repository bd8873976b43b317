//! The certificate that a search's layers make.
ghost use Rattle.std.specs.Prelude.{◌≡◌, ℕ, ◌+◌, ◌^◌, ◌<◌, List, [], None, Some, length, sum_by, IfOk};
ghost use Rattle.std.specs.Option.{option_copied};
ghost use Rattle.duty_core.specs.declared.activity.Activity.{Activity};
ghost use Rattle.rule_core.specs.declared.numbers.TheConstants.{NUMBER_LIMIT};
ghost use Rattle.rule_core.specs.Reach.{IsOneOf};
ghost use Rattle.tour_model.specs.declared.label.Label.{Label};
ghost use Rattle.tour_model.specs.Layer.{layer_at};
ghost use Rattle.tour_model.specs.Schedule.{duration};
ghost use Rattle.tour_model.specs.Tour.{IsTour};
ghost use Rattle.tour_model.specs.Word.{word_length};
ghost use Rattle.label_state.specs.Layers.{label_layers, label_count};
ghost use Rattle.cert_text.specs.CoverLists.Planning.{state_at};
ghost use Rattle.cert_text.specs.CoverLists.Cover.{IsLabelAt};
ghost use Rattle.cert_text.specs.declared.cert.CertKind.TheVariants.{Shortest, Infeasible};
ghost use Rattle.cert_text.specs.Cert.{IsValidCert, acts_of_runs};
ghost use Rattle.cert_text.specs.Text.Form.{IsCertForm};
ghost use Rattle.refutation.specs.Refutes.{ProveAnswer, Tells, IsSolved, steps_of};
ghost use Rattle.refutation.specs.Runs.{AreMaximal};

use crate::labels::layers_of;
use crate::runs::runs_of;
use cert_text::{Cert, CertKind, CertLayers, StepRuns};
use duty_core::{Marks, NoMemory};
use label_state::Layers;
use rule_core::RuleBook;
use std::alloc::Global;
use tour_model::{Schedule, Tour, duration};

/// The certificate that there is no solution.
fn infeasible(alloc: Global, layers: CertLayers) -> Cert
    ensures kind { result.kind ≡ Infeasible }
    ensures target { result.target ≡ None }
    ensures schedule { result.schedule ≡ [] }
    ensures marks { result.marks ≡ [] }
    ensures layers { result.layers ≡ layers }
{
    Cert {
        kind: CertKind::Infeasible,
        target: None,
        schedule: StepRuns::new(alloc),
        marks: Marks::new(alloc),
        layers,
    }
}

/// The certificate that the schedule is a shortest one.
fn shortest(alloc: Global, best: &Schedule, layers: CertLayers) -> Result<Cert, NoMemory>
    requires { length best.now.steps + 1 < 2 ^ 32 }
    ensures kind { IfOk result (λ cert. cert.kind ≡ Shortest) }
    ensures target { IfOk result (λ cert. cert.target ≡ Some (duration best.now.steps)) }
    ensures schedule { IfOk result (λ cert. acts_of_runs cert.schedule ≡ best.now.steps) }
    ensures runs { IfOk result (λ cert. AreMaximal None cert.schedule) }
    ensures marks { IfOk result (λ cert. cert.marks ≡ best.now.marks) }
    ensures layers { IfOk result (λ cert. cert.layers ≡ layers) }
{
    let steps = best.steps.items();
    Ok(Cert {
        kind: CertKind::Shortest,
        target: Some(duration(steps)),
        schedule: runs_of(alloc, steps)?,
        marks: best.marks.copy()?,
        layers,
    })
}

/// The certificate of the layers: of kind shortest, with the schedule's duration as its target, or
/// of kind infeasible where there is no schedule. It says just what it is given: the schedule's
/// steps and marks, and the layers' labels with the numbers of their states.
///
/// So it is valid for each log for which the layers are a cover list for that target and `best`,
/// where it is given, is a solution with its marks. It has a text where `best` is such a solution
/// after some log, and there are fewer than 1,000,000 labels. The schedule has fewer than 4,294,967,295 steps.
pub fn refute<B: RuleBook>(
    alloc: Global,
    book: &B,
    tour: &Tour,
    layers: &Layers<B::State>,
    best: Option<&Schedule>,
) -> Result<Cert, NoMemory>
    requires tour { IsTour tour.now }
    requires labels { (step : ℕ) (l : Label B.State) → IsOneOf (layer_at (label_layers layers.now) step) l →
        IsLabelAt (state_at tour.now (B.machine book.now)) (word_length tour.now) step l }
    requires few { length (steps_of (option_copied best)) + 1 < 2 ^ 32 }
    ensures tells { IfOk result (λ cert. Tells (B.machine book.now).state_of tour.now (option_copied best.entry) (label_layers layers.now) cert) }
    // It has as many labels as the layers.
    ensures labels { IfOk result (λ cert. sum_by length cert.layers ≡ label_count layers.now) }
    // It has a text.
    ensures form { IfOk result (λ cert. IsSolved tour.now (option_copied best.entry) → label_count layers.now < NUMBER_LIMIT → IsCertForm tour.now.params cert) }
    ensures valid { IfOk result (λ cert. (log : List Activity) →
        ProveAnswer tour.now log (B.machine book.now) (option_copied best.entry) (label_layers layers.now) →
        IsValidCert tour.now log (B.machine book.now) cert) }
{
    let layers = layers_of(alloc, book, tour, layers)?;
    match best {
        None => Ok(infeasible(alloc, layers)),
        Some(best) => shortest(alloc, best, layers),
    }
}
