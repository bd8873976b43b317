//! The bytes of a certificate that proves what a search found.
ghost use Rattle.std.specs.Prelude.{◌≡◌, ◌*◌, ◌≤◌, length, IfOk};
ghost use Rattle.std.specs.Option.{option_copied};
ghost use Rattle.duty_core.specs.Params.{unit_minutes};
ghost use Rattle.duty_core.specs.declared.limits.TheConstants.{LONGEST_LOG};
ghost use Rattle.tour_model.specs.Tour.{IsTour};
ghost use Rattle.label_state.specs.Layers.{label_count, label_layers};
ghost use Rattle.cert_text.specs.declared.text.limits.TheConstants.{MOST_LABELS};
ghost use Rattle.cert_text.specs.declared.cert.Cert.{Cert};
ghost use Rattle.cert_text.specs.Cert.{IsValidCert, acts_of_runs};
ghost use Rattle.refutation.specs.Refutes.{ProveAnswer, kind_of, steps_of, marks_of};
ghost use Rattle.tour_plan.specs.Planned.{IsProof};

use cert_text::{cert_texts_fit, write_cert};
use duty_core::NoMemory;
use label_state::Layers;
use refutation::refute;
use rule_core::RuleBook;
use std::alloc::Global;
use timeline::Timeline;
use tour_model::{Schedule, Tour};

/// The bytes of the certificate that the layers make, which prove that this schedule is a shortest
/// one after the log, or that there is none.
pub fn bytes_of<B: RuleBook>(
    alloc: Global,
    book: &B,
    tour: &Tour,
    log: &Timeline,
    layers: &Layers<B::State>,
    best: Option<&Schedule>,
) -> Result<Vec<u8>, NoMemory>
    requires tour { IsTour tour.now }
    requires params { (B.machine book.now).params ≡ tour.now.params }
    requires short { unit_minutes tour.now.params * length log.now ≤ LONGEST_LOG }
    requires few { label_count layers.now ≤ MOST_LABELS }
    requires proven { ProveAnswer tour.now log.now (B.machine book.now) (option_copied best) (label_layers layers.now) }
    ensures { IfOk result (λ bytes. (cert : Cert)
        × IsProof (λ cert. IsValidCert tour.now log.now (B.machine book.now) cert) tour.now (kind_of (option_copied best.entry)) bytes.items cert
        × (acts_of_runs cert.schedule ≡ steps_of (option_copied best.entry)) × (cert.marks ≡ marks_of (option_copied best.entry))) }
{
    let _ = log;
    let cert = refute(alloc, book, tour, layers, best)?;
    let bytes = write_cert(alloc, &cert, tour)?;
    cert_texts_fit();
    Ok(bytes)
}
