//! Labels as a certificate writes them.
ghost use Rattle.std.specs.Prelude.{◌≡◌, ◌≤◌, ℕ, length, IfOk};
ghost use Rattle.rule_core.specs.Reach.{IsOneOf};
ghost use Rattle.tour_model.specs.declared.label.Label.{Label};
ghost use Rattle.tour_model.specs.Layer.{layer_at};
ghost use Rattle.tour_model.specs.Tour.{IsTour};
ghost use Rattle.label_state.specs.declared.layers.TheConstants.{LAYER_LIMIT};
ghost use Rattle.label_state.specs.Layers.{labels_of, label_layers};
ghost use Rattle.cert_text.specs.Cert.{IsLabelOf, AreLabelsOf, AreLayersOf};
ghost use Rattle.cert_text.specs.CoverLists.Planning.{minute_of};

use cert_text::{CertLabel, CertLabels, CertLayers, minute_at};
use duty_core::{Minute, NoMemory};
use label_state::{Kept, Layers};
use rule_core::{Numbers, RuleBook};
use std::alloc::Global;
use tour_model::{Label, Tour};

/// The label as it is written down at the minute `at`.
fn label_of<B: RuleBook>(
    alloc: Global,
    book: &B,
    at: Minute,
    label: &Label<B::State>,
) -> Result<CertLabel, NoMemory>
    requires { (B.machine book.now).is_state label.now.state at }
    ensures { IfOk result (λ c. IsLabelOf (B.machine book.now).state_of at c label.now) }
{
    let mut numbers = Numbers::new(alloc);
    book.write_state(&label.state, at, &mut numbers)?;
    Ok(CertLabel {
        depart: label.depart,
        progress: label.progress,
        numbers,
    })
}

/// The labels of the layer as they are written down at the minute `at`, in their order.
fn layer_of<B: RuleBook>(
    alloc: Global,
    book: &B,
    at: Minute,
    layer: &[Kept<B::State>],
) -> Result<CertLabels, NoMemory>
    requires { (l : Label B.State) → IsOneOf (labels_of layer.now) l → (B.machine book.now).is_state l.state at }
    ensures { IfOk result (λ cs. AreLabelsOf (B.machine book.now).state_of at cs (labels_of layer.now)) }
{
    let mut labels = CertLabels::new(alloc);
    for kept in layer {
        labels.push(label_of(alloc, book, at, &kept.label)?)?;
    }
    Ok(labels)
}

/// The layers as they are written down, each at the minute of its step.
pub fn layers_of<B: RuleBook>(
    alloc: Global,
    book: &B,
    tour: &Tour,
    layers: &Layers<B::State>,
) -> Result<CertLayers, NoMemory>
    requires tour { IsTour tour.now }
    requires states { (step : ℕ) (l : Label B.State) → IsOneOf (labels_of (layer_at layers.now step)) l → (B.machine book.now).is_state l.state (minute_of tour.now step) }
    ensures written { IfOk result (λ cs. AreLayersOf (B.machine book.now).state_of tour.now 0 cs (label_layers layers.now)) }
    ensures few { length layers.now ≤ LAYER_LIMIT }
{
    let mut list = CertLayers::new(alloc);
    for step in 0..layers.depth() {
        let layer = layer_of(alloc, book, minute_at(tour, step), layers.layer(step))?;
        list.push(layer)?;
    }
    Ok(list)
}
