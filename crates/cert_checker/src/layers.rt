//! The conditions on the labels of all layers.
ghost use Rattle.std.specs.Prelude.{ℕ, ◌^◌, ◌<◌, length, IfOk, MatchOption};
ghost use Rattle.tour_model.specs.declared.limits.TheConstants.{STEP_LIMIT};
ghost use Rattle.tour_model.specs.Layer.{layer_at};
ghost use Rattle.cert_text.specs.CoverLists.Planning.{problem_by, state_at};
ghost use Rattle.cert_text.specs.CoverLists.Bound.{IsBoundOf};
ghost use Rattle.cert_checker.specs.Terms.{AreTerms};
ghost use Rattle.cert_checker.specs.Conditions.{LayersPass, IsFirstLabel};

use crate::layer::{LabelFault, first_fault};
use crate::parse::read_layer;
use crate::terms::Terms;
use crate::verdict::Rejection;
use cert_text::{CertLayers, LabelBound};
use duty_core::NoMemory;
use rule_core::RuleBook;
use std::alloc::Global;

/// The first label of the layers at which a condition fails, where there is one, and its line,
/// where the line of layer 0 is `first`. Only the labels of two layers are held at a time.
pub fn first_label<B: RuleBook, K: LabelBound<B::State>>(
    alloc: Global,
    terms: &Terms<'_, B, K>,
    first: u64,
    layers: &CertLayers,
) -> Result<Option<Rejection>, NoMemory>
    requires terms { AreTerms terms.now (B.machine terms.now.book.now) }
    requires bound { IsBoundOf terms.now.tour.now (B.machine terms.now.book.now) (K.bounds terms.now.bound.now) }
    requires first { first < 2 ^ 32 }
    requires layers { length layers.now < STEP_LIMIT }
    requires labels { (step : ℕ) → length (layer_at layers.now step) < STEP_LIMIT }
    ensures { IfOk result (λ o. MatchOption o
        (LayersPass (problem_by terms.now.tour.now (B.machine terms.now.book.now) (K.bounds terms.now.bound.now).bound) (state_at terms.now.tour.now (B.machine terms.now.book.now)) (B.machine terms.now.book.now).state_of terms.now.tour.now terms.now.target
        layers.now (length layers.now))
        (IsFirstLabel (problem_by terms.now.tour.now (B.machine terms.now.book.now) (K.bounds terms.now.bound.now).bound) (state_at terms.now.tour.now (B.machine terms.now.book.now)) (B.machine terms.now.book.now).state_of terms.now.tour.now terms.now.target
        layers.now first)) }
{
    let layers = layers.items();
    let mut line = first;
    let mut labels = read_layer(alloc, terms, layers, 0)?;
    for step in 0..layers.len() as u32 {
        let next = read_layer(alloc, terms, layers, step + 1)?;
        if let Some(fault) = first_fault(terms, step, &labels, &next)? {
            return Ok(Some(Rejection {
                line: line + fault.index + 1,
                reason: fault.reason,
            }));
        }
        line += labels.items().len() as u64 + 1;
        labels = next;
    }
    Ok(None)
}
