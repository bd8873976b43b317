//! The labels of a certificate, read from their numbers.
ghost use Rattle.std.specs.Prelude.{◌≡◌, ◌<◌, IfOk};
ghost use Rattle.tour_model.specs.declared.limits.TheConstants.{STEP_LIMIT};
ghost use Rattle.tour_model.specs.Layer.{layer_at};
ghost use Rattle.tour_model.specs.Tour.{IsTour};
ghost use Rattle.cert_text.specs.CoverLists.Planning.{minute_of};
ghost use Rattle.cert_checker.specs.Parsed.{label_of, labels_of, AreWithin};
ghost use Rattle.cert_checker.specs.Terms.{AreStatesAt};

use crate::listing::Listing;
use crate::terms::Terms;
use cert_text::{CertLabel, CertLabels, minute_at};
use duty_core::{Minute, NoMemory};
use rule_core::RuleBook;
use std::alloc::Global;
use tour_model::Label;

/// The label, where its numbers are those of a state at this minute and its progress is at most
/// `goal`.
fn read_label<B: RuleBook>(
    book: &B,
    goal: u32,
    at: Minute,
    label: &CertLabel,
) -> Result<Option<Label<B::State>>, NoMemory>
    ensures { IfOk result (λ o. o ≡ label_of (B.machine book.now).state_of goal at label.now) }
{
    let Some(state) = book.read_state(label.numbers.items(), at)? else {
        return Ok(None);
    };
    if label.progress > goal {
        return Ok(None);
    }
    Ok(Some(Label {
        depart: label.depart,
        progress: label.progress,
        state,
    }))
}

/// The labels of a layer, in their order.
fn read_labels<B: RuleBook>(
    alloc: Global,
    book: &B,
    goal: u32,
    at: Minute,
    labels: &[CertLabel],
) -> Result<Vec<Option<Label<B::State>>>, NoMemory>
    ensures { IfOk result (λ list. list.items ≡ labels_of (B.machine book.now).state_of goal at labels.now) }
{
    let mut list = Vec::new(alloc);
    for label in labels {
        list.push(read_label(book, goal, at, label)?)?;
    }
    Ok(list)
}

/// The labels of the layer of this step, in their order: none where there is no such layer.
pub fn read_layer<B: RuleBook, K>(
    alloc: Global,
    terms: &Terms<'_, B, K>,
    layers: &[CertLabels],
    step: u32,
) -> Result<Listing<B::State>, NoMemory>
    requires tour { IsTour terms.now.tour.now }
    requires step { step < STEP_LIMIT }
    ensures labels { IfOk result (λ list. list ≡ labels_of (B.machine terms.now.book.now).state_of terms.now.goal (minute_of terms.now.tour.now step) (layer_at layers.now step)) }
    ensures states { IfOk result (AreStatesAt terms.now (B.machine terms.now.book.now) step) }
    ensures within { IfOk result (AreWithin terms.now.goal) }
{
    let at = minute_at(terms.tour, step);
    match layers.get(step as usize) {
        None => Listing::new(alloc, Vec::new(alloc)),
        Some(labels) => Listing::new(
            alloc,
            read_labels(alloc, terms.book, terms.goal, at, labels.items())?,
        ),
    }
}
