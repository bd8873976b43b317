//! Which labels are kept.
ghost use Rattle.std.specs.Prelude.{◌≡◌, ℕ, ◌+◌, ◌<◌, ◌≤◌, true, length, IfOk, OnErr, IsTrue};
ghost use Rattle.duty_core.specs.Params.{allows};
ghost use Rattle.tour_model.specs.declared.limits.TheConstants.{STEP_LIMIT};
ghost use Rattle.tour_model.specs.Tour.{IsTour};
ghost use Rattle.tour_model.specs.Word.{word_length};
ghost use Rattle.label_state.specs.declared.layers.TheConstants.{LAYER_LIMIT};
ghost use Rattle.label_state.specs.Layers.{last_step, last_layer, label_count, labels_of};
ghost use Rattle.cert_text.specs.CoverLists.Problem.{is_better};
ghost use Rattle.cert_text.specs.CoverLists.Planning.{problem_of, minute_of, state_at};
ghost use Rattle.cert_text.specs.CoverLists.Cover.{IsLabelAt};
ghost use Rattle.cert_text.specs.CoverLists.Continuation.{AnswersContinuations};
ghost use Rattle.label_dominance.specs.Offers.{AreStatesAt, may_keep_up, AreRising, MayKeepUp, AreAheadBelow, IsPlaceSought, IsCoverSought, IsOffered};

use cert_text::{departs_later, may_idle_after, minute_at};
use duty_core::NoMemory;
use label_state::{Kept, Layers};
use rule_core::RuleBook;
use tour_model::{Label, Tour};

/// What became of a label that was offered.
#[derive(Clone, Copy, Debug, PartialEq, Eq)]
pub enum Offered {
    /// The layer keeps it.
    Kept,
    /// The layer's label at this place is better, and none before it is.
    Covered { index: u32 },
}

/// Whether a label that has done so much may keep up with one that has done this `other` much: it
/// has done as much, or more and may idle where it is.
fn may_keep_up(tour: &Tour, progress: u32, other: u32) -> bool
    requires { IsTour tour.now }
    ensures { result ≡ may_keep_up tour.now progress other }
{
    progress == other || (other < progress && may_idle_after(tour, progress))
}

/// Whether the first label, which may keep up with the second, stands for it: it departs no
/// earlier, has done as much or can rest until the other has, and its state covers the other's.
fn stands_for<B: RuleBook>(
    book: &B,
    tour: &Tour,
    a: &Label<B::State>,
    b: &Label<B::State>,
    step: u32,
) -> bool
    requires tour { IsTour tour.now }
    requires a { (B.machine book.now).is_state a.now.state (minute_of tour.now step) }
    requires b { (B.machine book.now).is_state b.now.state (minute_of tour.now step) }
    requires step { step < STEP_LIMIT }
    requires keeps_up { may_keep_up tour.now a.now.progress b.now.progress ≡ true }
    ensures { result ≡ is_better (problem_of tour.now (B.machine book.now)) step a.now b.now }
{
    departs_later(a.depart, b.depart)
        && (a.progress == b.progress || book.ahead(&a.state))
        && book.covers(&a.state, &b.state, minute_at(tour, step))
}

/// Whether the first label may stand for the second at this step: it departs no earlier, its state
/// covers the other's, and it has done as much, or more and can rest until the other has done as
/// much. Then each continuation of the second is answered by one of the first that ends at the same
/// step and takes no more.
pub fn better<B: RuleBook>(
    book: &B,
    tour: &Tour,
    a: &Label<B::State>,
    b: &Label<B::State>,
    step: u32,
) -> bool
    requires tour { IsTour tour.now }
    requires params { (B.machine book.now).params ≡ tour.now.params }
    requires a { (B.machine book.now).is_state a.now.state (minute_of tour.now step) }
    requires b { (B.machine book.now).is_state b.now.state (minute_of tour.now step) }
    requires step { step < STEP_LIMIT }
    ensures exact { result ≡ is_better (problem_of tour.now (B.machine book.now)) step a.now b.now }
    ensures answers { IsTrue result → IsLabelAt (state_at tour.now (B.machine book.now)) (word_length tour.now) step a.now →
        IsLabelAt (state_at tour.now (B.machine book.now)) (word_length tour.now) step b.now →
        AnswersContinuations (problem_of tour.now (B.machine book.now)) (allows tour.now.params) step a.now b.now }
{
    may_keep_up(tour, a.progress, b.progress) && stands_for(book, tour, a, b, step)
}

/// The first of these places at which a label is better than this one. The labels there may keep up
/// with it, and places past the end have none.
fn first_among<B: RuleBook>(
    book: &B,
    tour: &Tour,
    layer: &[Kept<B::State>],
    places: &[u32],
    label: &Label<B::State>,
    step: u32,
) -> Option<u32>
    requires tour { IsTour tour.now }
    requires layer { AreStatesAt (state_at tour.now (B.machine book.now)) step (labels_of layer.now) }
    requires label { (B.machine book.now).is_state label.now.state (minute_of tour.now step) }
    requires step { step < STEP_LIMIT }
    requires rising { AreRising places.now }
    requires keep_up { MayKeepUp tour.now layer.now places.now label.now }
    ensures { IsPlaceSought (problem_of tour.now (B.machine book.now)) step layer.now places.now label.now result }
{
    for place in places {
        let kept = layer.get(*place as usize)?;
        if stands_for(book, tour, &kept.label, label, step) {
            return Some(*place);
        }
    }
    None
}

/// The place of the first label of the last layer that is better than this one. The labels that
/// have done as much are looked at, and those that have done more where the tour allows to idle and
/// where a state is ahead, which is so below `ahead_end` alone; and of them those that stand before
/// the first that is found.
fn first_cover<B: RuleBook>(
    book: &B,
    tour: &Tour,
    layers: &Layers<B::State>,
    ahead_end: usize,
    label: &Label<B::State>,
) -> Option<u32>
    requires tour { IsTour tour.now }
    requires some { 0 < length layers.now }
    requires layer { AreStatesAt (state_at tour.now (B.machine book.now)) (last_step layers.now) (labels_of (last_layer layers.now)) }
    requires label { (B.machine book.now).is_state label.now.state (minute_of tour.now (last_step layers.now)) }
    requires ahead { AreAheadBelow (B.machine book.now).ahead ahead_end (last_layer layers.now) }
    ensures { IsCoverSought (problem_of tour.now (B.machine book.now)) (last_step layers.now) (labels_of (last_layer layers.now)) label.now result }
{
    let step = layers.depth() - 1;
    let mut before = layers.layer(step);
    let mut first = None;
    let own = label.progress as usize;
    let end = ahead_end.max(own + 1).min(layers.progress_end());
    for progress in own..end {
        let progress = progress as u32;
        let places = layers.places(progress);
        if places.is_empty() || !may_keep_up(tour, progress, label.progress) {
            continue;
        }
        if let Some(place) = first_among(book, tour, before, places, label, step) {
            before = &before[..place as usize];
            first = Some(place);
        }
    }
    first
}

/// Offers a label to the last layer: it is added at its end, unless one that is there is better.
/// Labels that are there stay. Where memory is refused, nothing changes.
pub fn offer<B: RuleBook>(
    book: &B,
    tour: &Tour,
    layers: &mut Layers<B::State>,
    kept: Kept<B::State>,
) -> Result<Offered, NoMemory>
    requires tour { IsTour tour.now }
    requires params { (B.machine book.now).params ≡ tour.now.params }
    requires some { 0 < length layers.old }
    requires room { label_count layers.old < LAYER_LIMIT }
    requires layer { AreStatesAt (state_at tour.now (B.machine book.now)) (last_step layers.old) (labels_of (last_layer layers.old)) }
    requires label { (B.machine book.now).is_state kept.label.state (minute_of tour.now (last_step layers.old)) }
    ensures offered { IfOk result (IsOffered (problem_of tour.now (B.machine book.now)) layers.old kept layers.new) }
    ensures err { OnErr result (layers.new ≡ layers.old) }
{
    let mut ahead_end = layers.progress_end();
    offer_to(book, tour, layers, &mut ahead_end, kept)
}

/// The same, where the caller keeps a number beside the last layer that is above the progress of
/// each of its labels whose state is ahead: no others can stand for one that has done less, so where
/// no state is ahead, only labels that have done as much are looked at. A new layer's number is 0.
pub fn offer_to<B: RuleBook>(
    book: &B,
    tour: &Tour,
    layers: &mut Layers<B::State>,
    ahead_end: &mut usize,
    kept: Kept<B::State>,
) -> Result<Offered, NoMemory>
    requires tour { IsTour tour.now }
    requires params { (B.machine book.now).params ≡ tour.now.params }
    requires some { 0 < length layers.old }
    requires room { label_count layers.old < LAYER_LIMIT }
    requires layer { AreStatesAt (state_at tour.now (B.machine book.now)) (last_step layers.old) (labels_of (last_layer layers.old)) }
    requires label { (B.machine book.now).is_state kept.label.state (minute_of tour.now (last_step layers.old)) }
    requires ahead { AreAheadBelow (B.machine book.now).ahead ahead_end.old (last_layer layers.old) }
    ensures offered { IfOk result (IsOffered (problem_of tour.now (B.machine book.now)) layers.old kept layers.new) }
    ensures err { OnErr result (layers.new ≡ layers.old) }
    ensures ahead { AreAheadBelow (B.machine book.now).ahead ahead_end.new (last_layer layers.new) }
{
    if let Some(index) = first_cover(book, tour, layers, *ahead_end, &kept.label) {
        return Ok(Offered::Covered { index });
    }
    let end = if book.ahead(&kept.label.state) {
        kept.label.progress as usize + 1
    } else {
        0
    };
    layers.keep(kept)?;
    *ahead_end = end.max(*ahead_end);
    Ok(Offered::Kept)
}
