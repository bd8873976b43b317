//! Whether a layer has a better label.
ghost use Rattle.std.specs.Prelude.{◌≡◌, ◌==◌, ◌||◌, ◌<◌, ◌≤◌, length, take, Decides};
ghost use Rattle.tour_model.specs.declared.limits.TheConstants.{STEP_LIMIT};
ghost use Rattle.tour_model.specs.Tour.{IsTour};
ghost use Rattle.cert_text.specs.CoverLists.Problem.{can_wait_for, is_better};
ghost use Rattle.cert_text.specs.CoverLists.Planning.{problem_of, minute_of};
ghost use Rattle.cert_text.specs.CoverLists.Cover.{IsCovered};
ghost use Rattle.cert_checker.specs.Parsed.{there};
ghost use Rattle.cert_checker.specs.Terms.{AreCompared};
ghost use Rattle.cert_checker.specs.Places.{label_at, labels_at};

use crate::asked::Asked;
use crate::listing::Listing;
use crate::terms::Terms;
use cert_text::{departs_later, may_idle_after, minute_at};
use rule_core::RuleBook;
use tour_model::Label;

/// Whether the label has done as much as the one asked about, or can rest until that has.
fn keeps_up<B: RuleBook, K>(
    terms: &Terms<'_, B, K>,
    label: &Label<B::State>,
    asked: &Asked<'_, B::State>,
) -> bool
    requires { IsTour terms.now.tour.now }
    ensures { result ≡ (label.now.progress == asked.now.progress || can_wait_for (problem_of terms.now.tour.now (B.machine terms.now.book.now)) label.now asked.now) }
{
    label.progress == asked.progress
        || (asked.progress < label.progress
            && may_idle_after(terms.tour, label.progress)
            && terms.book.ahead(&label.state))
}

/// Whether the label is better than the one asked about.
fn is_better<B: RuleBook, K>(
    terms: &Terms<'_, B, K>,
    step: u32,
    label: &Label<B::State>,
    asked: &Asked<'_, B::State>,
) -> bool
    requires tour { IsTour terms.now.tour.now }
    requires label { (B.machine terms.now.book.now).is_state label.now.state (minute_of terms.now.tour.now step) }
    requires asked { (B.machine terms.now.book.now).is_state asked.now.state (minute_of terms.now.tour.now step) }
    requires step { step < STEP_LIMIT }
    ensures { result ≡ is_better (problem_of terms.now.tour.now (B.machine terms.now.book.now)) step label.now asked.now }
{
    departs_later(label.depart, asked.depart)
        && keeps_up(terms, label, asked)
        && terms
            .book
            .covers(&label.state, asked.state, minute_at(terms.tour, step))
}

/// Whether the label at this place is there, and is better than the one asked about.
fn is_better_at<B: RuleBook, K>(
    terms: &Terms<'_, B, K>,
    step: u32,
    labels: &[Option<Label<B::State>>],
    place: usize,
    asked: &Asked<'_, B::State>,
) -> bool
    requires { AreCompared terms.now (B.machine terms.now.book.now) step labels.now asked.now }
    ensures { Decides result (IsCovered (problem_of terms.now.tour.now (B.machine terms.now.book.now)) step (label_at labels.now place) asked.now) }
{
    if place >= labels.len() {
        return false;
    }
    match &labels[place] {
        None => false,
        Some(label) => is_better(terms, step, label, asked),
    }
}

/// Whether one of the labels at these places is better than the one asked about.
fn is_any_better<B: RuleBook, K>(
    terms: &Terms<'_, B, K>,
    step: u32,
    labels: &[Option<Label<B::State>>],
    places: &[usize],
    asked: &Asked<'_, B::State>,
) -> bool
    requires { AreCompared terms.now (B.machine terms.now.book.now) step labels.now asked.now }
    ensures { Decides result (IsCovered (problem_of terms.now.tour.now (B.machine terms.now.book.now)) step (labels_at labels.now places.now) asked.now) }
{
    for place in places {
        if is_better_at(terms, step, labels, *place, asked) {
            return true;
        }
    }
    false
}

/// Whether one of the first `count` labels of the layer is better than the one asked about. Those
/// that have done as much are looked at, and those that have done more.
pub fn is_covered_before<B: RuleBook, K>(
    terms: &Terms<'_, B, K>,
    step: u32,
    labels: &Listing<B::State>,
    count: usize,
    asked: &Asked<'_, B::State>,
) -> bool
    requires asked { AreCompared terms.now (B.machine terms.now.book.now) step labels.now asked.now }
    requires count { count ≤ length labels.now }
    ensures { Decides result (IsCovered (problem_of terms.now.tour.now (B.machine terms.now.book.now)) step (there (take count labels.now)) asked.now) }
{
    if count == 0 {
        return false;
    }
    let before = &labels.items()[..count];
    let first = asked.progress as usize;
    // From there on the lists come again.
    let end = first.saturating_add(labels.items().len());
    for progress in first..labels.progress_end().min(end) {
        let places = labels.places(progress);
        if is_any_better(terms, step, before, places, asked) {
            return true;
        }
    }
    false
}

/// Whether some label of the layer is better than the one asked about.
pub fn is_covered<B: RuleBook, K>(
    terms: &Terms<'_, B, K>,
    step: u32,
    labels: &Listing<B::State>,
    asked: &Asked<'_, B::State>,
) -> bool
    requires { AreCompared terms.now (B.machine terms.now.book.now) step labels.now asked.now }
    ensures { Decides result (IsCovered (problem_of terms.now.tour.now (B.machine terms.now.book.now)) step (there labels.now) asked.now) }
{
    let count = labels.items().len();
    is_covered_before(terms, step, labels, count, asked)
}
