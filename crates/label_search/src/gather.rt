//! The labels that are offered to a layer.
ghost use Rattle.std.specs.Prelude.{◌≡◌, ℕ, ◌+◌, ◌^◌, ◌<◌, ◌≤◌, List, length, IfOk, OnOk};
ghost use Rattle.rule_core.specs.Replay.{AreRootStates};
ghost use Rattle.tour_model.specs.declared.limits.TheConstants.{STEP_LIMIT};
ghost use Rattle.tour_model.specs.Tour.{IsTour};
ghost use Rattle.tour_model.specs.Word.{word_length};
ghost use Rattle.label_state.specs.declared.layers.TheConstants.{LAYER_LIMIT};
ghost use Rattle.cert_text.specs.CoverLists.Problem.{successors_of};
ghost use Rattle.cert_text.specs.CoverLists.Planning.{problem_of, state_at};
ghost use Rattle.cert_text.specs.CoverLists.Cover.{IsLabelAt};
ghost use Rattle.label_search.specs.Sound.{AreOrdered};
ghost use Rattle.label_search.specs.Searching.{AreLabelsAt, Gathers, AreGathered, AreFirst};

use crate::order::put_in_order;
use cert_text::is_pruned;
use duty_core::{Activity, NoMemory};
use label_extend::{Grown, successors};
use label_state::{Kept, Label, Place};
use rule_core::{Root, RuleBook};
use std::alloc::Global;
use tour_model::Tour;

/// A label that grows, and its place: the step of its layer, and where it stands there.
#[derive(Drop)]
struct Parent<'a, S> {
    place: Place,
    label: &'a Label<S>,
}

/// Adds the successors of the label that are not pruned.
fn gather_from<B: RuleBook>(
    alloc: Global,
    book: &B,
    tour: &Tour,
    limit: Option<u32>,
    parent: Parent<'_, B::State>,
    list: &mut Vec<Kept<B::State>>,
) -> Result<(), NoMemory>
    requires tour { IsTour tour.now }
    requires params { (B.machine book.now).params ≡ tour.now.params }
    requires label { IsLabelAt (state_at tour.now (B.machine book.now)) (word_length tour.now) parent.place.layer parent.label.now }
    requires step { parent.place.layer + 1 < STEP_LIMIT }
    ensures ok { OnOk result (Gathers (problem_of tour.now (B.machine book.now)) limit (parent.entry.place.layer + 1) parent.entry.place.index
        (successors_of (problem_of tour.now (B.machine book.now)) parent.entry.place.layer parent.entry.label.now) list.old.items list.new.items) }
{
    let Place { layer: step, index } = parent.place;
    for grown in successors(alloc, book, tour, parent.label, step)?.into_vec() {
        let Grown { label, act, mark } = grown;
        let eta = tour.eta(step + 1, label.progress);
        if !is_pruned(limit, label.depart, eta) {
            list.push(Kept {
                label,
                parent: index,
                act,
                mark,
            })?;
        }
    }
    Ok(())
}

/// The successors of the labels of this step's layer that are not pruned, in the order in which
/// they are offered to the next one.
pub fn gather<B: RuleBook>(
    alloc: Global,
    book: &B,
    tour: &Tour,
    limit: Option<u32>,
    step: u32,
    layer: &[Kept<B::State>],
) -> Result<Vec<Kept<B::State>>, NoMemory>
    requires tour { IsTour tour.now }
    requires params { (B.machine book.now).params ≡ tour.now.params }
    requires layer { AreLabelsAt (state_at tour.now (B.machine book.now)) (word_length tour.now) step layer.now }
    requires size { length layer.now ≤ LAYER_LIMIT }
    requires step { step + 1 < STEP_LIMIT }
    ensures gathered { IfOk result (λ list. AreGathered (problem_of tour.now (B.machine book.now)) limit step layer.now list.items) }
    ensures labels { IfOk result (λ list. AreLabelsAt (state_at tour.now (B.machine book.now)) (word_length tour.now) (step + 1) list.items) }
    ensures ordered { IfOk result (λ list. AreOrdered list.items) }
{
    let mut list = Vec::new(alloc);
    for (index, kept) in layer.iter().enumerate() {
        let place = Place {
            layer: step,
            index: index as u32,
        };
        let label = &kept.label;
        gather_from(alloc, book, tour, limit, Parent { place, label }, &mut list)?;
    }
    put_in_order(book, &mut list)?;
    Ok(list)
}

/// The labels of the roots, in their order.
pub fn root_labels<B: RuleBook>(
    alloc: Global,
    book: &B,
    tour: &Tour,
    roots: &[Root<B::State>],
) -> Result<Vec<Kept<B::State>>, NoMemory>
    requires roots { AreRootStates (B.machine book.now) tour.now.start roots.now }
    requires few { length roots.now < 2 ^ 32 }
    ensures first { IfOk result (λ list. AreFirst roots.now list.items) }
    ensures labels { IfOk result (λ list. AreLabelsAt (state_at tour.now (B.machine book.now)) (word_length tour.now) 0 list.items) }
    ensures ordered { IfOk result (λ list. AreOrdered list.items) }
{
    let _ = tour;
    let mut list = Vec::new(alloc);
    for (index, root) in roots.iter().enumerate() {
        let label = Label {
            depart: None,
            progress: 0,
            state: book.copy(&root.state)?,
        };
        list.push(Kept {
            label,
            parent: index as u32,
            act: Activity::Off,
            mark: None,
        })?;
    }
    Ok(list)
}
