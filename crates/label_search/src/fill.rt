//! How a layer is filled.
ghost use Rattle.std.specs.Prelude.{◌≡◌, ℕ, ◌+◌, ◌-◌, ◌<◌, ◌≤◌, List, length, OnOk};
ghost use Rattle.tour_model.specs.Tour.{IsTour};
ghost use Rattle.tour_model.specs.Word.{word_length};
ghost use Rattle.label_state.specs.declared.layers.TheConstants.{LAYER_LIMIT};
ghost use Rattle.label_state.specs.Layers.{label_count};
ghost use Rattle.cert_text.specs.CoverLists.Planning.{problem_of, state_at};
ghost use Rattle.label_search.specs.Sound.{AreOrdered};
ghost use Rattle.label_search.specs.Searching.{AreLabelsAt, AddsLayer};

use duty_core::NoMemory;
use label_dominance::offer_to;
use label_state::{Kept, Layers};
use rule_core::RuleBook;
use std::alloc::Global;
use tour_model::Tour;

/// Adds a layer, and offers these labels to it in their order, until the layers hold as many labels
/// as the budget allows.
pub fn add_layer<B: RuleBook>(
    alloc: Global,
    book: &B,
    tour: &Tour,
    budget: u32,
    list: Vec<Kept<B::State>>,
    layers: &mut Layers<B::State>,
) -> Result<(), NoMemory>
    requires tour { IsTour tour.now }
    requires params { (B.machine book.now).params ≡ tour.now.params }
    requires labels { AreLabelsAt (state_at tour.now (B.machine book.now)) (word_length tour.now) (length layers.old) list.items }
    requires ordered { AreOrdered list.items }
    requires depth { length layers.old < LAYER_LIMIT }
    requires room { label_count layers.old ≤ budget }
    requires budget { budget ≤ LAYER_LIMIT }
    ensures ok { OnOk result (AddsLayer (problem_of tour.now (B.machine book.now)) budget list.items layers.old layers.new) }
{
    layers.push_layer(alloc)?;
    let mut ahead_end = 0;
    for kept in list {
        if layers.kept() >= budget {
            return Ok(());
        }
        offer_to(book, tour, layers, &mut ahead_end, kept)?;
    }
    Ok(())
}
