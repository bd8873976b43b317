//! The search by layers.
ghost use Rattle.std.specs.Prelude.{◌≡◌, ℕ, ◌+◌, ◌*◌, ◌^◌, ◌<◌, ◌≤◌, List, length, IfOk};
ghost use Rattle.duty_core.specs.declared.activity.Activity.{Activity};
ghost use Rattle.duty_core.specs.declared.limits.TheConstants.{LONGEST_LOG};
ghost use Rattle.duty_core.specs.Params.{unit_minutes};
ghost use Rattle.rule_core.specs.Replay.{AreRootStates, AreRootsOf};
ghost use Rattle.tour_model.specs.Layer.{layer_at};
ghost use Rattle.tour_model.specs.Schedule.{log_start};
ghost use Rattle.tour_model.specs.Tour.{IsTour};
ghost use Rattle.cert_text.specs.CoverLists.Planning.{problem_of, state_at, IsLogState};
ghost use Rattle.label_search.specs.Sound.{IsFirstLayer, IsSound};
ghost use Rattle.label_search.specs.Searched.{layers_of, IsAnswer, IsWithin};
ghost use Rattle.label_search.specs.Searching.{ended_by};
ghost use Rattle.cert_text.specs.declared.text.limits.TheConstants.{MOST_LABELS};

use crate::best::{Best, best_of};
use crate::fill::add_layer;
use crate::gather::{gather, root_labels};
use crate::guess::first_limit;
use crate::terms::Terms;
use duty_core::NoMemory;
use label_state::{Layers, Place};
use rule_core::{Root, RuleBook};
use std::alloc::Global;
use tour_model::Tour;

/// What a search found.
#[derive(Drop)]
pub enum Searched<S> {
    /// The label at this place is finished, and no solution takes less than it does.
    Found { layers: Layers<S>, place: Place },
    /// There is no solution.
    Never { layers: Layers<S> },
    /// The budget of labels was spent before either was known.
    Spent { layers: Layers<S> },
}

/// What was found where no label is left to grow.
fn ended<S>(layers: Layers<S>, place: Option<Place>) -> Searched<S>
    ensures { result ≡ ended_by place layers }
{
    match place {
        None => Searched::Never { layers },
        Some(place) => Searched::Found { layers, place },
    }
}

/// Searches for a shortest schedule of the tour, layer by layer, with at most `budget` labels, from
/// 1 to 500,000. The roots are what a log leaves that ends at the tour's start.
///
/// In every answer the first layer has the labels of the roots in their order, but for those than
/// which an earlier one is better, and for those that come after the budget is spent. Each label was
/// reached from a root through its parents, no label has an earlier better one in its layer, none is
/// bound to take as long as one that was finished in an earlier layer, and each layer after the first
/// has the labels that have not departed first and the others by falling departure and falling
/// progress. `Found` and `Never` hold fewer labels than the budget, and `Spent` as many. For each log
/// that leaves these roots: `Found` names a finished label, the path to which is a shortest schedule,
/// and `Never` comes only where there is none; the layers prove it. `Spent` comes only where there are
/// as many labels, and what it leaves out in a layer before the last is dominated by a solution or by a
/// label that it holds.
pub fn search<B: RuleBook>(
    alloc: Global,
    book: &B,
    tour: &Tour,
    roots: &[Root<B::State>],
    budget: u32,
) -> Result<Searched<B::State>, NoMemory>
    requires tour { IsTour tour.now }
    requires params { (B.machine book.now).params ≡ tour.now.params }
    requires roots { AreRootStates (B.machine book.now) tour.now.start roots.now }
    requires few { length roots.now < 2 ^ 32 }
    requires some { 1 ≤ budget }
    requires most { budget ≤ MOST_LABELS }
    ensures sound { IfOk result (λ s. IsSound (problem_of tour.now (B.machine book.now)) roots.now (layers_of s)) }
    ensures first { IfOk result (λ s. IsFirstLayer (problem_of tour.now (B.machine book.now)) roots.now budget (layer_at (layers_of s) 0)) }
    ensures within { IfOk result (IsWithin budget) }
    ensures answer { IfOk result (λ s. (log : List Activity) → unit_minutes tour.now.params * length log ≤ LONGEST_LOG →
        AreRootsOf (unit_minutes tour.now.params) (B.machine book.now) (log_start tour.now log) log roots.now →
        IsAnswer (problem_of tour.now (B.machine book.now)) (state_at tour.now (B.machine book.now)) tour.now log
        (IsLogState tour.now log (B.machine book.now)) roots.now budget s) }
{
    let goal = tour.word_len();
    let terms = Terms {
        alloc,
        book,
        tour,
        roots,
    };
    let mut best = Best {
        limit: first_limit(&terms, budget)?,
        place: None,
    };
    let mut layers = Layers::new(alloc);
    let first = root_labels(alloc, book, tour, roots)?;
    add_layer(alloc, book, tour, budget, first, &mut layers)?;
    let mut step = 0;
    while layers.kept() < budget {
        let next = gather(alloc, book, tour, best.limit, step, layers.layer(step))?;
        if next.is_empty() {
            return Ok(ended(layers, best.place));
        }
        add_layer(alloc, book, tour, budget, next, &mut layers)?;
        step += 1;
        best = best_of(goal, layers.layer(step), step, best);
    }
    Ok(Searched::Spent { layers })
}
