//! The best of the finished labels.
ghost use Rattle.std.specs.Prelude.{◌≡◌, ℕ, ◌+◌, ◌<◌, ◌≤◌, length};
ghost use Rattle.label_state.specs.declared.layers.TheConstants.{LAYER_LIMIT};
ghost use Rattle.label_search.specs.Searching.{IsBestOf, IsBestWith, is_below};

use label_state::{Kept, Label, Place};

/// The number of steps that a duration has to stay below, None for no bound; and the place of the
/// finished label that has this duration, where one is found.
#[derive(Clone, Copy, Debug, PartialEq, Eq)]
pub struct Best {
    pub limit: Option<u32>,
    pub place: Option<Place>,
}

/// Whether the duration stays below the limit.
fn is_below(takes: u32, limit: Option<u32>) -> bool
    ensures { result ≡ is_below takes limit }
{
    match limit {
        None => true,
        Some(limit) => takes < limit,
    }
}

/// The best of these and this label, where it is finished.
fn best_with<S>(goal: u32, label: &Label<S>, place: Place, best: Best) -> Best
    ensures { IsBestWith goal label.now place best result }
{
    if label.progress != goal {
        return best;
    }
    let takes = place.layer.saturating_sub(label.depart.unwrap_or(0));
    if !is_below(takes, best.limit) {
        return best;
    }
    Best {
        limit: Some(takes),
        place: Some(place),
    }
}

/// The best of these and the finished labels of this step's layer. Among equal ones the first found
/// stays.
pub fn best_of<S>(goal: u32, layer: &[Kept<S>], step: u32, best: Best) -> Best
    requires { length layer.now ≤ LAYER_LIMIT }
    ensures { IsBestOf goal step layer.now best result }
{
    let mut found = best;
    for (index, kept) in layer.iter().enumerate() {
        let place = Place {
            layer: step,
            index: index as u32,
        };
        found = best_with(goal, &kept.label, place, found);
    }
    found
}
