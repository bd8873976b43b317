//! What holds of every schedule of a tour. The functions do nothing: their clauses are the laws.
ghost use Rattle.std.specs.Prelude.{◌≡◌, ℕ, ◌+◌, ◌*◌, ◌<◌, ◌≤◌, true, List, length, All, Some};
ghost use Rattle.duty_core.specs.declared.activity.Activity.{Activity};
ghost use Rattle.duty_core.specs.declared.limits.TheConstants.{LONGEST_HISTORY, LONGEST_LOG};
ghost use Rattle.duty_core.specs.Params.{allows, unit_minutes};
ghost use Rattle.tour_model.specs.declared.limits.TheConstants.{LONGEST_TOUR};
ghost use Rattle.tour_model.specs.Tour.{IsTour};
ghost use Rattle.tour_model.specs.Word.{word_length, may_do};
ghost use Rattle.tour_model.specs.Way.{done, done_after, GoesFrom};
ghost use Rattle.tour_model.specs.Eta.{eta_of};
ghost use Rattle.tour_model.specs.Schedule.{ServesTour, history_of};

use crate::tour::Tour;

/// A schedule serves a tour exactly where the tour allows its activities one after the other, from
/// its start to the end of its word, and the book allows them in a schedule. Then it is no longer
/// than the longest tour, and with a log before it no longer than the longest history.
pub fn serves_by_steps(tour: &Tour)
    requires { IsTour tour.now }
    ensures goes { (xs : List Activity) → ServesTour tour.now xs → GoesFrom tour.now 0 0 xs }
    ensures finishes { (xs : List Activity) → ServesTour tour.now xs → done_after 0 xs ≡ word_length tour.now }
    ensures serves { (xs : List Activity) → GoesFrom tour.now 0 0 xs → done_after 0 xs ≡ word_length tour.now →
        All (λ x. allows tour.now.params x ≡ true) xs → ServesTour tour.now xs }
    ensures short { (xs : List Activity) → ServesTour tour.now xs → length xs * tour.now.grid ≤ LONGEST_TOUR }
    ensures history { (log xs : List Activity) → unit_minutes tour.now.params * length log ≤ LONGEST_LOG →
        ServesTour tour.now xs → length (history_of tour.now log xs) ≤ LONGEST_HISTORY }
{
    let _ = tour;
}

/// At full progress a tour has ended, and what can be finished after an allowed activity could be
/// finished before it, and no later.
pub fn ends_by_steps(tour: &Tour)
    ensures full { (step : ℕ) → eta_of tour.now step (word_length tour.now) ≡ Some step }
    ensures before { (step progress : ℕ) (x : Activity) (e : ℕ) → may_do tour.now step progress x ≡ true →
        eta_of tour.now (step + 1) (done progress x) ≡ Some e →
        (d : ℕ) × (eta_of tour.now step progress ≡ Some d) × (d ≤ e) }
{
    let _ = tour;
}
