//! The bound on the end of a label, and its laws.
ghost use Rattle.std.specs.Prelude.{◌≡◌, ℕ, ◌≤◌, Bool, Option, Some, Contains};
ghost use Rattle.duty_core.specs.declared.limits.TheConstants.{US_UNBROKEN_LIMIT};
ghost use Rattle.duty_core.specs.declared.params.Params.TheVariants.{UsProperty};
ghost use Rattle.duty_core.specs.Params.{allows};
ghost use Rattle.sleeper_split.specs.Machine.{IsSplitCount};
ghost use Rattle.us_rules.specs.declared.state.UsState.{UsState};
ghost use Rattle.us_rules.specs.Book.{us_book};
ghost use Rattle.tour_model.specs.declared.tour.Tour.{Tour as ATour};
ghost use Rattle.tour_model.specs.declared.label.Label.{Label};
ghost use Rattle.tour_model.specs.Tour.{IsTour};
ghost use Rattle.tour_model.specs.Word.{word_of, word_length};
ghost use Rattle.cert_text.specs.CoverLists.Bound.{ObeysBound};
ghost use Rattle.cert_text.specs.CoverLists.Planning.{problem_of, state_at};
ghost use Rattle.cert_text.specs.CoverLists.Laws.ProblemLaws.{IsBound};
ghost use Rattle.rest_bound.specs.Runs.{AreLimits};
ghost use Rattle.rest_bound.specs.Table.{IsTable};
ghost use Rattle.tour_model.specs.declared.limits.TheConstants.{GRIDS};
ghost use Rattle.us_bound.specs.Projection.{limits_of};
ghost use Rattle.us_bound.specs.Work.{plan_by};
ghost use Rattle.us_bound.specs.LabelEnd.{IsLabelEnd, IsShiftBound};
ghost use Rattle.us_bound.specs.ShiftBound.{later_bound, shift_bound};
ghost use Rattle.us_bound.specs.Laws.StepCounts.{last_step};

use crate::counts::state_counts;
use crate::tour_work::TourWork;
use rest_bound::{Table, Tour, bound};
use us_rules::UsState;

/// A step before which nothing that grows from a label ends, where the label has this progress and
/// state at this step: the least end up to the table's horizon that its counts leave open, else the
/// first step after it, or this step if that is later.
#[tactic(auto, using(crate::proofs::EndLaws::astray, crate::proofs::EndLaws::some_end, crate::proofs::EndLaws::no_end, crate::proofs::EndLaws::counts_there, crate::proofs::EndLaws::grid_some, crate::proofs::EndLaws::grid_few))]
pub fn label_end(
    table: &Table,
    work: &TourWork<'_>,
    progress: u32,
    step: u32,
    state: &UsState,
) -> u32
    requires grid { Contains GRIDS work.now.tour.now.grid }
    requires work { work.now.pieces.items ≡ word_of work.now.tour.now }
    requires table { IsTable (plan_by work.now.pieces.items work.now.tour.now) table.now }
    requires limits { AreLimits table.now.limits }
    requires pieces { table.now.pieces ≡ word_length work.now.tour.now }
    requires progress { progress ≤ word_length work.now.tour.now }
    requires split { IsSplitCount state.now.split }
    requires driven { state.now.rest_break.driven ≤ US_UNBROKEN_LIMIT }
    ensures least { (berth : Bool) → table.now.limits ≡ limits_of berth work.now.tour.now.grid →
        IsLabelEnd work.now.tour.now berth table.now.horizon step progress state.now result }
    ensures value { (berth : Bool) → table.now.limits ≡ limits_of berth work.now.tour.now.grid →
        shift_bound work.now.tour.now berth table.now.horizon step progress state.now ≡ Some result }
{
    let piece = progress as usize;
    if state.split.run().long > 0 && !work.idles(piece) {
        return step;
    }
    let counts = state_counts(state, work.grid());
    match bound(table, work, piece, step, counts) {
        Some(end) => end,
        None => step.max(table.horizon + 1),
    }
}

/// A bound of labels by the limits of a shift is a bound of the tour's search by the rule book of the
/// United States: a finished label ends at its step, and no lawful step lowers the bound. This
/// holds of each function that gives such a bound, and so of `shift_bound`; and of the
/// later of it and the earliest end with no rules.
pub fn bound_law()
    ensures each { (tour : ATour) (berth : Bool) (days day_start horizon : ℕ) (bound : ℕ → Label UsState → Option ℕ) → IsTour tour → tour.params ≡ UsProperty berth days day_start →
        horizon ≤ last_step → IsShiftBound tour berth horizon bound →
        IsBound (problem_of tour (us_book berth days day_start)) (state_at tour (us_book berth days day_start)) (allows tour.params) bound }
    ensures obeys { (tour : ATour) (berth : Bool) (days day_start horizon : ℕ) → IsTour tour → tour.params ≡ UsProperty berth days day_start →
        horizon ≤ last_step → ObeysBound tour (us_book berth days day_start) (shift_bound tour berth horizon) }
    ensures later { (tour : ATour) (berth : Bool) (days day_start horizon : ℕ) → IsTour tour → tour.params ≡ UsProperty berth days day_start →
        horizon ≤ last_step → ObeysBound tour (us_book berth days day_start) (later_bound tour berth horizon) }
{}
