//! How far the work has come since a base.
ghost use Rattle.std.specs.Prelude.{◌≡◌, ◌+◌, ◌-◌, ◌*◌, ◌<◌, ◌≤◌, true};
ghost use Rattle.rest_bound.specs.declared.limits.TheConstants.{STEP_LIMIT};
ghost use Rattle.rest_bound.specs.Ends.{share, fresh_walk, walked, streak_after};
ghost use Rattle.rest_bound.specs.CanEnd.{walk_from};
ghost use Rattle.rest_bound.specs.Table.{streak_at};

use crate::counts::Counts;
use crate::limits::Limits;
use crate::tour::Tour;

/// Where the work has come since a base, and what the base leaves. Lengths are in steps.
#[derive(Clone, Copy, Debug, PartialEq, Eq)]
pub struct Walk {
    /// The step from which the next piece may be done.
    pub at: u32,
    /// The step by which driving has ended, but for a split rest that does not count.
    pub latest: u32,
    /// The driving that is left.
    pub left: u32,
    /// The idle steps since the base, with the run of rest that was in progress.
    pub idle: u32,
    /// The driving since the last step of anything else.
    pub streak: u32,
}

/// The walk from a full rest that is over at this step.
pub(crate) fn walk_afresh(limits: Limits, step: u32) -> Walk
    requires step { step ≤ STEP_LIMIT }
    requires elapsed { limits.elapsed < STEP_LIMIT }
    ensures { result ≡ fresh_walk limits step }
{
    Walk {
        at: step,
        latest: step + limits.elapsed,
        left: limits.driving,
        idle: 0,
        streak: 0,
    }
}

/// The walk from these counts at this step, where so much time and driving count since the base.
pub(crate) fn walk_of(limits: Limits, step: u32, counts: Counts, elapsed: u32, driving: u32) -> Walk
    requires step { step < STEP_LIMIT }
    requires elapsed { limits.elapsed < STEP_LIMIT }
    ensures { result ≡ walk_from limits step counts elapsed driving }
{
    Walk {
        at: step,
        latest: (step + limits.elapsed).saturating_sub(elapsed),
        left: limits.driving.saturating_sub(driving),
        idle: counts.run,
        streak: counts.streak,
    }
}

/// The driving in a row after the piece is done at this step.
fn streak_of<T: Tour>(tour: &T, piece: usize, walk: Walk, step: u32) -> u32
    requires { (T.plan tour.now).drives piece ≡ true → streak_at walk step < STEP_LIMIT }
    ensures { result ≡ streak_after (T.plan tour.now) piece (streak_at walk step) }
{
    if !tour.drives(piece) {
        return 0;
    }
    let before = if walk.at < step { 0 } else { walk.streak };
    before + 1
}

/// The driving that is left after the piece.
fn left_after<T: Tour>(tour: &T, piece: usize, left: u32) -> u32
    ensures { result ≡ left - share (T.plan tour.now) piece }
{
    if tour.drives(piece) {
        left.saturating_sub(1)
    } else {
        left
    }
}

/// The walk after the piece is done at this step.
pub(crate) fn walk_on<T: Tour>(tour: &T, piece: usize, walk: Walk, step: u32) -> Walk
    requires later { walk.at ≤ step }
    requires step { step < STEP_LIMIT }
    requires idle { walk.idle + (step - walk.at) < 3 * STEP_LIMIT }
    requires streak { (T.plan tour.now).drives piece ≡ true → streak_at walk step < STEP_LIMIT }
    ensures { result ≡ walked (T.plan tour.now) piece walk step (streak_at walk step) }
{
    Walk {
        at: step + 1,
        latest: walk.latest,
        left: left_after(tour, piece, walk.left),
        idle: walk.idle + (step - walk.at),
        streak: streak_of(tour, piece, walk, step),
    }
}
