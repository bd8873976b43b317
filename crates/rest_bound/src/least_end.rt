//! The bound on the end of a tour from a driver's counts.
ghost use Rattle.std.specs.Prelude.{◌≡◌, ℕ, ◌-◌, ◌*◌, ◌<◌, ◌≤◌, List};
ghost use Rattle.rest_bound.specs.declared.limits.TheConstants.{STEP_LIMIT};
ghost use Rattle.rest_bound.specs.declared.counts.Deed.{Deed};
ghost use Rattle.rest_bound.specs.CanEnd.{EndsBy, CanEnd};
ghost use Rattle.rest_bound.specs.Runs.{AtMost, Reaches, AreCounts, AreLimits};
ghost use Rattle.rest_bound.specs.Table.{IsLeast, IsSmallMode, IsTable};

use crate::counts::Counts;
use crate::ends::later_end;
use crate::mode::{Mode, close_run_step, mode_credit, mode_open};
use crate::table::{Table, fresh_end};
use crate::terms::Terms;
use crate::tour::Tour;
use crate::walk::{Walk, walk_of};

/// The least end from the counts of a base, while the run of rest in progress is no full one: by
/// going on, or by going on with the rest until it closes the base.
fn end_by<T: Tour>(table: &Table, tour: &T, mode: Mode, piece: usize, walk: Walk) -> Option<u32>
    requires table { IsTable (T.plan tour.now) table.now }
    requires piece { piece ≤ table.now.pieces }
    requires mode { IsSmallMode mode }
    requires at { walk.at ≤ table.now.horizon }
    requires latest { walk.latest < 3 * STEP_LIMIT }
    requires idle { walk.idle < STEP_LIMIT }
    ensures { IsLeast (EndsBy (T.plan tour.now) table.now.limits mode (table.now.pieces - piece) piece walk) table.now.horizon result }
{
    let terms = Terms { table, tour, mode };
    let best = terms.walk_end(piece, walk);
    terms.with_rest(piece, close_run_step(mode, walk), best)
}

/// The least end that a driver's counts leave open, with the pieces of the tour's work from this one
/// on to come, at this step: no lawful continuation ends before it. None: none ends by the horizon.
pub fn bound<T: Tour>(
    table: &Table,
    tour: &T,
    piece: usize,
    step: u32,
    counts: Counts,
) -> Option<u32>
    requires table { IsTable (T.plan tour.now) table.now }
    requires limits { AreLimits table.now.limits }
    requires piece { piece ≤ table.now.pieces }
    requires counts { AreCounts (T.plan tour.now) piece counts }
    ensures least { IsLeast (CanEnd (T.plan tour.now) table.now.limits (table.now.pieces - piece) piece step counts) table.now.horizon result }
    ensures lawful { (deeds : List Deed) (e : ℕ) → Reaches (T.plan tour.now) table.now.limits deeds (table.now.pieces - piece) piece step counts e →
        e ≤ table.now.horizon → AtMost result e }
{
    if step > table.horizon {
        return None;
    }
    let limits = table.limits;
    if counts.run >= limits.full_rest {
        return fresh_end(table, tour, piece, step);
    }
    let walk = walk_of(limits, step, counts, counts.since, counts.driven);
    let end = end_by(table, tour, mode_open(limits), piece, walk);
    match counts.waiting {
        None => end,
        Some(waiting) => {
            let walk = walk_of(limits, step, counts, counts.elapsed, counts.driving);
            let paired = end_by(table, tour, mode_credit(limits, waiting), piece, walk);
            later_end(end, paired)
        }
    }
}
