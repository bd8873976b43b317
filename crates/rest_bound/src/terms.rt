//! The walk that finds the least end from a base.
ghost use Rattle.std.specs.Prelude.{◌≡◌, ℕ, ◌+◌, ◌-◌, ◌*◌, ◌<◌, ◌≤◌, length, IfSome, true};
ghost use Rattle.rest_bound.specs.declared.limits.TheConstants.{STEP_LIMIT};
ghost use Rattle.rest_bound.specs.Ends.{Ends};
ghost use Rattle.rest_bound.specs.Runs.{AtMost};
ghost use Rattle.rest_bound.specs.Table.{IsLeast, IsSmallMode, IsWithRest, AreRows};

use crate::begin::begin_of;
use crate::ends::sooner_end;
use crate::mode::{Mode, close_step};
use crate::table::{Table, fresh_end};
use crate::tour::Tour;
use crate::walk::{Walk, walk_on};

/// What a walk goes by: the table as far as it is filled, the tour, and how the base may be left.
#[derive(Drop)]
pub(crate) struct Terms<'a, T> {
    pub(crate) table: &'a Table,
    pub(crate) tour: &'a T,
    pub(crate) mode: Mode,
}

impl<'a, T: Tour> Terms<'a, T> {
    /// The first step before the horizon, not before `from`, at which the piece may be done.
    pub(crate) fn next_open(&self, piece: usize, from: u32) -> Option<u32>
        ensures opened { IfSome result (λ step. (T.plan self.now.tour.now).opens piece step ≡ true) }
        ensures later { IfSome result (λ step. from ≤ step) }
        ensures within { IfSome result (λ step. step < self.now.table.now.horizon) }
        ensures first { (step : ℕ) → (T.plan self.now.tour.now).opens piece step ≡ true → from ≤ step → step < self.now.table.now.horizon → AtMost result step }
    {
        match self.tour.next_open(piece, from) {
            Some(step) if step < self.table.horizon => Some(step),
            _ => None,
        }
    }

    /// The sooner of an end and of the least one by a full rest before the piece that is over at
    /// this step, where the driver may idle there.
    pub(crate) fn with_rest(&self, piece: usize, step: u32, best: Option<u32>) -> Option<u32>
        requires piece { piece ≤ self.now.table.now.pieces }
        requires filled { self.now.table.now.pieces - piece < length self.now.table.now.rows.items }
        requires rows { AreRows (T.plan self.now.tour.now) self.now.table.now }
        ensures { IsWithRest (T.plan self.now.tour.now) self.now.table.now.limits (self.now.table.now.pieces - piece) piece step self.now.table.now.horizon best result }
    {
        if self.tour.idles(piece) {
            sooner_end(best, fresh_end(self.table, self.tour, piece, step))
        } else {
            best
        }
    }

    /// The least end of the pieces from this one on from a walk: each piece is begun as early as may
    /// be, and after each the base may be closed.
    pub(crate) fn walk_end(&self, piece: usize, start: Walk) -> Option<u32>
        requires piece { piece ≤ self.now.table.now.pieces }
        requires filled { self.now.table.now.pieces - piece ≤ length self.now.table.now.rows.items }
        requires rows { AreRows (T.plan self.now.tour.now) self.now.table.now }
        requires mode { IsSmallMode self.now.mode }
        requires horizon { self.now.table.now.horizon < STEP_LIMIT }
        requires at { start.at ≤ self.now.table.now.horizon }
        requires latest { start.latest < 3 * STEP_LIMIT }
        requires idle { start.idle < STEP_LIMIT }
        ensures { IsLeast (Ends (T.plan self.now.tour.now) self.now.table.now.limits self.now.mode (self.now.table.now.pieces - piece) piece start) self.now.table.now.horizon result }
    {
        let mut best = None;
        let mut walk = start;
        for next in piece..self.table.pieces {
            match begin_of(self, next, walk) {
                None => return best,
                Some(begin) => {
                    walk = walk_on(self.tour, next, walk, begin);
                    best = self.with_rest(next + 1, close_step(self.mode, walk), best);
                }
            }
        }
        sooner_end(best, Some(walk.at))
    }
}
