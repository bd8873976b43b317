//! The bound by the limits of a shift put together with the earliest end.
ghost use Rattle.us_bound.specs.LaterBounds.{later_bounds};

use crate::ends::label_end;
use crate::tour_work::TourWork;
use cert_text::LabelBound;
use rest_bound::Table;
use us_rules::UsState;

/// The later of a label's earliest end with no rules and its bound by the limits of a shift, from the
/// table of its tour.
#[derive(Drop)]
pub struct LaterBound<'a> {
    pub table: &'a Table,
    pub work: &'a TourWork<'a>,
    /// Whether the truck has a berth; the code does not read it, its contract does.
    pub berth: bool,
}

impl LabelBound<UsState> for LaterBound<'_> {
    ghost bounds = { λ b. later_bounds b.work.now.tour.now b.berth b.work.now.pieces.items b.table.now };

    fn early(&self, step: u32, progress: u32) -> Option<u32> {
        self.work.tour.eta(step, progress)
    }

    fn bound(&self, step: u32, progress: u32, state: &UsState, early: Option<u32>) -> Option<u32> {
        let end = label_end(self.table, self.work, progress, step, state);
        match early {
            Some(early) => Some(early.max(end)),
            None => None,
        }
    }
}
