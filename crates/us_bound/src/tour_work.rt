//! A tour's work, piece by piece.
ghost use Rattle.std.specs.Prelude.{◌≡◌, ℕ, ◌≤◌, true, IfSome, IfOk, slice_get};
ghost use Rattle.tour_model.specs.Tour.{IsTour};
ghost use Rattle.tour_model.specs.Word.{word_of, windows_at};
ghost use Rattle.tour_model.specs.Window.{first_within, earlier, first_open};
ghost use Rattle.rest_bound.specs.Ends.{Plan};
ghost use Rattle.rest_bound.specs.Runs.{AtMost};
ghost use Rattle.us_bound.specs.Work.{plan_by, first_step};

use duty_core::NoMemory;
use std::alloc::Global;
use tour_model::{Piece, Tour, Window};

/// A tour, as the bound reads it, with the pieces of its work one by one.
#[derive(Drop)]
pub struct TourWork<'a> {
    pub(crate) tour: &'a Tour,
    pieces: Vec<Piece>,
}

impl<'a> TourWork<'a> {
    /// The work of this tour.
    #[tactic(auto, using(crate::proofs::WorkLaws::take_more, crate::proofs::WorkLaws::take_whole))]
    pub fn new(alloc: Global, tour: &'a Tour) -> Result<TourWork<'a>, NoMemory>
        requires tour { IsTour tour.now }
        ensures tour { IfOk result (λ w. w.tour.now ≡ tour.now) }
        ensures pieces { IfOk result (λ w. w.pieces.items ≡ word_of tour.now) }
    {
        let mut pieces = Vec::new(alloc);
        for progress in 0..tour.word_len() {
            pieces.push(tour.word_at(progress))?;
        }
        Ok(TourWork { tour, pieces })
    }

    /// The minutes of a step.
    pub(crate) fn grid(&self) -> u32
        ensures { result ≡ self.now.tour.now.grid }
    {
        self.tour.grid
    }

    /// The first step from this one on at which the piece of this number may be done.
    fn first_step(&self, piece: usize, from: u32) -> Option<u32>
        ensures { result ≡ first_step (windows_at self.now.tour.now.stops) from (slice_get self.now.pieces.items piece) }
    {
        match self.pieces.get(piece) {
            Some(Piece::Drive { .. }) | Some(Piece::Serve { first: false, .. }) => Some(from),
            Some(&Piece::Serve { stop, first: true }) => self.opening(stop, from),
            None => None,
        }
    }

    /// The first step from this one on that lies in a window of the stop of this number.
    fn opening(&self, stop: u32, from: u32) -> Option<u32>
        ensures { result ≡ first_open (windows_at self.now.tour.now.stops stop) from }
    {
        match self.tour.stops.items().get(stop as usize) {
            Some(stop) => first_opening(stop.windows.items(), from),
            None => None,
        }
    }
}

/// The first step from this one on that lies in the window.
fn first_in(window: &Window, from: u32) -> Option<u32>
    ensures { result ≡ first_within from window.now }
{
    let first = window.opens.max(from);
    (first <= window.closes).then_some(first)
}

/// The earlier of two steps, where there are two.
fn earlier_of(one: Option<u32>, other: Option<u32>) -> Option<u32>
    ensures { result ≡ earlier one other }
{
    match (one, other) {
        (Some(x), Some(y)) => Some(x.min(y)),
        (Some(x), None) => Some(x),
        (None, other) => other,
    }
}

/// The first step from this one on that lies in one of the windows.
fn first_opening(windows: &[Window], from: u32) -> Option<u32>
    ensures { result ≡ first_open windows.now from }
{
    let mut first = None;
    for window in windows {
        first = earlier_of(first, first_in(window, from));
    }
    first
}

impl rest_bound::Tour for TourWork<'_> {
    ghost plan = { λ w. plan_by w.pieces.items w.tour.now };

    fn drives(&self, piece: usize) -> bool {
        matches!(self.pieces.get(piece), Some(Piece::Drive { .. }))
    }

    fn idles(&self, piece: usize) -> bool {
        match self.pieces.get(piece) {
            Some(Piece::Drive { .. }) => true,
            Some(&Piece::Serve { first, .. }) => first,
            None => false,
        }
    }

    #[tactic(auto, using(crate::proofs::WorkLaws::first_opened, crate::proofs::WorkLaws::first_later, crate::proofs::WorkLaws::first_first))]
    fn next_open(&self, piece: usize, from: u32) -> Option<u32> {
        self.first_step(piece, from)
    }
}
