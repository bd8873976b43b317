//! A tour, and what is left of it after so much driving and service.
ghost use Rattle.std.specs.Prelude.{◌≡◌, ℕ, ◌+◌, ◌*◌, ◌<◌, ◌≤◌, Some, IfSome, IfNone};
ghost use Rattle.tour_model.specs.declared.limits.TheConstants.{STEP_LIMIT};
ghost use Rattle.tour_model.specs.Tour.{IsTour};
ghost use Rattle.tour_model.specs.Window.{is_open};
ghost use Rattle.tour_model.specs.Word.{word_length, next_piece, windows_at, may_serve, may_idle, may_do};
ghost use Rattle.tour_model.specs.Way.{IsEarliestEnd, HasNoWay};
ghost use Rattle.tour_model.specs.Eta.{eta_of};

use crate::piece::Piece;
use crate::stop::Stops;
use duty_core::{Activity, Minute, Params};

/// A tour. `grid` is the length of a step in minutes, and `start` the civil minute at which its
/// first step begins. Its work is its word: stop by stop so many steps of driving, and then of
/// service. A progress is a number of steps of the word that are done.
#[derive(Drop)]
pub struct Tour {
    pub params: Params,
    pub grid: u32,
    pub start: Minute,
    pub stops: Stops,
}

impl Tour {
    /// The number of steps of driving and service.
    pub fn word_len(&self) -> u32
        requires { IsTour self.now }
        ensures { result ≡ word_length self.now }
    {
        let mut total = 0;
        for stop in self.stops.items() {
            total += stop.work();
        }
        total
    }

    /// The piece of driving or service that comes after so much progress.
    pub fn word_at(&self, progress: u32) -> Piece
        requires tour { IsTour self.now }
        requires progress { progress < word_length self.now }
        ensures { next_piece self.now progress ≡ Some result }
    {
        match self.piece_at(progress) {
            Some(piece) => piece,
            None => unreachable!(),
        }
    }

    /// The piece that comes after so much progress; None at the end of the word.
    fn piece_at(&self, progress: u32) -> Option<Piece>
        requires { IsTour self.now }
        ensures { result ≡ next_piece self.now progress }
    {
        let mut left = progress;
        for (number, stop) in self.stops.items().iter().enumerate() {
            let work = stop.work();
            if left < work {
                return Some(stop.piece(number as u32, left));
            }
            left -= work;
        }
        None
    }

    /// Whether a step of service may be done at this step of the tour, after so much progress: the
    /// next piece is service, and where the service begins with it, the step lies in a window.
    pub fn may_serve(&self, progress: u32, step: u32) -> bool
        requires tour { IsTour self.now }
        requires progress { progress ≤ word_length self.now }
        requires step { step < STEP_LIMIT }
        ensures { result ≡ may_serve self.now step progress }
    {
        match self.piece_at(progress) {
            Some(Piece::Serve { stop, first: true }) => self.opens(stop, step),
            Some(Piece::Serve { first: false, .. }) => true,
            Some(Piece::Drive { .. }) | None => false,
        }
    }

    /// Whether the step lies in a window of the stop of this number.
    fn opens(&self, number: u32, step: u32) -> bool
        ensures { result ≡ is_open (windows_at self.now.stops number) step }
    {
        match self.stops.items().get(number as usize) {
            Some(stop) => stop.windows.hold(step),
            None => false,
        }
    }

    /// Whether a step may pass idle after so much progress: the tour is not finished, and no service
    /// has begun that has not ended.
    pub fn may_idle(&self, progress: u32) -> bool
        requires tour { IsTour self.now }
        requires progress { progress ≤ word_length self.now }
        ensures { result ≡ may_idle self.now progress }
    {
        match self.piece_at(progress) {
            Some(Piece::Drive { .. }) => true,
            Some(Piece::Serve { first, .. }) => first,
            None => false,
        }
    }

    /// Whether the tour allows the activity at this step, after so much progress.
    pub fn may_do(&self, step: u32, progress: u32, act: Activity) -> bool
        requires tour { IsTour self.now }
        requires progress { progress ≤ word_length self.now }
        requires step { step < STEP_LIMIT }
        ensures { result ≡ may_do self.now step progress act }
    {
        match act {
            Activity::Drive => matches!(self.piece_at(progress), Some(Piece::Drive { .. })),
            Activity::Serve => self.may_serve(progress, step),
            Activity::Wait | Activity::Off | Activity::Berth => self.may_idle(progress),
        }
    }

    /// The earliest step at which the tour can end with no rules, where so much of it is done at
    /// this step; None where a window can no longer be met.
    pub fn eta(&self, step: u32, progress: u32) -> Option<u32>
        requires tour { IsTour self.now }
        requires progress { progress ≤ word_length self.now }
        requires step { step < STEP_LIMIT }
        ensures earliest { IfSome result (IsEarliestEnd self.now step progress) }
        ensures none { IfNone result (HasNoWay self.now step progress) }
        // The same as a function of the word, for definitions that need one.
        ensures value { result ≡ eta_of self.now step progress }
    {
        let mut at = step;
        let mut left = progress;
        for stop in self.stops.items() {
            let work = stop.work();
            if left < work {
                at = stop.leave(at, left)?;
                left = 0;
            } else {
                left -= work;
            }
        }
        Some(at)
    }
}
