//! The stops of a tour.
ghost use Rattle.std.specs.Prelude.{◌≡◌, ℕ, ◌+◌, ◌^◌, ◌<◌, ◌≤◌};
ghost use Rattle.tour_model.specs.Stop.{IsSmall, piece_in, leaves_at};

use crate::piece::Piece;
use crate::window::Windows;
use duty_core::TryVec;

/// The name of a stop, as bytes.
pub type Name = TryVec<u8>;

/// A stop of a tour: so many steps of driving to it, and so many of service there, which begins in
/// one of its windows.
#[derive(Drop)]
pub struct Stop {
    pub name: Name,
    pub drive: u32,
    pub service: u32,
    pub windows: Windows,
}

impl Stop {
    /// The number of steps of driving and service.
    pub(crate) fn work(&self) -> u32
        requires { self.now.drive + self.now.service < 2 ^ 32 }
        ensures { result ≡ self.now.drive + self.now.service }
    {
        self.drive + self.service
    }

    /// The piece of the stop's work, which is that of this number, after so much of it is done.
    pub(crate) fn piece(&self, number: u32, done: u32) -> Piece
        requires { done < self.now.drive + self.now.service }
        ensures { result ≡ piece_in self.now number done }
    {
        if done < self.drive {
            Piece::Drive { stop: number }
        } else {
            Piece::Serve {
                stop: number,
                first: done == self.drive,
            }
        }
    }

    /// The step at which the stop is left at the earliest, where so much of its driving and service
    /// is done at this step; None where no window opens in time.
    pub(crate) fn leave(&self, step: u32, done: u32) -> Option<u32>
        requires small { IsSmall self.now }
        requires fits { step < 2 ^ 31 }
        requires left { done ≤ self.now.drive + self.now.service }
        ensures { result ≡ leaves_at self.now step done }
    {
        if done > self.drive {
            return Some(step + (self.work() - done));
        }
        let begins = self.windows.first_from(step + (self.drive - done))?;
        Some(begins + self.service)
    }
}

/// The stops of a tour, in the order in which they are served.
pub type Stops = TryVec<Stop>;
