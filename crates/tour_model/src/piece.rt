//! The pieces of a tour's work.

/// A step of driving or of service. `stop` is the number of the stop that it is for, from 0 on.
#[derive(Clone, Copy, Debug, PartialEq, Eq)]
pub enum Piece {
    /// A step at the wheel on the way to the stop.
    Drive { stop: u32 },
    /// A step of service at the stop. `first` tells whether the service begins with it.
    Serve { stop: u32, first: bool },
}
