//! What can be wrong with the bytes of a tour.
ghost use Rattle.std.specs.Prelude.{◌≡◌};
ghost use Rattle.tour_reader.specs.declared.fault.TourFault.TheVariants.{Memory};

use crate::field::Field;
use duty_core::NoMemory;
use std::alloc::{AllocError, AllocFailed};
use std::fmt;
use thiserror::Error;
use tour_model::Name;

/// The first thing that is wrong with the bytes of a tour. `stop` is the number of the stop, from 1,
/// and None where the field is one of the tour's own.
#[derive(Drop, Error)]
pub enum TourFault {
    /// There are more bytes than `TOUR_LIMIT`.
    #[error("the tour is too big")]
    TooBig,
    /// The bytes are no JSON, or no JSON object.
    #[error("the tour is no JSON object")]
    NotJson,
    /// A field that the book or a stop needs is absent.
    #[error("the field {field:?} is missing")]
    Missing { field: Field, stop: Option<u32> },
    /// There is a field of another name.
    #[error("there is an unknown field")]
    Unknown { name: Name, stop: Option<u32> },
    /// The field has a value that it may not have. A stop that is no object is a bad value of
    /// `Stops`, with the stop's number.
    #[error("the field {field:?} has a bad value")]
    BadValue { field: Field, stop: Option<u32> },
    /// The array of stops is empty.
    #[error("the tour has no stops")]
    NoStops,
    /// There are more stops than `MOST_STOPS`.
    #[error("the tour has too many stops")]
    TooManyStops,
    /// The first stop whose name an earlier stop has.
    #[error("two stops have one name")]
    DuplicateStop { name: Name },
    /// The first stop with a window that closes so late that a service from then on ends more than
    /// `LONGEST_TOUR` minutes after the start.
    #[error("stop {stop} closes too late")]
    BeyondHorizon { stop: u32 },
    /// There was no memory for what the bytes say.
    #[error("there is no memory for the tour")]
    Memory,
}

impl fmt::Debug for TourFault {
    fn fmt<W: fmt::Write>(&self, f: &mut fmt::Formatter<W>) -> fmt::Result {
        write!(f, "{self}")
    }
}

impl From<NoMemory> for TourFault {
    ghost from_gives = { λ _ fault. fault ≡ Memory };

    fn from(_: NoMemory) -> TourFault {
        TourFault::Memory
    }
}

impl From<AllocError> for TourFault {
    ghost from_gives = { λ _ fault. fault ≡ Memory };

    fn from(_: AllocError) -> TourFault {
        TourFault::Memory
    }
}

impl<T: Drop> From<AllocFailed<T>> for TourFault {
    ghost from_gives = { λ _ fault. fault ≡ Memory };

    fn from(_: AllocFailed<T>) -> TourFault {
        TourFault::Memory
    }
}
