//! Reading a tour from its bytes, with the first fault that they have.
#![tactic(auto)]

mod book;
mod checks;
mod fault;
mod field;
mod form;
mod head;
mod laws;
mod read;
mod rounding;
mod stops;
mod time;
mod value;
mod written;

pub use fault::TourFault;
pub use field::Field;
pub use form::TOUR_LIMIT;
pub use laws::times_are_those_written;
pub use read::read_tour;

#[cfg(test)]
mod tests;
