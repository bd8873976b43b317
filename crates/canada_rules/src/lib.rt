//! The rule book of Canada, south of 60°N (SOR/2005-313, sections 12 to 28).
#![tactic(auto)]

mod book;
mod covers;
mod ends;
mod numbers;
mod state;
#[cfg(test)]
mod tests;

pub use book::CanadaBook;
pub use state::{Calendar, CanadaState, DayDuty};
