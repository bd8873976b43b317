//! The rule book of the United States, property-carrying (49 CFR 395.3 and 395.1(g)(1)).
#![tactic(auto)]

mod book;
mod ends;
mod laws;
mod numbers;
mod state;
#[cfg(test)]
mod tests;

pub use book::UsBook;
pub use laws::successors_are_two_at_most;
pub use state::{BreakCount, UsState, WeekCount};
