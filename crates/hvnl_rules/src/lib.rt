//! The rule book of Australia (Heavy Vehicle (Fatigue Management) National Regulation, Schedule 1,
//! standard hours, solo).
#![tactic(auto)]

mod book;
mod bounds;
mod held;
mod laws;
mod nights;
mod numbers;
mod state;
#[cfg(test)]
mod tests;

pub use book::HvnlBook;
pub use laws::successor_is_one_at_most;
pub use nights::NightLog;
pub use state::HvnlState;
