//! What the next units may hold: lists of limits on duty and of needs of rest, with the run of rest
//! in progress.
#![tactic(auto)]

mod allowances;
mod limit;
mod lists;

pub use allowances::Allowances;
pub use limit::{Limit, Need, RUN_LIMIT, implies};

#[cfg(test)]
mod tests;
