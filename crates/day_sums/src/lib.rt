//! Sums of the duty of the last days that count: of a week in the United States, or of a cycle in
//! Canada.
#![tactic(auto)]

mod sums;
#[cfg(test)]
mod tests;

pub use sums::DaySums;
