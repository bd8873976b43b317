//! The report of a schedule, and tours that are made by number.
#![tactic(auto)]

mod draws;
mod head;
mod history;
mod laws;
mod maker;
mod marks;
mod rules;
mod runs;
#[cfg(test)]
mod tests;
mod write;

pub use laws::reports_are_one;
pub use maker::{MOST_MADE, Made, make_tour};
pub use runs::Doing;
pub use write::report;
