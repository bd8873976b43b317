//! A bound on the end of a tour by the rules of the United States, from what its rule book remembers:
//! the way from a state's minutes to the counts, in steps, that `rest_bound` goes by.
#![tactic(auto)]

mod counts;
mod ends;
mod later;
mod limits;
mod steps;
#[cfg(test)]
mod tests;
mod tour_work;

pub use counts::state_counts;
pub use ends::{bound_law, label_end};
pub use later::LaterBound;
pub use limits::shift_limits;
pub use steps::MOST_GRID;
pub use tour_work::TourWork;
