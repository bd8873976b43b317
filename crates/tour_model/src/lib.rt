//! A tour of stops with windows, what is left of it after so much driving and service, and its
//! schedules.
#![tactic(auto)]

mod label;
mod laws;
mod lengths;
mod limits;
mod piece;
mod schedule;
mod stop;
#[cfg(test)]
mod tests;
mod tour;
mod window;

pub use label::Label;
pub use laws::{ends_by_steps, serves_by_steps};
pub use lengths::{duration, progresses};
pub use limits::{
    EARLIEST_START, FEWEST_DAYS, FEWEST_STOPS, GRIDS, HVNL_GRIDS, LATEST_START, LONGEST_NAME,
    LONGEST_TOUR, MOST_CYCLE, MOST_DAYS, MOST_DRIVE, MOST_SERVICE, MOST_STOPS, MOST_WINDOWS,
    STEP_LIMIT,
};
pub use piece::Piece;
pub use schedule::{Schedule, Steps};
pub use stop::{Name, Stop, Stops};
pub use tour::Tour;
pub use window::{Window, Windows};
