//! The graph of a history: a row of cells for each status and day, as drivers' logs are drawn.
#![tactic(auto)]

mod cells;
mod draw;
mod laws;
mod status;
#[cfg(test)]
mod tests;

pub use cells::day_start;
pub use draw::{graph, push_graph};
pub use laws::{days_with_units_are_shown, graphs_are_one};
