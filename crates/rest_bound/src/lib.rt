//! A bound on the end of a tour by the rules of the United States, on the counts of a driver alone: it
//! counts the rests that the rest of the work must need.
#![tactic(auto)]

mod begin;
mod counts;
mod ends;
mod laws;
mod least_end;
mod limits;
mod mode;
mod table;
mod terms;
#[cfg(test)]
mod tests;
mod tour;
mod walk;

pub use counts::{Counts, Deed};
pub use laws::ends_law;
pub use least_end::bound;
pub use limits::{Limits, STEP_LIMIT};
pub use mode::Mode;
pub use table::{Table, make_table};
pub use tour::Tour;
pub use walk::Walk;
