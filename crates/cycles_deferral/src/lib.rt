//! Canadian days with their lost minutes and deferral (SOR/2005-313, sections 14 and 16), and the
//! cycles with the day off in a fortnight (sections 24 to 28).
#![tactic(auto)]

mod covers;
mod cycle;
mod days;
mod laws;
#[cfg(test)]
mod tests;

pub use cycle::{CycleCount, SINCE_LIMIT, WITHOUT_LIMIT};
pub use days::{CanadaDays, DayCount, LastDays, NEEDED_LIMIT};
pub use laws::{
    book_days_are_days, cycle_has_one_path, cycle_is_exact, cycle_stands_on, days_have_one_path,
    days_stand_on, deferred_days_are_exact, split_days_are_exact,
};
