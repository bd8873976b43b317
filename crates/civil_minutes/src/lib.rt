//! Times and days: the text of a civil minute, and the days that hold it.
#![tactic(auto)]

mod century;
mod day;
mod fields;
mod read;
#[cfg(test)]
mod tests;
mod write;

pub use century::MINUTES_OF_CENTURY;
pub use day::{day_first, day_of, minute_of_day};
pub use read::{BadTime, read_minute};
pub use write::write_minute;
