//! Which rules of a book a history keeps with its marks, and what each rule counts at a place.
#![tactic(auto)]

mod au_nights;
mod au_periods;
#[cfg(test)]
mod au_tests;
mod au_values;
mod base;
mod best;
mod book;
mod book_readings;
mod breaks;
mod broken_rules;
mod ca_day;
mod ca_pair;
#[cfg(test)]
mod ca_tests;
#[cfg(test)]
mod cases;
mod days;
mod declared;
mod deferral;
mod driving;
mod history;
mod laws;
mod losses;
mod lost;
mod measure;
mod padded;
mod pair_sums;
mod pairs;
mod reading;
#[cfg(test)]
mod reading_tests;
mod scope;
#[cfg(test)]
mod tests;
mod us_pair;
mod values;

pub use book_readings::readings;
pub use broken_rules::{Rules, broken};
pub use laws::{day_off_is_told_two_ways, kept_rules_read_within, readings_are_one};
pub use reading::{Reading, ReadingList};
