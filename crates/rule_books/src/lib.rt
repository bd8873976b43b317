//! The rule book of a tour's parameters: the one place that picks it.
#![tactic(auto)]

#[cfg(test)]
mod canada_tests;
#[cfg(test)]
mod histories;
#[cfg(test)]
mod us_tests;
mod user;

pub use user::{BookUser, with_book};
