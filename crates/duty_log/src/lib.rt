//! Reading a log: the bytes of a CSV text as what a driver did, or the first fault.
#![tactic(auto)]

mod fault;
mod fields;
mod read;
mod row;
mod word;

pub use fault::LogFault;
pub use read::{LOG_LIMIT, read_log};

#[cfg(test)]
mod tests;
