//! Texts that are made piece by piece, with the times of civil minutes and the lengths of durations.
#![tactic(auto)]

#[cfg(test)]
mod tests;
mod text;

pub use text::Text;
