//! Tours that are made by number, with what their texts say.
#![tactic(auto)]

mod made;
#[cfg(test)]
mod tests;

pub use made::{MadeTour, made_tour};
