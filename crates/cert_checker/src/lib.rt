//! Whether a certificate proves what it claims, by the definitions alone: with no search, and no
//! part of one.
#![tactic(auto)]

mod answered;
mod asked;
mod check;
mod claim;
mod covered;
mod follow;
mod label;
mod layer;
mod layers;
mod listing;
mod parse;
mod roots;
mod terms;
#[cfg(test)]
mod tests;
mod top;
mod verdict;

pub use check::check_parsed;
pub use top::check_cert;
pub use verdict::{Reason, Verdict};
