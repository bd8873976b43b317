//! Which labels are kept: those than which none in their layer is better.
#![tactic(auto)]

mod dominance;

pub use dominance::{Offered, better, offer, offer_to};
