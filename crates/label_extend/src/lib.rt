//! How a label grows by one step.
#![tactic(auto)]

mod extend;

pub use cert_text::Grown;
pub use extend::{Growths, successors};
