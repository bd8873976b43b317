//! The certificate that a search's layers make.
#![tactic(auto)]

mod certificate;
mod labels;
mod runs;

pub use certificate::refute;
