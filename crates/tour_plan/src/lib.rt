//! A tour planned after a log, by the rule book of its parameters, with the bytes of a certificate.
#![tactic(auto)]

mod audit;
mod certificate;
mod plan;
mod planned;
#[cfg(test)]
mod tests;

pub use audit::{first_unlawful, log_start};
pub use plan::plan_tour;
pub use planned::Planned;
