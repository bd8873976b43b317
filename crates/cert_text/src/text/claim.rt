//! What a certificate claims, as it is read before its layers.
use crate::cert::{CertKind, StepRuns};
use duty_core::Marks;

/// What a certificate claims: all of it but its layers.
#[derive(Drop)]
pub struct Claim {
    pub kind: CertKind,
    pub target: Option<u32>,
    pub schedule: StepRuns,
    pub marks: Marks,
}
