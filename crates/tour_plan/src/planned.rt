//! What planning a tour gives.

use tour_model::Schedule;

/// What planning a tour after a log gives.
#[derive(Drop)]
pub enum Planned {
    /// A shortest schedule with its marks, and the bytes of a certificate that proves it.
    Shortest { schedule: Schedule, cert: Vec<u8> },
    /// No schedule serves the tour lawfully after the log. The bytes are those of a certificate
    /// that proves it.
    Infeasible { cert: Vec<u8> },
    /// The log is lawful, and the search kept as many labels as it may.
    Spent,
    /// With any marks the log breaks a rule up to this unit, counted from 0, and before it none.
    Unlawful { unit: u32 },
}
