//! A schedule of a tour.
use duty_core::{Activity, Marks, TryVec};

/// What a driver does, step by step from the start of a tour.
pub type Steps = TryVec<Activity>;

/// A schedule: its steps, and the marks of its history.
#[derive(Drop)]
pub struct Schedule {
    pub steps: Steps,
    pub marks: Marks,
}
