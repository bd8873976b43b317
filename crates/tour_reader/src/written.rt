//! A stop as it is written, in minutes.
use duty_core::{Minute, TryVec};
use tour_model::Name;

/// The civil minutes from which and to which a service may begin.
#[derive(Clone, Copy, Debug, Default, PartialEq, Eq)]
pub struct Span {
    pub from: Minute,
    pub to: Minute,
}

/// The spans of a stop, in the order in which they are written.
pub type Spans = TryVec<Span>;

/// A stop as it is written: minutes of driving and service, and civil minutes of its windows.
#[derive(Drop)]
pub struct WrittenStop {
    pub name: Name,
    pub drive: u32,
    pub service: u32,
    pub spans: Spans,
}
