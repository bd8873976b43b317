//! The roots that a log leaves.
use duty_core::{Marks, TryVec};

/// A state that a log reaches, with marks by which it reaches it.
#[derive(Drop)]
pub struct Root<S> {
    /// The state after the log.
    pub state: S,
    /// The marks that the log has on the way to the state.
    pub marks: Marks,
}

/// The roots of a log, in an order. Contracts see their list.
pub type Roots<S> = TryVec<Root<S>>;
