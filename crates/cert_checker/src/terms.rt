//! The terms of a check.

use tour_model::Tour;

/// What the labels of a certificate are checked by: the rule book, the tour, the bound by which they
/// are pruned, the progress of a finished label, and the steps that no schedule may go below. Where
/// there is no target, no label may be finished.
#[derive(Drop)]
pub struct Terms<'a, B, K> {
    pub book: &'a B,
    pub tour: &'a Tour,
    pub bound: &'a K,
    pub goal: u32,
    pub target: Option<u32>,
}
