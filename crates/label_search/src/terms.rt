//! The terms of a search.

use rule_core::Root;
use std::alloc::Global;
use tour_model::Tour;

/// What a search goes by: where its memory comes from, the rule book, the tour, and the roots that
/// the log leaves.
#[derive(Drop)]
pub struct Terms<'a, B, S> {
    pub alloc: Global,
    pub book: &'a B,
    pub tour: &'a Tour,
    pub roots: &'a [Root<S>],
}
