//! The labels that a search keeps, in layers: one layer for each step.
#![tactic(auto)]

mod buckets;
mod kept;
mod layers;

pub use kept::{Kept, Place};
pub use layers::{LAYER_LIMIT, Layers};
pub use tour_model::Label;
