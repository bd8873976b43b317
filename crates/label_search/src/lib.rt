//! The search for a shortest schedule, by layers of labels.
#![tactic(auto)]

mod best;
mod by_layers;
mod fill;
mod gather;
mod guess;
mod laws;
mod order;
mod terms;

pub use by_layers::{Searched, search};
pub use label_state::{Kept, Label, Layers, Place};
pub use laws::paths_are_lawful;
