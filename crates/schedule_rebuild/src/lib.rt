//! The schedule of a label: the path to its place.
#![tactic(auto)]

mod path;

pub use path::rebuild;
