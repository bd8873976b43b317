//! A label that a layer keeps, and its place.
use duty_core::{Activity, Mark};
use tour_model::Label;

/// A label that a layer keeps: the place of its parent in the layer before, and by which activity
/// and with which mark it grew from there. In the first layer `parent` is the place in the list of
/// roots, `act` is `Off`, and `mark` is None.
#[derive(Drop)]
pub struct Kept<S> {
    pub label: Label<S>,
    pub parent: u32,
    pub act: Activity,
    pub mark: Option<Mark>,
}

/// The place of a label: its layer, which is its step, and its place there.
#[derive(Clone, Copy, Debug, PartialEq, Eq)]
pub struct Place {
    pub layer: u32,
    pub index: u32,
}
