//! A successor of a label.
use duty_core::{Activity, Mark};
use tour_model::Label;

/// A successor of a label: by which activity, and with which mark.
#[derive(Drop)]
pub struct Grown<S> {
    pub label: Label<S>,
    pub act: Activity,
    pub mark: Option<Mark>,
}
