//! A label that is asked about.
ghost use Rattle.std.specs.Prelude.{◌≡◌};

use std::marker::Model;
use tour_model::Label;

/// A label about which is asked whether another one is better. Its state is borrowed.
#[derive(Drop)]
pub struct Asked<'a, S> {
    pub depart: Option<u32>,
    pub progress: u32,
    pub state: &'a S,
}

impl<'a, S> Model for Asked<'a, S> {
    ghost use Rattle.tour_model.specs.declared.label.Label.{Label};

    ghost Value = { Label S };

    ghost view = { λ a. record { depart = a.depart; progress = a.progress; state = a.state.now } };
}

impl<'a, S> Asked<'a, S> {
    /// The question about this label.
    pub fn of(label: &'a Label<S>) -> Asked<'a, S>
        ensures { result ≡ label.now }
    {
        Asked {
            depart: label.depart,
            progress: label.progress,
            state: &label.state,
        }
    }
}
