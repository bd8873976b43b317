//! The successors of a state, and the idle activities to try.
ghost use Rattle.std.specs.Prelude.{◌≡◌, ◌↔◌, [], IsTrue};
ghost use Rattle.rule_core.specs.Reach.{listed};

use duty_core::{Activity, Mark};

/// A successor of a state, with the mark that was chosen on the way to it.
#[derive(Drop)]
pub struct Next<S> {
    /// The state after the units.
    pub state: S,
    /// The mark that is chosen there, if one is.
    pub mark: Option<Mark>,
}

/// Up to three successors, seen as the list of those that are there, in this order.
#[derive(Drop)]
pub struct Nexts<S> {
    pub a: Option<Next<S>>,
    pub b: Option<Next<S>>,
    pub c: Option<Next<S>>,
}

impl<S> Nexts<S> {
    /// Whether there is no successor.
    pub fn is_empty(&self) -> bool
        ensures { IsTrue result ↔ (listed self.now ≡ []) }
    {
        self.a.is_none() && self.b.is_none() && self.c.is_none()
    }
}

/// One or two idle activities.
#[derive(Clone, Copy, Debug, PartialEq, Eq)]
pub struct Idles {
    pub first: Activity,
    pub second: Option<Activity>,
}
