//! The kinds of units that are counted.
ghost use Rattle.std.specs.Prelude.{◌≡◌};
ghost use Rattle.timeline.specs.Kinds.{test_of};

use duty_core::{Activity, is_duty, is_rest};

/// A kind of units.
#[derive(Debug, Clone, Copy, PartialEq, Eq)]
pub enum CountOf {
    /// `Drive`.
    Driving,
    /// `Drive`, `Serve` and `Wait`.
    Duty,
    /// `Off` and `Berth`.
    Rest,
    /// `Berth`.
    Sleeper,
}

impl CountOf {
    /// Whether a unit of the activity is of this kind.
    pub fn has(self, act: Activity) -> bool
        ensures { result ≡ test_of self act }
    {
        match self {
            CountOf::Driving => matches!(act, Activity::Drive),
            CountOf::Duty => is_duty(act),
            CountOf::Rest => is_rest(act),
            CountOf::Sleeper => matches!(act, Activity::Berth),
        }
    }
}
