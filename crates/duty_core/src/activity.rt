//! What a driver does in one unit of time.
ghost use Rattle.std.specs.Prelude.{◌≡◌};
ghost use Rattle.duty_core.specs.Activity.{rests, works};

/// What a driver does in one unit of time.
#[derive(Clone, Copy, Debug, PartialEq, Eq)]
pub enum Activity {
    /// At the wheel.
    Drive,
    /// At work for a stop of the tour.
    Serve,
    /// On duty, and neither driving nor serving.
    Wait,
    /// Off duty, outside a sleeper berth.
    Off,
    /// At rest in the sleeper berth.
    Berth,
}

/// Whether the activity is rest: `Off` or `Berth`.
pub fn is_rest(act: Activity) -> bool
    ensures { result ≡ rests act }
{
    matches!(act, Activity::Off | Activity::Berth)
}

/// Whether the activity is duty: `Drive`, `Serve` or `Wait`.
pub fn is_duty(act: Activity) -> bool
    ensures { result ≡ works act }
{
    matches!(act, Activity::Drive | Activity::Serve | Activity::Wait)
}
