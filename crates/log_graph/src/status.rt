//! What a row of the graph shows.
ghost use Rattle.std.specs.Prelude.{◌≡◌};
ghost use Rattle.log_graph.specs.Graph.{status_name, shows};

use duty_core::Activity;
use timeline::CountOf;

/// The status of a driver that a row of the graph shows.
#[derive(Debug, Clone, Copy, PartialEq, Eq)]
pub enum Status {
    /// Rest out of the sleeper berth.
    OffDuty,
    /// Rest in the sleeper berth.
    Sleeper,
    /// Driving.
    Driving,
    /// Duty without driving.
    OnDuty,
    /// Australia: any rest.
    Rest,
    /// Australia: any duty.
    Work,
}

impl Status {
    /// The name of the row, in four places.
    pub fn name(self) -> &'static str
        ensures { result.now ≡ status_name self }
    {
        match self {
            Status::OffDuty => "OFF ",
            Status::Sleeper => "SB  ",
            Status::Driving => "D   ",
            Status::OnDuty => "ON  ",
            Status::Rest => "REST",
            Status::Work => "WORK",
        }
    }

    /// Whether a unit of the activity is of this status.
    pub fn shows(self, act: Activity) -> bool
        ensures { result ≡ shows self act }
    {
        match self {
            Status::OffDuty => CountOf::Rest.has(act) && !CountOf::Sleeper.has(act),
            Status::Sleeper => CountOf::Sleeper.has(act),
            Status::Driving => CountOf::Driving.has(act),
            Status::OnDuty => CountOf::Duty.has(act) && !CountOf::Driving.has(act),
            Status::Rest => CountOf::Rest.has(act),
            Status::Work => CountOf::Duty.has(act),
        }
    }
}
