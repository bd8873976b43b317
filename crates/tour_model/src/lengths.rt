//! How long a schedule takes.
ghost use Rattle.std.specs.Prelude.{◌≡◌, ◌^◌, ◌<◌, length};
ghost use Rattle.tour_model.specs.Schedule.{duration};
ghost use Rattle.tour_model.specs.Way.{progresses};

use duty_core::Activity;

/// Whether the activity does a step of the tour's driving or service.
pub fn progresses(act: Activity) -> bool
    ensures { result ≡ progresses act }
{
    matches!(act, Activity::Drive | Activity::Serve)
}

/// The number of steps from the departure, the first step of driving or service, to the end; the
/// number of all steps where there is none such.
pub fn duration(steps: &[Activity]) -> u32
    requires { length steps.now < 2 ^ 32 }
    ensures { result ≡ duration steps.now }
{
    for (index, act) in steps.iter().enumerate() {
        if progresses(*act) {
            return (steps.len() - index) as u32;
        }
    }
    steps.len() as u32
}
