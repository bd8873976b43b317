//! The minutes of a tour's steps.
ghost use Rattle.std.specs.Prelude.{◌≡◌, ◌<◌};
ghost use Rattle.tour_model.specs.declared.limits.TheConstants.{STEP_LIMIT};
ghost use Rattle.tour_model.specs.Tour.{IsTour};
ghost use Rattle.cert_text.specs.CoverLists.Planning.{minute_of};

use duty_core::Minute;
use tour_model::Tour;

/// The civil minute at which a step of the tour begins.
pub fn minute_at(tour: &Tour, step: u32) -> Minute
    requires tour { IsTour tour.now }
    requires step { step < STEP_LIMIT }
    ensures { result ≡ minute_of tour.now step }
{
    tour.start + tour.grid * step
}
