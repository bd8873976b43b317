//! Parts of the test for the better of two labels.
ghost use Rattle.std.specs.Prelude.{◌≡◌};
ghost use Rattle.tour_model.specs.Tour.{IsTour};
ghost use Rattle.tour_model.specs.Word.{may_idle};
ghost use Rattle.cert_text.specs.CoverLists.Problem.{later};

use tour_model::Tour;

/// Whether the first departure is not earlier. None, for not yet, is later than all.
pub fn departs_later(a: Option<u32>, b: Option<u32>) -> bool
    ensures { result ≡ later a b }
{
    match (a, b) {
        (None, _) => true,
        (Some(_), None) => false,
        (Some(x), Some(y)) => y <= x,
    }
}

/// Whether the tour allows to idle after so much progress, which may be any: where no work is left,
/// it does not.
pub fn may_idle_after(tour: &Tour, progress: u32) -> bool
    requires { IsTour tour.now }
    ensures { result ≡ may_idle tour.now progress }
{
    progress < tour.word_len() && tour.may_idle(progress)
}
