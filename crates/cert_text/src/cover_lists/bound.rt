//! Bounds on labels: what tells a step before which no continuation of a label ends.
ghost use Rattle.std.specs.Prelude.{◌≡◌};
ghost use Rattle.cert_text.specs.CoverLists.Bound.{Bounds, eta_bounds};

use tour_model::Tour;

/// Tells of a label a step before which no continuation of it ends; `None` where it has none. It is
/// asked in two calls: first of what many labels share, then of one of them.
pub trait LabelBound<S> {
    /// What the bound does, as one value.
    ghost bounds: { Self → Bounds S };

    /// A step before which no label of this step and progress ends, whatever its state.
    fn early(&self, step: u32, progress: u32) -> Option<u32>
        requires { (bounds self.now).asks_early step progress }
        ensures { result ≡ (bounds self.now).early step progress };

    /// A step before which none in this state ends, where `early` is what the first call tells.
    fn bound(&self, step: u32, progress: u32, state: &S, early: Option<u32>) -> Option<u32>
        requires asks { (bounds self.now).asks step progress state.now }
        requires early { early ≡ (bounds self.now).early step progress }
        ensures { result ≡ (bounds self.now).bound step progress state.now };
}

/// The earliest end of a label with no rules, which its state does not change.
#[derive(Drop)]
pub struct EtaBound<'a> {
    pub tour: &'a Tour,
}

impl<S> LabelBound<S> for EtaBound<'_> {
    ghost bounds = { λ b. eta_bounds b.tour.now };

    fn early(&self, step: u32, progress: u32) -> Option<u32> {
        self.tour.eta(step, progress)
    }

    fn bound(&self, step: u32, progress: u32, state: &S, early: Option<u32>) -> Option<u32> {
        let _ = step;
        let _ = progress;
        let _ = state;
        early
    }
}
