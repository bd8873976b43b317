//! A tour, as far as the bound reads it.
ghost use Rattle.std.specs.Prelude.{◌≡◌, ℕ, ◌≤◌, true, IfSome};
ghost use Rattle.rest_bound.specs.Ends.{Plan};
ghost use Rattle.rest_bound.specs.Runs.{AtMost};

/// The work of a tour, piece by piece. A piece takes one step, and goes by its number: the first is 0.
pub trait Tour {
    ghost plan: { Self → Plan };

    /// Whether the piece is driving. Any other piece is duty that is no driving.
    fn drives(&self, piece: usize) -> bool
        ensures { result ≡ (plan self.now).drives piece };

    /// Whether the driver may idle before the piece.
    fn idles(&self, piece: usize) -> bool
        ensures { result ≡ (plan self.now).idles piece };

    /// The first step, not before this one, at which the piece may be done. None: there is no such
    /// step.
    fn next_open(&self, piece: usize, from: u32) -> Option<u32>
        ensures opened { IfSome result (λ step. (plan self.now).opens piece step ≡ true) }
        ensures later { IfSome result (λ step. from ≤ step) }
        ensures first { (step : ℕ) → (plan self.now).opens piece step ≡ true → from ≤ step → AtMost result step };
}
