//! The greatest or the least of some values, and the first place with it.
ghost use Rattle.std.specs.Prelude.{◌↔◌, IsTrue};
ghost use Rattle.rule_readings.specs.Best.{Beats};

/// Which of some values is wanted.
#[derive(Clone, Copy, Debug, PartialEq, Eq)]
pub(crate) enum Order {
    /// The greatest one.
    Greatest,
    /// The least one.
    Least,
}

/// The best value, and the first place with it.
#[derive(Clone, Copy, Debug, PartialEq, Eq)]
pub(crate) struct Best {
    pub at: u32,
    pub used: u32,
}

/// Whether a value at a later place is better than the best one so far.
pub(crate) fn beats(order: Order, used: u32, best: Option<Best>) -> bool
    ensures { IsTrue result ↔ Beats order used best }
{
    match best {
        None => true,
        Some(best) => match order {
            Order::Greatest => best.used < used,
            Order::Least => used < best.used,
        },
    }
}
