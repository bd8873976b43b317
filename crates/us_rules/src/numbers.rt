//! The numbers by which a state is written down.
ghost use Rattle.std.specs.Prelude.{◌≡◌, ◌++◌};
ghost use Rattle.sleeper_split.specs.Numbers.{split_numbers};
ghost use Rattle.us_rules.specs.Numbers.{us_numbers};

use crate::state::UsState;

/// How many numbers stand before the duty of the days.
pub const COUNTS: usize = 14;

impl UsState {
    /// The numbers that stand between those of split rests and the duty of the days: of breaks, and
    /// the rest of the week.
    pub(crate) fn counts(&self) -> [u32; 3]
        ensures { split_numbers self.now.split ++ result ++ self.now.week.sums ≡ us_numbers self.now }
    {
        [
            self.rest_break.still,
            self.rest_break.driven,
            self.week.rest,
        ]
    }
}
