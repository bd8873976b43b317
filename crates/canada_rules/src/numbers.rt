//! The numbers by which a state is written down.
ghost use Rattle.std.specs.Prelude.{◌≡◌, ◌+◌, ◌<◌, ◌≤◌, ◌++◌, length, slice_index_or, if◌then◌else◌, Some, None};
ghost use Rattle.cycles_deferral.specs.DayMachine.{day_count};
ghost use Rattle.sleeper_split.specs.Numbers.{split_numbers};
ghost use Rattle.canada_rules.specs.Numbers.{ca_numbers, days_of, cycle_of, is_days, are_days, is_cycle};

use crate::state::CanadaState;
use cycles_deferral::{CanadaDays, CycleCount, DayCount, LastDays};
use day_sums::DaySums;
use duty_core::RestWay;

/// How many numbers stand before the duty of the days of the cycle.
pub const COUNTS: usize = 26;

impl CanadaState {
    /// The numbers that stand between those of split rests and the duty of the days of the cycle.
    pub(crate) fn counts(&self) -> [u32; 15]
        ensures { split_numbers self.now.split ++ result ++ self.now.calendar.cycle.sums ≡ ca_numbers self.now }
    {
        let days = self.calendar.days;
        let today = days.today();
        let yesterday = days.yesterday();
        [
            self.calendar.day.driving,
            self.calendar.day.duty,
            days.minute(),
            days.rest(),
            today.lost,
            today.short,
            today.longest,
            yesterday.lost,
            yesterday.short,
            yesterday.longest,
            days.before(),
            u32::from(days.reaches()),
            self.calendar.cycle.rest(),
            self.calendar.cycle.since(),
            self.calendar.cycle.without(),
        ]
    }
}

/// What is counted of a day, by the three numbers from this place on.
fn day_by(numbers: &[u32], i: usize) -> DayCount
    requires { i + 2 < length numbers.now }
    ensures { result ≡ day_count (slice_index_or numbers.now i 0) (slice_index_or numbers.now (i + 1) 0) (slice_index_or numbers.now (i + 2) 0) }
{
    DayCount {
        lost: numbers[i],
        short: numbers[i + 1],
        longest: numbers[i + 2],
    }
}

/// The days that have these numbers, but for the range of the flag, or `None` where no days have
/// them.
fn parts_of_days(numbers: &[u32], way: RestWay) -> Option<CanadaDays>
    requires { COUNTS ≤ length numbers.now }
    ensures { result ≡ if is_days (days_of way numbers.now) then Some (days_of way numbers.now) else None }
{
    let last = LastDays {
        today: day_by(numbers, 15),
        yesterday: day_by(numbers, 18),
        before: numbers[21],
    };
    CanadaDays::of_parts(way, numbers[13], numbers[14], last, numbers[22] == 1)
}

/// The days that have these numbers, or `None` where no days have them.
pub(crate) fn days_by(numbers: &[u32], way: RestWay) -> Option<CanadaDays>
    requires { COUNTS ≤ length numbers.now }
    ensures { result ≡ if are_days way numbers.now then Some (days_of way numbers.now) else None }
{
    let days = parts_of_days(numbers, way)?;
    (numbers[22] <= 1).then_some(days)
}

/// The counts of a cycle that have these numbers, or `None` where no counts have them.
pub(crate) fn cycle_by(numbers: &[u32], cycle: u8) -> Option<CycleCount>
    requires { COUNTS ≤ length numbers.now }
    ensures { result ≡ if is_cycle (cycle_of cycle numbers.now) then Some (cycle_of cycle numbers.now) else None }
{
    let sums = DaySums::of_sums(&numbers[COUNTS..])?;
    CycleCount::of_parts(cycle, numbers[23], sums, numbers[24], numbers[25])
}
