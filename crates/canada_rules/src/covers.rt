//! What is counted by days, where it may stand for others.
ghost use Rattle.std.specs.Prelude.{◌≡◌};
ghost use Rattle.duty_core.specs.CaCycle.{cycle_limit};
ghost use Rattle.day_sums.specs.Counted.{turned};
ghost use Rattle.cycles_deferral.specs.DayMachine.{IsCanadaDays, days_begun};
ghost use Rattle.canada_rules.specs.Covers.{is_day_spent, day_covers, days_cover, sums_cover, day_off_covers, cycle_covers, calendar_covers};

use crate::state::{Calendar, DayDuty};
use cycles_deferral::{CanadaDays, CycleCount};
use day_sums::DaySums;
use duty_core::{CA_DAY_DRIVING_LIMIT, CA_DAY_DUTY_LIMIT};

impl Calendar {
    /// Whether what is counted by days here may stand for `other`, whatever comes next. `new_day`
    /// tells whether the next minute begins a day.
    pub(crate) fn covers(&self, other: &Calendar, new_day: bool) -> bool
        requires good { IsCanadaDays self.now.days }
        requires other_good { IsCanadaDays other.now.days }
        ensures { result ≡ calendar_covers new_day self.now other.now }
    {
        self.day.begun(new_day).covers(other.day.begun(new_day))
            && (days_cover(self.days, other.days, new_day)
                && cycle_covers(&self.cycle, &other.cycle, new_day))
    }
}

impl DayDuty {
    /// Whether driving and duty of the day are no more, or nothing more may be driven in the other
    /// day.
    fn covers(self, other: DayDuty) -> bool
        ensures { result ≡ day_covers self other }
    {
        other.is_spent() || (self.driving <= other.driving && self.duty <= other.duty)
    }

    /// Whether driving or duty stands at its limit.
    fn is_spent(self) -> bool
        ensures { result ≡ is_day_spent self }
    {
        CA_DAY_DRIVING_LIMIT <= self.driving || CA_DAY_DUTY_LIMIT <= self.duty
    }
}

/// Whether the days may stand for others.
fn days_cover(a: CanadaDays, b: CanadaDays, new_day: bool) -> bool
    requires good { IsCanadaDays a }
    requires other_good { IsCanadaDays b }
    ensures { result ≡ days_cover (days_begun new_day a) (days_begun new_day b) }
{
    a.covers(b, new_day)
}

/// Whether the counts of a cycle may stand for others.
fn cycle_covers(a: &CycleCount, b: &CycleCount, new_day: bool) -> bool
    ensures { result ≡ cycle_covers new_day a.now b.now }
{
    let same = a.cycle() == b.cycle();
    let rested = b.rest() <= a.rest();
    let ours = turned(a.sums(), new_day);
    let theirs = turned(b.sums(), new_day);
    let sums = sums_cover(ours, theirs, b.limit());
    let day_off = day_off_covers(a, b);
    same && (rested && (sums && day_off))
}

/// Whether the day off is no longer ago, and duty without one no more.
fn day_off_covers(a: &CycleCount, b: &CycleCount) -> bool
    ensures { result ≡ day_off_covers a.now b.now }
{
    a.since() <= b.since() && a.without() <= b.without()
}

/// Whether as many sums leave no less of the limit after each number of day turns.
fn sums_cover(a: DaySums, b: DaySums, limit: u32) -> bool
    ensures { result ≡ sums_cover limit a b }
{
    a.days() == b.days() && a.leaves_no_less(&b, limit)
}

/// The sums where a day may begin.
fn turned(sums: DaySums, new_day: bool) -> DaySums
    ensures { result ≡ turned new_day sums }
{
    let mut sums = sums;
    if new_day {
        sums.roll_day();
    }
    sums
}
