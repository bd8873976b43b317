//! What the book remembers of a history.
ghost use Rattle.std.specs.Prelude.{◌≡◌, ◌+◌, ◌<◌, ◌≤◌};
ghost use Rattle.duty_core.specs.declared.limits.TheConstants.{DAY_MINUTES};
ghost use Rattle.canada_rules.specs.Machine.{day_begun, day_keeps};
ghost use Rattle.canada_rules.specs.Stretch.{day_more_run};

use cycles_deferral::{CanadaDays, CycleCount};
use duty_core::{Activity, CA_DAY_DRIVING_LIMIT, CA_DAY_DUTY_LIMIT, is_rest};
use sleeper_split::SplitCount;

/// What the book remembers of a history.
///
/// Which states there are at a minute is told by `IsStateOf`. In minutes, and in this order, a
/// state's numbers are: of the rest run in progress its length, the time in the berth that it ends
/// with and its longest consecutive time there; the driving, the duty and the time passed since the
/// base; the same since the last full or split rest; the length of the split rest that waits, which
/// is shorter than a full rest, and its longest consecutive time in the berth, or 0 and 0; the
/// driving and the duty of today, no more than its minutes so far; the minutes of today that were
/// seen; the rest run in progress up to the most that a deferral needs; of today the lost minutes,
/// those of a short rest in progress, and the longest rest; the same of yesterday; the lost minutes
/// of the day before; 1 where the rest run in progress reaches back into yesterday, else 0; the rest
/// run in progress up to a reset; the time since the last day off; the duty without one; and the
/// duty of each day of the cycle from the youngest on, at most a day's minutes, and of the youngest
/// no more than its minutes so far. The way and the cycle are those of the book. A split rest waits
/// only where rests may be split.
#[derive(Clone, Copy)]
pub struct CanadaState {
    /// The counts of full rests, split rests and pairs.
    pub split: SplitCount,
    /// What is counted by days.
    pub calendar: Calendar,
}

/// What is counted by days, each of which begins at the book's minute.
#[derive(Clone, Copy)]
pub struct Calendar {
    /// The driving and the duty of today.
    pub day: DayDuty,
    /// The lost minutes of the days, and the deferral in progress.
    pub days: CanadaDays,
    /// The counts of the cycle.
    pub cycle: CycleCount,
}

/// The driving and the duty of a day so far, in minutes (SOR/2005-313, section 12).
#[derive(Clone, Copy, Debug, PartialEq, Eq)]
pub struct DayDuty {
    /// The minutes of driving.
    pub driving: u32,
    /// The minutes of duty, those of driving among them.
    pub duty: u32,
}

impl DayDuty {
    /// A day that begins.
    pub(crate) const NONE: DayDuty = DayDuty {
        driving: 0,
        duty: 0,
    };

    /// The day, or a new one where that begins.
    pub(crate) fn begun(self, new_day: bool) -> DayDuty
        ensures { result ≡ day_begun new_day self }
    {
        if new_day { DayDuty::NONE } else { self }
    }

    /// The day with `n` more minutes.
    pub(crate) fn with(self, act: Activity, n: u32) -> DayDuty
        requires driving { self.driving ≤ DAY_MINUTES }
        requires duty { self.duty ≤ DAY_MINUTES }
        requires few { n ≤ DAY_MINUTES }
        ensures { result ≡ day_more_run n act self }
    {
        let driving = if matches!(act, Activity::Drive) { n } else { 0 };
        let duty = if is_rest(act) { 0 } else { n };
        DayDuty {
            driving: self.driving + driving,
            duty: self.duty + duty,
        }
    }

    /// Whether driving and duty of the day allow its last minute, which is counted.
    pub(crate) fn allows(self, act: Activity) -> bool
        ensures { result ≡ day_keeps self act }
    {
        !matches!(act, Activity::Drive)
            || (self.driving <= CA_DAY_DRIVING_LIMIT && self.duty <= CA_DAY_DUTY_LIMIT)
    }
}
