//! What the book remembers of a history.
ghost use Rattle.std.specs.Prelude.{◌≡◌, ◌+◌, ◌<◌, ◌≤◌};
ghost use Rattle.day_sums.specs.Sums.{today};
ghost use Rattle.duty_core.specs.declared.limits.TheConstants.{DAY_MINUTES, US_BREAK, US_UNBROKEN_LIMIT, US_RESTART};
ghost use Rattle.day_sums.specs.Counted.{turned};
ghost use Rattle.us_rules.specs.Machine.{break_covers};
ghost use Rattle.us_rules.specs.Spans.{break_span, break_span_ok};

use day_sums::DaySums;
use duty_core::{Activity, US_BREAK, US_UNBROKEN_LIMIT};
use sleeper_split::SplitCount;

/// What the book remembers of a history.
///
/// Which states there are at a minute is told by `IsUsState`. In minutes, and in this order, a
/// state's numbers are: of the rest run in progress its length, the time in the berth that it ends
/// with and its longest consecutive time there; the driving, the duty and the time passed since the
/// base; the same since the last full or split rest; the length of the split rest that waits, which
/// is shorter than a full rest, and its longest consecutive time in the berth, or 0 and 0; the time
/// without driving, at most a break, and the driving since the break, at most eight hours; the rest
/// of the week, at most a restart; and the duty of each day of the week from the youngest on, at
/// most a day's minutes, and of the youngest no more than its minutes so far. A split rest waits
/// only where there is a berth. Other counts are at most 999,999, where they stay.
#[derive(Clone, Copy)]
pub struct UsState {
    /// The counts of full rests, split rests and pairs.
    pub split: SplitCount,
    /// The counts of breaks from driving.
    pub rest_break: BreakCount,
    /// The counts of the week.
    pub week: WeekCount,
}

/// The counts of breaks from driving, in minutes.
#[derive(Clone, Copy, Debug, PartialEq, Eq)]
pub struct BreakCount {
    /// The time without driving that the history ends with, at most a break.
    pub still: u32,
    /// The driving since the last break.
    pub driven: u32,
}

/// The counts of the week, in minutes.
#[derive(Clone, Copy)]
pub struct WeekCount {
    /// The rest that the history ends with, at most a restart.
    pub rest: u32,
    /// The duty of the days of the week since the last restart, 0 while the history ends with one.
    pub sums: DaySums,
}

impl BreakCount {
    /// A break, and nothing driven since.
    pub(crate) const FRESH: BreakCount = BreakCount {
        still: US_BREAK,
        driven: 0,
    };

    /// Whether `n` more minutes keep the driving without a break within its limit.
    pub(crate) fn allows(self, act: Activity, n: u32) -> bool
        requires driven { self.driven ≤ US_UNBROKEN_LIMIT }
        requires few { n ≤ DAY_MINUTES }
        ensures { result ≡ break_span_ok self act n }
    {
        !matches!(act, Activity::Drive) || self.driven + n <= US_UNBROKEN_LIMIT
    }

    /// The counts after `n` more minutes, at least one.
    pub(crate) fn after(self, act: Activity, n: u32) -> BreakCount
        requires still { self.still ≤ US_BREAK }
        requires driven { self.driven ≤ US_UNBROKEN_LIMIT }
        requires few { n ≤ DAY_MINUTES }
        ensures { result ≡ break_span self act n }
    {
        if matches!(act, Activity::Drive) {
            BreakCount {
                still: 0,
                driven: self.driven + n,
            }
        } else if self.still + n < US_BREAK {
            BreakCount {
                still: self.still + n,
                driven: self.driven,
            }
        } else {
            BreakCount::FRESH
        }
    }

    /// Whether these counts may stand for `other`: the time without driving is as long, and the
    /// driving since the break no more.
    pub(crate) fn covers(self, other: BreakCount) -> bool
        ensures { result ≡ break_covers self other }
    {
        other.still <= self.still && self.driven <= other.driven
    }
}
