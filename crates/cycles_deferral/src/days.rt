//! Lost minutes of days, and deferral.
ghost use Rattle.std.specs.Prelude.{◌≡◌, ◌+◌, ◌<◌, ◌≤◌, ◌↔◌, ◌≤ℤ◌, pos, negsuc, true, IsSome, IfSome};
ghost use Rattle.duty_core.specs.declared.limits.TheConstants.{DAY_MINUTES, CA_LOST_LIMIT, CA_DEFERRED_LOST_LIMIT};
ghost use Rattle.cycles_deferral.specs.DayMachine.{IsDayCount, IsShortOf, IsCanadaDays, IsAtDuty, lost_limit, days_made, fresh_days, days_turned, days_begun, rested_day, worked_day, keeps_earlier, keeps_later, keeps_days, needed, mark_between, days_after};
ghost use Rattle.cycles_deferral.specs.DayRuns.{days_at_once, days_run, days_rested_run, days_worked_run, worked_at_once};

use duty_core::{
    Activity, CA_BLOCK_LEAST, CA_BOTH_LOST_LIMIT, CA_DEFERRED_LOST_LIMIT, CA_FULL_REST,
    CA_LOST_LIMIT, DAY_MINUTES, Day, Mark, RestWay, is_rest,
};

/// The most rest that a deferral needs, in minutes: a full rest, and the most that is deferred
/// (SOR/2005-313, section 16).
pub const NEEDED_LIMIT: u32 = CA_FULL_REST + (CA_DEFERRED_LOST_LIMIT - CA_LOST_LIMIT);

/// What is counted of a day, in minutes.
#[derive(Clone, Copy, Debug, PartialEq, Eq)]
pub struct DayCount {
    /// The lost minutes, if only rest follows: duty, and rest in runs shorter than 30 minutes.
    pub lost: u32,
    /// The minutes of the rest run in progress, which are lost if duty follows. 0 once that run is
    /// 30 minutes long.
    pub short: u32,
    /// The longest rest run with a minute in the day, counted whole as far as it has come, and up
    /// to the most that a deferral needs: 600.
    pub longest: u32,
}

/// What is counted of the last three days.
#[derive(Clone, Copy, Debug, PartialEq, Eq)]
pub struct LastDays {
    /// What is counted of today.
    pub today: DayCount,
    /// What is counted of yesterday.
    pub yesterday: DayCount,
    /// The lost minutes of the day before yesterday.
    pub before: u32,
}

/// The lost minutes of three days, with the short rest that may still become lost, and the
/// deferral in progress (SOR/2005-313, sections 14 and 16). Which values there are is told by
/// `IsCanadaDays`.
#[derive(Clone, Copy, Debug, PartialEq, Eq)]
pub struct CanadaDays {
    way: RestWay,
    minute: u32,
    rest: u32,
    today: DayCount,
    yesterday: DayCount,
    before: u32,
    reaches: bool,
}

impl CanadaDays {
    /// The days after the rest before a history.
    pub fn fresh(way: RestWay) -> CanadaDays
        ensures days { result ≡ fresh_days way }
        ensures kept { IsCanadaDays result }
    {
        let rested = DayCount {
            lost: 0,
            short: 0,
            longest: NEEDED_LIMIT,
        };
        CanadaDays {
            way,
            minute: 0,
            rest: NEEDED_LIMIT,
            today: rested,
            yesterday: rested,
            before: 0,
            reaches: true,
        }
    }

    /// The days after one more minute of `day`, which begins that day where `new_day`, and the mark
    /// that is chosen at it: of `day`, or of the day before where duty ends a short rest over
    /// midnight. `None` exactly where the history with this minute, and rest after it, breaks
    /// CA-OFF10 or CA-DEFER.
    ///
    /// This is so of calls that take the successive minutes of one history. A day ends 1,440 minutes
    /// after its first one.
    pub fn unit(self, act: Activity, new_day: bool, day: Day) -> Option<(CanadaDays, Option<Mark>)>
        requires good { IsCanadaDays self }
        requires day { negsuc 0 ≤ℤ day }
        ensures days { result ≡ days_after self act new_day day }
        ensures kept { IfSome result (λ r. IsCanadaDays r.0) }
    {
        self.on(act, new_day, day, 1)
    }

    /// The days after `n` more equal minutes of `day`, at least one, of which only the first may
    /// begin that day: what `n` calls of `unit` give. `None` exactly where one of them gives none.
    /// At most one of them chooses a mark, and that mark is given.
    pub fn run(
        self,
        act: Activity,
        new_day: bool,
        day: Day,
        n: u32,
    ) -> Option<(CanadaDays, Option<Mark>)>
        requires good { IsCanadaDays self }
        requires day { negsuc 0 ≤ℤ day }
        requires some { 1 ≤ n }
        ensures days { result ≡ days_run self act new_day day n }
        ensures kept { IfSome result (λ r. IsCanadaDays r.0) }
    {
        self.on(act, new_day, day, n)
    }

    /// The days after `n` more minutes, all at once.
    fn on(
        self,
        act: Activity,
        new_day: bool,
        day: Day,
        n: u32,
    ) -> Option<(CanadaDays, Option<Mark>)>
        requires good { IsCanadaDays self }
        requires day { negsuc 0 ≤ℤ day }
        requires some { 1 ≤ n }
        ensures days { result ≡ days_at_once (days_begun new_day self) act day n }
        ensures kept { IfSome result (λ r. IsCanadaDays r.0) }
    {
        let begun = if new_day { self.turned() } else { self };
        if is_rest(act) {
            return Some((begun.rested(n), None));
        }
        begun.at_duty(day, n)
    }

    /// The days after `n` more minutes of duty in today, and the mark that is chosen at one of them.
    #[tactic(auto, using(crate::specs::Laws::DayRuns::too_many))]
    fn at_duty(self, day: Day, n: u32) -> Option<(CanadaDays, Option<Mark>)>
        requires good { IsCanadaDays self }
        requires day { negsuc 0 ≤ℤ day }
        requires some { 1 ≤ n }
        ensures days { result ≡ worked_at_once self day n }
        ensures kept { IfSome result (λ r. IsCanadaDays r.0) }
    {
        if DAY_MINUTES < n {
            return None;
        }
        let after = self.worked(n);
        if !after.is_lawful() {
            return None;
        }
        Some((after, self.mark(after, day)))
    }

    /// How the history may part its rest.
    pub fn way(self) -> RestWay
        ensures { result ≡ self.way }
    {
        self.way
    }

    /// The minutes of today so far, as far as they were seen: at most 1,440.
    pub fn minute(self) -> u32
        ensures { result ≡ self.minute }
    {
        self.minute
    }

    /// The rest run in progress, in minutes, up to the most that a deferral needs: 600.
    pub fn rest(self) -> u32
        ensures { result ≡ self.rest }
    {
        self.rest
    }

    /// What is counted of today.
    pub fn today(self) -> DayCount
        ensures { result ≡ self.today }
    {
        self.today
    }

    /// What is counted of yesterday.
    pub fn yesterday(self) -> DayCount
        ensures { result ≡ self.yesterday }
    {
        self.yesterday
    }

    /// The lost minutes of the day before yesterday.
    pub fn before(self) -> u32
        ensures { result ≡ self.before }
    {
        self.before
    }

    /// Whether the rest run in progress has a minute in yesterday.
    pub fn reaches(self) -> bool
        ensures { result ≡ self.reaches }
    {
        self.reaches
    }

    /// The days with these parts. `None` exactly where no days have them.
    pub fn of_parts(
        way: RestWay,
        minute: u32,
        rest: u32,
        last: LastDays,
        reaches: bool,
    ) -> Option<CanadaDays>
        ensures some { IsSome result ↔ IsCanadaDays (days_made way minute rest last.today last.yesterday last.before reaches) }
        ensures parts { IfSome result (λ s. s ≡ days_made way minute rest last.today last.yesterday last.before reaches) }
    {
        let days = CanadaDays {
            way,
            minute,
            rest,
            today: last.today,
            yesterday: last.yesterday,
            before: last.before,
            reaches,
        };
        days.is_kept().then_some(days)
    }

    /// Whether days have these parts.
    fn is_kept(self) -> bool
        ensures { (result ≡ true) ↔ IsCanadaDays self }
    {
        let limit = lost_limit(self.way);
        let lost = self.today.is_kept(limit) && self.yesterday.is_kept(limit);
        let counted = self.minute <= DAY_MINUTES && self.before <= limit;
        lost && counted && self.has_short()
    }

    /// Whether the rest run in progress has such short parts.
    fn has_short(self) -> bool
        ensures { (result ≡ true) ↔ IsShortOf self.rest self.today.short self.yesterday.short }
    {
        let (today, yesterday) = (self.today.short, self.yesterday.short);
        let long = CA_BLOCK_LEAST <= self.rest && self.rest <= NEEDED_LIMIT;
        let none = today == 0 && yesterday == 0;
        let short = today <= self.rest && yesterday <= self.rest - today;
        (long && none) || (self.rest < CA_BLOCK_LEAST && short)
    }

    /// A new day begins.
    pub(crate) fn turned(self) -> CanadaDays
        requires good { IsCanadaDays self }
        ensures days { result ≡ days_turned self }
        ensures kept { IsCanadaDays result }
    {
        CanadaDays {
            minute: 0,
            today: DayCount {
                lost: 0,
                short: 0,
                longest: 0,
            },
            yesterday: self.today,
            before: self.yesterday.lost,
            reaches: 0 < self.rest,
            ..self
        }
    }

    /// `n` more minutes of rest today.
    fn rested(self, n: u32) -> CanadaDays
        requires good { IsCanadaDays self }
        requires some { 1 ≤ n }
        ensures days { result ≡ days_rested_run n self }
        ensures kept { IsCanadaDays result }
    {
        let rest = self.rest.saturating_add(n).min(NEEDED_LIMIT);
        CanadaDays {
            minute: self.minute.saturating_add(n).min(DAY_MINUTES),
            rest,
            today: self.today.rested(rest, n, true),
            yesterday: self.yesterday.rested(rest, 0, self.reaches),
            ..self
        }
    }

    /// `n` more minutes of duty today, the first of which ends the rest run in progress.
    fn worked(self, n: u32) -> CanadaDays
        requires good { IsCanadaDays self }
        requires few { n ≤ DAY_MINUTES }
        ensures days { result ≡ days_worked_run n self }
        ensures asked { IsAtDuty result }
    {
        CanadaDays {
            minute: (self.minute + n).min(DAY_MINUTES),
            rest: 0,
            today: self.today.worked(n),
            yesterday: self.yesterday.worked(0),
            reaches: false,
            ..self
        }
    }

    /// Whether the days with this minute, the last one of `self`, keep CA-OFF10 and CA-DEFER.
    fn is_lawful(self) -> bool
        requires asked { IsAtDuty self }
        ensures keeps { result ≡ keeps_days self }
        ensures kept { result ≡ true → IsCanadaDays self }
    {
        match self.way {
            RestWay::Split => {
                self.yesterday.lost <= CA_LOST_LIMIT && self.today.lost <= CA_LOST_LIMIT
            }
            RestWay::Defer => {
                self.ends_deferral()
                    && self.may_defer()
                    && self.today.lost <= CA_DEFERRED_LOST_LIMIT
            }
        }
    }

    /// Whether yesterday is a second day for the day before, where rest of that was deferred.
    fn ends_deferral(self) -> bool
        requires asked { IsAtDuty self }
        ensures { result ≡ keeps_earlier self }
    {
        self.before <= CA_LOST_LIMIT
            || (self.before + self.yesterday.lost <= CA_BOTH_LOST_LIMIT
                && needed(self.before) <= self.yesterday.longest)
    }

    /// Whether today is a second day for yesterday, where rest of that is deferred, or may become
    /// one: not in the last minute of today without the rest that is needed.
    fn may_defer(self) -> bool
        requires asked { IsAtDuty self }
        ensures { result ≡ keeps_later self }
    {
        let lost = self.yesterday.lost;
        let more = self.minute < DAY_MINUTES;
        lost <= CA_LOST_LIMIT
            || (lost <= CA_DEFERRED_LOST_LIMIT
                && lost + self.today.lost <= CA_BOTH_LOST_LIMIT
                && (more || needed(lost) <= self.today.longest))
    }

    /// The mark of the day that began to lose too much from these days to `after`, where `day` is
    /// today.
    fn mark(self, after: CanadaDays, day: Day) -> Option<Mark>
        requires day { negsuc 0 ≤ℤ day }
        ensures { result ≡ mark_between self after day }
    {
        if self.today.lost <= CA_LOST_LIMIT && CA_LOST_LIMIT < after.today.lost {
            Some(Mark::DeferDay { day })
        } else if self.yesterday.lost <= CA_LOST_LIMIT && CA_LOST_LIMIT < after.yesterday.lost {
            Some(Mark::DeferDay { day: day - 1 })
        } else {
            None
        }
    }
}

impl DayCount {
    /// Whether a day in which at most `limit` minutes may be lost has these numbers.
    fn is_kept(self, limit: u32) -> bool
        ensures { (result ≡ true) ↔ IsDayCount limit self }
    {
        self.lost <= limit && self.longest <= NEEDED_LIMIT
    }

    /// The day with more rest, where the run in progress has `rest` minutes with it: `n` more of the
    /// day, and `holds` tells whether the run has a minute in the day.
    fn rested(self, rest: u32, n: u32, holds: bool) -> DayCount
        requires few { rest < NEEDED_LIMIT → n ≤ rest }
        requires short { self.short < CA_BLOCK_LEAST }
        ensures { result ≡ rested_day rest n holds self }
    {
        DayCount {
            lost: self.lost,
            short: if rest < CA_BLOCK_LEAST {
                self.short + n
            } else {
                0
            },
            longest: if holds {
                self.longest.max(rest)
            } else {
                self.longest
            },
        }
    }

    /// The day where duty ends the rest run in progress, with `n` minutes of that duty.
    fn worked(self, n: u32) -> DayCount
        requires few { n ≤ DAY_MINUTES }
        requires lost { self.lost ≤ CA_DEFERRED_LOST_LIMIT }
        requires short { self.short < CA_BLOCK_LEAST }
        ensures { result ≡ worked_day n self }
    {
        DayCount {
            lost: self.lost + self.short + n,
            short: 0,
            longest: self.longest,
        }
    }
}

/// The most lost minutes of a day.
fn lost_limit(way: RestWay) -> u32
    ensures { result ≡ lost_limit way }
{
    match way {
        RestWay::Split => CA_LOST_LIMIT,
        RestWay::Defer => CA_DEFERRED_LOST_LIMIT,
    }
}

/// The rest that is needed in the second day, where so many minutes of the first one are lost: a
/// full rest, and what was deferred (SOR/2005-313, section 16).
pub(crate) fn needed(lost: u32) -> u32
    requires { lost ≤ DAY_MINUTES }
    ensures { result ≡ needed lost }
{
    CA_FULL_REST + lost.saturating_sub(CA_LOST_LIMIT)
}
