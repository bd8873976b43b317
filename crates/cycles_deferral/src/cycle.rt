//! The counts of a cycle.
ghost use Rattle.std.specs.Prelude.{◌≡◌, ◌+◌, ◌<◌, ◌≤◌, ◌↔◌, true, length, IsSome, IfSome};
ghost use Rattle.duty_core.specs.CaCycle.{cycle_days, cycle_reset, cycle_limit};
ghost use Rattle.duty_core.specs.declared.limits.TheConstants.{DAY_MINUTES, CA_CYCLE_2_RESET};
ghost use Rattle.day_sums.specs.Sums.{IsDays, today};
ghost use Rattle.day_sums.specs.Counted.{turned};
ghost use Rattle.cycles_deferral.specs.CycleMachine.{IsCycleCount, HasRoom, cycle_made, fresh_cycle, keeps_cycle, cycle_after};
ghost use Rattle.cycles_deferral.specs.CycleRuns.{HasRoomFor, cycle_at_once, cycle_run, cycle_rested_run, cycle_worked_run, worked_at_once};

use day_sums::DaySums;
use duty_core::{
    Activity, CA_CYCLE_1, CA_CYCLE_1_DAYS, CA_CYCLE_1_LIMIT, CA_CYCLE_1_RESET, CA_CYCLE_2,
    CA_CYCLE_2_DAYS, CA_CYCLE_2_LIMIT, CA_CYCLE_2_RESET, CA_DAY_OFF, CA_DAY_OFF_WITHIN,
    CA_WITHOUT_DAY_OFF_LIMIT, is_rest,
};

/// The time since the end of the last day off with which no day off lies in the fortnight before a
/// minute any more, in minutes (SOR/2005-313, section 25).
pub const SINCE_LIMIT: u32 = CA_DAY_OFF_WITHIN - CA_DAY_OFF + 1;

/// More duty without a day off than driving allows, in minutes (SOR/2005-313, section 27).
pub const WITHOUT_LIMIT: u32 = CA_WITHOUT_DAY_OFF_LIMIT + 1;

/// The counts of a cycle: the duty of its days, the time since the last day off, and in cycle 2 the
/// duty without one (SOR/2005-313, sections 24 to 28). Which values there are is told by
/// `IsCycleCount`.
#[derive(Clone, Copy)]
pub struct CycleCount {
    cycle: u8,
    rest: u32,
    sums: DaySums,
    since: u32,
    without: u32,
}

impl CycleCount {
    /// The counts after the rest before a history. `cycle` is 1 or 2; another number has the days,
    /// the reset and the limit of cycle 2.
    pub fn fresh(cycle: u8) -> CycleCount
        ensures counts { result ≡ fresh_cycle cycle }
        ensures kept { IsCycleCount result }
    {
        CycleCount {
            cycle,
            rest: reset_of(cycle),
            sums: DaySums::new(days_of(cycle)),
            since: 0,
            without: 0,
        }
    }

    /// The counts after one more minute, which begins a day where `new_day`. `None` exactly where
    /// the minute is Drive, and CA-CYCLE, CA-70WITHOUT24 or CA-24IN14 is broken at it.
    ///
    /// This is so of calls that take the successive minutes of one history. The duty of the current
    /// day, that of the minute counted, must be at most 1,440 minutes.
    pub fn unit(self, act: Activity, new_day: bool) -> Option<CycleCount>
        requires good { IsCycleCount self }
        requires room { HasRoom self act new_day }
        ensures counts { result ≡ cycle_after self act new_day }
        ensures kept { IfSome result IsCycleCount }
    {
        self.on(act, new_day, 1)
    }

    /// The counts after `n` more equal minutes of a day, at least one, of which only the first may
    /// begin it: what `n` calls of `unit` give. `None` exactly where one of them gives none. The
    /// duty of the day, that of these minutes counted, must be at most 1,440 minutes.
    #[tactic(auto, using(crate::specs::Laws::CycleRuns::cycle_run_at_once))]
    pub fn run(self, act: Activity, new_day: bool, n: u32) -> Option<CycleCount>
        requires good { IsCycleCount self }
        requires some { 1 ≤ n }
        requires room { HasRoomFor self act new_day n }
        ensures counts { result ≡ cycle_run self act new_day n }
        ensures kept { IfSome result IsCycleCount }
    {
        self.on(act, new_day, n)
    }

    /// The counts after `n` more minutes, all at once.
    fn on(self, act: Activity, new_day: bool, n: u32) -> Option<CycleCount>
        requires good { IsCycleCount self }
        requires some { 1 ≤ n }
        requires room { HasRoomFor self act new_day n }
        ensures counts { result ≡ cycle_at_once self act new_day n }
        ensures kept { IfSome result IsCycleCount }
    {
        if is_rest(act) {
            return Some(self.rested(new_day, n));
        }
        self.at_duty(act, new_day, n)
    }

    /// The counts after `n` more minutes of duty, where driving is allowed in each of them.
    fn at_duty(self, act: Activity, new_day: bool, n: u32) -> Option<CycleCount>
        requires good { IsCycleCount self }
        requires some { 1 ≤ n }
        requires room { today (turned new_day self.sums) + n ≤ DAY_MINUTES }
        ensures counts { result ≡ worked_at_once self act new_day n }
        ensures kept { IfSome result IsCycleCount }
    {
        let after = self.worked(new_day, n);
        let drives = matches!(act, Activity::Drive);
        if drives && !(self.since + (n - 1) < SINCE_LIMIT && after.keeps_limits()) {
            return None;
        }
        Some(after)
    }

    /// The number of the cycle.
    pub fn cycle(&self) -> u8
        ensures { result ≡ self.now.cycle }
    {
        self.cycle
    }

    /// The duty of the cycle that driving allows, in minutes (SOR/2005-313, sections 26 and 27).
    pub fn limit(&self) -> u32
        ensures { result ≡ cycle_limit self.now.cycle }
    {
        if self.cycle as u32 == CA_CYCLE_1 {
            CA_CYCLE_1_LIMIT
        } else {
            CA_CYCLE_2_LIMIT
        }
    }

    /// The rest run in progress, in minutes, up to a reset.
    pub fn rest(&self) -> u32
        ensures { result ≡ self.now.rest }
    {
        self.rest
    }

    /// The duty of the days of the cycle since the last reset, zeros while the history ends with
    /// one.
    pub fn sums(&self) -> DaySums
        ensures { result ≡ self.now.sums }
    {
        self.sums
    }

    /// The time since 24 consecutive hours of rest were there, in minutes: 0 while these last, and
    /// at most 18,721, with which they don't lie in the fortnight before a minute any more.
    pub fn since(&self) -> u32
        ensures { result ≡ self.now.since }
    {
        self.since
    }

    /// The duty since the last rest run of 24 hours, in minutes, up to 4,201: in cycle 2, and 0
    /// while the history ends with such a run.
    pub fn without(&self) -> u32
        ensures { result ≡ self.now.without }
    {
        self.without
    }

    /// The counts with these parts. `None` exactly where no counts have them.
    pub fn of_parts(
        cycle: u8,
        rest: u32,
        sums: DaySums,
        since: u32,
        without: u32,
    ) -> Option<CycleCount>
        ensures some { IsSome result ↔ IsCycleCount (cycle_made cycle rest sums since without) }
        ensures parts { IfSome result (λ s. s ≡ cycle_made cycle rest sums since without) }
    {
        let counted = sums.days() == days_of(cycle) && rest <= reset_of(cycle);
        let bounded = since <= SINCE_LIMIT && without <= WITHOUT_LIMIT;
        let asked = cycle as u32 == CA_CYCLE_2 || without == 0;
        (counted && bounded && asked).then_some(CycleCount {
            cycle,
            rest,
            sums,
            since,
            without,
        })
    }

    /// The sums where a day may begin.
    fn turned(self, new_day: bool) -> DaySums
        ensures { result ≡ turned new_day self.sums }
    {
        let mut sums = self.sums;
        if new_day {
            sums.roll_day();
        }
        sums
    }

    /// `n` more minutes of rest.
    fn rested(self, new_day: bool, n: u32) -> CycleCount
        requires good { IsCycleCount self }
        ensures counts { result ≡ cycle_rested_run n self new_day }
        ensures kept { IsCycleCount result }
    {
        let rest = self.rest.saturating_add(n);
        let reset = reset_of(self.cycle);
        let mut sums = self.turned(new_day);
        if reset <= rest {
            sums.reset();
        }
        let short = rest < CA_DAY_OFF;
        CycleCount {
            cycle: self.cycle,
            rest: rest.min(reset),
            sums,
            since: if short {
                self.since.saturating_add(n).min(SINCE_LIMIT)
            } else {
                0
            },
            without: if short { self.without } else { 0 },
        }
    }

    /// `n` more minutes of duty.
    fn worked(self, new_day: bool, n: u32) -> CycleCount
        requires good { IsCycleCount self }
        requires room { today (turned new_day self.sums) + n ≤ DAY_MINUTES }
        ensures counts { result ≡ cycle_worked_run n self new_day }
        ensures kept { IsCycleCount result }
    {
        let mut sums = self.turned(new_day);
        sums.add(n);
        CycleCount {
            cycle: self.cycle,
            rest: 0,
            sums,
            since: (self.since + n).min(SINCE_LIMIT),
            without: if self.cycle as u32 == CA_CYCLE_2 {
                (self.without + n).min(WITHOUT_LIMIT)
            } else {
                0
            },
        }
    }

    /// Whether the duty of the cycle, and without a day off, is within its limits.
    fn keeps_limits(self) -> bool
        ensures { result ≡ keeps_cycle self }
    {
        self.sums.total() <= self.limit() && self.without <= CA_WITHOUT_DAY_OFF_LIMIT
    }
}

/// The number of days of a cycle.
fn days_of(cycle: u8) -> u8
    ensures days { result ≡ cycle_days cycle }
    ensures kept { IsDays result }
{
    if cycle as u32 == CA_CYCLE_1 {
        CA_CYCLE_1_DAYS as u8
    } else {
        CA_CYCLE_2_DAYS as u8
    }
}

/// The rest after which a cycle begins anew, in minutes.
fn reset_of(cycle: u8) -> u32
    ensures reset { result ≡ cycle_reset cycle }
    ensures few { result ≤ CA_CYCLE_2_RESET }
{
    if cycle as u32 == CA_CYCLE_1 {
        CA_CYCLE_1_RESET
    } else {
        CA_CYCLE_2_RESET
    }
}
