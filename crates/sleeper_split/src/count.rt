//! What is counted of a history for full rests, split rests and pairs.
ghost use Rattle.std.specs.Prelude.{◌≡◌, ◌<◌, ◌≤◌, ◌↔◌, true, IsNone, IsSome, IfSome};
ghost use Rattle.sleeper_split.specs.Covers.{is_within};
ghost use Rattle.sleeper_split.specs.Runs.{repeated, more, longer_run, rested_run, worked_run};
ghost use Rattle.sleeper_split.specs.Machine.{IsSplitCount, IsOpenRun, IsUsed, IsWithin, IsWaitingRest, IsNoSplit, IsNoFull, fresh_count, made, after_rest, after_duty, end_undeclared, end_split, end_full, used_of, run_of, may_pair, longer, rested, worked, one_more, has_split_berth, has_pair_berth};

use crate::rule::{BerthRule, SplitRule};
use duty_core::{COUNT_LIMIT, PADDING_MINUTES, US_PAIR_BERTH};

/// What is counted from some place of a history on, in minutes, each at most 999,999.
#[derive(Clone, Copy, Debug, PartialEq, Eq)]
pub struct Used {
    /// The driving.
    pub driving: u32,
    /// The duty, driving included.
    pub duty: u32,
    /// The time that has passed.
    pub elapsed: u32,
}

/// The rest run that a history ends with, in minutes. All are 0 where it ends with duty.
#[derive(Clone, Copy, Debug, PartialEq, Eq)]
pub struct OpenRun {
    /// Its length so far.
    pub long: u32,
    /// The time in the berth that it ends with.
    pub stretch: u32,
    /// Its longest consecutive time in the berth.
    pub longest: u32,
}

/// A split rest that waits for its pair, in minutes.
#[derive(Clone, Copy, Debug, PartialEq, Eq)]
pub struct WaitingRest {
    /// Its length.
    pub long: u32,
    /// Its longest consecutive time in the berth.
    pub berth: u32,
}

/// What a count is asked for, since the base: driving, duty, or the time that has passed.
#[derive(Clone, Copy, Debug, PartialEq, Eq)]
pub enum Since {
    Driving,
    Duty,
    Elapsed,
}

/// The counts of a history: since the base, since the last full or split rest, the split rest that
/// waits for its pair, and the rest run in progress. Which counts there are is told by
/// `IsSplitCount`: each is at most 999,999, where it stays.
#[derive(Clone, Copy, Debug, PartialEq, Eq)]
pub struct SplitCount {
    run: OpenRun,
    base: Used,
    last: Used,
    waiting: Option<WaitingRest>,
}

impl OpenRun {
    /// No rest run in progress.
    const NONE: OpenRun = OpenRun {
        long: 0,
        stretch: 0,
        longest: 0,
    };
}

impl Used {
    /// Nothing counted.
    const NONE: Used = Used {
        driving: 0,
        duty: 0,
        elapsed: 0,
    };
}

impl SplitCount {
    /// The counts after the rest before a history, which is the run in progress.
    pub fn fresh() -> SplitCount
        ensures counts { result ≡ fresh_count }
        ensures kept { IsSplitCount result }
    {
        let passed = Used {
            elapsed: PADDING_MINUTES,
            ..Used::NONE
        };
        SplitCount {
            run: OpenRun {
                long: PADDING_MINUTES,
                ..OpenRun::NONE
            },
            base: passed,
            last: passed,
            waiting: None,
        }
    }

    /// After one more minute of duty, driving or not.
    pub fn duty(self, driving: bool) -> SplitCount
        requires good { IsSplitCount self }
        requires none { run_of self ≡ 0 }
        ensures counts { result ≡ after_duty driving self }
        ensures kept { IsSplitCount result }
    {
        SplitCount {
            run: OpenRun::NONE,
            base: self.base.worked(driving),
            last: self.last.worked(driving),
            waiting: self.waiting,
        }
    }

    /// After one more minute of rest, in the berth or not.
    pub fn rest(self, berth: bool) -> SplitCount
        requires good { IsSplitCount self }
        ensures counts { result ≡ after_rest berth self }
        ensures kept { IsSplitCount result }
    {
        SplitCount {
            run: self.run.longer(berth),
            base: self.base.rested(),
            last: self.last.rested(),
            waiting: self.waiting,
        }
    }

    /// After `n` more minutes of duty, at least one, driving or not: what `n` calls of `duty` give.
    #[tactic(auto, using(crate::specs::Laws::Runs::works_at_once))]
    pub fn duty_run(self, driving: bool, n: u32) -> SplitCount
        requires good { IsSplitCount self }
        requires none { run_of self ≡ 0 }
        requires some { 1 ≤ n }
        ensures counts { result ≡ repeated (after_duty driving) n self }
        ensures kept { IsSplitCount result }
    {
        SplitCount {
            run: OpenRun::NONE,
            base: self.base.worked_run(driving, n),
            last: self.last.worked_run(driving, n),
            waiting: self.waiting,
        }
    }

    /// After `n` more minutes of rest, at least one, in the berth or not: what `n` calls of `rest`
    /// give.
    #[tactic(auto, using(crate::specs::Laws::Runs::rests_at_once))]
    pub fn rest_run(self, berth: bool, n: u32) -> SplitCount
        requires good { IsSplitCount self }
        requires some { 1 ≤ n }
        ensures counts { result ≡ repeated (after_rest berth) n self }
        ensures kept { IsSplitCount result }
    {
        SplitCount {
            run: self.run.longer_run(berth, n),
            base: self.base.rested_run(n),
            last: self.last.rested_run(n),
            waiting: self.waiting,
        }
    }

    /// The run in progress ends, and is neither a full nor a split rest. `None` exactly where it is
    /// at least as long as a full rest.
    pub fn end_undeclared(self, rule: SplitRule) -> Option<SplitCount>
        requires good { IsSplitCount self }
        requires some { 0 < run_of self }
        ensures counts { result ≡ end_undeclared rule self }
        ensures none { IsNone result ↔ rule.full ≤ run_of self }
        ensures kept { IfSome result IsSplitCount }
        ensures ended { IfSome result (λ s. run_of s ≡ 0) }
    {
        (self.run.long < rule.full).then(|| SplitCount {
            run: OpenRun::NONE,
            ..self
        })
    }

    /// The run in progress ends as a split rest, which waits for its pair. `None` exactly where it
    /// is too short, or as long as a full rest, or is not in the berth where the rule asks for it,
    /// or is no pair with the split rest that waits.
    pub fn end_split(self, rule: SplitRule) -> Option<SplitCount>
        requires good { IsSplitCount self }
        requires some { 0 < run_of self }
        ensures counts { result ≡ end_split rule self }
        ensures none { IsNone result ↔ IsNoSplit rule self }
        ensures kept { IfSome result IsSplitCount }
        ensures ended { IfSome result (λ s. run_of s ≡ 0) }
    {
        let long = self.run.long;
        let fits = rule.least <= long && long < rule.full;
        (fits && self.run.may_wait(rule.berth) && self.may_pair(rule)).then(|| SplitCount {
            run: OpenRun::NONE,
            base: Used {
                elapsed: self.last.elapsed - long,
                ..self.last
            },
            last: Used::NONE,
            waiting: Some(WaitingRest {
                long,
                berth: self.run.longest,
            }),
        })
    }

    /// The run in progress ends as a full rest. `None` exactly where it is shorter, or is no pair
    /// with the split rest that waits.
    pub fn end_full(self, rule: SplitRule) -> Option<SplitCount>
        requires good { IsSplitCount self }
        requires some { 0 < run_of self }
        ensures counts { result ≡ end_full rule self }
        ensures none { IsNone result ↔ IsNoFull rule self }
        ensures kept { IfSome result IsSplitCount }
        ensures ended { IfSome result (λ s. run_of s ≡ 0) }
    {
        (rule.full <= self.run.long && self.may_pair(rule)).then(|| SplitCount {
            run: OpenRun::NONE,
            base: Used::NONE,
            last: Used::NONE,
            waiting: None,
        })
    }

    /// What has been used since the base, in minutes.
    pub fn used(self, kind: Since) -> u32
        ensures { result ≡ used_of kind self }
    {
        match kind {
            Since::Driving => self.base.driving,
            Since::Duty => self.base.duty,
            Since::Elapsed => self.base.elapsed,
        }
    }

    /// The rest run in progress.
    pub fn run(self) -> OpenRun
        ensures { result ≡ self.run }
    {
        self.run
    }

    /// What is counted since the base.
    pub fn base(self) -> Used
        ensures { result ≡ self.base }
    {
        self.base
    }

    /// What is counted since the last full or split rest.
    pub fn last(self) -> Used
        ensures { result ≡ self.last }
    {
        self.last
    }

    /// The split rest that waits for its pair.
    pub fn waiting(self) -> Option<WaitingRest>
        ensures { result ≡ self.waiting }
    {
        self.waiting
    }

    /// The counts with these parts. `None` exactly where no counts have them.
    pub fn of_parts(
        run: OpenRun,
        base: Used,
        last: Used,
        waiting: Option<WaitingRest>,
    ) -> Option<SplitCount>
        ensures some { IsSome result ↔ IsSplitCount (made run base last waiting) }
        ensures parts { IfSome result (λ s. s ≡ made run base last waiting) }
        ensures kept { IfSome result IsSplitCount }
    {
        let thereafter = run.is_kept()
            && base.is_kept()
            && last.is_kept()
            && run.long <= last.elapsed;
        let later = last.is_within(base) && is_kept(waiting);
        (thereafter && later && (waiting.is_some() || base == last)).then_some(SplitCount {
            run,
            base,
            last,
            waiting,
        })
    }

    /// Whether the run in progress and the split rest that waits, if any, are a pair.
    pub(crate) fn may_pair(self, rule: SplitRule) -> bool
        requires good { IsSplitCount self }
        ensures { result ≡ may_pair rule self.waiting self.run }
    {
        match self.waiting {
            None => true,
            Some(rest) => {
                rule.pair <= rest.long.saturating_add(self.run.long)
                    && self.run.pairs(rule.berth, rest)
            }
        }
    }
}

impl OpenRun {
    /// One more minute of rest, in the berth or not.
    fn longer(self, berth: bool) -> OpenRun
        requires { IsOpenRun self }
        ensures { result ≡ longer berth self }
    {
        let stretch = if berth { one_more(self.stretch) } else { 0 };
        OpenRun {
            long: one_more(self.long),
            stretch,
            longest: self.longest.max(stretch),
        }
    }

    /// So many more minutes of rest, in the berth or not.
    fn longer_run(self, berth: bool, n: u32) -> OpenRun
        requires { IsOpenRun self }
        ensures { result ≡ longer_run berth n self }
    {
        let stretch = if berth { more(n, self.stretch) } else { 0 };
        OpenRun {
            long: more(n, self.long),
            stretch,
            longest: self.longest.max(stretch),
        }
    }

    /// Whether the time in the berth serves for a split rest.
    pub(crate) fn may_wait(self, berth: BerthRule) -> bool
        ensures { result ≡ has_split_berth berth self }
    {
        match berth {
            BerthRule::SevenInOne => true,
            BerthRule::AllOfNext => self.stretch == self.long,
        }
    }

    /// Whether the time in the berth serves for a pair with an earlier split rest.
    pub(crate) fn pairs(self, berth: BerthRule, rest: WaitingRest) -> bool
        ensures { result ≡ has_pair_berth berth rest self }
    {
        match berth {
            BerthRule::SevenInOne => US_PAIR_BERTH <= rest.berth || US_PAIR_BERTH <= self.longest,
            BerthRule::AllOfNext => self.stretch == self.long,
        }
    }

    /// Whether a run in progress has these numbers.
    fn is_kept(self) -> bool
        ensures { (result ≡ true) ↔ IsOpenRun self }
    {
        self.stretch <= self.longest && self.longest <= self.long && self.long <= COUNT_LIMIT
    }
}

impl Used {
    /// One more minute of rest.
    fn rested(self) -> Used
        requires { IsUsed self }
        ensures { result ≡ rested self }
    {
        Used {
            elapsed: one_more(self.elapsed),
            ..self
        }
    }

    /// One more minute of duty, driving or not.
    fn worked(self, drive: bool) -> Used
        requires { IsUsed self }
        ensures { result ≡ worked drive self }
    {
        Used {
            driving: if drive {
                one_more(self.driving)
            } else {
                self.driving
            },
            duty: one_more(self.duty),
            elapsed: one_more(self.elapsed),
        }
    }

    /// So many more minutes of rest.
    fn rested_run(self, n: u32) -> Used
        requires { IsUsed self }
        ensures { result ≡ rested_run n self }
    {
        Used {
            elapsed: more(n, self.elapsed),
            ..self
        }
    }

    /// So many more minutes of duty, driving or not.
    fn worked_run(self, drive: bool, n: u32) -> Used
        requires { IsUsed self }
        ensures { result ≡ worked_run drive n self }
    {
        Used {
            driving: if drive {
                more(n, self.driving)
            } else {
                self.driving
            },
            duty: more(n, self.duty),
            elapsed: more(n, self.elapsed),
        }
    }

    /// Whether counts from one place have these numbers.
    fn is_kept(self) -> bool
        ensures { (result ≡ true) ↔ IsUsed self }
    {
        self.driving <= self.duty && self.duty <= COUNT_LIMIT && self.elapsed <= COUNT_LIMIT
    }

    /// Whether no count is more than that of `other`.
    pub(crate) fn is_within(self, other: Used) -> bool
        ensures relation { (result ≡ true) ↔ IsWithin self other }
        ensures test { result ≡ is_within self other }
    {
        self.driving <= other.driving && self.duty <= other.duty && self.elapsed <= other.elapsed
    }
}

/// One more, up to the greatest count.
fn one_more(count: u32) -> u32
    requires { count ≤ COUNT_LIMIT }
    ensures { result ≡ one_more count }
{
    (count + 1).min(COUNT_LIMIT)
}

/// So many more, up to the greatest count.
fn more(n: u32, count: u32) -> u32
    requires { count ≤ COUNT_LIMIT }
    ensures { result ≡ more n count }
{
    count.saturating_add(n).min(COUNT_LIMIT)
}

/// Whether a split rest that waits has these numbers, if there is one.
fn is_kept(waiting: Option<WaitingRest>) -> bool
    ensures { (result ≡ true) ↔ IsWaitingRest waiting }
{
    match waiting {
        None => true,
        Some(rest) => rest.berth <= rest.long && rest.long <= COUNT_LIMIT,
    }
}
