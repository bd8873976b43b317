//! Which counts may stand for others, whatever comes next, and when resting is safe.
ghost use Rattle.std.specs.Prelude.{nat_le, ◌&&◌, ◌≡◌, ◌↔◌, ◌≤◌, true};
ghost use Rattle.sleeper_split.specs.Machine.{IsSplitCount, IsOpenRun, IsUsed, run_of, may_pair, has_split_berth, without_run};
ghost use Rattle.sleeper_split.specs.Covers.{IsCountOf, Covers, covers_count, is_fresher, is_no_worse, is_owing, is_owed, is_deep, is_spent, is_worn, is_no_more, is_last_no_more, is_wait_no_worse, is_berth_no_worse, is_ahead, is_free, is_ready, enough, is_berth_enough, serving, waits_none};

use crate::count::{OpenRun, SplitCount, Used, WaitingRest};
use crate::rule::{BerthRule, SplitRule};
use duty_core::US_PAIR_BERTH;

impl SplitCount {
    /// Whether the counts are some of the rule, where `may` tells whether rests may be split: a
    /// split rest waits only where they may, and is one of the rule.
    pub fn is_of(self, rule: SplitRule, may: bool) -> bool
        requires { IsSplitCount self }
        ensures { (result ≡ true) ↔ IsCountOf rule may self }
    {
        match self.waiting() {
            None => true,
            Some(rest) => may && rule.least <= rest.long && rest.long < rule.full,
        }
    }

    /// Whether these counts may stand for `other`, whatever comes next: what the other may still do
    /// by the tour's own rest and by duty, these may do too, and no count is then worse. `may` tells
    /// whether rests may be split.
    #[tactic(auto, using(crate::specs::Laws::CoverTests::covers_decides))]
    pub fn covers(self, other: SplitCount, rule: SplitRule, may: bool) -> bool
        requires good { IsSplitCount self }
        requires other_good { IsSplitCount other }
        ensures test { result ≡ covers_count rule may self other }
        ensures relation { (result ≡ true) ↔ Covers rule may self other }
    {
        self.may_stand(other, rule, may)
    }

    /// The test of `covers`: the run in progress is a full rest, or no count is worse, or the run may
    /// still be declared as a split rest as that of `other` was.
    fn may_stand(self, other: SplitCount, rule: SplitRule, may: bool) -> bool
        requires good { IsSplitCount self }
        requires other_good { IsSplitCount other }
        ensures { result ≡ covers_count rule may self other }
    {
        self.is_fresher(rule)
            || self.is_no_worse(other, rule, may)
            || self.is_owing(other, rule, may)
    }

    /// Whether resting in place of anything else is safe: the rest run in progress is all in the
    /// berth, or no split rest waits and the run may still end as any rest.
    pub fn is_ahead(self, rule: SplitRule, may: bool) -> bool
        ensures { result ≡ is_ahead rule may self }
    {
        let run = self.run();
        run.stretch == run.long || (self.waiting().is_none() && self.is_free(rule, may))
    }

    /// Whether a run in progress outside the berth does no harm where none waits.
    fn is_free(self, rule: SplitRule, may: bool) -> bool
        ensures { result ≡ is_free rule may rule.berth self }
    {
        match rule.berth {
            BerthRule::SevenInOne => true,
            BerthRule::AllOfNext => !may || rule.full <= self.run().long,
        }
    }

    /// Whether the run in progress is a full rest that may end as one.
    fn is_fresher(self, rule: SplitRule) -> bool
        requires { IsSplitCount self }
        ensures { result ≡ is_fresher rule self }
    {
        rule.full <= self.run().long && self.may_pair(rule)
    }

    /// Whether no count is worse than that of `other`.
    fn is_no_worse(self, other: SplitCount, rule: SplitRule, may: bool) -> bool
        ensures { result ≡ is_no_worse rule may self other }
    {
        let run = self.run();
        let than = other.run();
        than.long <= run.long
            && (run.is_deep(than, rule.berth) || (!may && self.waiting().is_none()))
            && (run.long == than.long || self.is_ready(rule.berth))
            && self.base().is_no_more(other.base(), rule.limits)
            && self.last().is_last_no_more(other.last(), rule.limits, may)
            && self.waits_no_worse(other, rule)
    }

    /// Whether the run in progress may end as a full rest once it is one.
    fn is_ready(self, berth: BerthRule) -> bool
        ensures { result ≡ is_ready berth self.waiting self.run }
    {
        let run = self.run();
        match self.waiting() {
            None => true,
            Some(rest) => run.stretch == run.long || run.pairs(berth, rest),
        }
    }

    /// Whether the split rest that waits is no worse than that of `other`.
    fn waits_no_worse(self, other: SplitCount, rule: SplitRule) -> bool
        ensures { result ≡ is_wait_no_worse rule self.run self.waiting other.waiting }
    {
        match (self.waiting(), other.waiting()) {
            (None, _) => true,
            (Some(rest), None) => rest.is_enough(rule) && self.is_ready(rule.berth),
            (Some(rest), Some(than)) => {
                rule.serving(than.long) <= rest.long && rest.serves(than, rule.berth)
            }
        }
    }

    /// Whether the run in progress may still be declared as a split rest, and is then no worse than
    /// the one that waits in `other`.
    fn is_owing(self, other: SplitCount, rule: SplitRule, may: bool) -> bool
        requires good { IsSplitCount self }
        requires other_good { IsSplitCount other }
        ensures { result ≡ is_owing rule may self other }
    {
        let run = self.run();
        may && rule.least <= run.long
            && run.may_wait(rule.berth)
            && self.may_pair(rule)
            && self.owes(other, rule)
    }

    /// Whether the run in progress, as a split rest, is no worse than the one that waits in `other`
    /// and the run in progress there together.
    fn owes(self, other: SplitCount, rule: SplitRule) -> bool
        requires good { IsSplitCount self }
        requires other_good { IsSplitCount other }
        ensures { result ≡ is_owed rule self.run (without_run self) other.waiting other }
    {
        let run = self.run();
        let last = self.last();
        let used = Used {
            elapsed: last.elapsed - run.long,
            ..last
        };
        let as_rest = WaitingRest {
            long: run.long,
            berth: run.longest,
        };
        let serves = match other.waiting() {
            None => rule.enough().saturating_add(other.run().long) <= run.long
                && as_rest.has_enough_berth(rule.berth),
            Some(rest) => {
                rule.serving(rest.long).saturating_add(other.run().long) <= run.long
                    && as_rest.serves(rest, rule.berth)
            }
        };
        serves && used.is_no_more(other.base(), rule.limits)
    }
}

impl SplitRule {
    /// The length of a split rest, as far as it serves.
    fn serving(self, long: u32) -> u32
        ensures { result ≡ serving self long }
    {
        long.min(self.enough())
    }

    /// The length of a split rest that makes a pair with each rest that may be its second.
    fn enough(self) -> u32
        ensures { result ≡ enough self }
    {
        self.pair.saturating_sub(self.least)
    }
}

impl Used {
    /// Whether one of the counts stands at its limit, where there are limits: nothing may be driven
    /// as long as they count.
    fn is_spent(self, limits: Option<Used>) -> bool
        ensures { result ≡ is_spent limits self }
    {
        match limits {
            None => false,
            Some(limit) => {
                limit.driving <= self.driving
                    || limit.duty <= self.duty
                    || limit.elapsed <= self.elapsed
            }
        }
    }

    /// The same, whatever rest is left out of the counts.
    fn is_worn(self, limits: Option<Used>) -> bool
        ensures { result ≡ is_worn limits self }
    {
        match limits {
            None => false,
            Some(limit) => limit.driving <= self.driving || limit.duty <= self.duty,
        }
    }

    /// Whether no count since the base is more, or `other` allows nothing more.
    fn is_no_more(self, other: Used, limits: Option<Used>) -> bool
        ensures { result ≡ is_no_more limits self other }
    {
        other.is_spent(limits) || self.is_within(other)
    }

    /// The same of counts since the last rest, which may become counts since the base, without a
    /// rest, where rests may be split.
    fn is_last_no_more(self, other: Used, limits: Option<Used>, may: bool) -> bool
        ensures { result ≡ is_last_no_more limits may self other }
    {
        !may || other.is_worn(limits) || self.is_within(other)
    }
}

impl OpenRun {
    /// Whether the time in the berth serves where that of `other` does.
    fn is_deep(self, other: OpenRun, berth: BerthRule) -> bool
        ensures { result ≡ is_deep berth self other }
    {
        match berth {
            BerthRule::SevenInOne => {
                other.stretch.min(US_PAIR_BERTH) <= self.stretch
                    && other.longest.min(US_PAIR_BERTH) <= self.longest
            }
            BerthRule::AllOfNext => {
                self.stretch == self.long
                    || (self.long == other.long && self.stretch == other.stretch)
            }
        }
    }
}

impl WaitingRest {
    /// Whether the rest makes a pair with each rest that may be its second.
    fn is_enough(self, rule: SplitRule) -> bool
        ensures { result ≡ (nat_le (enough rule) self.long && is_berth_enough rule.berth self) }
    {
        rule.enough() <= self.long && self.has_enough_berth(rule.berth)
    }

    /// Whether its time in the berth is enough for each pair, or is not asked for.
    fn has_enough_berth(self, berth: BerthRule) -> bool
        ensures { result ≡ is_berth_enough berth self }
    {
        match berth {
            BerthRule::SevenInOne => US_PAIR_BERTH <= self.berth,
            BerthRule::AllOfNext => true,
        }
    }

    /// Whether the time in the berth serves where that of `other` does.
    fn serves(self, other: WaitingRest, berth: BerthRule) -> bool
        ensures { result ≡ is_berth_no_worse berth self other }
    {
        match berth {
            BerthRule::SevenInOne => other.berth.min(US_PAIR_BERTH) <= self.berth,
            BerthRule::AllOfNext => true,
        }
    }
}
