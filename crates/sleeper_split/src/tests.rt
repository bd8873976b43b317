//! Rests around each length that a rule names, and days whose rest is split, told by hand.
ghost use Rattle.std.specs.Prelude.{◌<◌, ◌≤◌, ◌≡◌, IfSome};
ghost use Rattle.sleeper_split.specs.Machine.{IsSplitCount, run_of};

use crate::count::{OpenRun, Since, SplitCount, Used, WaitingRest};
use crate::laws::{
    is_exact_in_canada, is_exact_in_united_states, is_told_by_places, rests_safely,
    stands_for_plainly_worse, stands_in_order, stands_on, tells_of_history,
};
use crate::rule::SplitRule;
use std::test::Fail;

/// After five hours of driving, a rest run in progress that ends with so much time in the berth.
fn resting(long: u32, berth: u32, waiting: Option<WaitingRest>) -> Option<SplitCount>
    requires some { 0 < long }
    requires range { long < 900000 }
    ensures { IfSome result (λ s. IsSplitCount s × (0 < run_of s)) }
{
    let used = Used {
        driving: 300,
        duty: 300,
        elapsed: 300 + long,
    };
    let run = OpenRun {
        long,
        stretch: berth,
        longest: berth,
    };
    SplitCount::of_parts(run, used, used, waiting)
}

/// Whether the run may end as a split rest, and as a full rest.
fn ends(rule: SplitRule, long: u32, berth: u32, waiting: Option<WaitingRest>) -> (bool, bool) {
    if long == 0 || 1000 < long {
        return (false, false);
    }
    match resting(long, berth, waiting) {
        Some(count) => (
            count.end_split(rule).is_some(),
            count.end_full(rule).is_some(),
        ),
        None => (false, false),
    }
}

/// After so many minutes of driving.
fn driven(count: SplitCount, n: u32) -> SplitCount
    requires good { IsSplitCount count }
    requires none { run_of count ≡ 0 }
    ensures good { IsSplitCount result }
    ensures none { run_of result ≡ 0 }
{
    let mut after = count;
    for _ in 0..n {
        after = after.duty(true);
    }
    after
}

/// After so many minutes of rest.
fn rested(count: SplitCount, berth: bool, n: u32) -> SplitCount
    requires good { IsSplitCount count }
    requires some { 0 < n }
    ensures good { IsSplitCount result }
    ensures some { 0 < run_of result }
{
    let mut after = count.rest(berth);
    for _ in 1..n {
        after = after.rest(berth);
    }
    after
}

#[test]
fn splits_and_ends_at_the_lengths_of_the_united_states(rt: HostRuntime) {
    let rule = SplitRule::US;
    for (long, split, full) in [
        (119, false, false),
        (120, true, false),
        (599, true, false),
        (600, false, true),
        (601, false, true),
    ] {
        assert_eq!(rt; ends(rule, long, 0, None), (split, full), "{long} minutes");
    }
}

#[test]
fn splits_and_ends_at_the_lengths_of_canada(rt: HostRuntime) {
    let rule = SplitRule::CANADA;
    for (long, split, full) in [
        (119, false, false),
        (120, true, false),
        (479, true, false),
        (480, false, true),
    ] {
        assert_eq!(rt;
            ends(rule, long, long, None),
            (split, full),
            "{long} minutes"
        );
    }
    assert_eq!(rt;
        ends(rule, 300, 299, None),
        (false, false),
        "one minute out of the berth"
    );
    assert_eq!(rt;
        ends(rule, 480, 0, None),
        (false, true),
        "a full rest may be out of the berth"
    );
}

#[test]
fn pairs_at_ten_hours_with_seven_in_the_berth(rt: HostRuntime) {
    let rule = SplitRule::US;
    for (first, first_berth, long, berth, split, full) in [
        (180, 0, 419, 419, false, false),
        (180, 0, 420, 419, false, false),
        (180, 0, 420, 420, true, false),
        (179, 0, 420, 420, false, false),
        (420, 420, 179, 0, false, false),
        (420, 420, 180, 0, true, false),
        (420, 419, 180, 180, false, false),
        (300, 300, 600, 419, false, false),
        (300, 300, 600, 420, false, true),
        (300, 0, 600, 600, false, true),
    ] {
        let waiting = Some(WaitingRest {
            long: first,
            berth: first_berth,
        });
        assert_eq!(rt;
            ends(rule, long, berth, waiting),
            (split, full),
            "{first} and {long} minutes"
        );
    }
}

#[test]
fn pairs_in_canada_where_the_later_rest_is_in_the_berth(rt: HostRuntime) {
    let rule = SplitRule::CANADA;
    for (first, long, berth, split, full) in [
        (180, 419, 419, false, false),
        (180, 420, 420, true, false),
        (180, 420, 419, false, false),
        (121, 479, 479, true, false),
        (119, 480, 480, false, false),
        (120, 480, 480, false, true),
        (120, 480, 479, false, false),
    ] {
        let waiting = Some(WaitingRest {
            long: first,
            berth: first,
        });
        assert_eq!(rt;
            ends(rule, long, berth, waiting),
            (split, full),
            "{first} and {long} minutes"
        );
    }
}

/// What is used since the base: driving, duty and the elapsed time.
fn spent(count: SplitCount) -> (u32, u32, u32) {
    (
        count.used(Since::Driving),
        count.used(Since::Duty),
        count.used(Since::Elapsed),
    )
}

#[test]
fn counts_from_the_first_rest_of_a_pair(rt: HostRuntime) -> Result<(), Fail> {
    let rule = SplitRule::US;
    let Some(base) = SplitCount::fresh().end_full(rule) else {
        return Err(Fail::from("no such end"));
    };
    let first = rested(driven(base, 60), true, 300);
    assert_eq!(rt;
        spent(first),
        (60, 60, 360),
        "a rest in progress is counted"
    );
    let Some(waits) = first.end_split(rule) else {
        return Err(Fail::from("no such end"));
    };
    assert_eq!(rt;
        spent(waits),
        (60, 60, 60),
        "a split rest that waits is not"
    );
    let second = rested(driven(waits, 120), true, 420);
    assert_eq!(rt; spent(second), (180, 180, 600));
    let Some(paired) = second.end_split(rule) else {
        return Err(Fail::from("no such end"));
    };
    assert_eq!(rt;
        spent(paired),
        (120, 120, 120),
        "from the end of the first one"
    );
    let third = rested(driven(paired, 30), false, 179);
    assert_eq!(rt;
        third.end_split(rule),
        None,
        "the second one is the first of the next pair"
    );
    let longer = third.rest(false);
    let Some(plain) = longer.end_undeclared(rule) else {
        return Err(Fail::from("no such end"));
    };
    assert_eq!(rt;
        spent(plain),
        (150, 150, 330),
        "an undeclared rest is counted"
    );
    let Some(next) = longer.end_split(rule) else {
        return Err(Fail::from("no such end"));
    };
    assert_eq!(rt; spent(next), (30, 30, 30));
    assert_eq!(rt;
        next.waiting(),
        Some(WaitingRest {
            long: 180,
            berth: 0
        })
    );
    Ok(())
}

#[test]
fn keeps_the_longest_stretch_in_the_berth(rt: HostRuntime) -> Result<(), Fail> {
    let Some(base) = SplitCount::fresh().end_full(SplitRule::US) else {
        return Err(Fail::from("no such end"));
    };
    let run = rested(rested(rested(driven(base, 1), true, 5), false, 1), true, 3).run();
    assert_eq!(rt; (run.long, run.stretch, run.longest), (9, 3, 5));
    Ok(())
}

#[test]
fn takes_many_units_at_once(rt: HostRuntime) -> Result<(), Fail> {
    let Some(base) = SplitCount::fresh().end_full(SplitRule::US) else {
        return Err(Fail::from("no such end"));
    };
    let day = base
        .duty_run(true, 60)
        .duty_run(false, 30)
        .rest_run(true, 300);
    assert_eq!(rt; spent(day), (60, 90, 390));
    let run = day.rest_run(false, 10).rest_run(true, 20).run();
    assert_eq!(rt; (run.long, run.stretch, run.longest), (330, 20, 300));
    let long = day.rest_run(false, 4_000_000_000);
    assert_eq!(rt;
        (long.run().long, long.used(Since::Elapsed)),
        (999_999, 999_999)
    );
    Ok(())
}

#[test]
fn reads_back_its_parts(rt: HostRuntime) {
    let count = SplitCount::fresh().rest(true);
    let parts = SplitCount::of_parts(count.run(), count.base(), count.last(), count.waiting());
    assert_eq!(rt; parts, Some(count));
    let run = OpenRun {
        long: 5,
        stretch: 3,
        longest: 2,
    };
    let none = SplitCount::of_parts(run, count.base(), count.last(), None);
    assert_eq!(rt; none, None, "the stretch is longer than the longest");
    is_exact_in_united_states();
    is_exact_in_canada();
    tells_of_history();
    is_told_by_places();
    stands_in_order();
    stands_on();
    rests_safely();
    stands_for_plainly_worse();
}

/// Counts with nothing but what is used since the base, 30 minutes of duty more since the last rest
/// where one waits.
fn worn(used: u32, waiting: Option<WaitingRest>) -> Option<SplitCount>
    requires range { used < 900000 }
    ensures { IfSome result (λ s. IsSplitCount s × (run_of s ≡ 0)) }
{
    let base = Used {
        driving: used,
        duty: used,
        elapsed: used,
    };
    let last = match waiting {
        Some(_) => Used {
            driving: 0,
            duty: 30,
            elapsed: 30,
        },
        None => base,
    };
    let run = OpenRun {
        long: 0,
        stretch: 0,
        longest: 0,
    };
    SplitCount::of_parts(run, base, last, waiting)
}

/// Whether the first may stand for the second by a rule.
fn stands_by(rule: SplitRule, may: bool, a: Option<SplitCount>, b: Option<SplitCount>) -> bool
    requires a { IfSome a IsSplitCount }
    requires b { IfSome b IsSplitCount }
{
    match (a, b) {
        (Some(a), Some(b)) => a.covers(b, rule, may),
        _ => false,
    }
}

/// Whether the first may stand for the second in the United States.
fn stands(a: Option<SplitCount>, b: Option<SplitCount>) -> bool
    requires a { IfSome a IsSplitCount }
    requires b { IfSome b IsSplitCount }
{
    stands_by(SplitRule::US, true, a, b)
}

/// Counts with nothing but these used since the last full rest.
fn used_up(driving: u32, duty: u32, elapsed: u32) -> Option<SplitCount>
    ensures { IfSome result IsSplitCount }
{
    let used = Used {
        driving,
        duty,
        elapsed,
    };
    let run = OpenRun {
        long: 0,
        stretch: 0,
        longest: 0,
    };
    SplitCount::of_parts(run, used, used, None)
}

#[test]
fn counts_at_a_limit_of_canada_are_not_compared(rt: HostRuntime) {
    let much = used_up(700, 830, 950);
    for (driving, duty, elapsed, split, defer) in [
        (780, 780, 780, true, true),
        (779, 779, 779, false, false),
        (0, 840, 840, true, true),
        (0, 839, 839, false, false),
        // A split rest may take its own time from the elapsed time.
        (0, 0, 960, false, true),
        (0, 0, 959, false, false),
    ] {
        let other = used_up(driving, duty, elapsed);
        assert_eq!(rt; stands_by(SplitRule::CANADA, true, much, other), split);
        assert_eq!(rt; stands_by(SplitRule::CANADA, false, much, other), defer);
        assert!(rt; !stands_by(SplitRule::US, false, much, other));
    }
}

#[test]
fn stands_for_what_is_worse(rt: HostRuntime) {
    let rest = |long| { Some(WaitingRest { long, berth: long }) };
    let (fit, tired) = (worn(300, None), worn(301, None));
    assert!(rt; stands(fit, fit), "for itself");
    assert!(rt; stands(fit, tired), "for more driving");
    assert!(rt; !stands(tired, fit), "for less driving");
    let (waits, waits_longer) = (worn(300, rest(180)), worn(300, rest(181)));
    assert!(rt; !stands(waits, fit), "where it owes a pair");
    assert!(rt;
        !stands(fit, waits),
        "where the other has used less since its rest"
    );
    assert!(rt;
        !stands(worn(30, None), waits),
        "30 minutes of driving against none"
    );
    assert!(rt; stands(worn(0, None), waits), "for one that owes a pair");
    assert!(rt;
        stands(waits_longer, waits),
        "for a shorter rest that waits"
    );
    assert!(rt; !stands(waits, waits_longer), "for a longer one");
    assert!(rt;
        stands(worn(300, rest(480)), worn(300, rest(599))),
        "any second rest is enough"
    );
    assert!(rt;
        !stands(worn(300, rest(479)), worn(300, rest(480))),
        "two hours may be too short"
    );
    assert!(rt;
        stands(resting(600, 600, rest(180)), fit),
        "a full rest for all"
    );
    assert!(rt; stands(resting(600, 0, None), fit), "a full rest for all");
    assert!(rt; !stands(resting(599, 0, None), fit), "no full rest yet");
    assert!(rt;
        stands(resting(480, 480, None), fit),
        "it may be split, and owe two hours"
    );
    assert!(rt; !stands(resting(479, 479, None), fit), "it would owe more");
    assert!(rt;
        stands(worn(300, rest(480)), fit),
        "it owes two hours, as each split rest has"
    );
    assert!(rt; !stands(worn(300, rest(479)), fit), "it owes more");
}

#[test]
fn rests_on_where_a_split_rest_is_still_open(rt: HostRuntime) -> Result<(), Fail> {
    let rule = SplitRule::US;
    let Some(base) = SplitCount::fresh().end_full(rule) else {
        return Err(Fail::from("no such end"));
    };
    let resting = rested(driven(base, 60), true, 120);
    let Some(split) = resting.end_split(rule) else {
        return Err(Fail::from("no such end"));
    };
    assert!(rt;
        resting.rest(true).covers(split.duty(false), rule, true),
        "it may still be split"
    );
    assert!(rt;
        !resting.rest(true).covers(split.duty(false), rule, false),
        "it may not"
    );
    assert!(rt; resting.is_of(rule, false) && !split.is_of(rule, false));
    Ok(())
}

#[test]
fn rests_safely_in_the_berth_or_where_none_waits(rt: HostRuntime) {
    let waiting = Some(WaitingRest {
        long: 180,
        berth: 180,
    });
    for (canada, long, berth, waits, may, want) in [
        (false, 100, 100, true, true, true),
        (false, 100, 99, true, true, false),
        (false, 100, 0, false, true, true),
        (true, 100, 100, true, true, true),
        (true, 100, 99, true, true, false),
        (true, 479, 0, false, true, false),
        (true, 480, 0, false, true, true),
        (true, 479, 0, false, false, true),
        (true, 480, 0, true, true, false),
    ] {
        let rule = if canada {
            SplitRule::CANADA
        } else {
            SplitRule::US
        };
        let count = at_rest(long, berth, if waits { waiting } else { None });
        assert_eq!(rt;
            count.map(|s| s.is_ahead(rule, may)),
            Some(want),
            "{long} minutes"
        );
    }
}

/// A rest run in progress, where its length is no length of a test.
fn at_rest(long: u32, berth: u32, waiting: Option<WaitingRest>) -> Option<SplitCount> {
    if long == 0 || 1000 < long {
        return None;
    }
    resting(long, berth, waiting)
}
