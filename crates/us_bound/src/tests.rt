//! Limits and counts by hand.
use crate::counts::state_counts;
use crate::limits::shift_limits;
use rest_bound::{Counts, Limits};
use rule_core::RuleBook;
use sleeper_split::{SplitCount, SplitRule};
use std::test::Fail;
use us_rules::{BreakCount, UsBook, UsState};

#[test]
fn limits_of_half_hours(rt: HostRuntime) -> Result<(), Fail> {
    let with_berth = Limits {
        driving: 22,
        elapsed: 28,
        full_rest: 20,
        split_least: 4,
        split_most: 19,
        unbroken: 16,
    };
    let no_berth = Limits {
        split_least: 20,
        split_most: 0,
        ..with_berth
    };
    assert_eq!(rt; shift_limits(true, 30), with_berth);
    assert_eq!(rt; shift_limits(false, 30), no_berth);
    Ok(())
}

/// Forty minutes of driving are two steps of half an hour, and three of a quarter.
#[test]
fn counts_are_rounded_up(rt: HostRuntime) -> Result<(), Fail> {
    let root = UsBook::new(true, 8, 0).root(0)?;
    let rested = SplitCount::fresh()
        .end_full(SplitRule::US)
        .ok_or("no full rest")?;
    let drove = UsState {
        split: rested.duty_run(true, 40),
        rest_break: BreakCount {
            still: 0,
            driven: 40,
        },
        week: root.week,
    };
    let halves = Counts {
        driving: 2,
        elapsed: 2,
        driven: 2,
        since: 2,
        run: 0,
        waiting: None,
        streak: 2,
    };
    assert_eq!(rt; state_counts(&drove, 30), halves);
    let quarters = Counts {
        driving: 3,
        elapsed: 3,
        driven: 3,
        since: 3,
        streak: 3,
        ..halves
    };
    assert_eq!(rt; state_counts(&drove, 15), quarters);
    Ok(())
}
