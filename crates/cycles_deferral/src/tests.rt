//! Days and cycles around each number that a rule names, told by hand.
ghost use Rattle.std.specs.Prelude.{◌≡◌, ◌+◌, ◌<◌, true, IfSome};
ghost use Rattle.duty_core.specs.declared.limits.TheConstants.{DAY_MINUTES};
ghost use Rattle.day_sums.specs.Sums.{today};
ghost use Rattle.cycles_deferral.specs.DayMachine.{IsCanadaDays};
ghost use Rattle.cycles_deferral.specs.CycleMachine.{IsCycleCount};

use crate::cycle::CycleCount;
use crate::days::{CanadaDays, DayCount, LastDays};
use crate::laws::{
    book_days_are_days, cycle_has_one_path, cycle_is_exact, cycle_stands_on, days_have_one_path,
    days_stand_on, deferred_days_are_exact, split_days_are_exact,
};
use day_sums::DaySums;
use duty_core::{Activity, DAY_MINUTES, Mark, Params, RestWay};
use std::test::Fail;

/// The days after so many minutes of an activity, of which the first one is the minute `from`
/// after the midnight that begins day 0, with the last mark that was chosen. `None` where a minute
/// is refused.
fn spent(days: CanadaDays, from: u32, act: Activity, n: u32) -> Option<(CanadaDays, Option<Mark>)>
    requires good { IsCanadaDays days }
    requires range { from + n < 1000000 }
    ensures { IfSome result (λ r. IsCanadaDays r.0) }
{
    let mut after = days;
    let mut last = None;
    for minute in from..from + n {
        let day = (minute / DAY_MINUTES) as i32;
        let (next, mark) = after.unit(act, minute % DAY_MINUTES == 0, day)?;
        after = next;
        if mark.is_some() {
            last = mark;
        }
    }
    Some((after, last))
}

/// The days and the last mark after a history that begins at midnight: rest and duty in turn, in
/// minutes, rest first. `None` where it is refused, or is longer than a few days.
fn lived(way: RestWay, parts: &[u32]) -> Option<(CanadaDays, Option<Mark>)>
    ensures { IfSome result (λ r. IsCanadaDays r.0) }
{
    let mut days = CanadaDays::fresh(way);
    let mut last = None;
    let mut at = 0;
    let mut act = Activity::Off;
    for n in parts.iter() {
        if 10_000 < *n || 100_000 < at {
            return None;
        }
        let (after, mark) = spent(days, at, act, *n)?;
        days = after;
        if mark.is_some() {
            last = mark;
        }
        at += *n;
        act = if matches!(act, Activity::Off) {
            Activity::Drive
        } else {
            Activity::Off
        };
    }
    Some((days, last))
}

/// Whether the history may be lived, and the day that it defers last.
fn outcome(way: RestWay, parts: &[u32]) -> (bool, Option<i32>) {
    match lived(way, parts) {
        Some((_, Some(Mark::DeferDay { day }))) => (true, Some(day)),
        Some(_) => (true, None),
        None => (false, None),
    }
}

#[test]
fn a_day_loses_at_most_fourteen_hours(rt: HostRuntime) {
    for (duty, split, defer, mark) in [
        (840, true, true, None),
        (841, false, true, Some(0)),
        (960, false, true, Some(0)),
        (961, false, false, None),
    ] {
        let parts = [0, duty];
        let (kept, _) = outcome(RestWay::Split, parts.as_slice());
        assert_eq!(rt; kept, split, "split, {duty}");
        let (kept, day) = outcome(RestWay::Defer, parts.as_slice());
        assert_eq!(rt; kept, defer, "defer, {duty}");
        assert_eq!(rt; day, mark, "mark, {duty}");
    }
}

#[test]
fn two_days_of_a_deferral_lose_at_most_twenty_eight_hours(rt: HostRuntime) {
    for (first, second, kept) in [
        (900, 780, true),
        (900, 781, false),
        (960, 720, true),
        (960, 721, false),
        (841, 839, true),
        (841, 840, false),
    ] {
        let parts = [0, first, 1441 - first, second];
        let (lived, day) = outcome(RestWay::Defer, parts.as_slice());
        assert_eq!(rt; lived, kept, "{first} and {second}");
        if kept {
            assert_eq!(rt; day, Some(0), "{first} and {second}");
        }
    }
}

#[test]
fn the_second_day_has_eight_hours_and_what_was_deferred(rt: HostRuntime) {
    // Day 0 loses 900 minutes, so that 540 of rest are needed in one; duty in the last minute of
    // day 1 without them is too late, and rest is not, since it may go on.
    for (rest, duty, more, last, kept) in [
        (540, 400, 499, 1, true),
        (539, 400, 500, 0, true),
        (539, 400, 500, 1, false),
        (330, 390, 330, 389, true),
        (330, 390, 330, 390, false),
    ] {
        let parts = [540, 900, rest, duty, more, last];
        let (lived, _) = outcome(RestWay::Defer, parts.as_slice());
        assert_eq!(rt; lived, kept, "{rest}, {duty}, {more}, {last}");
    }
    // A rest that goes on into day 2 is counted whole.
    let parts = [540, 900, 330, 390, 331, 0, 208, 0, 1, 1];
    assert_eq!(rt; outcome(RestWay::Defer, parts.as_slice()), (true, Some(0)));
}

#[test]
fn a_short_rest_over_midnight_is_lost_in_both_days(rt: HostRuntime) {
    // Duty of 840 minutes ends 14 minutes before midnight.
    for (rest, split, mark) in [(29, false, Some(0)), (30, true, None)] {
        let parts = [586, 840, rest, 1];
        let (kept, _) = outcome(RestWay::Split, parts.as_slice());
        assert_eq!(rt; kept, split, "split, {rest}");
        let (kept, day) = outcome(RestWay::Defer, parts.as_slice());
        assert!(rt; kept, "defer, {rest}");
        assert_eq!(rt; day, mark, "mark, {rest}");
    }
    // And so are short rests in one day.
    for (rest, kept) in [(29, false), (30, true)] {
        let parts = [0, 420, rest, 420];
        let (lived, _) = outcome(RestWay::Split, parts.as_slice());
        assert_eq!(rt; lived, kept, "{rest}");
    }
}

#[test]
fn days_have_parts(rt: HostRuntime) -> Result<(), Fail> {
    let (days, _) = lived(RestWay::Defer, [600, 500, 20].as_slice()).ok_or("refused")?;
    assert_eq!(rt; days.minute(), 1120);
    assert_eq!(rt; days.rest(), 20);
    assert_eq!(rt; days.before(), 0);
    assert!(rt; !days.reaches());
    let today = DayCount {
        lost: 500,
        short: 20,
        longest: 600,
    };
    assert_eq!(rt; days.today(), today);
    let last = LastDays {
        today,
        yesterday: days.yesterday(),
        before: 0,
    };
    let made = CanadaDays::of_parts(days.way(), 1120, 20, last, false);
    assert_eq!(rt; made, Some(days));
    let long = DayCount { short: 21, ..today };
    let longer = LastDays {
        today: long,
        ..last
    };
    let none = CanadaDays::of_parts(days.way(), 1120, 20, longer, false);
    assert!(rt; none.is_none());
    Ok(())
}

#[test]
fn many_minutes_are_run_at_once(rt: HostRuntime) -> Result<(), Fail> {
    let days = CanadaDays::fresh(RestWay::Defer);
    let (late, mark) = days.run(Activity::Serve, true, 0, 960).ok_or("refused")?;
    assert_eq!(rt; mark, Some(Mark::DeferDay { day: 0 }));
    assert_eq!(rt; late.today().lost, 960);
    assert!(rt; days.run(Activity::Serve, true, 0, 961).is_none());
    let count = CycleCount::fresh(1);
    let tired = count
        .run(Activity::Drive, true, DAY_MINUTES)
        .ok_or("refused")?;
    assert_eq!(rt; tired.sums().total(), DAY_MINUTES);
    let rested = tired.run(Activity::Off, true, 2160).ok_or("refused")?;
    assert_eq!(rt; rested.sums().total(), 0);
    Ok(())
}

/// Whether a minute more of duty fits in the youngest day.
fn has_room(sums: DaySums) -> bool
    ensures { result ≡ true → today sums < DAY_MINUTES }
{
    match sums.sums().first() {
        Some(n) => *n < DAY_MINUTES,
        None => false,
    }
}

/// Whether the days of the first history may stand for those of the second.
fn stands(parts: &[u32], others: &[u32], new_day: bool) -> Option<bool> {
    let (days, _) = lived(RestWay::Defer, parts)?;
    let (other, _) = lived(RestWay::Defer, others)?;
    Some(days.covers(other, new_day))
}

/// Two histories of days with deferral, whether a minute that follows begins a day, and whether the
/// days of the first may stand for those of the second.
const STANDS: &[(&[u32], &[u32], bool, bool)] = &[
    (&[0, 400, 200], &[0, 600, 0], false, true),
    (&[0, 400, 200], &[0, 600, 0], true, true),
    (&[0, 600, 0], &[0, 400, 200], false, false),
    // A rest that may still be lost is no better than what is lost.
    (&[0, 570, 30], &[0, 580, 20], false, true),
    (&[0, 580, 20], &[0, 570, 30], false, false),
    // An hour into the second day, at rest since the first one's duty: yesterday is compared only
    // where it lost too much.
    (&[0, 840, 660], &[0, 500, 1_000], false, true),
    (&[0, 841, 659], &[0, 840, 660], false, false),
    (&[0, 840, 660], &[0, 841, 659], false, true),
    // A deferral that is met is compared no more. 900 minutes are lost of the first day, so nine
    // hours of rest are needed in the second one.
    (&[0, 900, 541, 1, 58], &[0, 900, 580, 20], false, true),
    (&[0, 900, 539, 1, 60], &[0, 900, 580, 20], false, false),
    // An hour into the third day the second one has had them, and 1,600 minutes are lost of both.
    (
        &[0, 900, 541, 700, 799],
        &[0, 900, 541, 100, 1399],
        false,
        true,
    ),
];

#[test]
fn days_stand_for_worse_ones(rt: HostRuntime) {
    for (parts, others, new_day, wanted) in STANDS {
        let stands = stands(parts, others, *new_day);
        assert_eq!(rt; stands, Some(*wanted), "{parts:?} for {others:?}");
    }
}

/// The counts of a cycle after so many minutes of an activity, all in one day.
fn counted(count: CycleCount, act: Activity, n: u32) -> Option<CycleCount>
    requires good { IsCycleCount count }
    ensures { IfSome result (λ s. IsCycleCount s) }
{
    let mut after = count;
    for _ in 0..n {
        let sums = after.sums();
        if !has_room(sums) {
            return None;
        }
        after = after.unit(act, false)?;
    }
    Some(after)
}

/// The counts of these parts, just after a day off, once `n` minutes of rest and one of driving
/// have followed, if there are any.
fn drives_after(cycle: u8, rest: u32, sums: &[u32], without: u32, n: u32) -> Option<CycleCount> {
    let sums = DaySums::of_sums(sums)?;
    let count = CycleCount::of_parts(cycle, rest, sums, 0, without)?;
    counted(counted(count, Activity::Off, n)?, Activity::Drive, 1)
}

#[test]
fn a_cycle_ends_at_its_limit_and_begins_anew_after_a_reset(rt: HostRuntime) {
    let full_week = [600; 7];
    let almost_a_week = [599, 600, 600, 600, 600, 600, 600];
    let full = [
        600, 600, 600, 600, 600, 600, 600, 600, 600, 600, 600, 600, 0, 0,
    ];
    let almost = [
        599, 600, 600, 600, 600, 600, 600, 600, 600, 600, 600, 600, 0, 0,
    ];
    for (cycle, sums, rest, n, kept) in [
        (1, full_week.as_slice(), 0, 0, false),
        (1, almost_a_week.as_slice(), 0, 0, true),
        (1, full_week.as_slice(), 1800, 359, false),
        (1, full_week.as_slice(), 1800, 360, true),
        (2, full.as_slice(), 0, 0, false),
        (2, almost.as_slice(), 0, 0, true),
        (2, full.as_slice(), 4000, 319, false),
        (2, full.as_slice(), 4000, 320, true),
    ] {
        let after = drives_after(cycle, rest, sums, 0, n);
        assert_eq!(rt; after.is_some(), kept, "cycle {cycle}, {rest} and {n}");
    }
}

#[test]
fn duty_of_other_days_falls_out_of_a_cycle(rt: HostRuntime) -> Result<(), Fail> {
    let sums = DaySums::of_sums([600; 7].as_slice()).ok_or("no sums")?;
    let count = CycleCount::of_parts(1, 0, sums, 0, 0).ok_or("no counts")?;
    let copy = count;
    let same_day = copy.unit(Activity::Drive, false);
    assert!(rt; same_day.is_none());
    let next = count.unit(Activity::Drive, true).ok_or("refused")?;
    let sums = next.sums();
    assert_eq!(rt; sums.total(), 3601);
    assert_eq!(rt; next.cycle(), 1);
    assert_eq!(rt; next.rest(), 0);
    assert_eq!(rt; next.since(), 1);
    assert_eq!(rt; next.without(), 0);
    Ok(())
}

/// The counts after one minute that begins a day.
fn begun(count: CycleCount, act: Activity) -> Option<CycleCount>
    requires good { IsCycleCount count }
    ensures { IfSome result (λ s. IsCycleCount s) }
{
    count.unit(act, true)
}

/// The counts after so many days with one minute of duty each, and rest that is a minute short of
/// a day.
fn nearly_rested(days: u32) -> Option<CycleCount>
    ensures { IfSome result (λ s. IsCycleCount s) }
{
    let mut after = CycleCount::fresh(1);
    for _ in 0..days {
        let worked = begun(after, Activity::Serve)?;
        after = counted(worked, Activity::Off, 1439)?;
    }
    Some(after)
}

#[test]
fn a_fortnight_holds_a_day_off(rt: HostRuntime) -> Result<(), Fail> {
    // With the 1,440 minutes of rest before them these days are 20,160 minutes.
    let count = nearly_rested(13).ok_or("refused")?;
    assert!(rt; begun(count, Activity::Drive).is_some());
    let count = nearly_rested(13).ok_or("refused")?;
    let later = begun(count, Activity::Serve).ok_or("refused")?;
    assert!(rt; counted(later, Activity::Drive, 1).is_none());
    // One more minute of rest makes the last rest a day off.
    let count = nearly_rested(13).ok_or("refused")?;
    let rested = begun(count, Activity::Off).ok_or("refused")?;
    assert_eq!(rt; rested.since(), 0);
    assert!(rt; counted(rested, Activity::Drive, 1).is_some());
    Ok(())
}

#[test]
fn cycle_2_has_a_day_off_after_seventy_hours(rt: HostRuntime) {
    let sums = [300; 14];
    for (cycle, without, rest, n, kept) in [
        (2, 4199, 0, 0, true),
        (2, 4200, 0, 0, false),
        (2, 4200, 1000, 439, false),
        (2, 4200, 1000, 440, true),
    ] {
        let after = drives_after(cycle, rest, sums.as_slice(), without, n);
        assert_eq!(rt; after.is_some(), kept, "{without}, {rest} and {n}");
    }
    // Cycle 1 doesn't ask for it, and counts nothing for it.
    let none = drives_after(1, 0, [0; 7].as_slice(), 4200, 0);
    assert!(rt; none.is_none());
}

#[test]
fn laws_are_stated(rt: HostRuntime) {
    let params = Params::Canada {
        berth: true,
        way: RestWay::Defer,
        cycle: 1,
        day_start: 0,
    };
    book_days_are_days();
    split_days_are_exact();
    deferred_days_are_exact(params);
    days_have_one_path();
    cycle_is_exact();
    cycle_has_one_path();
    days_stand_on();
    cycle_stands_on();
    assert!(rt; CanadaDays::fresh(RestWay::Defer).reaches());
}
