//! What the periods of fourteen days know of their nights.
ghost use Rattle.std.specs.Prelude.{◌≡◌, ◌+◌, ◌*◌, ◌/◌, ◌<◌, ◌≤◌, ◌&&◌, ◌||◌, ◌-◌, not, nat_le, filter, map, OnOk, IfOk};
ghost use Rattle.std.specs.List.{list_all, list_any};
ghost use Rattle.duty_core.specs.declared.limits.TheConstants.{DAY_MINUTES};
ghost use Rattle.hvnl_rules.specs.Nights.{Nights, no_nights, minutes as minutes_of, is_running as is_running_test, begins_in as begins_test, ends_in as ends_test, lies_in as lies_test, first_date as first_of, end_date as end_of, is_dated as is_dated_test, is_safe as is_safe_test, has_four as four_test, is_pair as pair_test, has_two as two_test, has_nights as nights_test, next_break as break_of, past_period as past_of, nights_ok, is_rested as is_rested_test, today, dated, pushed, running, counted, still_open};
ghost use Rattle.hvnl_rules.specs.Covers.{covers_start as covers_start_test, covers_period as covers_period_test, covers_nights};
ghost use Rattle.hvnl_rules.specs.Few.{is_recent as is_recent_test};
ghost use Rattle.hvnl_rules.specs.Numbers.{are_few_starts as few_starts_test, are_few_dates as few_dates_test, are_few_nights as few_nights_test};

use crate::bounds::are_spaced;
use duty_core::{
    AU_14D_NIGHTS, AU_14D_PERIOD, AU_LONG_START, AU_NIGHT_AFTER, AU_NIGHT_BEFORE,
    AU_NIGHT_LONG_REST, AU_NIGHT_REST, DAY_MINUTES, Minute, NoMemory, Params, unit_of,
};
use smallvec::SmallVec;
use std::alloc::Global;
use std::marker::Model;

/// The minutes at which periods began. Up to eight lie in place.
type Starts = SmallVec<u32, 8>;

/// Dates of nights, as days since 2000-01-01. Those of fourteen days lie in place.
type Dates = SmallVec<u32, 14>;

/// What the periods of fourteen days know of their nights: the minutes at which the open periods
/// began, and the dates whose nights have a break so far and may count in one of these periods.
#[derive(Drop)]
pub struct NightLog {
    starts: Starts,
    dates: Dates,
}

impl Model for NightLog {
    ghost use Rattle.hvnl_rules.specs.Nights.{Nights};

    ghost Value = { Nights };

    ghost view = { λ n. record { starts = n.starts.items; dates = n.dates.items } };
}

/// So many units, in minutes.
fn minutes(units: u32) -> u64
    ensures { result ≡ minutes_of units }
{
    u64::from(unit_of(Params::Hvnl {})) * u64::from(units)
}

/// The minute of a date's midnight. The date is below 2,000,000,000,000.
fn midnight(date: u64) -> u64
    requires { date < 2000000000000 }
    ensures { result ≡ DAY_MINUTES * date }
{
    u64::from(DAY_MINUTES) * date
}

/// Whether the period that began at `start` is not over at `at`.
fn is_running(at: Minute, start: Minute) -> bool
    ensures { result ≡ is_running_test at start }
{
    u64::from(at) < u64::from(start) + minutes(AU_14D_PERIOD)
}

/// Whether the night begins in the period that began at `start`, or after it.
fn begins_in(date: u32, start: Minute) -> bool
    ensures { result ≡ begins_test date start }
{
    u64::from(start) + minutes(AU_NIGHT_BEFORE) <= midnight(u64::from(date))
}

/// Whether the night ends in the period that began at `start`, or before it.
fn ends_in(date: u64, start: Minute) -> bool
    requires { date < 2000000000000 }
    ensures { result ≡ ends_test date start }
{
    midnight(date) + minutes(AU_NIGHT_AFTER) <= u64::from(start) + minutes(AU_14D_PERIOD)
}

/// The first night of the period that began at `start`.
fn first_date(start: Minute) -> u64
    ensures value { result ≡ first_of start }
    ensures small { result < 1000000000000 }
{
    (u64::from(start) + minutes(AU_NIGHT_BEFORE) + (u64::from(DAY_MINUTES) - 1))
        / u64::from(DAY_MINUTES)
}

/// The night after the last one of the period that began at `start`.
fn end_date(start: Minute) -> u64
    ensures value { result ≡ end_of start }
    ensures small { result < 1000000000000 }
{
    (u64::from(start) + (minutes(AU_14D_PERIOD) - minutes(AU_NIGHT_AFTER))) / u64::from(DAY_MINUTES)
        + 1
}

/// Whether the date stands in the list.
fn is_dated(dates: &[u32], date: u64) -> bool
    ensures { result ≡ is_dated_test dates.now date }
{
    dates.iter().any(|other| date == u64::from(*other))
}

/// Whether the night has a break, or gets one by rest that gives breaks from the minute `soonest`
/// on.
fn is_safe(soonest: u64, dates: &[u32], date: u64) -> bool
    requires { date < 2000000000000 }
    ensures { result ≡ is_safe_test soonest dates.now date }
{
    is_dated(dates, date) || soonest <= midnight(date) + minutes(AU_NIGHT_AFTER)
}

/// Whether enough nights of the period are safe.
fn has_four(soonest: u64, dates: &[u32], start: Minute) -> bool
    ensures { result ≡ four_test soonest dates.now start }
{
    let first = first_date(start);
    let end = end_date(start);
    let mut safe: u64 = 0;
    for date in first..end {
        if is_safe(soonest, dates, date) {
            safe += 1;
        }
    }
    safe >= u64::from(AU_14D_NIGHTS)
}

/// Whether the night and the next one are safe, and the next one ends in the period.
fn is_pair(soonest: u64, dates: &[u32], start: Minute, date: u64) -> bool
    requires { date < 1000000000000 }
    ensures { result ≡ pair_test soonest dates.now start date }
{
    (is_safe(soonest, dates, date) && is_safe(soonest, dates, date + 1)) && ends_in(date + 1, start)
}

/// Whether two consecutive nights of the period are safe.
fn has_two(soonest: u64, dates: &[u32], start: Minute) -> bool
    ensures { result ≡ two_test soonest dates.now start }
{
    let first = first_date(start);
    let end = end_date(start);
    for date in first..end {
        if is_pair(soonest, dates, start, date) {
            return true;
        }
    }
    false
}

/// Whether enough nights of the period are safe, and two consecutive ones.
fn has_nights(soonest: u64, dates: &[u32], start: Minute) -> bool
    ensures { result ≡ nights_test soonest dates.now start }
{
    has_four(soonest, dates, start) && has_two(soonest, dates, start)
}

/// The minute from which on rest for good gives breaks, where `run` rest units stand before `at`.
fn next_break(at: Minute, run: u32) -> u64
    ensures { result ≡ break_of at run }
{
    u64::from(at) + minutes(AU_NIGHT_REST.saturating_sub(run).max(1))
}

/// A minute before which each night of the period has ended.
fn past_period(start: Minute) -> u64
    ensures { result ≡ past_of start }
{
    u64::from(start) + minutes(AU_14D_PERIOD + 1)
}

/// Whether the night of the date has a break with the rest unit that begins at `at`, after which the
/// history ends with `run` rest units: inside it, or over its midnight.
fn is_rested(at: Minute, run: u32, date: u32) -> bool
    ensures { result ≡ is_rested_test at run date }
{
    let midnight = midnight(u64::from(date));
    let at = u64::from(at);
    (run >= AU_NIGHT_REST
        && (midnight + minutes(AU_NIGHT_REST) <= at + minutes(1 + AU_NIGHT_BEFORE)
            && at + minutes(1) <= midnight + minutes(AU_NIGHT_AFTER)))
        || (run >= AU_NIGHT_LONG_REST && at + minutes(1) < midnight + minutes(AU_NIGHT_LONG_REST))
}

/// Lets the periods go that are over at `at`.
fn keep_running(starts: &mut Starts, at: Minute)
    ensures { starts.new.items ≡ running at starts.old.items }
{
    starts.retain(|start| is_running(at, *start));
}

/// Whether the night lies in the period that began at `start`.
fn lies_in(date: u32, start: Minute) -> bool
    ensures { result ≡ lies_test date start }
{
    begins_in(date, start) && ends_in(u64::from(date), start)
}

/// Whether the night lies in one of the periods.
fn is_counted(date: u32, starts: &[u32]) -> bool
    ensures { result ≡ list_any (lies_test date) starts.now }
{
    starts.iter().any(|start| lies_in(date, *start))
}

/// Lets the dates go whose nights lie in none of the periods.
fn keep_counted(dates: &mut Dates, starts: &[u32])
    ensures { dates.new.items ≡ counted starts.now dates.old.items }
{
    dates.retain(|date| is_counted(*date, starts));
}

/// Whether each of these periods has its nights by rest that gives breaks from the minute `soonest`
/// on.
fn are_kept(soonest: u64, dates: &[u32], starts: &[u32]) -> bool
    ensures { result ≡ list_all (nights_test soonest dates.now) starts.now }
{
    for start in starts {
        if !has_nights(soonest, dates, *start) {
            return false;
        }
    }
    true
}

/// Whether each of these nights that lies in the period of `other` lies in that of `start` too, and
/// is one of the dates.
fn are_counted(nights: &[u32], other: Minute, dates: &[u32], start: Minute) -> bool
    ensures { result ≡ list_all (λ d. not (lies_test d other) || (lies_test d start && is_dated_test dates.now d)) nights.now }
{
    for night in nights {
        if !(!lies_in(*night, other)
            || (lies_in(*night, start) && is_dated(dates, u64::from(*night))))
        {
            return false;
        }
    }
    true
}

/// Whether the period that began at `start` asks no more at `at` than that of `other`: each night of
/// that one which has a break (one of `nights`), or may get one yet, is one of this, and has its
/// break (is one of `dates`) where it has one there.
fn covers_start(at: Minute, dates: &[u32], nights: &[u32], start: Minute, other: Minute) -> bool
    ensures { result ≡ covers_start_test at dates.now nights.now start other }
{
    (end_date(other) <= end_date(start)
        && first_date(start) <= first_date(other).max(u64::from(at / DAY_MINUTES)))
        && are_counted(nights, other, dates, start)
}

/// Whether the period asks no more at `at` than one of those that began at `others`.
fn is_asked(at: Minute, dates: &[u32], nights: &[u32], start: Minute, others: &[u32]) -> bool
    ensures { result ≡ list_any (covers_start_test at dates.now nights.now start) others.now }
{
    others
        .iter()
        .any(|other| covers_start(at, dates, nights, start, *other))
}

/// Whether the period asks no more at `at` than one of the other, or has its nights already.
fn covers_period(at: Minute, dates: &[u32], other: &NightLog, start: Minute) -> bool
    ensures { result ≡ covers_period_test at dates.now other.now start }
{
    is_asked(at, dates, other.dates(), start, other.starts())
        || has_nights(past_period(start), dates, start)
}

/// Whether each of the periods asks no more at `at` than one of the other, or has its nights already.
fn are_covered(at: Minute, dates: &[u32], other: &NightLog, starts: &[u32]) -> bool
    ensures { result ≡ list_all (covers_period_test at dates.now other.now) starts.now }
{
    for start in starts {
        if !covers_period(at, dates, other, *start) {
            return false;
        }
    }
    true
}

/// Whether each of the periods began before the last `run` units and one more.
fn have_begun(starts: &[u32], run: u32, at: Minute) -> bool
    ensures { result ≡ list_all (λ t. nat_le (t + minutes_of (1 + run)) at) starts.now }
{
    let since = minutes(1) + minutes(run);
    starts
        .iter()
        .all(|start| u64::from(*start) + since <= u64::from(at))
}

/// Whether each of the periods is open.
fn are_running(starts: &[u32], at: Minute) -> bool
    ensures { result ≡ list_all (is_running_test at) starts.now }
{
    starts.iter().all(|start| is_running(at, *start))
}

/// Whether these are minutes at which periods began that are open at `at`, far enough from each
/// other and from now, where `run` rest units stand before now.
fn are_few_starts(starts: &[u32], run: u32, at: Minute) -> bool
    ensures { result ≡ few_starts_test starts.now run at }
{
    are_spaced(minutes(AU_LONG_START + 1), starts)
        && (have_begun(starts, run, at) && are_running(starts, at))
}

/// Whether the night can count in a period that is open at `at`.
fn is_recent(at: Minute, date: u32) -> bool
    ensures { result ≡ is_recent_test at date }
{
    u64::from(at) < midnight(u64::from(date)) + minutes(AU_14D_PERIOD)
}

/// Whether each of the nights can count in a period that is open at `at`.
fn are_recent(dates: &[u32], at: Minute) -> bool
    ensures { result ≡ list_all (is_recent_test at) dates.now }
{
    dates.iter().all(|date| is_recent(at, *date))
}

/// Whether the midnights of these dates have come.
fn have_come(dates: &[u32], at: Minute) -> bool
    ensures { result ≡ list_all (λ d. nat_le (DAY_MINUTES * d) at) dates.now }
{
    dates
        .iter()
        .all(|date| midnight(u64::from(*date)) <= u64::from(at))
}

/// Whether these are dates in their order, none after today and none too long ago to count.
fn are_few_dates(dates: &[u32], at: Minute) -> bool
    ensures { result ≡ few_dates_test dates.now at }
{
    are_spaced(1, dates) && (are_recent(dates, at) && have_come(dates, at))
}

/// The numbers that are so far below `now`.
fn ago<const N: usize>(alloc: Global, now: u32, list: &[u32]) -> Result<SmallVec<u32, N>, NoMemory>
    ensures { IfOk result (λ before. before.items ≡ map (λ n. now - n) list.now) }
{
    let mut before = SmallVec::new(alloc);
    for number in list {
        before.push(now.saturating_sub(*number))?;
    }
    Ok(before)
}

impl NightLog {
    /// Nothing has begun.
    pub(crate) fn new(alloc: Global) -> NightLog
        ensures { result ≡ no_nights }
    {
        NightLog {
            starts: SmallVec::new(alloc),
            dates: SmallVec::new(alloc),
        }
    }

    /// An equal value.
    pub(crate) fn copy(&self) -> Result<NightLog, NoMemory>
        ensures { IfOk result (λ copy. copy ≡ self.now) }
    {
        Ok(NightLog {
            starts: SmallVec::from_slice(*self.starts.allocator(), self.starts.as_slice())?,
            dates: SmallVec::from_slice(*self.dates.allocator(), self.dates.as_slice())?,
        })
    }

    /// The minutes at which the open periods of fourteen days began, in their order.
    pub fn starts(&self) -> &[u32]
        ensures { result.now ≡ self.now.starts }
    {
        self.starts.as_slice()
    }

    /// The dates whose nights have a break so far and may count in one of these periods, in their
    /// order, as days since 2000-01-01.
    pub fn dates(&self) -> &[u32]
        ensures { result.now ≡ self.now.dates }
    {
        self.dates.as_slice()
    }

    /// With the duty unit that begins at `at`, before which the history ends with `run` rest units.
    pub(crate) fn work(&mut self, at: Minute, run: u32) -> Result<(), NoMemory>
        ensures { OnOk result (self.new ≡ pushed at run self.old) }
    {
        if run >= AU_LONG_START {
            self.starts.push(at)?;
        }
        Ok(())
    }

    /// With the rest unit that begins at `at`, after which the history ends with `run` rest units.
    pub(crate) fn rest(&mut self, at: Minute, run: u32) -> Result<(), NoMemory>
        ensures { OnOk result (self.new ≡ dated at run self.old) }
    {
        let today = at / DAY_MINUTES;
        if is_rested(at, run, today) && !is_dated(self.dates.as_slice(), u64::from(today)) {
            self.dates.push(today)?;
        }
        Ok(())
    }

    /// Lets the periods go that are over at `at`, and the nights that lie in none of the others.
    pub(crate) fn keep_open(&mut self, at: Minute)
        ensures { self.new ≡ still_open at self.old }
    {
        keep_running(&mut self.starts, at);
        keep_counted(&mut self.dates, self.starts.as_slice());
    }

    /// Whether each open period has its nights with rest for good from `at` on.
    pub(crate) fn are_kept(&self, at: Minute) -> bool
        ensures { result ≡ nights_ok at self.now }
    {
        are_kept(
            u64::from(at) + minutes(AU_NIGHT_REST),
            self.dates(),
            self.starts(),
        )
    }

    /// Whether each open period asks no more at `at` than some period of the other, or has its nights
    /// already.
    pub(crate) fn covers(&self, other: &NightLog, at: Minute) -> bool
        ensures { result ≡ covers_nights at self.now other.now }
    {
        are_covered(at, self.dates(), other, self.starts())
    }

    /// The periods that began so many minutes ago, and the nights of so many days ago.
    pub(crate) fn of_ago(
        alloc: Global,
        at: Minute,
        starts: &[u32],
        dates: &[u32],
    ) -> Result<NightLog, NoMemory>
        ensures { IfOk result (λ n. n ≡ record { starts = map (λ n. at - n) starts.now; dates = map (λ n. today at - n) dates.now }) }
    {
        Ok(NightLog {
            starts: ago(alloc, at, starts)?,
            dates: ago(alloc, at / DAY_MINUTES, dates)?,
        })
    }

    /// Whether these can be the periods and nights of a history that ends with `run` rest units at
    /// the minute `at`, and each period has its nights with rest for good.
    pub(crate) fn are_few(&self, run: u32, at: Minute) -> bool
        ensures { result ≡ few_nights_test self.now run at }
    {
        are_few_starts(self.starts(), run, at)
            && (are_few_dates(self.dates(), at)
                && are_kept(next_break(at, run), self.dates(), self.starts()))
    }
}
