//! The rule book.
ghost use Rattle.std.specs.Prelude.{◌≡◌, ◌⊎◌, ℕ, ◌+◌, ◌-◌, ◌<◌, ◌≤◌, Bool, true, cond, map, sum, length, nat_le, IfSome};
ghost use Rattle.duty_core.specs.declared.params.Params.TheVariants.{UsProperty};
ghost use Rattle.duty_core.specs.declared.limits.TheConstants.{DAY_MINUTES, US_RESTART, US_SHORT_WEEK, MINUTE_LIMIT};
ghost use Rattle.duty_core.specs.Activity.{drives};
ghost use Rattle.duty_core.specs.UsRules.{us_week_limit};
ghost use Rattle.day_sums.specs.Sums.{today};
ghost use Rattle.day_sums.specs.Counted.{turned};
ghost use Rattle.rule_core.specs.Reach.{nexts_made, listed};
ghost use Rattle.us_rules.specs.Machine.{IsUsState, begins_day, day_so_far, us_advances, first_of, goes_on, week_covers};
ghost use Rattle.us_rules.specs.Numbers.{us_state_of, holds_break_week};
ghost use Rattle.us_rules.specs.Ends.{next_with, first_next, onward};
ghost use Rattle.us_rules.specs.Spans.{left_of_day, week_span};
ghost use Rattle.us_rules.specs.Advance.{IsSteady};
ghost use Rattle.us_rules.specs.Laws.States.{some_days, few_days};
ghost use Rattle.us_rules.specs.Book.{us_book};
ghost use Rattle.us_rules.specs.Laws.BookLaws.{us_laws};

use crate::ends::ends_of;
use crate::numbers::COUNTS;
use crate::state::{BreakCount, UsState, WeekCount};
use day_sums::DaySums;
use duty_core::{
    Activity, DAY_MINUTES, Mark, Minute, NoMemory, Params, US_BREAK, US_DRIVING_LIMIT,
    US_FULL_REST, US_LONG_WEEK_LIMIT, US_PAIR_LEAST, US_RESTART, US_SHORT_WEEK,
    US_SHORT_WEEK_LIMIT, US_UNBROKEN_LIMIT, US_WINDOW_LIMIT, is_rest,
};
use rule_core::{Idles, Next, Nexts, Numbers, RuleBook};
use sleeper_split::{SplitCount, SplitRule, Used};

/// The rule book of the United States, property-carrying (49 CFR 395.3 and 395.1(g)(1)): the window
/// of fourteen hours, eleven hours of driving, a break after eight, sixty or seventy hours of duty
/// in a week with its restart, and split rests in the berth, two by two.
///
/// Where a rest run ends that may be a split rest, a state has two successors: without the mark of
/// that run, and with it. No call takes memory.
#[derive(Clone, Copy)]
pub struct UsBook {
    berth: bool,
    days: u8,
    day_start: u16,
    ghost week: { (US_SHORT_WEEK ≤ days) × (days ≤ 8) },
}

impl UsBook {
    /// The book with these parameters.
    ///
    /// `berth` tells whether the truck has a sleeper berth, `days` is the length of the weekly
    /// period, 7 or 8, and `day_start` the minute, below 1,440, at which a day begins.
    pub fn new(berth: bool, days: u8, day_start: u16) -> UsBook
        requires period { (days ≡ 7) ⊎ (days ≡ 8) }
        requires start { day_start < 1440 }
        ensures { (⟦<UsBook as RuleBook>⟧.machine result).params ≡ UsProperty berth days day_start }
    {
        UsBook {
            berth,
            days,
            day_start,
        }
    }

    /// Whether a day begins at this minute.
    fn begins_day(&self, at: Minute) -> bool
        ensures { result ≡ begins_day self.now.day_start at }
    {
        (at % DAY_MINUTES + DAY_MINUTES.saturating_sub(u32::from(self.day_start))) % DAY_MINUTES
            == 0
    }

    /// The minutes of the day of the minute `at`, from that one on.
    fn left_of_day(&self, at: Minute) -> u32
        ensures { result ≡ left_of_day self.now.day_start at }
    {
        let start = DAY_MINUTES.saturating_sub(u32::from(self.day_start));
        DAY_MINUTES - (at % DAY_MINUTES + start) % DAY_MINUTES
    }

    /// The counts of the week after `n` minutes of one day, the first of which is `at`.
    fn week_after(&self, week: &WeekCount, at: Minute, act: Activity, n: u32) -> WeekCount
        requires rest { week.now.rest ≤ US_RESTART }
        requires day { today (turned (begins_day self.now.day_start at) week.now.sums) + n ≤ DAY_MINUTES }
        ensures { result ≡ week_span self.now.day_start week.now at act n }
    {
        let mut sums = self.days_at(week, at);
        if is_rest(act) {
            let rest = week.rest + n;
            if rest >= US_RESTART {
                sums.reset();
            }
            WeekCount {
                rest: US_RESTART.min(rest),
                sums,
            }
        } else {
            sums.add(n);
            WeekCount { rest: 0, sums }
        }
    }

    /// Whether the duty of the week, with this minute, lets it be.
    fn week_allows(&self, after: &WeekCount, act: Activity) -> bool
        ensures { result ≡ cond (drives act) (nat_le (sum after.now.sums) (us_week_limit self.now.days)) true }
    {
        !matches!(act, Activity::Drive) || after.sums.total() <= self.week_limit()
    }
}

/// The successor by these counts, if they are there, with the mark of the run that ended as a split
/// rest.
fn next_by(
    count: Option<SplitCount>,
    rest_break: BreakCount,
    week: &WeekCount,
    mark: Option<Mark>,
) -> Option<Next<UsState>>
    ensures { result ≡ next_with count rest_break week.now mark }
{
    let split = count?;
    Some(Next {
        state: UsState {
            split,
            rest_break,
            week: WeekCount {
                rest: week.rest,
                sums: week.sums,
            },
        },
        mark,
    })
}

/// The full rests, in minutes, that a shift of which so much is used leaves to take before so much
/// driving and other duty is done.
fn rest_before(used: Used, run: u32, driving: u32, other: u32) -> u32 {
    let drive_left = US_DRIVING_LIMIT.saturating_sub(used.driving);
    let window_left = US_WINDOW_LIMIT.saturating_sub(used.elapsed.saturating_sub(run));
    let by_driving = shifts(driving.saturating_sub(drive_left), US_DRIVING_LIMIT);
    let by_window = shifts(
        driving.saturating_add(other).saturating_sub(window_left),
        US_WINDOW_LIMIT,
    );
    US_FULL_REST.saturating_mul(by_driving.max(by_window))
}

/// Nothing used.
const NOTHING: Used = Used {
    driving: 0,
    duty: 0,
    elapsed: 0,
};

/// How many shifts of this length so many minutes take.
fn shifts(minutes: u32, shift: u32) -> u32
    requires { 1 ≤ shift }
{
    minutes.saturating_add(shift - 1) / shift
}

/// No successor.
const NONE: Nexts<UsState> = Nexts {
    a: None,
    b: None,
    c: None,
};

impl UsBook {
    /// The successors by `n` minutes of this activity, at least one, all of one day.
    ///
    /// The counts only grow while a driver is on duty, so the last of the minutes decides whether a
    /// rule forbids one of them.
    fn nexts(&self, state: &UsState, at: Minute, act: Activity, n: u32) -> Nexts<UsState>
        requires state { IsUsState self.now.berth self.now.days self.now.day_start state.now at }
        requires some { 1 ≤ n }
        requires one_day { n ≤ left_of_day self.now.day_start at }
        ensures { listed result ≡ us_advances self.now.berth self.now.days self.now.day_start state.now at act n }
    {
        let week = self.week_after(&state.week, at, act, n);
        if !state.rest_break.allows(act, n) || !self.week_allows(&week, act) {
            return NONE;
        }
        let rest_break = state.rest_break.after(act, n);
        let at_start = Mark::SplitRest {
            at: at.saturating_sub(state.split.run().long),
        };
        let ends = ends_of(self.berth, state.split, act, n);
        Nexts {
            a: next_by(ends.plain, rest_break, &week, None),
            b: next_by(ends.split, rest_break, &week, Some(at_start)),
            c: next_by(ends.full, rest_break, &week, None),
        }
    }

    /// The first successor by `n` minutes of one day, without its mark.
    fn first_next(&self, state: &UsState, at: Minute, act: Activity, n: u32) -> Option<UsState>
        requires state { IsUsState self.now.berth self.now.days self.now.day_start state.now at }
        requires some { 1 ≤ n }
        requires one_day { n ≤ left_of_day self.now.day_start at }
        ensures { result ≡ first_of (us_advances self.now.berth self.now.days self.now.day_start state.now at act n) }
    {
        let Nexts { a, b, c } = self.nexts(state, at, act, n);
        first_state(a, b, c)
    }

    /// Where `n` more minutes lead a state for which no choice is left, day by day.
    fn goes_on(&self, state: UsState, at: Minute, act: Activity, n: u32) -> Option<UsState>
        requires state { IsUsState self.now.berth self.now.days self.now.day_start state at }
        requires steady { IsSteady state act }
        requires range { at + n ≤ MINUTE_LIMIT }
        ensures { result ≡ goes_on self.now.berth self.now.days self.now.day_start (Some state) at act n }
    {
        let mut state = state;
        let mut done = 0;
        while done < n {
            let more = self.left_of_day(at + done).min(n - done);
            state = self.first_next(&state, at + done, act, more)?;
            done += more;
        }
        Some(state)
    }

    /// Where `n` more minutes lead a successor, which keeps its mark.
    fn onward(
        &self,
        next: Option<Next<UsState>>,
        at: Minute,
        act: Activity,
        n: u32,
    ) -> Option<Next<UsState>>
        requires state { IfSome next (λ t. IsUsState self.now.berth self.now.days self.now.day_start t.state at × IsSteady t.state act) }
        requires range { at + n ≤ MINUTE_LIMIT }
        ensures { result ≡ onward self.now.berth self.now.days self.now.day_start next at act n }
    {
        let Next { state, mark } = next?;
        let state = self.goes_on(state, at, act, n)?;
        Some(Next { state, mark })
    }
}

/// The state of the first of these successors that is there.
fn first_state(
    a: Option<Next<UsState>>,
    b: Option<Next<UsState>>,
    c: Option<Next<UsState>>,
) -> Option<UsState>
    ensures { result ≡ first_next (nexts_made a b c) }
{
    match (a, b, c) {
        (Some(next), _, _) | (None, Some(next), _) | (None, None, Some(next)) => Some(next.state),
        (None, None, None) => None,
    }
}

impl UsBook {
    /// The duty of the days of a week, by the day of the minute `at`.
    fn days_at(&self, week: &WeekCount, at: Minute) -> DaySums
        ensures { result ≡ turned (begins_day self.now.day_start at) week.now.sums }
    {
        let mut sums = week.sums;
        if self.begins_day(at) {
            sums.roll_day();
        }
        sums
    }

    /// Whether the counts of one week may stand for those of another at the minute `at`.
    fn week_covers(&self, a: &WeekCount, b: &WeekCount, at: Minute) -> bool
        requires a { length a.now.sums ≡ self.now.days }
        requires b { length b.now.sums ≡ self.now.days }
        ensures { result ≡ week_covers self.now.days self.now.day_start at a.now b.now }
    {
        let ours = self.days_at(a, at);
        let theirs = self.days_at(b, at);
        b.rest <= a.rest && ours.leaves_no_less(&theirs, self.week_limit())
    }

    /// The greatest duty of a week at which a driver may drive.
    fn week_limit(&self) -> u32
        ensures { result ≡ us_week_limit self.now.days }
    {
        if u32::from(self.days) == US_SHORT_WEEK {
            US_SHORT_WEEK_LIMIT
        } else {
            US_LONG_WEEK_LIMIT
        }
    }

    /// The minutes of the day of the minute before `at`, up to `at`.
    fn day_so_far(&self, at: Minute) -> u32
        ensures { result ≡ day_so_far self.now.day_start at }
    {
        let start = DAY_MINUTES.saturating_sub(u32::from(self.day_start));
        (at % DAY_MINUTES + start + (DAY_MINUTES - 1)) % DAY_MINUTES + 1
    }

    /// Whether these are counts of breaks and of the week at the minute `at`.
    fn holds(&self, rest_break: BreakCount, week: &WeekCount, at: Minute) -> bool
        ensures { result ≡ holds_break_week self.now.day_start rest_break week.now at }
    {
        rest_break.still <= US_BREAK
            && rest_break.driven <= US_UNBROKEN_LIMIT
            && week.rest <= US_RESTART
            && week.sums.today() <= self.day_so_far(at)
    }

    /// The state that has these numbers at the minute `at`, if there is one.
    fn state_of(&self, numbers: &[u32], at: Minute) -> Option<UsState>
        ensures { result ≡ us_state_of self.now.berth self.now.days self.now.day_start numbers.now at }
    {
        if numbers.len() != COUNTS + usize::from(self.days) {
            return None;
        }
        let split = SplitCount::of_numbers(numbers, SplitRule::US, self.berth)?;
        let sums = DaySums::of_sums(&numbers[COUNTS..])?;
        let rest_break = BreakCount {
            still: numbers[11],
            driven: numbers[12],
        };
        let week = WeekCount {
            rest: numbers[13],
            sums,
        };
        self.holds(rest_break, &week, at).then_some(UsState {
            split,
            rest_break,
            week,
        })
    }
}

impl RuleBook for UsBook {
    type State = UsState;

    const FRUGAL: bool = true;

    ghost FRUGAL = { true };

    ghost machine = { λ book. us_book book.berth book.days book.day_start };

    fn params(&self) -> Params {
        Params::UsProperty {
            berth: self.berth,
            days: self.days,
            day_start: self.day_start,
        }
    }

    fn root(&self, _first: Minute) -> Result<UsState, NoMemory> {
        Ok(UsState {
            split: SplitCount::fresh(),
            rest_break: BreakCount::FRESH,
            week: WeekCount {
                rest: US_RESTART,
                sums: DaySums::new(self.days),
            },
        })
    }

    fn copy(&self, state: &UsState) -> Result<UsState, NoMemory> {
        Ok(UsState {
            split: state.split,
            rest_break: state.rest_break,
            week: WeekCount {
                rest: state.week.rest,
                sums: state.week.sums,
            },
        })
    }

    fn step(&self, state: &UsState, at: Minute, act: Activity) -> Result<Nexts<UsState>, NoMemory> {
        Ok(self.nexts(state, at, act, 1))
    }

    fn advance(
        &self,
        state: &UsState,
        at: Minute,
        act: Activity,
        n: u32,
    ) -> Result<Nexts<UsState>, NoMemory> {
        // Only the first minute may choose a mark.
        let first = self.left_of_day(at).min(n);
        let nexts = self.nexts(state, at, act, first);
        if first == n {
            return Ok(nexts);
        }
        let Nexts { a, b, c } = nexts;
        Ok(Nexts {
            a: self.onward(a, at + first, act, n - first),
            b: self.onward(b, at + first, act, n - first),
            c: self.onward(c, at + first, act, n - first),
        })
    }

    fn covers(&self, a: &UsState, b: &UsState, at: Minute) -> bool {
        a.split.covers(b.split, SplitRule::US, self.berth)
            && a.rest_break.covers(b.rest_break)
            && self.week_covers(&a.week, &b.week, at)
    }

    fn idles(&self, state: &UsState) -> Idles {
        let rest = if self.berth {
            Activity::Berth
        } else {
            Activity::Off
        };
        Idles {
            first: rest,
            second: (!self.ahead(state)).then_some(Activity::Wait),
        }
    }

    fn ahead(&self, state: &UsState) -> bool {
        state.split.is_ahead(SplitRule::US, self.berth)
    }

    fn least_rest(&self, state: &UsState, driving: u32, other: u32) -> u32 {
        let split = state.split;
        let run = split.run().long;
        if run >= US_FULL_REST {
            return rest_before(NOTHING, 0, driving, other);
        }
        let owed = rest_before(split.base(), run, driving, other).saturating_sub(run);
        match split.waiting() {
            None => owed,
            Some(rest) => {
                let pair = US_PAIR_LEAST.saturating_sub(rest.long);
                let later = rest_before(split.last(), run, driving, other).saturating_add(pair);
                owed.min(later.saturating_sub(run))
            }
        }
    }

    fn write_state(&self, state: &UsState, _at: Minute, out: &mut Numbers) -> Result<(), NoMemory> {
        out.extend_parts(
            &state.split.numbers(),
            &state.counts(),
            state.week.sums.sums(),
        )
    }

    fn read_state(&self, numbers: &[u32], at: Minute) -> Result<Option<UsState>, NoMemory> {
        Ok(self.state_of(numbers, at))
    }

    ghost laws = { λ book. us_laws book.berth book.days book.day_start (some_days book.days book.week) (few_days book.days book.week) };
}
