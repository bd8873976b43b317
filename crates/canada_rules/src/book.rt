//! The rule book.
ghost use Rattle.std.specs.Prelude.{◌≡◌, ◌⊎◌, ℕ, ◌+◌, ◌-◌, ◌<◌, ◌≤◌, ◌&&◌, Bool, true, IfSome};
ghost use Rattle.duty_core.specs.declared.params.Params.TheVariants.{Canada};
ghost use Rattle.duty_core.specs.declared.limits.TheConstants.{DAY_MINUTES, MINUTE_LIMIT, CA_CYCLE_1, CA_CYCLE_2};
ghost use Rattle.rule_core.specs.Reach.{listed};
ghost use Rattle.canada_rules.specs.Machine.{ca_may, begins_day, ca_date, IsCanadaState, calendar_after, ca_nexts, goes_on, day_so_far};
ghost use Rattle.cycles_deferral.specs.DayRuns.{either};
ghost use Rattle.canada_rules.specs.Ends.{next_with};
ghost use Rattle.canada_rules.specs.Stretch.{left_of_day, calendar_run, IsGoing};
ghost use Rattle.canada_rules.specs.Numbers.{is_seen, fits_day, ca_state_of};
ghost use Rattle.canada_rules.specs.States.{IsCalendar};
ghost use Rattle.canada_rules.specs.Book.{ca_book};
ghost use Rattle.canada_rules.specs.Laws.BookLaws.{ca_laws};

use crate::ends::{ends_of, split_run};
use crate::numbers::{COUNTS, cycle_by, days_by};
use crate::state::{Calendar, CanadaState, DayDuty};
use cycles_deferral::{CanadaDays, CycleCount};
use duty_core::{
    Activity, CA_FULL_REST, CA_SHIFT_DRIVING_LIMIT, CA_SHIFT_DUTY_LIMIT, DAY_MINUTES, Day, Mark,
    Minute, NoMemory, Params, RestWay,
};
use rule_core::{Idles, Next, Nexts, Numbers, RuleBook};
use sleeper_split::{SplitCount, SplitRule};

/// The rule book of Canada, south of 60°N (SOR/2005-313, sections 12 to 28): driving and duty of a
/// day and of a shift, the elapsed time of a shift, the daily rest with its deferral or with split
/// rests in the berth, two by two, the day off in a fortnight, and the cycle.
///
/// Where rests may be split, and a rest run ends that may be a split rest, a state has two
/// successors: without the mark of that run, and with it. The mark of a deferral is no choice: a day
/// has it at the minute at which the day begins to lose too much. No call takes memory.
#[derive(Clone, Copy)]
pub struct CanadaBook {
    berth: bool,
    way: RestWay,
    cycle: u8,
    day_start: u16,
    ghost begins: { day_start ≤ DAY_MINUTES },
}

impl CanadaBook {
    /// The book with these parameters.
    ///
    /// `berth` tells whether the truck has a sleeper berth, `way` how a history may part its rest,
    /// `cycle` is 1 or 2, and `day_start` is the minute, below 1,440, at which a day begins.
    pub fn new(berth: bool, way: RestWay, cycle: u8, day_start: u16) -> CanadaBook
        requires cycle { (cycle ≡ CA_CYCLE_1) ⊎ (cycle ≡ CA_CYCLE_2) }
        requires start { day_start < DAY_MINUTES }
        ensures { (⟦<CanadaBook as RuleBook>⟧.machine result).params ≡ Canada berth way cycle day_start }
    {
        CanadaBook {
            berth,
            way,
            cycle,
            day_start,
        }
    }

    /// Whether rests may be split: in a berth, where the tour rests so.
    fn may_split(&self) -> bool
        ensures { result ≡ ca_may self.now.berth self.now.way }
    {
        self.berth && matches!(self.way, RestWay::Split)
    }

    /// Whether a day begins at this minute.
    fn begins_day(&self, at: Minute) -> bool
        ensures { result ≡ begins_day self.now.day_start at }
    {
        (at % DAY_MINUTES + DAY_MINUTES.saturating_sub(u32::from(self.day_start))) % DAY_MINUTES
            == 0
    }

    /// The day of this minute.
    fn day_of(&self, at: Minute) -> Day
        requires { at < MINUTE_LIMIT }
        ensures { result ≡ ca_date self.now.day_start at }
    {
        let minutes = at + DAY_MINUTES.saturating_sub(u32::from(self.day_start));
        (minutes / DAY_MINUTES) as Day - 1
    }

    /// The minutes from `at` on that lie in its day.
    fn left_of_day(&self, at: Minute) -> u32
        ensures { result ≡ left_of_day self.now.day_start at }
    {
        let start = DAY_MINUTES.saturating_sub(u32::from(self.day_start));
        DAY_MINUTES - (at % DAY_MINUTES + start) % DAY_MINUTES
    }

    /// What is counted by days after `n` equal minutes of the day of the minute `at`, which is the
    /// first of them, and the mark of a deferral that is chosen at one of them. `None` where a rule
    /// forbids one of them.
    fn calendar_run(
        &self,
        calendar: &Calendar,
        at: Minute,
        act: Activity,
        n: u32,
    ) -> Option<(Calendar, Option<Mark>)>
        requires calendar { IsCalendar self.now.way self.now.day_start calendar.now at }
        requires range { at < MINUTE_LIMIT }
        requires some { 1 ≤ n }
        requires inside { n ≤ left_of_day self.now.day_start at }
        ensures { result ≡ calendar_run self.now.day_start calendar.now at act n }
    {
        let new_day = self.begins_day(at);
        let day = calendar.day.begun(new_day).with(act, n);
        if !day.allows(act) {
            return None;
        }
        let (days, mark) = calendar.days.run(act, new_day, self.day_of(at), n)?;
        let count = calendar.cycle;
        let cycle = count.run(act, new_day, n)?;
        Some((Calendar { day, days, cycle }, mark))
    }

    /// What is counted by days after the minute `at`, and the mark of a deferral that is chosen at
    /// it. `None` where a rule forbids that minute.
    fn calendar_after(
        &self,
        calendar: &Calendar,
        at: Minute,
        act: Activity,
    ) -> Option<(Calendar, Option<Mark>)>
        requires calendar { IsCalendar self.now.way self.now.day_start calendar.now at }
        requires range { at < MINUTE_LIMIT }
        ensures { result ≡ calendar_after self.now.day_start calendar.now at act }
    {
        self.calendar_run(calendar, at, act, 1)
    }
}

/// The successor by these counts, if they are there, with this mark.
fn next_by(
    count: Option<SplitCount>,
    calendar: &Calendar,
    mark: Option<Mark>,
) -> Option<Next<CanadaState>>
    ensures { result ≡ next_with count calendar.now mark }
{
    let split = count?;
    Some(Next {
        state: CanadaState {
            split,
            calendar: Calendar {
                day: calendar.day,
                days: calendar.days,
                cycle: calendar.cycle,
            },
        },
        mark,
    })
}

/// No successor.
const NONE: Nexts<CanadaState> = Nexts {
    a: None,
    b: None,
    c: None,
};

/// The mark that is there.
fn either(a: Option<Mark>, b: Option<Mark>) -> Option<Mark>
    ensures { result ≡ either a b }
{
    match a {
        Some(mark) => Some(mark),
        None => b,
    }
}

impl CanadaBook {
    /// The successors by a minute of this activity.
    fn nexts(&self, state: &CanadaState, at: Minute, act: Activity) -> Nexts<CanadaState>
        requires state { IsCanadaState (ca_may self.now.berth self.now.way) self.now.way self.now.day_start state.now at }
        requires range { at < MINUTE_LIMIT }
        ensures { listed result ≡ ca_nexts (ca_may self.now.berth self.now.way) self.now.day_start state.now at act }
    {
        let Some((calendar, mark)) = self.calendar_after(&state.calendar, at, act) else {
            return NONE;
        };
        let at_start = Mark::SplitRest {
            at: at.saturating_sub(state.split.run().long),
        };
        let ends = ends_of(self.may_split(), state.split, act);
        Nexts {
            a: next_by(ends.plain, &calendar, mark),
            b: next_by(ends.split, &calendar, Some(at_start)),
            c: next_by(ends.full, &calendar, mark),
        }
    }

    /// Where `n` more minutes of the day of the minute `at`, which is the first of them, lead a
    /// successor at once.
    fn stretch(
        &self,
        next: Next<CanadaState>,
        at: Minute,
        act: Activity,
        n: u32,
    ) -> Option<Next<CanadaState>>
        requires going { IsGoing (ca_may self.now.berth self.now.way) self.now.way self.now.day_start next at act }
        requires range { at < MINUTE_LIMIT }
        requires some { 1 ≤ n }
        requires inside { n ≤ left_of_day self.now.day_start at }
        ensures { result ≡ goes_on (ca_may self.now.berth self.now.way) self.now.day_start (Some next) at act n }
    {
        let Next { state, mark } = next;
        let (calendar, chosen) = self.calendar_run(&state.calendar, at, act, n)?;
        next_by(
            split_run(state.split, act, n),
            &calendar,
            either(mark, chosen),
        )
    }

    /// Where `n` more minutes lead a successor, day by day, with the one mark that is chosen on the
    /// way.
    fn goes_on(
        &self,
        next: Next<CanadaState>,
        at: Minute,
        act: Activity,
        n: u32,
    ) -> Option<Next<CanadaState>>
        requires going { IsGoing (ca_may self.now.berth self.now.way) self.now.way self.now.day_start next at act }
        requires range { at + n ≤ MINUTE_LIMIT }
        ensures { result ≡ goes_on (ca_may self.now.berth self.now.way) self.now.day_start (Some next) at act n }
    {
        let mut reached = next;
        let mut done = 0;
        'days: while done < n {
            let minutes = self.left_of_day(at + done).min(n - done);
            reached = self.stretch(reached, at + done, act, minutes)?;
            done += minutes;
        }
        Some(reached)
    }

    /// Where `n` more minutes lead a successor, if it is there.
    fn onward(
        &self,
        next: Option<Next<CanadaState>>,
        at: Minute,
        act: Activity,
        n: u32,
    ) -> Option<Next<CanadaState>>
        requires going { IfSome next (λ t. IsGoing (ca_may self.now.berth self.now.way) self.now.way self.now.day_start t at act) }
        requires range { at + n ≤ MINUTE_LIMIT }
        ensures { result ≡ goes_on (ca_may self.now.berth self.now.way) self.now.day_start next at act n }
    {
        self.goes_on(next?, at, act, n)
    }
}

/// Whether today was seen from its first minute, which has so many, and holds no other rest, where a
/// short rest over midnight is in progress.
fn is_seen(days: CanadaDays, so_far: u32) -> bool
    ensures { result ≡ is_seen so_far days }
{
    let over = 0 < days.yesterday().short;
    !over || (days.minute() == so_far && days.today().longest <= days.rest())
}

/// Whether what is counted by days fits in a day that has so many minutes so far.
fn fits_day(calendar: &Calendar, so_far: u32) -> bool
    ensures { result ≡ fits_day so_far calendar.now }
{
    let cycle = calendar.cycle.sums();
    calendar.day.driving <= calendar.day.duty
        && (calendar.day.duty <= so_far
            && (is_seen(calendar.days, so_far) && cycle.today() <= so_far))
}

impl CanadaBook {
    /// The minutes of the day of the minute before `at`, up to `at`.
    fn day_so_far(&self, at: Minute) -> u32
        ensures { result ≡ day_so_far self.now.day_start at }
    {
        let start = DAY_MINUTES.saturating_sub(u32::from(self.day_start));
        (at % DAY_MINUTES + start + (DAY_MINUTES - 1)) % DAY_MINUTES + 1
    }

    /// The state that has these numbers at the minute `at`, if there is one.
    fn state_of(&self, numbers: &[u32], at: Minute) -> Option<CanadaState>
        ensures { result ≡ ca_state_of (ca_may self.now.berth self.now.way) self.now.way self.now.cycle self.now.day_start numbers.now at }
    {
        if numbers.len() < COUNTS {
            return None;
        }
        let split = SplitCount::of_numbers(numbers, SplitRule::CANADA, self.may_split())?;
        let days = days_by(numbers, self.way)?;
        let cycle = cycle_by(numbers, self.cycle)?;
        let day = DayDuty {
            driving: numbers[11],
            duty: numbers[12],
        };
        let calendar = Calendar { day, days, cycle };
        fits_day(&calendar, self.day_so_far(at)).then_some(CanadaState { split, calendar })
    }
}

/// The minutes of the full rests that have to come before so much more driving and other duty is
/// done, where so much driving and duty of the shift is after.
fn rest_before(driving: u32, other: u32, driven: u32, worked: u32) -> u32 {
    let by_driving = shifts_before(driving, driven, CA_SHIFT_DRIVING_LIMIT);
    let by_duty = shifts_before(driving.saturating_add(other), worked, CA_SHIFT_DUTY_LIMIT);
    by_driving.max(by_duty).saturating_mul(CA_FULL_REST)
}

/// How many shifts have to be begun before `more` minutes are done, where a shift holds `limit` and
/// the present one has used up some.
fn shifts_before(more: u32, used: u32, limit: u32) -> u32
    requires { 0 < limit }
{
    more.saturating_sub(limit.saturating_sub(used))
        .div_ceil(limit)
}

impl RuleBook for CanadaBook {
    type State = CanadaState;

    const FRUGAL: bool = true;

    ghost FRUGAL = { true };

    ghost machine = { λ book. ca_book book.berth book.way book.cycle book.day_start };

    fn params(&self) -> Params {
        Params::Canada {
            berth: self.berth,
            way: self.way,
            cycle: self.cycle,
            day_start: self.day_start,
        }
    }

    fn root(&self, _first: Minute) -> Result<CanadaState, NoMemory> {
        Ok(CanadaState {
            split: SplitCount::fresh(),
            calendar: Calendar {
                day: DayDuty::NONE,
                days: CanadaDays::fresh(self.way),
                cycle: CycleCount::fresh(self.cycle),
            },
        })
    }

    fn copy(&self, state: &CanadaState) -> Result<CanadaState, NoMemory> {
        Ok(CanadaState {
            split: state.split,
            calendar: Calendar {
                day: state.calendar.day,
                days: state.calendar.days,
                cycle: state.calendar.cycle,
            },
        })
    }

    fn step(
        &self,
        state: &CanadaState,
        at: Minute,
        act: Activity,
    ) -> Result<Nexts<CanadaState>, NoMemory> {
        Ok(self.nexts(state, at, act))
    }

    fn advance(
        &self,
        state: &CanadaState,
        at: Minute,
        act: Activity,
        n: u32,
    ) -> Result<Nexts<CanadaState>, NoMemory> {
        // A run can end at the first minute only. The later ones are taken day by day.
        let Nexts { a, b, c } = self.nexts(state, at, act);
        Ok(Nexts {
            a: self.onward(a, at + 1, act, n - 1),
            b: self.onward(b, at + 1, act, n - 1),
            c: self.onward(c, at + 1, act, n - 1),
        })
    }

    fn covers(&self, a: &CanadaState, b: &CanadaState, at: Minute) -> bool {
        a.split.covers(b.split, SplitRule::CANADA, self.may_split())
            && a.calendar.covers(&b.calendar, self.begins_day(at))
    }

    fn idles(&self, state: &CanadaState) -> Idles {
        let rest = if self.berth {
            Activity::Berth
        } else {
            Activity::Off
        };
        Idles {
            first: rest,
            second: (!self.ahead(state)).then_some(Activity::Wait),
        }
    }

    fn ahead(&self, state: &CanadaState) -> bool {
        state.split.is_ahead(SplitRule::CANADA, self.may_split())
    }

    fn least_rest(&self, state: &CanadaState, driving: u32, other: u32) -> u32 {
        let run = state.split.run().long;
        if CA_FULL_REST <= run {
            return rest_before(driving, other, 0, 0);
        }
        let used = state.split.base();
        rest_before(driving, other, used.driving, used.duty).saturating_sub(run)
    }

    fn write_state(
        &self,
        state: &CanadaState,
        _at: Minute,
        out: &mut Numbers,
    ) -> Result<(), NoMemory> {
        out.extend_parts(
            &state.split.numbers(),
            &state.counts(),
            state.calendar.cycle.sums().sums(),
        )
    }

    fn read_state(&self, numbers: &[u32], at: Minute) -> Result<Option<CanadaState>, NoMemory> {
        Ok(self.state_of(numbers, at))
    }

    ghost laws = { λ book. ca_laws book.berth book.way book.cycle book.day_start book.begins };
}
