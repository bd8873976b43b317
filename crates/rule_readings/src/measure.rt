//! What each rule looks at, and how much of it it allows.
ghost use Rattle.std.specs.Prelude.{◌≡◌, ◌*◌, ◌<◌, ◌^◌};
ghost use Rattle.duty_core.specs.declared.params.Params.TheVariants.{Hvnl};
ghost use Rattle.duty_core.specs.Params.{unit_minutes};
ghost use Rattle.rule_readings.specs.Asked.{asks, counts, work, rest, week, cycle_duty, without_day_off, asked_of, ca_asked, au_asked, order_of};

use crate::au_periods::Start;
use crate::best::Order;
use crate::book::{cycle, days_of_week};
use duty_core::{
    AU_5H30_DUTY, AU_5H30_PERIOD, AU_7D_DUTY, AU_7D_PERIOD, AU_7D_REST, AU_8H_DUTY, AU_8H_PERIOD,
    AU_11H_DUTY, AU_11H_PERIOD, AU_14D_DUTY, AU_14D_NIGHTS, AU_14D_PERIOD, AU_24H_DUTY,
    AU_24H_PERIOD, AU_24H_REST, CA_BOTH_LOST_LIMIT, CA_CYCLE_1, CA_CYCLE_1_DAYS, CA_CYCLE_1_LIMIT,
    CA_CYCLE_1_RESET, CA_CYCLE_2, CA_CYCLE_2_DAYS, CA_CYCLE_2_LIMIT, CA_CYCLE_2_RESET,
    CA_DAY_DRIVING_LIMIT, CA_DAY_DUTY_LIMIT, CA_DAY_OFF, CA_DAY_OFF_WITHIN, CA_ELAPSED_LIMIT,
    CA_FULL_REST, CA_LOST_LIMIT, CA_PAIR_LEAST, CA_SHIFT_DRIVING_LIMIT, CA_SHIFT_DUTY_LIMIT,
    CA_WITHOUT_DAY_OFF_LIMIT, Params, Rule, US_DRIVING_LIMIT, US_FULL_REST, US_LONG_WEEK_LIMIT,
    US_PAIR_LEAST, US_RESTART, US_SHORT_WEEK, US_SHORT_WEEK_LIMIT, US_UNBROKEN_LIMIT,
    US_WINDOW_LIMIT, unit_of,
};

/// The greatest time since 24 hours of rest at which a driver may drive in Canada, in minutes: so
/// long ago they ended at most, where they lie wholly in the fortnight before (SOR/2005-313,
/// section 25).
pub(crate) const CA_SINCE_DAY_OFF_LIMIT: u32 = CA_DAY_OFF_WITHIN - CA_DAY_OFF;

/// From where a rule counts at a unit of driving.
#[derive(Clone, Copy, Debug, PartialEq, Eq)]
pub(crate) enum Since {
    /// The base, where a full rest is at least so many units long.
    Base { full: u32 },
    /// The end of the last break.
    Break,
    /// The first place of the day.
    Day,
    /// The first place of the last so many days, or the end of the last rest run of at least
    /// `restart` units, whichever is later.
    Days { days: u32, restart: u32 },
    /// The end of the last rest run of at least so many units.
    Rest { least: u32 },
}

/// What a rule counts from there up to a unit of driving.
#[derive(Clone, Copy, Debug, PartialEq, Eq)]
pub(crate) enum Amount {
    /// Driving, that unit counted.
    Driving,
    /// Duty, that unit counted.
    Duty,
    /// Time, that unit counted, without a split rest that waits for its pair.
    Time,
    /// Time, that unit not counted.
    TimeBefore,
}

/// What a rule looks at: where, and what the value is there.
#[derive(Clone, Copy, Debug, PartialEq, Eq)]
pub(crate) enum Measure {
    /// Nothing.
    Nothing,
    /// At a unit of driving, what is counted up to it.
    AtDriving { amount: Amount, since: Since },
    /// Where a split rest begins, how long it and the next declared rest are together. A full rest
    /// is at least so many units long.
    PairSum { full: u32 },
    /// Where a day begins that is in no deferral, its lost minutes.
    Loss,
    /// Where a deferred day begins, its lost minutes and those of the next day.
    DeferredLoss,
    /// At a start, the duty in the period of so many units, in minutes.
    PeriodDuty { start: Start, units: u32 },
    /// At a long start, the longest rest in the period of so many units, in minutes.
    PeriodRest { units: u32 },
    /// At a long start, how many nights of the fourteen days have a break.
    PeriodNights,
}

/// What a rule asks: that each value is at most the limit, or at least it.
#[derive(Clone, Copy, Debug, PartialEq, Eq)]
pub(crate) struct Asked {
    pub measure: Measure,
    pub limit: u32,
}

/// This limit of what is looked at.
fn asks(measure: Measure, limit: u32) -> Asked
    ensures { result ≡ asks measure limit }
{
    Asked { measure, limit }
}

/// This limit of what is counted at units of driving.
fn counts(amount: Amount, since: Since, limit: u32) -> Asked
    ensures { result ≡ counts amount since limit }
{
    Asked {
        measure: Measure::AtDriving { amount, since },
        limit,
    }
}

/// This limit, in quarters of an hour, of the duty in Australia's periods.
fn work(start: Start, units: u32, quarters: u32) -> Asked
    requires { unit_minutes Hvnl * quarters < 2 ^ 32 }
    ensures { result ≡ work start units quarters }
{
    let limit = unit_of(Params::Hvnl {}) * quarters;
    asks(Measure::PeriodDuty { start, units }, limit)
}

/// This limit, in quarters of an hour, of the longest rest in Australia's periods.
fn rest(units: u32, quarters: u32) -> Asked
    requires { unit_minutes Hvnl * quarters < 2 ^ 32 }
    ensures { result ≡ rest units quarters }
{
    let limit = unit_of(Params::Hvnl {}) * quarters;
    asks(Measure::PeriodRest { units }, limit)
}

/// What a week of so many days asks: at most sixty hours of duty in seven days, or seventy in eight,
/// since a restart (49 CFR 395.3(b) and (c)).
fn week(days: u32) -> Asked
    ensures { result ≡ week days }
{
    let limit = if days == US_SHORT_WEEK {
        US_SHORT_WEEK_LIMIT
    } else {
        US_LONG_WEEK_LIMIT
    };
    let restart = US_RESTART;
    counts(Amount::Duty, Since::Days { days, restart }, limit)
}

/// What a cycle asks: at most seventy hours of duty in seven days, or a hundred and twenty in
/// fourteen, since a reset (SOR/2005-313, sections 26 to 28).
fn cycle_duty(cycle: u32) -> Asked
    ensures { result ≡ cycle_duty cycle }
{
    let (days, restart, limit) = if cycle == CA_CYCLE_1 {
        (CA_CYCLE_1_DAYS, CA_CYCLE_1_RESET, CA_CYCLE_1_LIMIT)
    } else {
        (CA_CYCLE_2_DAYS, CA_CYCLE_2_RESET, CA_CYCLE_2_LIMIT)
    };
    counts(Amount::Duty, Since::Days { days, restart }, limit)
}

/// What cycle 2 asks besides: at most seventy hours of duty since 24 hours of rest (SOR/2005-313,
/// section 27). The other cycle asks nothing.
fn without_day_off(cycle: u32) -> Asked
    ensures { result ≡ without_day_off cycle }
{
    let least = CA_DAY_OFF;
    let limit = CA_WITHOUT_DAY_OFF_LIMIT;
    if cycle == CA_CYCLE_2 {
        counts(Amount::Duty, Since::Rest { least }, limit)
    } else {
        asks(Measure::Nothing, limit)
    }
}

/// What the rule asks. In the United States, after 49 CFR 395.3 and 395.1(g)(1): time and driving
/// since the base, driving since the last break, duty in a week, and pairs of rests.
pub(crate) fn asked_of(params: Params, rule: Rule) -> Asked
    ensures { result ≡ asked_of params rule }
{
    use Amount::{Driving, Time};
    let base = Since::Base { full: US_FULL_REST };
    match rule {
        Rule::UsWindow14 => counts(Time, base, US_WINDOW_LIMIT),
        Rule::UsDrive11 => counts(Driving, base, US_DRIVING_LIMIT),
        Rule::UsBreak8 => counts(Driving, Since::Break, US_UNBROKEN_LIMIT),
        Rule::UsWeek => week(days_of_week(params)),
        Rule::UsPair => asks(Measure::PairSum { full: US_FULL_REST }, US_PAIR_LEAST),
        _ => ca_asked(params, rule),
    }
}

/// What the rule asks in Canada, after SOR/2005-313: driving and duty in a day (section 12), driving,
/// duty and time since the base (section 13), lost minutes of a day (section 14) and of a deferred
/// one (section 16), pairs of rests (section 18), time since 24 hours of rest (section 25), and duty
/// in a cycle (sections 26 to 28).
fn ca_asked(params: Params, rule: Rule) -> Asked
    ensures { result ≡ ca_asked params rule }
{
    use Amount::{Driving, Duty, Time, TimeBefore};
    let base = Since::Base { full: CA_FULL_REST };
    let day_off = Since::Rest { least: CA_DAY_OFF };
    match rule {
        Rule::CaDay13 => counts(Driving, Since::Day, CA_DAY_DRIVING_LIMIT),
        Rule::CaDay14 => counts(Duty, Since::Day, CA_DAY_DUTY_LIMIT),
        Rule::CaShift13 => counts(Driving, base, CA_SHIFT_DRIVING_LIMIT),
        Rule::CaShift14 => counts(Duty, base, CA_SHIFT_DUTY_LIMIT),
        Rule::CaElapsed16 => counts(Time, base, CA_ELAPSED_LIMIT),
        Rule::CaOff10 => asks(Measure::Loss, CA_LOST_LIMIT),
        Rule::CaDefer => asks(Measure::DeferredLoss, CA_BOTH_LOST_LIMIT),
        Rule::CaPair => asks(Measure::PairSum { full: CA_FULL_REST }, CA_PAIR_LEAST),
        Rule::Ca24in14 => counts(TimeBefore, day_off, CA_SINCE_DAY_OFF_LIMIT),
        Rule::CaCycle => cycle_duty(cycle(params)),
        Rule::Ca70without24 => without_day_off(cycle(params)),
        _ => au_asked(rule),
    }
}

/// What the rule asks in Australia, after the Heavy Vehicle (Fatigue Management) National Regulation,
/// Schedule 1, standard hours, solo: duty, rest and nights in counted periods.
fn au_asked(rule: Rule) -> Asked
    ensures { result ≡ au_asked rule }
{
    use Start::{Long, Short};
    match rule {
        Rule::Au5h30 => work(Short, AU_5H30_PERIOD, AU_5H30_DUTY),
        Rule::Au8h => work(Short, AU_8H_PERIOD, AU_8H_DUTY),
        Rule::Au11h => work(Short, AU_11H_PERIOD, AU_11H_DUTY),
        Rule::Au24h => work(Long, AU_24H_PERIOD, AU_24H_DUTY),
        Rule::Au24hRest => rest(AU_24H_PERIOD, AU_24H_REST),
        Rule::Au7d => work(Long, AU_7D_PERIOD, AU_7D_DUTY),
        Rule::Au7dRest => rest(AU_7D_PERIOD, AU_7D_REST),
        Rule::Au14d => work(Long, AU_14D_PERIOD, AU_14D_DUTY),
        Rule::Au14dNights => asks(Measure::PeriodNights, AU_14D_NIGHTS),
        _ => asks(Measure::Nothing, 0),
    }
}

/// Which of its values a reading tells: the least where the rule asks for at least its limit, and
/// else the greatest.
pub(crate) fn order_of(measure: Measure) -> Order
    ensures { result ≡ order_of measure }
{
    match measure {
        Measure::PairSum { .. } | Measure::PeriodRest { .. } | Measure::PeriodNights => {
            Order::Least
        }
        Measure::Nothing
        | Measure::AtDriving { .. }
        | Measure::Loss
        | Measure::DeferredLoss
        | Measure::PeriodDuty { .. } => Order::Greatest,
    }
}
