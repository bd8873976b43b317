//! What the parameters of a book say of its rules, weeks, cycles, days and ways to rest.
ghost use Rattle.std.specs.Prelude.{◌≡◌, ◌↔◌, IsTrue};
ghost use Rattle.duty_core.specs.Day.{day_start};
ghost use Rattle.duty_core.specs.CaShift.{IsSplitWay};
ghost use Rattle.duty_core.specs.Deferral.{IsDeferWay};
ghost use Rattle.duty_core.specs.RuleBooks.{rules_of, week_days, cycle_of};

use duty_core::{Params, RestWay, Rule, day_start_of, way_of};

static US_RULES: [Rule; 5] = [
    Rule::UsWindow14,
    Rule::UsDrive11,
    Rule::UsBreak8,
    Rule::UsWeek,
    Rule::UsPair,
];

static CA_RULES: [Rule; 11] = [
    Rule::CaDay13,
    Rule::CaDay14,
    Rule::CaShift13,
    Rule::CaShift14,
    Rule::CaElapsed16,
    Rule::CaOff10,
    Rule::CaDefer,
    Rule::CaPair,
    Rule::Ca24in14,
    Rule::CaCycle,
    Rule::Ca70without24,
];

static AU_RULES: [Rule; 9] = [
    Rule::Au5h30,
    Rule::Au8h,
    Rule::Au11h,
    Rule::Au24h,
    Rule::Au24hRest,
    Rule::Au7d,
    Rule::Au7dRest,
    Rule::Au14d,
    Rule::Au14dNights,
];

/// The rules of the book, in its order.
pub(crate) fn rules_of_book(params: Params) -> &'static [Rule]
    ensures { result.now ≡ rules_of params }
{
    match params {
        Params::UsProperty { .. } => &US_RULES,
        Params::Canada { .. } => &CA_RULES,
        Params::Hvnl {} => &AU_RULES,
    }
}

/// The days of a week: 7 or 8, and 0 in a book that has no week.
pub(crate) fn days_of_week(params: Params) -> u32
    ensures { result ≡ week_days params }
{
    match params {
        Params::UsProperty { days, .. } => u32::from(days),
        Params::Canada { .. } | Params::Hvnl {} => 0,
    }
}

/// The number of the cycle, and 0 in a book that has no cycles.
pub(crate) fn cycle(params: Params) -> u32
    ensures { result ≡ cycle_of params }
{
    match params {
        Params::Canada { cycle, .. } => u32::from(cycle),
        Params::UsProperty { .. } | Params::Hvnl {} => 0,
    }
}

/// How many minutes after midnight a day of the book begins.
pub(crate) fn start_of_day(params: Params) -> u32
    ensures { result ≡ day_start params }
{
    u32::from(day_start_of(params))
}

/// Whether the tour rests by the way `split`.
pub(crate) fn is_split_way(params: Params) -> bool
    ensures { IsTrue result ↔ IsSplitWay params }
{
    match way_of(params) {
        Some(RestWay::Split) => true,
        Some(RestWay::Defer) | None => false,
    }
}

/// Whether the tour rests by the way `defer`.
pub(crate) fn is_defer_way(params: Params) -> bool
    ensures { IsTrue result ↔ IsDeferWay params }
{
    match way_of(params) {
        Some(RestWay::Defer) => true,
        Some(RestWay::Split) | None => false,
    }
}
