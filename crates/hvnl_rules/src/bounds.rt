//! Whether limits, needs, periods and nights can be those of a state.
ghost use Rattle.std.specs.Prelude.{◌≡◌, ◌<◌, ◌^◌, nat_le};
ghost use Rattle.std.specs.List.{list_all};
ghost use Rattle.duty_core.specs.declared.limits.TheConstants.{AU_14D_PERIOD};
ghost use Rattle.allowance.specs.Few.{slack as slack_of};
ghost use Rattle.hvnl_rules.specs.Few.{wide as wide_of, most_wide as most_wide_of, is_kind as is_kind_test, asking as asking_of, is_spaced as is_spaced_test};
ghost use Rattle.hvnl_rules.specs.Numbers.{has_room as has_room_test, are_few_limits as few_limits_test, are_few_needs as few_needs_test, is_few_held as few_held_test};

use allowance::{Allowances, Limit, Need};
use duty_core::{
    AU_7D_PERIOD, AU_7D_REST, AU_11H_DUTY, AU_11H_PERIOD, AU_14D_DUTY, AU_14D_PERIOD,
    AU_24H_PERIOD, AU_24H_REST, AU_LONG_START,
};

/// The rest units that are still to come before no units break the limit any more.
fn slack(limit: Limit) -> u64
    ensures { result ≡ slack_of limit }
{
    u64::from(limit.units.saturating_sub(limit.duty))
}

/// How many of the limits stay open for more than `units` rest units.
fn wide(units: u64, limits: &[Limit]) -> u64
    ensures { result ≡ wide_of units limits.now }
{
    let mut count: u64 = 0;
    for limit in limits {
        if slack(*limit) > units {
            count += 1;
        }
    }
    count
}

/// The greatest number of limits that stay open for more than `units` rest units, right after a
/// start.
fn most_wide(units: u64) -> u64
    ensures { result ≡ most_wide_of units }
{
    let long = u64::from(AU_14D_PERIOD - AU_14D_DUTY + AU_LONG_START - 1).saturating_sub(units);
    let short = u64::from(AU_11H_PERIOD - AU_11H_DUTY).saturating_sub(units);
    3 * (long / u64::from(AU_LONG_START)) + 3 * short
}

/// Whether no more limits than starts can have left stay open for as many rest units as this one,
/// where `run` rest units stand before now.
fn has_room(limits: &[Limit], run: u32, limit: Limit) -> bool
    ensures { result ≡ has_room_test limits.now run limit }
{
    let units = slack(limit).saturating_sub(1);
    wide(units, limits) <= most_wide(units + u64::from(run.min(AU_LONG_START)))
}

/// Whether each limit has room.
fn have_room(limits: &[Limit], run: u32) -> bool
    ensures { result ≡ list_all (has_room_test limits.now run) limits.now }
{
    for limit in limits {
        if !has_room(limits, run, *limit) {
            return false;
        }
    }
    true
}

/// Whether no limit is wider than the longest period.
fn are_narrow(limits: &[Limit]) -> bool
    ensures { result ≡ list_all (λ p. nat_le p.units AU_14D_PERIOD) limits.now }
{
    limits.iter().all(|limit| limit.units <= AU_14D_PERIOD)
}

/// Whether no limit is wider than the longest period, and starts can have left so many.
fn are_few_limits(limits: &[Limit], run: u32) -> bool
    ensures { result ≡ few_limits_test limits.now run }
{
    are_narrow(limits) && have_room(limits, run)
}

/// Whether this is a need of the rest of a day or of a week.
fn is_kind(need: Need) -> bool
    ensures { result ≡ is_kind_test need }
{
    (need.rest == AU_24H_REST && need.units < AU_24H_PERIOD)
        || (need.rest == AU_7D_REST && need.units < AU_7D_PERIOD)
}

/// How many of the needs ask for so much rest.
fn asking(rest: u32, needs: &[Need]) -> u64
    ensures { result ≡ asking_of rest needs.now }
{
    let mut count: u64 = 0;
    for need in needs {
        if need.rest == rest {
            count += 1;
        }
    }
    count
}

/// Whether each need is of the rest of a day or of a week.
fn are_kinds(needs: &[Need]) -> bool
    ensures { result ≡ list_all is_kind_test needs.now }
{
    needs.iter().all(|need| is_kind(*need))
}

/// Whether at most one of the needs asks for so much rest.
fn is_single(rest: u32, needs: &[Need]) -> bool
    ensures { result ≡ nat_le (asking_of rest needs.now) 1 }
{
    asking(rest, needs) <= 1
}

/// Whether the needs are of a day's and of a week's rest, at most one of either.
fn are_few_needs(needs: &[Need]) -> bool
    ensures { result ≡ few_needs_test needs.now }
{
    are_kinds(needs) && (is_single(AU_24H_REST, needs) && is_single(AU_7D_REST, needs))
}

/// Whether each number is at least `apart` more than the one before.
pub(crate) fn are_spaced(apart: u64, list: &[u32]) -> bool
    requires { apart < 2 ^ 32 }
    ensures { result ≡ is_spaced_test apart 0 list.now }
{
    let mut low: u64 = 0;
    for number in list {
        if u64::from(*number) < low {
            return false;
        }
        low = u64::from(*number) + apart;
    }
    true
}

/// Whether starts can have left these limits and needs.
pub(crate) fn are_few(held: &Allowances) -> bool
    ensures { result ≡ few_held_test held.now }
{
    are_few_limits(held.limits(), held.run()) && are_few_needs(held.needs())
}
