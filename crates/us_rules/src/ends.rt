//! How the rest run in progress may end at a minute.
ghost use Rattle.std.specs.Prelude.{◌≡◌, ◌≤◌, IfSome};
ghost use Rattle.duty_core.specs.Activity.{drives};
ghost use Rattle.sleeper_split.specs.Machine.{IsSplitCount, run_of};
ghost use Rattle.us_rules.specs.Machine.{us_fits};
ghost use Rattle.us_rules.specs.Spans.{duty_span, ends_span};

use duty_core::{Activity, US_DRIVING_LIMIT, US_WINDOW_LIMIT, is_rest};
use sleeper_split::{Ends, Since, SplitCount, SplitRule};

/// Whether the counts keep the window and the driving since the base.
fn fits(count: SplitCount) -> bool
    ensures { result ≡ us_fits count }
{
    count.used(Since::Elapsed) <= US_WINDOW_LIMIT && count.used(Since::Driving) <= US_DRIVING_LIMIT
}

/// The counts after `n` minutes of duty, where the last one keeps the limits.
fn duty_after(count: Option<SplitCount>, act: Activity, n: u32) -> Option<SplitCount>
    requires count { IfSome count (λ s. IsSplitCount s × (run_of s ≡ 0)) }
    requires some { 1 ≤ n }
    ensures { result ≡ duty_span act n count }
{
    let count = count?;
    let driving = matches!(act, Activity::Drive);
    let after = count.duty_run(driving, n);
    (!driving || fits(after)).then_some(after)
}

/// How the run in progress may end at the first of `n` minutes of this activity. Rest goes on
/// with it.
pub(crate) fn ends_of(berth: bool, count: SplitCount, act: Activity, n: u32) -> Ends
    requires count { IsSplitCount count }
    requires some { 1 ≤ n }
    ensures { result ≡ ends_span berth count act n }
{
    if is_rest(act) {
        return Ends::only(Some(count.rest_run(matches!(act, Activity::Berth), n)));
    }
    if count.run().long == 0 {
        return Ends::only(duty_after(Some(count), act, n));
    }
    let split = if berth {
        duty_after(count.end_split(SplitRule::US), act, n)
    } else {
        None
    };
    Ends {
        plain: duty_after(count.end_undeclared(SplitRule::US), act, n),
        split,
        full: duty_after(count.end_full(SplitRule::US), act, n),
    }
}
