//! How the rest run in progress may end at a minute.
ghost use Rattle.std.specs.Prelude.{◌≡◌, ◌≤◌, IfSome};
ghost use Rattle.duty_core.specs.Activity.{drives};
ghost use Rattle.sleeper_split.specs.declared.rule.TheConstants.SplitRule.{CANADA};
ghost use Rattle.sleeper_split.specs.Machine.{IsSplitCount, run_of};
ghost use Rattle.canada_rules.specs.Machine.{ca_fits};
ghost use Rattle.sleeper_split.specs.Ends.{duty_after, ends_of};
ghost use Rattle.canada_rules.specs.Stretch.{IsFree, split_at_once};

use duty_core::{Activity, CA_ELAPSED_LIMIT, CA_SHIFT_DRIVING_LIMIT, CA_SHIFT_DUTY_LIMIT, is_rest};
use sleeper_split::{Ends, Since, SplitCount, SplitRule};

/// Whether the counts keep driving, duty and elapsed time of the shift within their limits.
fn fits(count: SplitCount) -> bool
    ensures { result ≡ ca_fits count }
{
    count.used(Since::Driving) <= CA_SHIFT_DRIVING_LIMIT
        && (count.used(Since::Duty) <= CA_SHIFT_DUTY_LIMIT
            && count.used(Since::Elapsed) <= CA_ELAPSED_LIMIT)
}

/// The counts after a minute of duty, where it keeps the limits.
fn duty_after(count: Option<SplitCount>, act: Activity) -> Option<SplitCount>
    requires { IfSome count (λ s. IsSplitCount s × (run_of s ≡ 0)) }
    ensures { result ≡ duty_after ca_fits act count }
{
    let count = count?;
    let driving = matches!(act, Activity::Drive);
    let after = count.duty(driving);
    (!driving || fits(after)).then_some(after)
}

/// The counts after `n` more minutes, at least one, while no run may end. `None` where driving in
/// one of them breaks a limit of the shift.
pub(crate) fn split_run(count: SplitCount, act: Activity, n: u32) -> Option<SplitCount>
    requires good { IsSplitCount count }
    requires some { 1 ≤ n }
    requires free { IsFree count act }
    ensures { result ≡ split_at_once n act count }
{
    if is_rest(act) {
        return Some(count.rest_run(matches!(act, Activity::Berth), n));
    }
    let driving = matches!(act, Activity::Drive);
    let after = count.duty_run(driving, n);
    (!driving || fits(after)).then_some(after)
}

/// How the run in progress may end at a minute of this activity. Rest goes on with it.
pub(crate) fn ends_of(may: bool, count: SplitCount, act: Activity) -> Ends
    requires { IsSplitCount count }
    ensures { result ≡ ends_of CANADA may ca_fits count act }
{
    if is_rest(act) {
        return Ends::only(Some(count.rest(matches!(act, Activity::Berth))));
    }
    if count.run().long == 0 {
        return Ends::only(duty_after(Some(count), act));
    }
    let split = if may {
        duty_after(count.end_split(SplitRule::CANADA), act)
    } else {
        None
    };
    Ends {
        plain: duty_after(count.end_undeclared(SplitRule::CANADA), act),
        split,
        full: duty_after(count.end_full(SplitRule::CANADA), act),
    }
}
