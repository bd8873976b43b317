//! How a base may be left.
ghost use Rattle.std.specs.Prelude.{◌≡◌, ◌≤◌, ◌<◌, ◌*◌};
ghost use Rattle.rest_bound.specs.declared.limits.TheConstants.{STEP_LIMIT};
ghost use Rattle.rest_bound.specs.Ends.{open_mode, credit_mode};
ghost use Rattle.rest_bound.specs.Table.{IsSmallMode, IsClose, IsRunClose};

use crate::limits::Limits;
use crate::walk::Walk;

/// How a base may be left, and how long driving may go on before. All lengths are in steps.
#[derive(Clone, Copy, Debug, PartialEq, Eq)]
pub struct Mode {
    /// The least length of a split rest, and of a rest that closes the base.
    pub split_least: u32,
    /// The most idle steps since the base that may count as a split rest.
    pub split_most: u32,
    /// The least length of a rest that closes the base where a split rest waits: a full rest less
    /// the credit of the one that waits. 0 where none waits.
    pub closing_least: u32,
    /// The least number of idle steps since the base, at the end of the rest that closes it, where
    /// no split rest waits. 0 where one waits.
    pub idle_least: u32,
    /// The most driving without a step of anything else between.
    pub unbroken: u32,
}

/// How a base is left where no split rest waits.
pub(crate) fn mode_open(limits: Limits) -> Mode
    ensures { result ≡ open_mode limits }
{
    Mode {
        split_least: limits.split_least,
        split_most: limits.split_most,
        closing_least: 0,
        idle_least: limits.full_rest,
        unbroken: limits.unbroken,
    }
}

/// How a base is left where a split rest of this length waits.
pub(crate) fn mode_credit(limits: Limits, waiting: u32) -> Mode
    ensures { result ≡ credit_mode limits waiting }
{
    Mode {
        split_least: limits.split_least,
        split_most: 0,
        closing_least: limits.full_rest.saturating_sub(waiting),
        idle_least: 0,
        unbroken: limits.unbroken,
    }
}

/// The first step at which a rest from where the walk is closes the base.
pub(crate) fn close_step(mode: Mode, walk: Walk) -> u32
    requires mode { IsSmallMode mode }
    requires at { walk.at ≤ STEP_LIMIT }
    ensures close { IsClose mode walk.at walk.idle result }
    ensures range { result ≤ 3 * STEP_LIMIT }
{
    let rest = mode.split_least.max(mode.closing_least);
    walk.at + rest.max(mode.idle_least.saturating_sub(walk.idle))
}

/// The first step at which the run of rest in progress, which is all the idle steps of the walk so
/// far, closes the base.
pub(crate) fn close_run_step(mode: Mode, walk: Walk) -> u32
    requires mode { IsSmallMode mode }
    requires at { walk.at ≤ STEP_LIMIT }
    ensures close { IsRunClose mode walk.at walk.idle result }
{
    let rest = mode
        .split_least
        .max(mode.closing_least)
        .max(mode.idle_least);
    walk.at + rest.saturating_sub(walk.idle)
}
