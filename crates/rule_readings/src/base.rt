//! The base of a place: from there driving, duty and elapsed time are counted.
ghost use Rattle.std.specs.Prelude.{◌≤◌};
ghost use Rattle.duty_core.specs.declared.limits.TheConstants.{MINUTE_LIMIT};
ghost use Rattle.duty_core.specs.Base.{IsBase};
ghost use Rattle.rule_readings.specs.BaseFound.{IsBaseFound};
ghost use Rattle.rule_readings.specs.Histories.{IsMarkedIn};

use crate::declared::last_declared;
use crate::history::History;

/// The place from which a place's driving, duty and elapsed time are counted, and how many units
/// of a split rest elapsed time omits.
#[derive(Clone, Copy, Debug, PartialEq, Eq)]
pub(crate) struct Base {
    pub base: u32,
    pub omitted: u32,
}

/// The base of place `i`, where a full rest is at least `full` units long. `None` where there is
/// none.
pub(crate) fn base_at(history: &History<'_>, full: u32, i: u32) -> Option<Base>
    requires early { history.now.scope.first ≤ MINUTE_LIMIT }
    ensures { IsBaseFound (IsBase full history.now.padded.now (IsMarkedIn history.now) i) result }
{
    let last = last_declared(history, full, i)?;
    let rest = last.to - last.from;
    if rest >= full {
        return Some(Base {
            base: last.to,
            omitted: 0,
        });
    }
    let earlier = last_declared(history, full, last.from)?;
    Some(Base {
        base: earlier.to,
        omitted: rest,
    })
}
