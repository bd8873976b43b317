//! How long split rests and their pairs are together.
ghost use Rattle.std.specs.Prelude.{◌<◌, ◌≤◌, length};
ghost use Rattle.duty_core.specs.declared.limits.TheConstants.{MINUTE_LIMIT};
ghost use Rattle.rule_readings.specs.Count.{IsCount};
ghost use Rattle.rule_readings.specs.Values.{IsPairSum};
ghost use Rattle.rule_readings.specs.Histories.{IsMarkedIn};

use crate::declared::{is_split_at, next_declared};
use crate::history::History;

/// How long the split rest that begins at place `i` and the next declared rest are together, in
/// units. `None` where no split rest begins, or the next declared rest has not ended.
pub(crate) fn pair_sum(history: &History<'_>, full: u32, i: u32) -> Option<u32>
    requires early { history.now.scope.first ≤ MINUTE_LIMIT }
    requires inside { i < length history.now.padded.now }
    ensures { IsCount (IsPairSum full history.now.padded.now (IsMarkedIn history.now) i) result }
{
    let _places = history.padded.len();
    if !is_split_at(history, i) {
        return None;
    }
    let one = next_declared(history, full, i)?;
    if one.from != i || one.to - one.from >= full {
        return None;
    }
    let next = next_declared(history, full, one.to)?;
    Some((one.to - one.from) + (next.to - next.from))
}
