//! What a history holds of a status, minute by minute, and the cells that show it.
ghost use Rattle.std.specs.Prelude.{◌≡◌, ◌+◌, ◌*◌, ◌<◌, ◌≤◌, length};
ghost use Rattle.civil_minutes.specs.Day.{minute_in_day};
ghost use Rattle.duty_core.specs.Day.{day_start};
ghost use Rattle.duty_core.specs.Params.{AreGoodParams};
ghost use Rattle.duty_core.specs.declared.limits.TheConstants.{DAY_MINUTES, MINUTE_LIMIT};
ghost use Rattle.log_graph.specs.Graph.{cell, day_begin, is_shown, minutes_shown};

use crate::status::Status;
use civil_minutes::minute_of_day;
use duty_core::{Minute, Params, day_start_of, unit_of};
use timeline::Timeline;

/// The number of cells of a row: one for each quarter of an hour of a day.
pub const CELLS: u32 = 96;

/// The length of a cell, in minutes.
pub const CELL_MINUTES: u32 = 15;

/// How many minutes after midnight a day of the book begins, which is before the next midnight.
pub fn day_start(params: Params) -> u16
    requires { AreGoodParams params }
    ensures value { result ≡ day_start params }
    ensures within { result < DAY_MINUTES }
{
    day_start_of(params)
}

/// The first minute of the day that holds a civil minute.
pub fn day_begin(params: Params, at: Minute) -> Minute
    requires good { AreGoodParams params }
    requires early { DAY_MINUTES ≤ at }
    ensures value { result ≡ day_begin params at }
    ensures before { result ≤ at }
{
    at - u32::from(minute_of_day(at, day_start(params)))
}

/// Whether a civil minute is one of the history, which begins at the minute `first`, and has this status.
fn is_shown(params: Params, history: &Timeline, first: Minute, status: Status, at: Minute) -> bool
    ensures { result ≡ is_shown params first history.now status at }
{
    if at < first {
        return false;
    }
    let unit = (at - first) / unit_of(params);
    unit < history.len() && status.shows(history.at(unit))
}

/// How many of the `n` civil minutes from one on are minutes of the history with this status.
#[tactic(auto, unfolding(crate::specs::Graph::minutes_shown))]
pub fn minutes_shown(
    params: Params,
    history: &Timeline,
    first: Minute,
    status: Status,
    from: Minute,
    n: u32,
) -> u32
    requires { from + n ≤ MINUTE_LIMIT }
    ensures value { result ≡ minutes_shown params first history.now status from n }
    ensures few { result ≤ n }
{
    let mut total = 0;
    for minute in 0..n {
        if is_shown(params, history, first, status, from + minute) {
            total += 1;
        }
    }
    total
}

/// The cell of a quarter of an hour with so many minutes of the row's status.
pub fn cell(minutes: u32) -> u8
    ensures { result ≡ cell minutes }
{
    if minutes == 0 {
        b'.'
    } else if minutes == CELL_MINUTES {
        b'#'
    } else {
        b'+'
    }
}
