//! The graph of a history.
ghost use Rattle.std.specs.Prelude.{◌≡◌, ◌+◌, ◌*◌, ◌<◌, ◌≤◌, ◌++◌, length, IfOk, OnOk};
ghost use Rattle.civil_minutes.specs.declared.century.TheConstants.{MINUTES_OF_CENTURY};
ghost use Rattle.duty_core.specs.Params.{AreGoodParams, BeginsUnit, unit_minutes};
ghost use Rattle.duty_core.specs.declared.limits.TheConstants.{DAY_MINUTES};
ghost use Rattle.text_parts.specs.Parts.{Puts};
ghost use Rattle.log_graph.specs.Graph.{cells, row_text, row_lines, day_lines, count_days, graph_lines, IsGraph};

use crate::cells::{CELL_MINUTES, CELLS, cell, day_begin, minutes_shown};
use crate::status::Status;
use duty_core::{DAY_MINUTES, Minute, NoMemory, Params, unit_of};
use std::alloc::Global;
use text_parts::Text;
use timeline::Timeline;

/// The graph of a history that begins at the civil minute `first`: for each day that holds a unit of
/// it, in order, a line with the day's first minute and a row for each status, with a cell for each
/// quarter of an hour and the minutes of the status in the day. A history of no units has none.
///
/// `NoMemory` where there is none for the text.
pub fn graph(
    alloc: Global,
    params: Params,
    history: &Timeline,
    first: Minute,
) -> Result<Text, NoMemory>
    requires good { AreGoodParams params }
    requires begins { BeginsUnit params first }
    requires early { DAY_MINUTES ≤ first }
    requires ends { first + unit_minutes params * length history.now ≤ MINUTES_OF_CENTURY }
    ensures { IfOk result (IsGraph params first history.now) }
{
    let mut text = Text::new(alloc);
    push_graph(&mut text, params, history, first)?;
    Ok(text)
}

/// Puts the graph of a history after a text, as `graph` gives it.
pub fn push_graph(
    text: &mut Text,
    params: Params,
    history: &Timeline,
    first: Minute,
) -> Result<(), NoMemory>
    requires good { AreGoodParams params }
    requires early { DAY_MINUTES ≤ first }
    requires ends { first + unit_minutes params * length history.now ≤ MINUTES_OF_CENTURY }
    ensures { OnOk result (Puts (graph_lines params first history.now) text.old text.new) }
{
    let begin = day_begin(params, first);
    for day in 0..count_days(params, history, first) {
        push_day(text, params, history, first, begin + DAY_MINUTES * day)?;
    }
    Ok(())
}

/// The number of days from that of the first unit up to that of the last.
fn count_days(params: Params, history: &Timeline, first: Minute) -> u32
    requires good { AreGoodParams params }
    requires early { DAY_MINUTES ≤ first }
    requires ends { first + unit_minutes params * length history.now ≤ MINUTES_OF_CENTURY }
    ensures { result ≡ count_days params first history.now }
{
    if history.is_empty() {
        return 0;
    }
    let minutes = first + unit_of(params) * history.len() - day_begin(params, first);
    (minutes + (DAY_MINUTES - 1)) / DAY_MINUTES
}

/// Puts the lines of a day after the text.
fn push_day(
    text: &mut Text,
    params: Params,
    history: &Timeline,
    first: Minute,
    day: Minute,
) -> Result<(), NoMemory>
    requires { day < MINUTES_OF_CENTURY }
    ensures { OnOk result (Puts (day_lines params first history.now day) text.old text.new) }
{
    text.push_str("day ")?;
    text.push_time(day)?;
    text.push_str("\n")?;
    push_rows(text, params, history, first, day)
}

/// Puts the rows of a day after the text.
fn push_rows(
    text: &mut Text,
    params: Params,
    history: &Timeline,
    first: Minute,
    day: Minute,
) -> Result<(), NoMemory>
    requires { day < MINUTES_OF_CENTURY }
    ensures { OnOk result (Puts (row_lines params first history.now day) text.old text.new) }
{
    match params {
        Params::UsProperty { .. } | Params::Canada { .. } => {
            push_row(text, params, history, first, day, Status::OffDuty)?;
            push_row(text, params, history, first, day, Status::Sleeper)?;
            push_row(text, params, history, first, day, Status::Driving)?;
            push_row(text, params, history, first, day, Status::OnDuty)
        }
        Params::Hvnl {} => {
            push_row(text, params, history, first, day, Status::Rest)?;
            push_row(text, params, history, first, day, Status::Work)
        }
    }
}

/// Puts a row of a day after the text.
#[tactic(auto, unfolding(crate::specs::Graph::row_text))]
fn push_row(
    text: &mut Text,
    params: Params,
    history: &Timeline,
    first: Minute,
    day: Minute,
    status: Status,
) -> Result<(), NoMemory>
    requires { day < MINUTES_OF_CENTURY }
    ensures { OnOk result (text.new ≡ text.old ++ row_text params first history.now day status) }
{
    text.push_str(status.name())?;
    text.push_str(" ")?;
    push_cells(text, params, history, first, day, status)?;
    text.push_str(" ")?;
    let total = minutes_shown(params, history, first, status, day, DAY_MINUTES);
    text.push_total(total)?;
    text.push_str("\n")
}

/// Puts the cells of a row after the text.
#[tactic(auto, unfolding(crate::specs::Graph::cells))]
fn push_cells(
    text: &mut Text,
    params: Params,
    history: &Timeline,
    first: Minute,
    day: Minute,
    status: Status,
) -> Result<(), NoMemory>
    requires { day < MINUTES_OF_CENTURY }
    ensures { OnOk result (text.new ≡ text.old ++ cells params first history.now day status) }
{
    for quarter in 0..CELLS {
        let from = day + CELL_MINUTES * quarter;
        let minutes = minutes_shown(params, history, first, status, from, CELL_MINUTES);
        text.push_byte(cell(minutes))?;
    }
    Ok(())
}
