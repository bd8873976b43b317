//! The least ends after a full rest, by progress and step.
ghost use Rattle.std.specs.Prelude.{◌≡◌, ℕ, ◌-◌, ◌<◌, ◌≤◌, length, IfOk};
ghost use Rattle.rest_bound.specs.declared.limits.TheConstants.{STEP_LIMIT};
ghost use Rattle.rest_bound.specs.CanEnd.{EndsFresh};
ghost use Rattle.rest_bound.specs.Table.{IsLeast, AreSmall, IsWhole, AreRows, IsTable, IsFor};

use crate::ends::sooner_end;
use crate::limits::Limits;
use crate::mode::mode_open;
use crate::terms::Terms;
use crate::tour::Tour;
use crate::walk::walk_afresh;
use duty_core::NoMemory;
use std::alloc::Global;

/// The least ends of a tour's last pieces of work after a full rest, by the number of pieces and by
/// the step at which the rest is over.
#[derive(Drop)]
pub struct Table {
    /// The limits of a shift.
    pub limits: Limits,
    /// The number of pieces of the tour's work.
    pub pieces: usize,
    /// The last step that an end may have to count.
    pub horizon: u32,
    /// A row for each number of pieces that are left, from 0 on. A row has the least end for each
    /// step, from the horizon backwards. None: no end up to the horizon.
    pub(crate) rows: Vec<Vec<Option<u32>>>,
}

/// The least end of the pieces from this one on after a full rest that is over at this step.
pub(crate) fn fresh_end<T: Tour>(table: &Table, tour: &T, piece: usize, step: u32) -> Option<u32>
    requires piece { piece ≤ table.now.pieces }
    requires filled { table.now.pieces - piece < length table.now.rows.items }
    requires rows { AreRows (T.plan tour.now) table.now }
    ensures { IsLeast (EndsFresh (T.plan tour.now) table.now.limits (table.now.pieces - piece) piece step) table.now.horizon result }
{
    if step > table.horizon {
        return None;
    }
    table.rows[table.pieces - piece][(table.horizon - step) as usize]
}

/// The row of the last so many pieces: for each step, from the horizon backwards, the sooner of the
/// end of the walk that begins there and of the end one step later.
fn make_row<T: Tour>(
    alloc: Global,
    table: &Table,
    tour: &T,
    left: usize,
) -> Result<Vec<Option<u32>>, NoMemory>
    requires left { left ≤ table.now.pieces }
    requires filled { left ≤ length table.now.rows.items }
    requires rows { AreRows (T.plan tour.now) table.now }
    requires small { AreSmall table.now.limits }
    requires horizon { table.now.horizon < STEP_LIMIT }
    ensures { IfOk result (λ row. IsWhole (T.plan tour.now) table.now left row.items) }
{
    let terms = Terms {
        table,
        tour,
        mode: mode_open(table.limits),
    };
    let mut row = Vec::new(alloc);
    let mut later = None;
    for back in 0..table.horizon + 1 {
        let start = walk_afresh(table.limits, table.horizon - back);
        let now = terms.walk_end(table.pieces - left, start);
        later = sooner_end(later, now);
        row.push(later)?;
    }
    Ok(row)
}

/// The table of a tour with so many pieces of work, for the ends up to the horizon. It has a number
/// for each progress and step.
pub fn make_table<T: Tour>(
    alloc: Global,
    tour: &T,
    limits: Limits,
    pieces: usize,
    horizon: u32,
) -> Result<Table, NoMemory>
    requires pieces { pieces < STEP_LIMIT }
    requires small { AreSmall limits }
    requires horizon { horizon < STEP_LIMIT }
    ensures table { IfOk result (λ t. IsTable (T.plan tour.now) t) }
    ensures made { IfOk result (λ t. IsFor limits pieces horizon t) }
{
    let mut table = Table {
        limits,
        pieces,
        horizon,
        rows: Vec::new(alloc),
    };
    for left in 0..pieces + 1 {
        let row = make_row(alloc, &table, tour, left)?;
        table.rows.push(row)?;
    }
    Ok(table)
}
