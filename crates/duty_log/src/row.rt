//! One row of a log.
ghost use Rattle.std.specs.Prelude.{◌≡◌, ◌-◌, ◌/◌, ◌≤◌};
ghost use Rattle.csv.specs.Records.{fields_of};
ghost use Rattle.duty_core.specs.Params.{unit_minutes};
ghost use Rattle.duty_log.specs.Log.{checked, ends_at, first_of, follows, is_on_unit, ReadsRow};

use crate::fault::LogFault;
use crate::fields::three_fields;
use crate::word::activity_of;
use civil_minutes::read_minute;
use csv::ByteRecord;
use duty_core::{Activity, LONGEST_LOG, Minute, Params, unit_of};

/// The minutes from one up to another, without the other.
#[derive(Clone, Copy, Debug, PartialEq, Eq)]
pub struct Span {
    pub from: Minute,
    pub to: Minute,
}

/// A row of a log: what the driver did, from one minute up to another.
#[derive(Clone, Copy, Debug, PartialEq, Eq)]
pub struct Row {
    pub act: Activity,
    pub from: Minute,
    pub to: Minute,
}

/// Reads a record as the row of this number, after rows that span `before`.
pub fn read_row(
    record: &ByteRecord,
    params: Params,
    number: u32,
    before: Option<Span>,
) -> Result<Row, LogFault>
    ensures { ReadsRow params number before (fields_of record.now) result }
{
    let Some(fields) = three_fields(record) else {
        return Err(LogFault::NotCsv { row: number });
    };
    let (Ok(from), Ok(to)) = (read_minute(fields.from), read_minute(fields.to)) else {
        return Err(LogFault::BadTime { row: number });
    };
    let Some(act) = activity_of(params, fields.status) else {
        return Err(LogFault::BadStatus { row: number });
    };
    check(params, number, before, Row { act, from, to })
}

/// The row, if its minutes may stand after rows that span `before`.
fn check(params: Params, number: u32, before: Option<Span>, row: Row) -> Result<Row, LogFault>
    ensures { result ≡ checked params number before row }
{
    if row.to <= row.from {
        return Err(LogFault::Empty { row: number });
    }
    if !follows(before, row.from) {
        return Err(LogFault::Gap { row: number });
    }
    if !is_on_unit(params, row.from) || !is_on_unit(params, row.to) {
        return Err(LogFault::NotOnUnit { row: number });
    }
    if row.to.saturating_sub(first_of(before, row.from)) > LONGEST_LOG {
        return Err(LogFault::TooLong { row: number });
    }
    Ok(row)
}

/// Whether a row that begins at this minute leaves no gap after rows that span `before`.
fn follows(before: Option<Span>, from: Minute) -> bool
    ensures { result ≡ follows before from }
{
    match before {
        Some(span) => from == span.to,
        None => true,
    }
}

/// The minute at which the log begins, where a row that begins at `from` stands after rows that
/// span `before`.
pub fn first_of(before: Option<Span>, from: Minute) -> Minute
    ensures { result ≡ first_of before from }
{
    match before {
        Some(span) => span.from,
        None => from,
    }
}

/// Whether rows that span `before` end at the minute. No rows end anywhere.
pub fn ends_at(before: Option<Span>, start: Minute) -> bool
    ensures { result ≡ ends_at before start }
{
    match before {
        Some(span) => span.to == start,
        None => true,
    }
}

/// Whether a unit of the book begins at the minute.
fn is_on_unit(params: Params, at: Minute) -> bool
    ensures { result ≡ is_on_unit params at }
{
    at % unit_of(params) == 0
}

/// The number of the book's units in a row.
pub fn units_of(params: Params, row: Row) -> u32
    requires { row.from ≤ row.to }
    ensures { result ≡ (row.to - row.from) / unit_minutes params }
{
    (row.to - row.from) / unit_of(params)
}
