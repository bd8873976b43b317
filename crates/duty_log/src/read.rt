//! Reading a whole log.
ghost use Rattle.std.specs.Prelude.{◌≡◌, ◌≢◌, ◌+◌, ◌≤◌, ◌++◌, List, Result, Ok, Err, length, replicate, IfOk, IfErr, OnOk};
ghost use Rattle.duty_core.specs.declared.activity.Activity.{Activity};
ghost use Rattle.duty_core.specs.declared.limits.TheConstants.{LONGEST_HISTORY};
ghost use Rattle.duty_log.specs.declared.fault.LogFault.{LogFault};
ghost use Rattle.duty_log.specs.Log.{at_start, Answers, EndsAt, ReadsLog, ReadsRecords, ReadsRows};
ghost use Rattle.duty_log.specs.Records.{IsBetween, IsReaderOf, records_left};

use crate::fault::{LogFault, unread};
use crate::fields::is_header;
use crate::row::{Span, ends_at, first_of, read_row, units_of};
use csv::{ByteRecord, Reader, ReaderBuilder};
use duty_core::{Activity, Minute, NoMemory, Params};
use std::alloc::Global;
use timeline::{Timeline, TimelineFault};

/// The most bytes that a log may have.
pub const LOG_LIMIT: usize = 4_000_000;

/// Reads a log: the units of what the driver did, up to the tour's start.
///
/// A log is CSV: commas stand between fields, and records end at LF, CR or CRLF. Empty lines count
/// for nothing, and so does a byte order mark before the first record. A field in quotes is what
/// stands between them, with `""` for one quote, and what follows the closing quote up to the next
/// comma; a quote that nothing closes takes the rest of the bytes into its field. Nothing is
/// trimmed. Bytes that are no UTF-8 are bytes of a field, and so of no time and no status. The first
/// record is the header `from,to,status`, and the others are rows, from 1.
///
/// The faults are those of `LogFault`, and the answer is the first one. Only `Memory` may come for
/// any bytes: where there was none, for the records or for the runs of the history.
pub fn read_log(
    alloc: Global,
    bytes: &[u8],
    params: Params,
    start: Minute,
) -> Result<Timeline, LogFault>
    ensures log { IfOk result (λ units. ReadsLog bytes.now params start (Ok units)) }
    ensures fault { IfErr result (λ fault. fault ≢ LogFault.Memory → ReadsLog bytes.now params start (Err fault)) }
    ensures only { (answer : Result (List Activity) LogFault) → ReadsLog bytes.now params start answer → Answers result answer }
    ensures ends { IfOk result (EndsAt params start) }
{
    if bytes.len() > LOG_LIMIT {
        return Err(LogFault::TooBig);
    }
    read_records(alloc, reader_of(alloc, bytes), params, start)
}

/// A reader of every record of the bytes, each of any number of fields.
fn reader_of(alloc: Global, bytes: &[u8]) -> Reader<&[u8]>
    ensures { IsReaderOf bytes.now result }
{
    ReaderBuilder::new()
        .has_headers(false)
        .flexible(true)
        .from_reader(alloc, bytes)
}

/// Reads the records that the reader has left as those of a log, the header first.
fn read_records(
    alloc: Global,
    reader: Reader<&[u8]>,
    params: Params,
    start: Minute,
) -> Result<Timeline, LogFault>
    requires { IsBetween reader }
    ensures log { IfOk result (λ units. ReadsRecords params start (records_left reader.entry) (Ok units)) }
    ensures fault { IfErr result (λ fault. fault ≢ LogFault.Memory → ReadsRecords params start (records_left reader.entry) (Err fault)) }
    ensures ends { IfOk result (EndsAt params start) }
{
    let mut reader = reader;
    let mut first = ByteRecord::new(alloc);
    let found = reader.read_byte_record(&mut first).map_err(unread)?;
    if !found || !is_header(&first) {
        return Err(LogFault::BadHeader);
    }
    read_rows(alloc, reader, params, start)
}

/// Reads the records that the reader has left as the rows of a log.
fn read_rows(
    alloc: Global,
    reader: Reader<&[u8]>,
    params: Params,
    start: Minute,
) -> Result<Timeline, LogFault>
    requires { IsBetween reader }
    ensures log { IfOk result (λ units. ReadsRows params start at_start (records_left reader.entry) (Ok units)) }
    ensures fault { IfErr result (λ fault. fault ≢ LogFault.Memory → ReadsRows params start at_start (records_left reader.entry) (Err fault)) }
    ensures ends { IfOk result (EndsAt params start) }
{
    let mut timeline = Timeline::new(alloc);
    let mut rows = 0;
    let mut before: Option<Span> = None;
    for record in reader.into_byte_records() {
        let record = record.map_err(unread)?;
        rows += 1;
        let row = read_row(&record, params, rows, before)?;
        append(&mut timeline, row.act, units_of(params, row))?;
        before = Some(Span {
            from: first_of(before, row.from),
            to: row.to,
        });
    }
    if ends_at(before, start) {
        Ok(timeline)
    } else {
        Err(LogFault::EndsElsewhere)
    }
}

/// Puts `n` units of the activity after a history that has room for them.
fn append(timeline: &mut Timeline, act: Activity, n: u32) -> Result<(), NoMemory>
    requires { length timeline.old + n ≤ LONGEST_HISTORY }
    ensures { OnOk result (timeline.new ≡ timeline.old ++ replicate n act) }
{
    match timeline.push_run(act, n) {
        Ok(()) => Ok(()),
        Err(TimelineFault::Memory) => Err(NoMemory),
        Err(TimelineFault::TooLong) => unreachable!(),
    }
}
