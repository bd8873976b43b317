//! The stops of a form.
ghost use Rattle.std.specs.Prelude.{◌≡◌, ◌+◌, ◌≤◌, map, length, IfOk, Some};
ghost use Rattle.std.specs.List.{list_all};
ghost use Rattle.serde_json.specs.View.{view};
ghost use Rattle.tour_model.specs.declared.limits.TheConstants.{MOST_STOPS};
ghost use Rattle.tour_reader.specs.Gives.{Gives, good};
ghost use Rattle.tour_reader.specs.Written.{is_plain, is_name, name_at, time_at, span_between, span_of, spans_of, spans_at, written_fields, written_stop, written_stops, stops_of};

use crate::fault::TourFault;
use crate::field::{Field, STOP_FIELDS};
use crate::form::{good, name_of, only_fields};
use crate::time::time_of;
use crate::value::{array_of, items_of, text_of, whole_of};
use crate::written::{Span, Spans, WrittenStop};
use duty_core::Minute;
use serde_json::Value;
use std::alloc::Global;
use tour_model::{LONGEST_NAME, MOST_DRIVE, MOST_SERVICE, MOST_STOPS, MOST_WINDOWS, Name};

/// Whether the byte is of no control character.
fn is_plain(byte: u8) -> bool
    ensures { result ≡ is_plain byte }
{
    byte >= 0x20 && byte != 0x7f
}

/// Whether no byte is of a control character.
fn all_plain(name: &[u8]) -> bool
    ensures { result ≡ list_all is_plain name.now }
{
    name.iter().all(|byte| is_plain(*byte))
}

/// Whether a stop may have the name: it has a byte, not too many, and no control character.
fn is_name(name: &[u8]) -> bool
    ensures { result ≡ is_name name.now }
{
    !name.is_empty() && name.len() <= LONGEST_NAME as usize && all_plain(name)
}

/// The name of a stop.
#[tactic(auto, unfolding(crate::specs::Written::name_at))]
fn name_at(alloc: Global, stop: Option<u32>, form: &Value) -> Result<Name, TourFault>
    ensures { Gives (λ name. name) result (name_at stop (view form.now)) }
{
    match text_of(form, Field::Name) {
        Some(name) if is_name(name.as_bytes()) => Ok(name_of(alloc, name.as_bytes())?),
        _ => Err(TourFault::BadValue {
            field: Field::Name,
            stop,
        }),
    }
}

/// The span between two times, if the first is not after the second.
fn span_between(from: Minute, to: Minute) -> Option<Span>
    ensures { result ≡ span_between (Some from) (Some to) }
{
    if from <= to {
        Some(Span { from, to })
    } else {
        None
    }
}

/// The time of a value that is a time's text.
fn time_at(value: &Value) -> Option<Minute>
    ensures { result ≡ time_at (view value.now) }
{
    time_of(value.as_str()?)
}

/// The span of an array of two times, the first not after the second.
fn span_of(value: &Value) -> Option<Span>
    ensures { result ≡ span_of (view value.now) }
{
    let times = array_of(value)?;
    if times.len() != 2 {
        return None;
    }
    span_between(time_at(&times[0])?, time_at(&times[1])?)
}

/// The spans of an array's items.
fn spans_of(alloc: Global, stop: Option<u32>, items: &[Value]) -> Result<Spans, TourFault>
    ensures { Gives (λ spans. spans) result (good Field.Windows stop (spans_of (map view items.now))) }
{
    let mut spans = Spans::new(alloc);
    for item in items {
        match span_of(item) {
            Some(span) => spans.push(span)?,
            None => {
                return Err(TourFault::BadValue {
                    field: Field::Windows,
                    stop,
                });
            }
        }
    }
    Ok(spans)
}

/// The windows of a stop.
#[tactic(auto, unfolding(crate::specs::Written::spans_at))]
fn spans_at(alloc: Global, stop: Option<u32>, form: &Value) -> Result<Spans, TourFault>
    ensures { Gives (λ spans. spans) result (spans_at stop (view form.now)) }
{
    match items_of(form, Field::Windows) {
        Some(items) if !items.is_empty() && items.len() <= MOST_WINDOWS as usize => {
            spans_of(alloc, stop, items)
        }
        _ => Err(TourFault::BadValue {
            field: Field::Windows,
            stop,
        }),
    }
}

/// A stop that has its fields, and no other.
#[tactic(auto, unfolding(crate::specs::Written::written_fields))]
fn written_fields(alloc: Global, stop: Option<u32>, form: &Value) -> Result<WrittenStop, TourFault>
    ensures { Gives (λ stop. stop) result (written_fields stop (view form.now)) }
{
    let name = name_at(alloc, stop, form)?;
    let drive = whole_of(form, Field::Drive, 0, MOST_DRIVE);
    let drive = good(Field::Drive, stop, drive)?;
    let service = whole_of(form, Field::Service, 1, MOST_SERVICE);
    let service = good(Field::Service, stop, service)?;
    let spans = spans_at(alloc, stop, form)?;
    Ok(WrittenStop {
        name,
        drive,
        service,
        spans,
    })
}

/// The stop of this number.
#[tactic(auto, unfolding(crate::specs::Written::written_stop))]
fn written_stop(alloc: Global, number: u32, form: &Value) -> Result<WrittenStop, TourFault>
    ensures { Gives (λ stop. stop) result (written_stop number (view form.now)) }
{
    let stop = Some(number);
    if !form.is_object() {
        return Err(TourFault::BadValue {
            field: Field::Stops,
            stop,
        });
    }
    only_fields(alloc, &STOP_FIELDS, stop, form)?;
    written_fields(alloc, stop, form)
}

/// The stops, which are numbered from 1.
fn written_stops(alloc: Global, items: &[Value]) -> Result<Vec<WrittenStop>, TourFault>
    requires { length items.now ≤ MOST_STOPS }
    ensures { Gives (λ stops. stops.items) result (written_stops 1 (map view items.now)) }
{
    let mut stops = Vec::new(alloc);
    for (index, item) in items.iter().enumerate() {
        stops.push(written_stop(alloc, index as u32 + 1, item)?)?;
    }
    Ok(stops)
}

/// The stops of a form, or the first fault there.
#[tactic(auto, unfolding(crate::specs::Written::stops_of))]
pub fn stops_of(alloc: Global, form: &Value) -> Result<Vec<WrittenStop>, TourFault>
    ensures stops { Gives (λ stops. stops.items) result (stops_of (view form.now)) }
    ensures few { IfOk result (λ stops. length stops.items ≤ MOST_STOPS) }
{
    let Some(items) = items_of(form, Field::Stops) else {
        return Err(TourFault::BadValue {
            field: Field::Stops,
            stop: None,
        });
    };
    if items.is_empty() {
        return Err(TourFault::NoStops);
    }
    if items.len() > MOST_STOPS as usize {
        return Err(TourFault::TooManyStops);
    }
    written_stops(alloc, items)
}
