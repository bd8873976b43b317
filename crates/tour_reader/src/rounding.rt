//! From minutes to steps.
ghost use Rattle.std.specs.Prelude.{◌≡◌, ◌<◌, IfOk};
ghost use Rattle.tour_reader.specs.Rounding.{window_of, windows_of, stop_of, tour_from};

use crate::head::Head;
use crate::written::{Span, WrittenStop};
use duty_core::{Minute, NoMemory};
use std::alloc::Global;
use tour_model::{Stop, Stops, Tour, Window, Windows};

/// The window of a span, unless the span ends before the start or no step begins in it.
fn window_of(grid: u32, start: Minute, span: Span) -> Option<Window>
    requires { 0 < grid }
    ensures { result ≡ window_of grid start span }
{
    if span.to < start {
        return None;
    }
    let opens = span.from.saturating_sub(start).div_ceil(grid);
    let closes = (span.to - start) / grid;
    if opens <= closes {
        Some(Window { opens, closes })
    } else {
        None
    }
}

/// The windows of the spans that have one.
fn windows_of(alloc: Global, grid: u32, start: Minute, spans: &[Span]) -> Result<Windows, NoMemory>
    requires { 0 < grid }
    ensures { IfOk result (λ windows. windows ≡ windows_of grid start spans.now) }
{
    let mut windows = Windows::new(alloc);
    for span in spans {
        if let Some(window) = window_of(grid, start, *span) {
            windows.push(window)?;
        }
    }
    Ok(windows)
}

/// The stop in steps.
fn stop_of(alloc: Global, grid: u32, start: Minute, stop: WrittenStop) -> Result<Stop, NoMemory>
    requires { 0 < grid }
    ensures { IfOk result (λ rounded. rounded ≡ stop_of grid start stop) }
{
    let windows = windows_of(alloc, grid, start, stop.spans.items())?;
    Ok(Stop {
        name: stop.name,
        drive: stop.drive.div_ceil(grid),
        service: stop.service.div_ceil(grid),
        windows,
    })
}

/// The tour of this head and these stops, in steps.
pub fn tour_from(alloc: Global, head: Head, stops: Vec<WrittenStop>) -> Result<Tour, NoMemory>
    requires { 0 < head.grid }
    ensures { IfOk result (λ tour. tour ≡ tour_from head stops.items) }
{
    let mut rounded = Stops::new(alloc);
    for stop in stops {
        rounded.push(stop_of(alloc, head.grid, head.start, stop)?)?;
    }
    Ok(Tour {
        params: head.params,
        grid: head.grid,
        start: head.start,
        stops: rounded,
    })
}
