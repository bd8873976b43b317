//! What is asked of all stops together.
ghost use Rattle.std.specs.Prelude.{◌≡◌, ◌<◌, ◌≤◌, [], length, position, option_map, IfOk, IfSome};
ghost use Rattle.tour_model.specs.declared.limits.TheConstants.{MOST_STOPS};
ghost use Rattle.tour_reader.specs.Gives.{Gives};
ghost use Rattle.tour_reader.specs.Checks.{stop_names, first_repeated, distinct, closes_late, ends_late, first_late, in_time};

use crate::fault::TourFault;
use crate::form::name_of;
use crate::written::{Span, WrittenStop};
use duty_core::{Minute, NoMemory};
use indexmap::IndexSet;
use std::alloc::Global;
use tour_model::LONGEST_TOUR;

/// The first name of a stop that an earlier stop has.
fn first_repeated(alloc: Global, stops: &[WrittenStop]) -> Result<Option<&[u8]>, NoMemory>
    ensures { IfOk result (λ name. option_map (λ name. name.now) name
        ≡ first_repeated [] (stop_names stops.now)) }
{
    let mut names = IndexSet::new(alloc);
    for stop in stops {
        if !names.insert(stop.name.items())? {
            return Ok(Some(stop.name.items()));
        }
    }
    Ok(None)
}

/// Nothing, if no two stops have one name.
#[tactic(auto, unfolding(crate::specs::Checks::distinct))]
pub fn distinct(alloc: Global, stops: &[WrittenStop]) -> Result<(), TourFault>
    ensures { Gives (λ _. stops.now) result (distinct stops.now) }
{
    match first_repeated(alloc, stops)? {
        Some(name) => {
            let name = name_of(alloc, name)?;
            Err(TourFault::DuplicateStop { name })
        }
        None => Ok(()),
    }
}

/// Whether a service that begins as the window closes ends too long after the start.
fn closes_late(start: Minute, service: u32, span: Span) -> bool
    ensures { result ≡ closes_late start service span }
{
    let last = u64::from(start) + u64::from(LONGEST_TOUR);
    last < u64::from(span.to) + u64::from(service)
}

/// Whether a service that begins as one of the stop's windows closes ends too long after the start.
fn ends_late(start: Minute, stop: &WrittenStop) -> bool
    ensures { result ≡ ends_late start stop.now }
{
    stop.spans
        .items()
        .iter()
        .any(|span| closes_late(start, stop.service, *span))
}

/// The place of the first stop that is late.
fn late_place(start: Minute, stops: &[WrittenStop]) -> Option<usize>
    ensures place { result ≡ position (ends_late start) stops.now }
    ensures within { IfSome result (λ place. place < length stops.now) }
{
    stops.iter().position(|stop| ends_late(start, stop))
}

/// The number, from 1, of the first stop that is late.
fn first_late(start: Minute, stops: &[WrittenStop]) -> Option<u32>
    requires { length stops.now ≤ MOST_STOPS }
    ensures { result ≡ first_late start stops.now }
{
    let place = late_place(start, stops)?;
    Some(place as u32 + 1)
}

/// Nothing, if each service can end in time.
#[tactic(auto, unfolding(crate::specs::Checks::in_time))]
pub fn in_time(start: Minute, stops: &[WrittenStop]) -> Result<(), TourFault>
    requires { length stops.now ≤ MOST_STOPS }
    ensures { Gives (λ _. stops.now) result (in_time start stops.now) }
{
    match first_late(start, stops) {
        Some(stop) => Err(TourFault::BeyondHorizon { stop }),
        None => Ok(()),
    }
}
