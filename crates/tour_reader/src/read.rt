//! Reading a whole tour.
ghost use Rattle.std.specs.Prelude.{◌≡◌, ◌≢◌, Ok, Err, IfOk, IfErr};
ghost use Rattle.serde_json.specs.View.{view};
ghost use Rattle.tour_model.specs.Tour.{IsTour};
ghost use Rattle.tour_reader.specs.Gives.{Gives};
ghost use Rattle.tour_reader.specs.Tour.{tour_in, tour_of};

use crate::checks::{distinct, in_time};
use crate::fault::TourFault;
use crate::form::form_of;
use crate::head::head_of;
use crate::rounding::tour_from;
use crate::stops::stops_of;
use serde_json::Value;
use std::alloc::Global;
use tour_model::Tour;

/// Reads a tour: one JSON object with the fields of its book and, for each stop, those of a stop.
///
/// Driving and service are minutes there, and steps in the answer, where a part of a step counts as
/// one. A window opens at the first step that begins in it and closes at the last; a window that has
/// none, or that closes before the start, is left out.
///
/// The faults are those of `TourFault`, and the answer is the first in this order: the bytes; the
/// book; the tour's fields, first a missing one, then an unknown one, then a bad one; the number of
/// stops; each stop's fields in the same way, stop by stop; names; ends. A field that stands twice
/// has its last value. `Memory` comes where there was none, whatever the bytes are.
pub fn read_tour(alloc: Global, bytes: &[u8]) -> Result<Tour, TourFault>
    ensures tour { IfOk result (λ tour. tour_of bytes.now ≡ Ok tour) }
    ensures lawful { IfOk result IsTour }
    ensures fault { IfErr result (λ fault. fault ≢ TourFault.Memory → tour_of bytes.now ≡ Err fault) }
{
    whole_tour(alloc, bytes)
}

/// The tour that the bytes are, or their first fault.
#[tactic(auto, unfolding(crate::specs::Tour::tour_of))]
fn whole_tour(alloc: Global, bytes: &[u8]) -> Result<Tour, TourFault>
    ensures { Gives (λ tour. tour) result (tour_of bytes.now) }
{
    let form = form_of(alloc, bytes)?;
    tour_in(alloc, &form)
}

/// The tour of a form.
#[tactic(auto, unfolding(crate::specs::Tour::tour_in))]
fn tour_in(alloc: Global, form: &Value) -> Result<Tour, TourFault>
    ensures { Gives (λ tour. tour) result (tour_in (view form.now)) }
{
    let head = head_of(alloc, form)?;
    let stops = stops_of(alloc, form)?;
    distinct(alloc, &stops)?;
    in_time(head.start, &stops)?;
    Ok(tour_from(alloc, head, stops)?)
}
