//! What a form says before its stops.
ghost use Rattle.std.specs.Prelude.{◌≡◌, ◌<◌, ◌≤◌, IfOk};
ghost use Rattle.serde_json.specs.View.{view};
ghost use Rattle.tour_reader.specs.Gives.{Gives};
ghost use Rattle.tour_reader.specs.Head.{book_of, grid_of, on_unit, start_of, head_in, head_of};

use crate::book::{Book, params_of};
use crate::fault::TourFault;
use crate::field::Field;
use crate::form::{good, only_fields};
use crate::time::time_of;
use crate::value::{number_of, text_of};
use duty_core::{Minute, Params};
use serde_json::Value;
use std::alloc::Global;
use tour_model::{EARLIEST_START, LATEST_START};

/// What a form says before its stops: the book with its parameters, the minutes of a step, and the
/// civil minute at which the first one begins.
#[derive(Clone, Copy, Debug, PartialEq, Eq)]
pub struct Head {
    pub params: Params,
    pub grid: u32,
    pub start: Minute,
}

/// The book that a form names.
#[tactic(auto, unfolding(crate::specs::Head::book_of))]
fn book_of(form: &Value) -> Result<Book, TourFault>
    ensures { result ≡ book_of (view form.now) }
{
    let Some(book) = form.get("book") else {
        return Err(TourFault::Missing {
            field: Field::Book,
            stop: None,
        });
    };
    good(Field::Book, None, book.as_str().and_then(Book::named))
}

/// The minutes of a step.
#[tactic(auto, unfolding(crate::specs::Head::grid_of))]
fn grid_of(book: Book, form: &Value) -> Option<u32>
    ensures { result ≡ grid_of book (view form.now) }
{
    let number = number_of(form, Field::Grid)?;
    let grid = u32::try_from(number).ok()?;
    if book.grids().contains(&grid) {
        Some(grid)
    } else {
        None
    }
}

/// The minute, if a unit of so many minutes begins with it.
fn on_unit(unit: u32, at: Minute) -> Option<Minute>
    requires { 1 ≤ unit }
    ensures { result ≡ on_unit unit at }
{
    if at % unit == 0 { Some(at) } else { None }
}

/// The civil minute at which the first step begins.
#[tactic(auto, unfolding(crate::specs::Head::start_of))]
fn start_of(book: Book, form: &Value) -> Option<Minute>
    ensures { result ≡ start_of book (view form.now) }
{
    let at = time_of(text_of(form, Field::Start)?)?;
    if at < EARLIEST_START || at > LATEST_START {
        return None;
    }
    on_unit(book.unit(), at)
}

/// What a form with the fields of the book says before its stops.
#[tactic(auto, unfolding(crate::specs::Head::head_in))]
fn head_in(book: Book, form: &Value) -> Result<Head, TourFault>
    ensures { result ≡ head_in book (view form.now) }
{
    let grid = good(Field::Grid, None, grid_of(book, form))?;
    let start = good(Field::Start, None, start_of(book, form))?;
    let params = params_of(book, form)?;
    Ok(Head {
        params,
        grid,
        start,
    })
}

/// What a form says before its stops, or the first fault there.
#[tactic(auto, unfolding(crate::specs::Head::head_of))]
pub fn head_of(alloc: Global, form: &Value) -> Result<Head, TourFault>
    ensures head { Gives (λ head. head) result (head_of (view form.now)) }
    ensures grid { IfOk result (λ head. 0 < head.grid) }
{
    let book = book_of(form)?;
    only_fields(alloc, book.fields(), None, form)?;
    head_in(book, form)
}
