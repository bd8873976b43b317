//! The rule book that a tour names: its word, its fields, its unit, and its parameters.
ghost use Rattle.std.specs.Prelude.{◌≡◌};
ghost use Rattle.serde_json.specs.View.{view};
ghost use Rattle.tour_reader.specs.Books.{book_named, fields_of, grids_of_book, unit_of_book, berth_of, day_start_of, way_named, us_params, canada_params, params_of};

use crate::fault::TourFault;
use crate::field::Field;
use crate::form::good;
use crate::time::clock_of;
use crate::value::{text_of, whole_of};
use duty_core::{Params, RestWay};
use serde_json::Value;
use tour_model::{FEWEST_DAYS, GRIDS, HVNL_GRIDS, MOST_CYCLE, MOST_DAYS};

/// The fields of a tour of the United States, in the order in which their faults are told.
pub(crate) const US_FIELDS: [Field; 7] = [
    Field::Book,
    Field::Grid,
    Field::Start,
    Field::Berth,
    Field::Days,
    Field::DayStart,
    Field::Stops,
];

/// The fields of a tour of Canada, in the order in which their faults are told.
pub(crate) const CANADA_FIELDS: [Field; 8] = [
    Field::Book,
    Field::Grid,
    Field::Start,
    Field::Berth,
    Field::Rest,
    Field::Cycle,
    Field::DayStart,
    Field::Stops,
];

/// The fields of a tour of Australia, in the order in which their faults are told.
pub(crate) const HVNL_FIELDS: [Field; 4] = [Field::Book, Field::Grid, Field::Start, Field::Stops];

/// A rule book, without its parameters.
#[derive(Clone, Copy, Debug, PartialEq, Eq)]
pub enum Book {
    /// The United States.
    Us,
    /// Canada.
    Canada,
    /// Australia.
    Hvnl,
}

impl Book {
    /// The book of this name.
    pub fn named(name: &str) -> Option<Book>
        ensures { result ≡ book_named name.now }
    {
        if name == "us" {
            Some(Book::Us)
        } else if name == "canada" {
            Some(Book::Canada)
        } else if name == "hvnl" {
            Some(Book::Hvnl)
        } else {
            None
        }
    }

    /// The fields of a tour of the book, in the order in which their faults are told.
    pub fn fields(self) -> &'static [Field]
        ensures { result.now ≡ fields_of self }
    {
        match self {
            Book::Us => &US_FIELDS,
            Book::Canada => &CANADA_FIELDS,
            Book::Hvnl => &HVNL_FIELDS,
        }
    }

    /// The lengths of a step that a tour of the book may have, in minutes.
    pub fn grids(self) -> &'static [u32]
        ensures { result.now ≡ grids_of_book self }
    {
        match self {
            Book::Us | Book::Canada => &GRIDS,
            Book::Hvnl => &HVNL_GRIDS,
        }
    }

    /// The length of the book's unit, in minutes.
    pub fn unit(self) -> u32
        ensures { result ≡ unit_of_book self }
    {
        match self {
            Book::Us | Book::Canada => 1,
            Book::Hvnl => 15,
        }
    }
}

/// Whether the truck has a sleeper berth.
fn berth_of(form: &Value) -> Result<bool, TourFault>
    ensures { result ≡ berth_of (view form.now) }
{
    let berth = form.get(Field::Berth.key()).and_then(Value::as_bool);
    good(Field::Berth, None, berth)
}

/// The minute at which a day begins.
#[tactic(auto, unfolding(crate::specs::Books::day_start_of))]
fn day_start_of(form: &Value) -> Result<u16, TourFault>
    ensures { result ≡ day_start_of (view form.now) }
{
    let day_start = text_of(form, Field::DayStart).and_then(clock_of);
    good(Field::DayStart, None, day_start)
}

/// The way to part rest that has this name.
fn way_named(name: &str) -> Option<RestWay>
    ensures { result ≡ way_named name.now }
{
    if name == "split" {
        Some(RestWay::Split)
    } else if name == "defer" {
        Some(RestWay::Defer)
    } else {
        None
    }
}

/// The parameters of the United States.
#[tactic(auto, unfolding(crate::specs::Books::us_params))]
fn us_params(form: &Value) -> Result<Params, TourFault>
    ensures { result ≡ us_params (view form.now) }
{
    let berth = berth_of(form)?;
    let days = whole_of(form, Field::Days, FEWEST_DAYS, MOST_DAYS);
    let days = good(Field::Days, None, days)?;
    let day_start = day_start_of(form)?;
    Ok(Params::UsProperty {
        berth,
        days: days as u8,
        day_start,
    })
}

/// The parameters of Canada.
#[tactic(auto, unfolding(crate::specs::Books::canada_params))]
fn canada_params(form: &Value) -> Result<Params, TourFault>
    ensures { result ≡ canada_params (view form.now) }
{
    let berth = berth_of(form)?;
    let way = text_of(form, Field::Rest).and_then(way_named);
    let way = good(Field::Rest, None, way)?;
    let cycle = whole_of(form, Field::Cycle, 1, MOST_CYCLE);
    let cycle = good(Field::Cycle, None, cycle)?;
    let day_start = day_start_of(form)?;
    Ok(Params::Canada {
        berth,
        way,
        cycle: cycle as u8,
        day_start,
    })
}

/// The parameters of the book.
pub fn params_of(book: Book, form: &Value) -> Result<Params, TourFault>
    ensures { result ≡ params_of book (view form.now) }
{
    match book {
        Book::Us => us_params(form),
        Book::Canada => canada_params(form),
        Book::Hvnl => Ok(Params::Hvnl {}),
    }
}
