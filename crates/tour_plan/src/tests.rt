//! Tours of one stop from 06:00 of Monday, 2 March 2026, on, each planned by its book.
ghost use Rattle.std.specs.Prelude.{◌+◌, ◌*◌, ◌≤◌, IfOk, Contains};
ghost use Rattle.duty_core.specs.Params.{BeginsUnit};
ghost use Rattle.tour_model.specs.declared.limits.TheConstants.{LONGEST_TOUR, MOST_DRIVE, MOST_SERVICE};
ghost use Rattle.tour_model.specs.Tour.{IsParams, grids_of, IsTour};

use crate::{Planned, plan_tour};
use duty_core::{Minute, NoMemory, Params, RestWay};
use std::alloc::Global;
use std::test::Fail;
use timeline::Timeline;
use tour_model::{Name, Stop, Stops, Tour, Window, Windows};

/// The minute 2026-03-02T06:00.
const START: Minute = 13_762_440;

const US: Params = Params::UsProperty {
    berth: false,
    days: 8,
    day_start: 0,
};

/// A tour of one stop: so many steps of driving and of service, which begins at most so many steps
/// after the start.
fn tour_of(
    alloc: Global,
    params: Params,
    grid: u32,
    drive: u32,
    service: u32,
    closes: u32,
) -> Result<Tour, NoMemory>
    requires params { IsParams params }
    requires grid { Contains (grids_of params) grid }
    requires begins { BeginsUnit params START }
    requires drive { drive * grid ≤ MOST_DRIVE }
    requires some_service { 1 ≤ service }
    requires service { service * grid ≤ MOST_SERVICE }
    requires closes { (closes + service) * grid ≤ LONGEST_TOUR }
    ensures { IfOk result IsTour }
{
    let mut name = Name::new(alloc);
    name.push(b'A')?;
    let mut windows = Windows::new(alloc);
    windows.push(Window { opens: 0, closes })?;
    let mut stops = Stops::new(alloc);
    stops.push(Stop {
        name,
        drive,
        service,
        windows,
    })?;
    Ok(Tour {
        params,
        grid,
        start: START,
        stops,
    })
}

/// Whether the certificate of the tour after an empty log begins with these lines.
fn claim_of(alloc: Global, tour: &Tour, lines: &[u8]) -> Result<bool, NoMemory>
    requires { IsTour tour.now }
{
    let log = Timeline::new(alloc);
    match plan_tour(alloc, tour, &log, 200_000)? {
        Planned::Shortest {
            schedule: _schedule,
            cert,
        } => Ok(cert.as_slice().starts_with(lines)),
        Planned::Infeasible { cert } => Ok(cert.as_slice().starts_with(lines)),
        Planned::Spent | Planned::Unlawful { .. } => Ok(false),
    }
}

/// Five hours: four of driving and one of service. And driving for eleven and a half hours takes a
/// rest of ten, for which there is no time.
#[test]
fn plans_by_the_book_of_the_united_states(rt: HostRuntime) -> Result<(), Fail> {
    let alloc = rt.alloc();
    let tour = tour_of(alloc, US, 30, 8, 2, 144)?;
    assert!(rt; claim_of(alloc, &tour, b"duty-cert 1\nkind shortest\ntarget 10\n")?);
    let tour = tour_of(alloc, US, 30, 23, 1, 36)?;
    assert!(rt; claim_of(alloc, &tour, b"duty-cert 1\nkind infeasible\ntarget -\n")?);
    Ok(())
}

/// Thirteen hours of driving in one shift, and half an hour of service.
#[test]
fn plans_by_the_book_of_canada(rt: HostRuntime) -> Result<(), Fail> {
    let alloc = rt.alloc();
    let params = Params::Canada {
        berth: false,
        way: RestWay::Defer,
        cycle: 1,
        day_start: 0,
    };
    let tour = tour_of(alloc, params, 30, 26, 1, 144)?;
    assert!(rt; claim_of(alloc, &tour, b"duty-cert 1\nkind shortest\ntarget 27\n")?);
    Ok(())
}

/// Twenty-one quarters of work, before the first of which rest is due.
#[test]
fn plans_by_the_book_of_australia(rt: HostRuntime) -> Result<(), Fail> {
    let alloc = rt.alloc();
    let tour = tour_of(alloc, Params::Hvnl {}, 15, 20, 1, 20)?;
    assert!(rt; claim_of(alloc, &tour, b"duty-cert 1\nkind shortest\ntarget 21\n")?);
    Ok(())
}
