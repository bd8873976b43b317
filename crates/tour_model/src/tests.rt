//! A tour of two stops by hand.
ghost use Rattle.std.specs.Prelude.{◌≡◌, ℕ, ◌+◌, ◌*◌, ◌<◌, ◌≤◌, length, IfOk, All};
ghost use Rattle.tour_model.specs.Tour.{IsWindow, IsStop, IsTour};

use crate::piece::Piece;
use crate::schedule::{Schedule, Steps};
use crate::stop::{Name, Stop, Stops};
use crate::tour::Tour;
use crate::window::{Window, Windows};
use duty_core::{Activity, Mark, Marks, NoMemory, Params};
use std::alloc::Global;
use std::test::Fail;

fn stop_of(alloc: Global, drive: u32, service: u32, windows: Windows) -> Result<Stop, NoMemory>
    requires drive { drive ≤ 100 }
    requires some_service { 1 ≤ service }
    requires service { service ≤ 48 }
    requires few { length windows ≤ 8 }
    requires windows { All (IsWindow 30 service) windows }
    ensures { IfOk result (IsStop 30) }
{
    let mut name = Name::new(alloc);
    name.push(b'A')?;
    Ok(Stop {
        name,
        drive,
        service,
        windows,
    })
}

fn tour_of(alloc: Global, first: Stop, second: Stop) -> Result<Tour, NoMemory>
    requires first { IsStop 30 first }
    requires second { IsStop 30 second }
    ensures { IfOk result IsTour }
{
    let mut stops = Stops::new(alloc);
    stops.push(first)?;
    stops.push(second)?;
    Ok(Tour {
        params: Params::UsProperty {
            berth: false,
            days: 8,
            day_start: 0,
        },
        grid: 30,
        start: 1_000_000,
        stops,
    })
}

/// Two steps of driving and three of service, which begins from 4 to 6 or from 10 to 12; then
/// one of driving and two of service, which begins at 20.
fn two_stops(alloc: Global) -> Result<Tour, NoMemory>
    ensures { IfOk result IsTour }
{
    let mut windows = Windows::new(alloc);
    windows.push(Window {
        opens: 10,
        closes: 12,
    })?;
    windows.push(Window {
        opens: 4,
        closes: 6,
    })?;
    let first = stop_of(alloc, 2, 3, windows)?;
    let mut windows = Windows::new(alloc);
    windows.push(Window {
        opens: 20,
        closes: 20,
    })?;
    let second = stop_of(alloc, 1, 2, windows)?;
    tour_of(alloc, first, second)
}

#[test]
fn pieces_of_two_stops(rt: HostRuntime) -> Result<(), Fail> {
    let tour = two_stops(rt.alloc())?;
    assert_eq!(rt; tour.word_len(), 8);
    assert_eq!(rt; tour.word_at(0), Piece::Drive { stop: 0 });
    assert_eq!(rt; tour.word_at(1), Piece::Drive { stop: 0 });
    assert_eq!(rt;
        tour.word_at(2),
        Piece::Serve {
            stop: 0,
            first: true
        }
    );
    assert_eq!(rt;
        tour.word_at(4),
        Piece::Serve {
            stop: 0,
            first: false
        }
    );
    assert_eq!(rt; tour.word_at(5), Piece::Drive { stop: 1 });
    assert_eq!(rt;
        tour.word_at(6),
        Piece::Serve {
            stop: 1,
            first: true
        }
    );
    assert_eq!(rt;
        tour.word_at(7),
        Piece::Serve {
            stop: 1,
            first: false
        }
    );
    Ok(())
}

#[test]
fn service_begins_in_a_window(rt: HostRuntime) -> Result<(), Fail> {
    let tour = two_stops(rt.alloc())?;
    assert_eq!(rt; tour.word_len(), 8);
    assert!(rt; !tour.may_serve(2, 3));
    assert!(rt; tour.may_serve(2, 4));
    assert!(rt; tour.may_serve(2, 6));
    assert!(rt; !tour.may_serve(2, 7));
    assert!(rt; tour.may_serve(2, 12));
    assert!(rt; tour.may_serve(3, 7));
    assert!(rt; !tour.may_serve(1, 4));
    assert!(rt; !tour.may_do(4, 2, Activity::Drive));
    assert!(rt; tour.may_idle(2));
    assert!(rt; !tour.may_idle(3));
    assert!(rt; !tour.may_idle(4));
    assert!(rt; tour.may_idle(5));
    assert!(rt; !tour.may_idle(8));
    Ok(())
}

#[test]
fn earliest_end_waits(rt: HostRuntime) -> Result<(), Fail> {
    let tour = two_stops(rt.alloc())?;
    assert_eq!(rt; tour.word_len(), 8);
    assert_eq!(rt; tour.eta(0, 0), Some(22));
    assert_eq!(rt; tour.eta(7, 2), Some(22));
    assert_eq!(rt; tour.eta(17, 3), Some(22));
    assert_eq!(rt; tour.eta(18, 3), None);
    assert_eq!(rt; tour.eta(13, 2), None);
    assert_eq!(rt; tour.eta(21, 6), None);
    assert_eq!(rt; tour.eta(21, 7), Some(22));
    assert_eq!(rt; tour.eta(5, 8), Some(5));
    Ok(())
}

#[test]
fn no_windows_no_end(rt: HostRuntime) -> Result<(), Fail> {
    let alloc = rt.alloc();
    let first = stop_of(alloc, 0, 1, Windows::new(alloc))?;
    let second = stop_of(alloc, 0, 1, Windows::new(alloc))?;
    let tour = tour_of(alloc, first, second)?;
    assert_eq!(rt; tour.word_len(), 2);
    assert_eq!(rt; tour.eta(0, 0), None);
    assert_eq!(rt; tour.eta(0, 2), Some(0));
    Ok(())
}

#[test]
fn a_schedule_keeps_its_steps_and_marks(rt: HostRuntime) -> Result<(), Fail> {
    let mut steps = Steps::new(rt.alloc());
    steps.push(Activity::Drive)?;
    steps.push(Activity::Serve)?;
    let mut marks = Marks::new(rt.alloc());
    marks.push(Mark::DeferDay { day: 3 })?;
    let schedule = Schedule { steps, marks };
    assert_eq!(rt;
        schedule.steps.items(),
        [Activity::Drive, Activity::Serve].as_slice()
    );
    assert_eq!(rt;
        schedule.marks.items(),
        [Mark::DeferDay { day: 3 }].as_slice()
    );
    Ok(())
}
