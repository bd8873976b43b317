//! The report of a tour whose schedule is worked out by hand, and made tours by hand.
ghost use Rattle.std.specs.Prelude.{◌≡◌, false, All, IfOk};
ghost use Rattle.cert_text.specs.Text.Form.{IsMarkForm};
ghost use Rattle.duty_core.specs.declared.params.Params.TheVariants.{Canada};
ghost use Rattle.duty_core.specs.declared.params.RestWay.TheVariants.{Defer};
ghost use Rattle.tour_model.specs.Tour.{IsStop, IsTour};

use crate::maker::make_tour;
use crate::write::told;
use duty_core::{Activity, Mark, Marks, NoMemory, Params, RestWay};
use std::alloc::Global;
use std::test::Fail;
use timeline::Timeline;
use tour_model::{Name, Stop, Stops, Tour, Window, Windows};

/// A stop of thirteen hours of driving and three of service, which begins as the driving ends.
fn stop_of(alloc: Global) -> Result<Stop, NoMemory>
    ensures { IfOk result (IsStop 30) }
{
    let mut name = Name::new(alloc);
    name.push(b'A')?;
    let mut windows = Windows::new(alloc);
    windows.push(Window {
        opens: 26,
        closes: 26,
    })?;
    Ok(Stop {
        name,
        drive: 26,
        service: 6,
        windows,
    })
}

/// The tour of that stop, in Canada, where rest is deferred, from 2026-03-02T00:00 on.
fn tour_of(alloc: Global, stop: Stop) -> Result<Tour, NoMemory>
    requires { IsStop 30 stop }
    ensures tour { IfOk result IsTour }
    ensures params { IfOk result (λ tour. tour.params ≡ Canada false Defer 1 0) }
{
    let mut stops = Stops::new(alloc);
    stops.push(stop)?;
    Ok(Tour {
        params: Params::Canada {
            berth: false,
            way: RestWay::Defer,
            cycle: 1,
            day_start: 0,
        },
        grid: 30,
        start: 13_762_080,
        stops,
    })
}

/// The one mark of its schedule: the rest of 2026-03-02 is deferred.
fn marks_of(alloc: Global) -> Result<Marks, NoMemory>
    ensures { IfOk result (All (IsMarkForm (Canada false Defer 1 0) 0)) }
{
    let mut marks = Marks::new(alloc);
    marks.push(Mark::DeferDay { day: 9_557 })?;
    Ok(marks)
}

/// Its schedule, which begins at once.
fn steps_of() -> [Activity; 32] {
    let mut steps = [Activity::Serve; 32];
    for step in 0..26 {
        steps[step] = Activity::Drive;
    }
    steps
}

const DEFERRED: &str = "shortest 16:00 from 2026-03-02T00:00 to 2026-03-02T16:00
2026-03-02T00:00 2026-03-02T13:00 DRIVE A
2026-03-02T13:00 2026-03-02T16:00 SERVE A
mark defer 2026-03-02T00:00
CA-DAY13 780 of 780 at 2026-03-02T12:59
CA-DAY14 780 of 840 at 2026-03-02T12:59
CA-SHIFT13 780 of 780 at 2026-03-02T12:59
CA-SHIFT14 780 of 840 at 2026-03-02T12:59
CA-ELAPSED16 780 of 960 at 2026-03-02T12:59
CA-OFF10 -
CA-DEFER 960 of 1680 at 2026-03-02T00:00
CA-PAIR -
CA-24IN14 779 of 18720 at 2026-03-02T12:59
CA-CYCLE 780 of 4200 at 2026-03-02T12:59
CA-70WITHOUT24 -
day 2026-03-02T00:00
OFF  ................................................................................................ 00:00
SB   ................................................................................................ 00:00
D    ####################################################............................................ 13:00
ON   ....................................................############................................ 03:00
";

#[test]
fn a_day_of_deferred_rest_is_reported(rt: HostRuntime) -> Result<(), Fail> {
    let alloc = rt.alloc();
    let tour = tour_of(alloc, stop_of(alloc)?)?;
    let marks = marks_of(alloc)?;
    let log = Timeline::new(alloc);
    let text = told(alloc, &tour, &log, &steps_of(), &marks)?;
    assert_eq!(rt; text.as_bytes(), DEFERRED.as_bytes());
    Ok(())
}

const FIRST_STOPS: &str =
    "{\"book\":\"us\",\"grid\":30,\"start\":\"2026-03-02T06:00\",\"berth\":true,\"days\":8,\"day_start\":\"00:00\",\"stops\":[{\"name\":\"S1\",\"drive\":210,\"service\":30,\"windows\":[[\"2026-03-02T06:00\",\"2026-03-15T06:00\"]]},{\"name\":\"S2\",\"drive\":120,\"service\":60,\"windows\":[[\"2026-03-02T06:00\",\"2026-03-15T06:00\"]]},{\"name\":\"S3\",\"drive\":120,\"service\":30,\"windows\":[[\"2026-03-02T06:00\",\"2026-03-15T06:00\"]]},";

const WEEK: &str = "from,to,status
2026-02-23T08:00,2026-02-23T17:00,ON
2026-02-23T17:00,2026-02-24T08:00,OFF
2026-02-24T08:00,2026-02-24T17:00,ON
2026-02-24T17:00,2026-02-25T08:00,OFF
2026-02-25T08:00,2026-02-25T17:00,ON
2026-02-25T17:00,2026-02-26T08:00,OFF
2026-02-26T08:00,2026-02-26T17:00,ON
2026-02-26T17:00,2026-02-27T08:00,OFF
2026-02-27T08:00,2026-02-27T17:00,ON
2026-02-27T17:00,2026-03-02T06:00,OFF
";

/// The number of objects in the text of a tour: itself and its stops.
fn objects_in(tour: &[u8]) -> usize {
    tour.iter().filter(|byte| **byte == b'{').count()
}

#[test]
fn the_first_tour_is_drawn(rt: HostRuntime) -> Result<(), Fail> {
    let made = make_tour(rt.alloc(), 1)?;
    let tour = made.tour.as_bytes();
    assert!(rt; tour.starts_with(FIRST_STOPS.as_bytes()));
    assert!(rt; tour.ends_with("]]}]}\n".as_bytes()));
    assert_eq!(rt; objects_in(tour), 21);
    assert_eq!(rt; made.log.as_bytes(), WEEK.as_bytes());
    Ok(())
}
