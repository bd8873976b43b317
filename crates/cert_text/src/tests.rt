//! Certificates by hand, read and written.
ghost use Rattle.std.specs.Prelude.{IfOk};
ghost use Rattle.tour_model.specs.Tour.{IsStop, IsTour};

use crate::{CertFault, CertKind, StepRun, read_cert, write_cert};
use duty_core::{Activity, Mark, NoMemory, Params, RestWay};
use std::alloc::Global;
use std::process::Abort;
use std::test::Fail;
use tour_model::{Name, Stop, Stops, Tour, Window, Windows};

/// A schedule with a deferral, and two layers.
const TEXT: &[u8] =
    b"duty-cert 1\nkind shortest\ntarget 32\nschedule 2\nr 26 D\nr 6 S\nmarks 2\nm defer 2026-03-02T00:00\nm split 2026-03-02T00:01\nlayers 2\nlayer 0 1\nl - 0 600 0 999999\nlayer 1 2\nl 0 1 30\nl - 0\nend\n";

/// A certificate with no schedule and one layer of no labels.
const NO_SCHEDULE: &[u8] =
    b"duty-cert 1\nkind infeasible\ntarget -\nschedule 0\nmarks 0\nlayers 1\nlayer 0 0\nend\n";

/// A stop of 26 steps of driving and 6 of service, which may begin at any time of two days.
fn stop_of(alloc: Global) -> Result<Stop, NoMemory>
    ensures { IfOk result (IsStop 30) }
{
    let mut name = Name::new(alloc);
    name.push(b'A')?;
    let mut windows = Windows::new(alloc);
    windows.push(Window {
        opens: 0,
        closes: 96,
    })?;
    Ok(Stop {
        name,
        drive: 26,
        service: 6,
        windows,
    })
}

/// A tour of Canada from 2026-03-02T00:00 on.
fn tour_of(alloc: Global, stop: Stop) -> Result<Tour, NoMemory>
    requires { IsStop 30 stop }
    ensures { IfOk result IsTour }
{
    let mut stops = Stops::new(alloc);
    stops.push(stop)?;
    Ok(Tour {
        params: Params::Canada {
            berth: false,
            way: RestWay::Defer,
            cycle: 1,
            day_start: 0,
        },
        grid: 30,
        start: 13_762_080,
        stops,
    })
}

/// Checks that the line is bad.
fn is_bad(rt: &impl Abort, alloc: Global, tour: &Tour, text: &[u8], line: u64) -> Result<(), Fail>
    requires { IsTour tour.now }
{
    assert_eq!(rt;
        read_cert(alloc, text, tour).err(),
        Some(CertFault::Bad { line })
    );
    Ok(())
}

#[test]
fn reads_a_certificate_by_hand(rt: HostRuntime) -> Result<(), Fail> {
    let alloc = rt.alloc();
    let tour = tour_of(alloc, stop_of(alloc)?)?;
    let cert = read_cert(alloc, TEXT, &tour).expect(&rt, "a certificate");
    assert_eq!(rt; cert.kind, CertKind::Shortest);
    assert_eq!(rt; cert.target, Some(32));
    let runs = [
        StepRun {
            count: 26,
            act: Activity::Drive,
        },
        StepRun {
            count: 6,
            act: Activity::Serve,
        },
    ];
    assert_eq!(rt; cert.schedule.items(), runs.as_slice());
    let marks = [
        Mark::DeferDay { day: 9557 },
        Mark::SplitRest { at: 13_762_081 },
    ];
    assert_eq!(rt; cert.marks.items(), marks.as_slice());
    assert_eq!(rt; cert.layers.items().len(), 2);
    let first = cert.layers.items()[0].items();
    assert_eq!(rt; first.len(), 1);
    assert_eq!(rt; first[0].depart, None);
    assert_eq!(rt; first[0].progress, 0);
    assert_eq!(rt; first[0].numbers.items(), [600, 0, 999_999].as_slice());
    let second = cert.layers.items()[1].items();
    assert_eq!(rt; second.len(), 2);
    assert_eq!(rt; second[0].depart, Some(0));
    assert_eq!(rt; second[0].progress, 1);
    assert_eq!(rt; second[1].numbers.items().len(), 0);
    Ok(())
}

#[test]
fn writes_what_was_read(rt: HostRuntime) -> Result<(), Fail> {
    let alloc = rt.alloc();
    let tour = tour_of(alloc, stop_of(alloc)?)?;
    for text in [TEXT, NO_SCHEDULE] {
        let cert = read_cert(alloc, text, &tour).expect(&rt, "a certificate");
        let written = write_cert(alloc, &cert, &tour)?;
        assert_eq!(rt; written.as_slice(), text);
    }
    Ok(())
}

#[test]
fn refuses_each_beginning_at_its_last_line(rt: HostRuntime) -> Result<(), Fail> {
    let alloc = rt.alloc();
    let tour = tour_of(alloc, stop_of(alloc)?)?;
    for text in [TEXT, NO_SCHEDULE] {
        let mut line: u64 = 1;
        for end in 0..text.len() {
            let (front, _) = text.split_at(end);
            is_bad(&rt, alloc, &tour, front, line)?;
            if text[end] == b'\n' {
                line = line.saturating_add(1);
            }
        }
    }
    Ok(())
}

#[test]
fn refuses_other_spellings_of_a_target(rt: HostRuntime) -> Result<(), Fail> {
    let alloc = rt.alloc();
    let tour = tour_of(alloc, stop_of(alloc)?)?;
    let texts = [
        b"duty-cert 1\nkind shortest\ntarget 032\nschedule 0\n".as_slice(),
        b"duty-cert 1\nkind shortest\ntarget +32\nschedule 0\n".as_slice(),
        b"duty-cert 1\nkind shortest\ntarget 32\r\nschedule 0\n".as_slice(),
        b"duty-cert 1\nkind shortest\ntarget\t32\nschedule 0\n".as_slice(),
        b"duty-cert 1\nkind shortest\ntarget  32\nschedule 0\n".as_slice(),
        b"duty-cert 1\nkind shortest\ntarget 32 \nschedule 0\n".as_slice(),
        b"duty-cert 1\nkind shortest\ntarget 0\nschedule 0\n".as_slice(),
        b"duty-cert 1\nkind shortest\ntarget 1000000\nschedule 0\n".as_slice(),
        b"duty-cert 1\nkind shortest\ntarget -\nschedule 0\n".as_slice(),
        b"duty-cert 1\nkind infeasible\ntarget 5\nschedule 0\n".as_slice(),
    ];
    for text in texts {
        is_bad(&rt, alloc, &tour, text, 3)?;
    }
    Ok(())
}

#[test]
fn refuses_other_lines(rt: HostRuntime) -> Result<(), Fail> {
    let alloc = rt.alloc();
    let tour = tour_of(alloc, stop_of(alloc)?)?;
    let texts = [
        (b"duty-cert 2\nkind shortest\n".as_slice(), 1),
        (b"duty-cert 1\nkind short\n".as_slice(), 2),
        (
            b"duty-cert 1\nkind infeasible\ntarget -\nschedule 1\n".as_slice(),
            4,
        ),
        (
            b"duty-cert 1\nkind infeasible\ntarget -\nschedule 0\nmarks 1\n".as_slice(),
            5,
        ),
        (
            b"duty-cert 1\nkind shortest\ntarget 2\nschedule 2\nr 1 D\nr 1 D\n".as_slice(),
            6,
        ),
        (
            b"duty-cert 1\nkind shortest\ntarget 2\nschedule 2\nr 0 D\nr 1 S\n".as_slice(),
            5,
        ),
        (
            b"duty-cert 1\nkind shortest\ntarget 2\nschedule 2\nr 1 d\nr 1 S\n".as_slice(),
            5,
        ),
        (
            b"duty-cert 1\nkind shortest\ntarget 2\nschedule 1\nr 1 D\nr 1 S\n".as_slice(),
            6,
        ),
        (
            b"duty-cert 1\nkind shortest\ntarget 2\nschedule 0\nmarks 2\nm split 2026-03-02T00:00\nm defer 2026-03-02T00:00\n".as_slice(),
            7,
        ),
        (
            b"duty-cert 1\nkind shortest\ntarget 2\nschedule 0\nmarks 1\nm defer 2026-03-02T00:01\n".as_slice(),
            6,
        ),
        (
            b"duty-cert 1\nkind shortest\ntarget 2\nschedule 0\nmarks 1\nm split 2026-02-29T00:00\n".as_slice(),
            6,
        ),
        (
            b"duty-cert 1\nkind shortest\ntarget 2\nschedule 0\nmarks 2\nm split 2099-12-31T23:59\n".as_slice(),
            6,
        ),
        (
            b"duty-cert 1\nkind infeasible\ntarget -\nschedule 0\nmarks 0\nlayers 1\nlayer 1 0\n".as_slice(),
            7,
        ),
        (
            b"duty-cert 1\nkind infeasible\ntarget -\nschedule 0\nmarks 0\nlayers 1\nlayer 0 1\nl - 00\n".as_slice(),
            8,
        ),
        (
            b"duty-cert 1\nkind infeasible\ntarget -\nschedule 0\nmarks 0\nlayers 1\nlayer 0 1\nl - 0 07\n".as_slice(),
            8,
        ),
        (
            b"duty-cert 1\nkind infeasible\ntarget -\nschedule 0\nmarks 0\nlayers 1\nlayer 0 1\nl - 0 7 \n".as_slice(),
            8,
        ),
        (
            b"duty-cert 1\nkind infeasible\ntarget -\nschedule 0\nmarks 0\nlayers 1\nlayer 0 1\nend\n".as_slice(),
            8,
        ),
        (
            b"duty-cert 1\nkind infeasible\ntarget -\nschedule 0\nmarks 0\nlayers 0\nend\n\n".as_slice(),
            8,
        ),
        (
            b"duty-cert 1\nkind infeasible\ntarget -\nschedule 0\nmarks 0\nlayers 0\nend\nx".as_slice(),
            8,
        ),
    ];
    for (text, line) in texts {
        is_bad(&rt, alloc, &tour, text, line)?;
    }
    Ok(())
}
