use crate::{LogFault, read_log};
use duty_core::{Activity, Minute, Params, RestWay};
use std::alloc::Global;
use std::test::Fail;
use timeline::Run;

/// 2026-03-02T06:00.
const START: Minute = 13_762_440;

const US: Params = Params::UsProperty {
    berth: true,
    days: 8,
    day_start: 0,
};

const CANADA: Params = Params::Canada {
    berth: false,
    way: RestWay::Split,
    cycle: 1,
    day_start: 0,
};

const AUSTRALIA: Params = Params::Hvnl {};

/// The most bytes that a log may have. A proof sees a number, and not which.
fn limit() -> usize {
    4_000_000
}

#[test]
fn reads_a_header_alone(rt: HostRuntime) -> Result<(), Fail> {
    for text in [b"from,to,status\n".as_slice(), b"from,to,status".as_slice()] {
        let log = read_log(rt.alloc(), text, US, START)?;
        assert!(rt; log.is_empty());
    }
    Ok(())
}

/// A run of units of one activity.
fn run(act: Activity, from: u32, to: u32) -> Run {
    Run { act, from, to }
}

#[test]
fn reads_what_csv_says(rt: HostRuntime) -> Result<(), Fail> {
    let minutes = [run(Activity::Drive, 0, 60), run(Activity::Berth, 60, 120)];
    let quarters = [run(Activity::Serve, 0, 6), run(Activity::Off, 6, 7)];
    for (text, params, wanted) in [
        (
            b"from,to,status\n2026-03-02T04:00,2026-03-02T04:30,D\n2026-03-02T04:30,2026-03-02T05:00,D\n2026-03-02T05:00,2026-03-02T06:00,SB\n".as_slice(),
            CANADA,
            minutes,
        ),
        (
            b"from,to,status\r\n2026-03-02T04:00,2026-03-02T05:00,D\r\n2026-03-02T05:00,2026-03-02T06:00,SB\r\n".as_slice(),
            CANADA,
            minutes,
        ),
        (
            b"\xEF\xBB\xBF\"from\",to,status\n\n\"2026-03-02T04:00\",2026-03-02T05:00,\"D\"\n2026-03-02T05:00,2026-03-02T06:00,\"SB".as_slice(),
            CANADA,
            minutes,
        ),
        (
            b"from,to,status\n2026-03-02T04:15,2026-03-02T05:45,WORK\n2026-03-02T05:45,2026-03-02T06:00,REST\n".as_slice(),
            AUSTRALIA,
            quarters,
        ),
    ] {
        let log = read_log(rt.alloc(), text, params, START)?;
        let runs = log.runs();
        assert_eq!(rt; runs.len(), 2);
        assert_eq!(rt; runs.first(), Some(&wanted[0]));
        assert_eq!(rt; runs.last(), Some(&wanted[1]));
    }
    Ok(())
}

#[test]
fn tells_a_bad_header(rt: HostRuntime) {
    for text in [b"".as_slice(), b"from,to,status,\n".as_slice()] {
        let fault = read_log(rt.alloc(), text, US, START).err();
        assert_eq!(rt; fault, Some(LogFault::BadHeader));
    }
}

/// The fault of a log with these rows after its header.
fn fault_of(alloc: Global, rows: &str, params: Params) -> Result<Option<LogFault>, Fail> {
    let text = format!(in alloc; "from,to,status\n{rows}\n")?;
    Ok(read_log(alloc, text.as_bytes(), params, START).err())
}

#[test]
fn tells_the_first_fault(rt: HostRuntime) -> Result<(), Fail> {
    use LogFault::*;
    let gap = "2026-03-02T04:00,2026-03-02T05:00,D\n2026-03-02T05:01,2026-03-02T06:00,ON";
    for (rows, params, fault) in [
        ("D,D", US, NotCsv { row: 1 }),
        (
            "2026-03-02T04:00,2026-02-29T06:00,D",
            US,
            BadTime { row: 1 },
        ),
        (
            "2026-03-02T04:00,2026-03-02T06:00,WORK",
            US,
            BadStatus { row: 1 },
        ),
        ("2026-03-02T06:00,2026-03-02T06:00,D", US, Empty { row: 1 }),
        (gap, US, Gap { row: 2 }),
        (
            "2026-03-02T05:00,2026-03-02T05:50,WORK",
            AUSTRALIA,
            NotOnUnit { row: 1 },
        ),
        (
            "2026-02-09T05:59,2026-03-02T06:00,OFF",
            US,
            TooLong { row: 1 },
        ),
        ("2026-02-09T05:59,2026-03-02T05:59,OFF", US, EndsElsewhere),
    ] {
        assert_eq!(rt; fault_of(rt.alloc(), rows, params)?, Some(fault));
    }
    Ok(())
}

#[test]
fn tells_where_a_log_is_too_big(rt: HostRuntime) -> Result<(), Fail> {
    let mut lines = vec![in rt.alloc(); b'\n'; limit()]?;
    assert_eq!(rt;
        read_log(rt.alloc(), &lines, US, START).err(),
        Some(LogFault::BadHeader)
    );
    lines.push(b'\n')?;
    assert_eq!(rt;
        read_log(rt.alloc(), &lines, US, START).err(),
        Some(LogFault::TooBig)
    );
    Ok(())
}
