//! Logs that are lawful, and logs that are not, with the minute at which they no longer are and the
//! rules that they break up to it; and their graphs.
use crate::calls::{
    AUDIT, CHECK, GRAPH, Given, MONDAY, PLAN, RESTED, THURSDAY, call, stop, tour_of,
};
use crate::worked_tours::{US, US_BERTH};
use driver_cli::Status;
use std::test::Fail;

const DEFER: &str =
    r#""book":"canada","grid":30,"start":"2026-03-03T06:00","berth":false,"rest":"defer","cycle":1,"day_start":"00:00""#;

const SPLIT: &str =
    r#""book":"canada","grid":30,"start":"2026-03-03T06:00","berth":false,"rest":"split","cycle":1,"day_start":"00:00""#;

/// What stands before the stops of a tour, the rows of a log before it, and what its audit tells.
const AUDITED: [(&str, &str, &str); 11] = [
    (
        US,
        "2026-03-01T18:00,2026-03-02T06:00,D\n",
        "log unlawful at 2026-03-02T02:00: US-BREAK8\n",
    ),
    (
        US,
        "2026-03-01T00:00,2026-03-01T14:00,ON\n2026-03-01T14:00,2026-03-01T14:01,D\n2026-03-01T14:01,2026-03-02T06:00,OFF\n",
        "log unlawful at 2026-03-01T14:00: US-WINDOW14\n",
    ),
    (
        US,
        "2026-03-01T00:00,2026-03-01T13:59,ON\n2026-03-01T13:59,2026-03-01T14:00,D\n2026-03-01T14:00,2026-03-02T06:00,OFF\n",
        "lawful\n",
    ),
    (
        US_BERTH,
        "2026-03-01T00:00,2026-03-01T05:00,D\n2026-03-01T05:00,2026-03-01T12:00,SB\n2026-03-01T12:00,2026-03-01T17:00,D\n2026-03-01T17:00,2026-03-01T20:00,OFF\n2026-03-01T20:00,2026-03-02T02:00,D\n2026-03-02T02:00,2026-03-02T06:00,OFF\n",
        "lawful\n",
    ),
    (
        US_BERTH,
        "2026-03-01T00:00,2026-03-01T05:00,D\n2026-03-01T05:00,2026-03-01T12:00,SB\n2026-03-01T12:00,2026-03-01T17:00,D\n2026-03-01T17:00,2026-03-01T20:00,OFF\n2026-03-01T20:00,2026-03-02T02:01,D\n2026-03-02T02:01,2026-03-02T06:00,OFF\n",
        "log unlawful at 2026-03-02T02:00: US-WINDOW14 US-DRIVE11\n",
    ),
    (
        US_BERTH,
        "2026-03-01T00:00,2026-03-01T05:00,D\n2026-03-01T05:00,2026-03-01T12:00,SB\n2026-03-01T12:00,2026-03-01T17:00,D\n2026-03-01T17:00,2026-03-01T19:59,OFF\n2026-03-01T19:59,2026-03-02T02:00,D\n2026-03-02T02:00,2026-03-02T06:00,OFF\n",
        "log unlawful at 2026-03-01T20:59: US-WINDOW14 US-DRIVE11\n",
    ),
    (
        US,
        "2026-03-01T00:00,2026-03-01T05:00,D\n2026-03-01T05:00,2026-03-01T12:00,SB\n2026-03-01T12:00,2026-03-01T17:00,D\n2026-03-01T17:00,2026-03-01T20:00,OFF\n2026-03-01T20:00,2026-03-02T02:00,D\n2026-03-02T02:00,2026-03-02T06:00,OFF\n",
        "log unlawful at 2026-03-01T14:00: US-WINDOW14\n",
    ),
    (
        DEFER,
        "2026-03-01T00:00,2026-03-01T16:00,ON\n2026-03-01T16:00,2026-03-03T06:00,OFF\n",
        "lawful\n",
    ),
    (
        SPLIT,
        "2026-03-01T00:00,2026-03-01T16:00,ON\n2026-03-01T16:00,2026-03-03T06:00,OFF\n",
        "log unlawful at 2026-03-01T14:00: CA-OFF10\n",
    ),
    (
        DEFER,
        "2026-03-01T00:00,2026-03-01T16:01,ON\n2026-03-01T16:01,2026-03-03T06:00,OFF\n",
        "log unlawful at 2026-03-01T16:00: CA-OFF10\n",
    ),
    (
        DEFER,
        "2026-03-01T00:00,2026-03-01T16:00,ON\n2026-03-01T16:00,2026-03-02T02:00,OFF\n2026-03-02T02:00,2026-03-02T14:01,ON\n2026-03-02T14:01,2026-03-03T06:00,OFF\n",
        "log unlawful at 2026-03-02T14:00: CA-OFF10\n",
    ),
];

#[test]
fn audits_days_of_work_and_rest(rt: HostRuntime) -> Result<(), Fail> {
    let alloc = rt.alloc();
    let stop = stop(alloc, 240, 60, MONDAY, THURSDAY)?;
    for (head, rows, text) in AUDITED {
        let tour = tour_of(alloc, head, stop.as_str())?;
        let log = format!(in alloc; "from,to,status\n{rows}")?;
        let audit = call(alloc, Given::new(&AUDIT, tour.as_str(), log.as_str()))?;
        let lawful = audit.sent.as_slice() == "lawful\n".as_bytes();
        assert_eq!(rt;
            audit.status == Status::Done,
            lawful,
            "where {text} is sent"
        );
        assert_eq!(rt;
            audit.status == Status::LogUnlawful,
            !lawful,
            "where {text} is sent"
        );
        assert_eq!(rt; audit.sent.as_slice(), text.as_bytes());
    }
    Ok(())
}

#[test]
fn tells_of_the_log_before_it_plans_or_checks(rt: HostRuntime) -> Result<(), Fail> {
    let alloc = rt.alloc();
    let good = stop(alloc, 240, 60, MONDAY, THURSDAY)?;
    let tour = tour_of(alloc, US, good.as_str())?;
    let gap =
        "from,to,status\n2026-03-02T04:00,2026-03-02T05:00,D\n2026-03-02T05:30,2026-03-02T06:00,D\n";
    let long = "from,to,status\n2026-03-01T18:00,2026-03-02T06:00,D\n";
    let unlawful = "log unlawful at 2026-03-02T02:00: US-BREAK8\n";
    let cases = [
        (PLAN, gap, Status::Refused, "log refused: Gap 2\n"),
        (CHECK, "", Status::Refused, "log refused: BadHeader\n"),
        (PLAN, long, Status::LogUnlawful, unlawful),
        (CHECK, long, Status::LogUnlawful, unlawful),
        (CHECK, RESTED, Status::ReadFault, "read fault plan.cert\n"),
    ];
    for (words, log, status, text) in cases {
        let told = call(alloc, Given::new(&words, tour.as_str(), log))?;
        assert_eq!(rt; told.status, status, "where {text} is sent");
        assert_eq!(rt; told.sent.as_slice(), text.as_bytes());
        assert!(rt; told.cert.is_none());
    }
    Ok(())
}

/// Twelve hours at the wheel up to the start.
const LONG_NIGHT: &str = "from,to,status\n2026-03-01T18:00,2026-03-02T06:00,D\n";

/// Its graph.
const LONG_NIGHT_DRAWN: &str = "day 2026-03-01T00:00
OFF  ................................................................................................ 00:00
SB   ................................................................................................ 00:00
D    ........................................................................######################## 06:00
ON   ................................................................................................ 00:00
day 2026-03-02T00:00
OFF  ................................................................................................ 00:00
SB   ................................................................................................ 00:00
D    ########################........................................................................ 06:00
ON   ................................................................................................ 00:00
";

#[test]
fn draws_a_log_and_does_not_judge_it(rt: HostRuntime) -> Result<(), Fail> {
    let alloc = rt.alloc();
    let stop = stop(alloc, 240, 60, MONDAY, THURSDAY)?;
    let tour = tour_of(alloc, US, stop.as_str())?;
    let refused = "log refused: BadHeader\n";
    let cases = [
        (GRAPH, RESTED, Status::Done, ""),
        (AUDIT, RESTED, Status::Done, "lawful\n"),
        (GRAPH, LONG_NIGHT, Status::Done, LONG_NIGHT_DRAWN),
        (GRAPH, "", Status::Refused, refused),
    ];
    for (words, log, status, text) in cases {
        let told = call(alloc, Given::new(&words, tour.as_str(), log))?;
        assert_eq!(rt; told.status, status, "where {text} is sent");
        assert_eq!(rt; told.sent.as_slice(), text.as_bytes());
    }
    Ok(())
}
