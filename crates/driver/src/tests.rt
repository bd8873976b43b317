//! What the planner answers to words, and to files that hold no tour or no log.
use crate::calls::{AUDIT, Given, Outcome, PLAN, RESTED, call, stop, tour_of};
use crate::worked_tours::US;
use driver_cli::Status;
use std::alloc::Global;
use std::test::Fail;

const USAGE: &str =
    "usage: driver plan TOUR LOG CERT [--budget N]\n       driver check TOUR LOG CERT\n       driver audit TOUR LOG\n       driver graph TOUR LOG\n       driver make N TOUR LOG\n";

#[test]
fn answers_words_and_faults(rt: HostRuntime) -> Result<(), Fail> {
    let given = Given::new(&PLAN, "{}", "");
    let cases = [
        (given, Status::Refused, "tour refused: Missing book\n"),
        (Given::new(&[], "{}", ""), Status::Usage, USAGE),
        (
            Given::new(&["plan", "tour.json", "log.csv"], "{}", ""),
            Status::Usage,
            USAGE,
        ),
        (
            Given::new(&["audit", "tour.json", "log.csv", "plan.cert"], "{}", ""),
            Status::Usage,
            USAGE,
        ),
        (
            Given::new(&["plan", "no.json", "log.csv", "plan.cert"], "{}", ""),
            Status::ReadFault,
            "read fault no.json\n",
        ),
        (
            Given {
                failing_fetch: Some(1),
                ..given
            },
            Status::ReadFault,
            "read fault tour.json\n",
        ),
        (
            Given {
                failing_send: Some(3),
                ..given
            },
            Status::WriteFault,
            "tou",
        ),
    ];
    for (given, status, text) in cases {
        let told = call(rt.alloc(), given)?;
        assert_eq!(rt; told.status, status, "where {text} is sent");
        assert_eq!(rt; told.sent.as_slice(), text.as_bytes());
    }
    Ok(())
}

#[test]
fn refuses_tours(rt: HostRuntime) -> Result<(), Fail> {
    let alloc = rt.alloc();
    let late = stop(alloc, 240, 30, "2026-03-02T06:00", "2026-03-16T06:00")?;
    let good = stop(alloc, 240, 30, "2026-03-02T06:00", "2026-03-05T06:00")?;
    let twice = format!(in alloc; "{good},{good}")?;
    let cases = [
        ("", "tour refused: NoStops\n"),
        (late.as_str(), "tour refused: BeyondHorizon 1\n"),
        (twice.as_str(), "tour refused: DuplicateStop A\n"),
    ];
    for (stops, text) in cases {
        let tour = tour_of(alloc, US, stops)?;
        let told = call(alloc, Given::new(&PLAN, tour.as_str(), RESTED))?;
        assert_eq!(rt; told.status, Status::Refused, "where {text} is sent");
        assert_eq!(rt; told.sent.as_slice(), text.as_bytes());
    }
    let grid = format!(in alloc;
        r#"{{"book":"us","grid":7,"start":"2026-03-02T06:00","berth":false,"days":8,"day_start":"00:00","stops":[{good}]}}"#
    )?;
    let told = call(alloc, Given::new(&PLAN, grid.as_str(), RESTED))?;
    assert_eq!(rt; told.status, Status::Refused);
    assert_eq!(rt;
        told.sent.as_slice(),
        "tour refused: BadValue grid\n".as_bytes()
    );
    Ok(())
}

#[test]
fn tells_each_fault_of_a_tour(rt: HostRuntime) -> Result<(), Fail> {
    let alloc = rt.alloc();
    let mut many = String::from_str(alloc, "0")?;
    for _ in 0..64 {
        many.push_str(",0")?;
    }
    let many = tour_of(alloc, US, many.as_str())?;
    let no_object = tour_of(alloc, US, "7")?;
    let no_service = tour_of(alloc, US, r#"{"name":"A","drive":0,"windows":[]}"#)?;
    let unknown = tour_of(
        alloc,
        US,
        r#"{"name":"","drive":0,"service":0,"windows":[],"größe":1}"#,
    )?;
    let bad_drive = tour_of(
        alloc,
        US,
        r#"{"name":"A","drive":30.0,"service":0,"windows":[]}"#,
    )?;
    let unknown_field = r#"{"book":"hvnl","grid":7,"start":"","stops":0,"zone":1}"#;
    let cases = [
        ("[]", "tour refused: NotJson\n"),
        (r#"{"book":"eu"}"#, "tour refused: BadValue book\n"),
        (
            r#"{"book":"us","grid":30}"#,
            "tour refused: Missing start\n",
        ),
        (unknown_field, "tour refused: Unknown zone\n"),
        (many.as_str(), "tour refused: TooManyStops\n"),
        (no_object.as_str(), "tour refused: BadValue stops stop 1\n"),
        (
            no_service.as_str(),
            "tour refused: Missing service stop 1\n",
        ),
        (unknown.as_str(), "tour refused: Unknown gr????e stop 1\n"),
        (bad_drive.as_str(), "tour refused: BadValue drive stop 1\n"),
    ];
    for (tour, text) in cases {
        let told = call(alloc, Given::new(&PLAN, tour, RESTED))?;
        assert_eq!(rt; told.status, Status::Refused, "where {text} is sent");
        assert_eq!(rt; told.sent.as_slice(), text.as_bytes());
    }
    Ok(())
}

#[test]
fn tells_each_fault_of_a_log(rt: HostRuntime) -> Result<(), Fail> {
    let alloc = rt.alloc();
    let good = stop(alloc, 240, 60, "2026-03-02T06:00", "2026-03-02T10:00")?;
    let tour = tour_of(alloc, US, good.as_str())?;
    let cases = [
        ("from,to", "log refused: BadHeader\n"),
        ("from,to,status\nD,D", "log refused: NotCsv 1\n"),
        (
            "from,to,status\n2026-03-02T04:00,2026-02-29T06:00,D",
            "log refused: BadTime 1\n",
        ),
        (
            "from,to,status\n2026-03-02T04:00,2026-03-02T06:00,WORK",
            "log refused: BadStatus 1\n",
        ),
        (
            "from,to,status\n2026-03-02T06:00,2026-03-02T06:00,D",
            "log refused: Empty 1\n",
        ),
        (
            "from,to,status\n2026-03-02T05:00,2026-03-02T06:00,D\n2026-03-02T04:00,2026-03-02T05:00,D",
            "log refused: Gap 2\n",
        ),
        (
            "from,to,status\n2026-02-09T05:59,2026-03-02T06:00,OFF",
            "log refused: TooLong 1\n",
        ),
        (
            "from,to,status\n2026-03-02T04:00,2026-03-02T05:00,OFF",
            "log refused: EndsElsewhere\n",
        ),
    ];
    for (log, text) in cases {
        let told = call(alloc, Given::new(&PLAN, tour.as_str(), log))?;
        assert_eq!(rt; told.status, Status::Refused, "where {text} is sent");
        assert_eq!(rt; told.sent.as_slice(), text.as_bytes());
    }
    Ok(())
}

#[test]
fn tells_a_row_that_is_not_on_a_quarter(rt: HostRuntime) -> Result<(), Fail> {
    let alloc = rt.alloc();
    let good = stop(alloc, 240, 30, "2026-03-02T06:00", "2026-03-05T06:00")?;
    let head = r#""book":"hvnl","grid":15,"start":"2026-03-02T06:00""#;
    let tour = tour_of(alloc, head, good.as_str())?;
    let log =
        "from,to,status\n2026-03-02T05:00,2026-03-02T05:50,WORK\n2026-03-02T05:50,2026-03-02T06:00,REST\n";
    let told = call(alloc, Given::new(&AUDIT, tour.as_str(), log))?;
    assert_eq!(rt; told.status, Status::Refused);
    assert_eq!(rt;
        told.sent.as_slice(),
        "log refused: NotOnUnit 1\n".as_bytes()
    );
    Ok(())
}

/// Whether a plan of these files is refused with this text.
fn is_refused(alloc: Global, tour: &[u8], log: &[u8], text: &str) -> Result<bool, Fail> {
    let given = Given {
        tour,
        log,
        ..Given::new(&PLAN, "", "")
    };
    let told = call(alloc, given)?;
    Ok(told.status == Status::Refused && told.sent.as_slice() == text.as_bytes())
}

#[test]
fn refuses_long_files(rt: HostRuntime) -> Result<(), Fail> {
    let alloc = rt.alloc();
    let good = stop(alloc, 240, 60, "2026-03-02T06:00", "2026-03-02T10:00")?;
    let tour = tour_of(alloc, US, good.as_str())?;
    let spaces = vec![in alloc; b' '; 1_000_001]?;
    assert!(rt; is_refused(alloc, &spaces, RESTED.as_bytes(), "tour refused: TooBig\n")?);
    let lines = vec![in alloc; b'\n'; 4_000_001]?;
    assert!(rt;
        is_refused(
            alloc,
            tour.as_str().as_bytes(),
            &lines,
            "log refused: TooBig\n"
        )?
    );
    Ok(())
}

#[test]
fn refuses_a_row_of_other_bytes(rt: HostRuntime) -> Result<(), Fail> {
    let alloc = rt.alloc();
    let good = stop(alloc, 240, 60, "2026-03-02T06:00", "2026-03-02T10:00")?;
    let tour = tour_of(alloc, US, good.as_str())?;
    let log = b"from,to,status\n\xff,2026-03-02T06:00,D\n";
    assert!(rt;
        is_refused(
            alloc,
            tour.as_str().as_bytes(),
            log,
            "log refused: BadTime 1\n"
        )?
    );
    Ok(())
}

/// Whether the text was sent: as the beginning of a report, and else as all that was.
fn is_told(told: &Outcome, text: &str) -> bool {
    if told.status == Status::Done {
        told.sent.starts_with(text.as_bytes())
    } else {
        told.sent.as_slice() == text.as_bytes()
    }
}

#[test]
fn plans_after_a_log(rt: HostRuntime) -> Result<(), Fail> {
    let alloc = rt.alloc();
    // Eleven hours at the wheel up to the start: ten hours of rest have to come first.
    let tired =
        "from,to,status\n2026-03-01T18:30,2026-03-02T00:00,D\n2026-03-02T00:00,2026-03-02T00:30,ON\n2026-03-02T00:30,2026-03-02T06:00,D\n";
    let cases = [
        (
            "2026-03-02T20:00",
            Status::Done,
            "shortest 4:30 from 2026-03-02T16:00 to 2026-03-02T20:30\n",
        ),
        ("2026-03-02T19:30", Status::Infeasible, "infeasible\n"),
    ];
    for (closes, status, text) in cases {
        let stop = stop(alloc, 240, 30, "2026-03-02T06:00", closes)?;
        let tour = tour_of(alloc, US, stop.as_str())?;
        let told = call(alloc, Given::new(&PLAN, tour.as_str(), tired))?;
        assert_eq!(rt; told.status, status, "where {text} is sent");
        assert!(rt; is_told(&told, text), "where {text} is sent");
    }
    Ok(())
}

#[test]
fn spends_a_small_budget(rt: HostRuntime) -> Result<(), Fail> {
    let alloc = rt.alloc();
    let stop = stop(alloc, 690, 30, "2026-03-02T06:00", "2026-03-03T03:30")?;
    let tour = tour_of(alloc, US, stop.as_str())?;
    let cases = [
        ("3", Status::Spent, "spent 3\n"),
        ("500000", Status::Done, "shortest 22:00 from "),
        ("0", Status::Usage, USAGE),
        ("500001", Status::Usage, USAGE),
        ("03", Status::Spent, "spent 3\n"),
        ("+3", Status::Spent, "spent 3\n"),
        ("-3", Status::Usage, USAGE),
        ("", Status::Usage, USAGE),
    ];
    for (budget, status, text) in cases {
        let words = [
            "plan",
            "tour.json",
            "log.csv",
            "plan.cert",
            "--budget",
            budget,
        ];
        let told = call(alloc, Given::new(&words, tour.as_str(), RESTED))?;
        assert_eq!(rt; told.status, status, "where {text} is sent");
        assert!(rt; is_told(&told, text), "where {text} is sent");
        assert_eq!(rt; told.cert.is_some(), told.status == Status::Done);
    }
    Ok(())
}

#[test]
fn reads_options_as_they_are_given(rt: HostRuntime) -> Result<(), Fail> {
    let alloc = rt.alloc();
    let stop = stop(alloc, 690, 30, "2026-03-02T06:00", "2026-03-03T03:30")?;
    let tour = tour_of(alloc, US, stop.as_str())?;
    let spent = "spent 3\n";
    let cases: [(&[&str], Status, &str); 8] = [
        (
            &["plan", "tour.json", "log.csv", "plan.cert", "--budget=3"],
            Status::Spent,
            spent,
        ),
        (
            &["plan", "--budget", "3", "tour.json", "log.csv", "plan.cert"],
            Status::Spent,
            spent,
        ),
        (
            &[
                "plan",
                "--budget=3",
                "--",
                "tour.json",
                "log.csv",
                "plan.cert",
            ],
            Status::Spent,
            spent,
        ),
        (
            &[
                "plan",
                "tour.json",
                "log.csv",
                "plan.cert",
                "--budget=3",
                "--budget=3",
            ],
            Status::Usage,
            USAGE,
        ),
        (
            &["plan", "tour.json", "log.csv", "plan.cert", "--help"],
            Status::Usage,
            USAGE,
        ),
        (
            &["plan", "tour.json", "log.csv", "-cert"],
            Status::Usage,
            USAGE,
        ),
        (
            &["make", "1000000", "tour.json", "log.csv"],
            Status::Usage,
            USAGE,
        ),
        (
            &["audit", "tour.json", "--", "log.csv"],
            Status::Done,
            "lawful\n",
        ),
    ];
    for (words, status, text) in cases {
        let told = call(alloc, Given::new(words, tour.as_str(), RESTED))?;
        assert_eq!(rt; told.status, status, "where {text} is sent");
        assert_eq!(rt; told.sent.as_slice(), text.as_bytes());
    }
    Ok(())
}
