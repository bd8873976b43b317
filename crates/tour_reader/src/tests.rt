//! Tours that were worked out by hand.

use crate::{Field, TOUR_LIMIT, TourFault, read_tour};
use duty_core::{Params, RestWay};
use std::alloc::{AllocError, Global};
use std::process::Abort;
use std::test::Fail;
use tour_model::{Tour, Window};

const US: &str =
    r#""book":"us","grid":30,"start":"2026-03-02T06:00","berth":false,"days":8,"day_start":"00:00""#;

const A: &str =
    r#"{"name":"A","drive":240,"service":60,"windows":[["2026-03-02T06:00","2026-03-05T06:00"]]}"#;

const B: &str =
    r#"{"name":"B","drive":31,"service":1,"windows":[["2026-03-02T09:10","2026-03-05T06:00"]]}"#;

/// The form with these fields and these stops.
fn form(alloc: Global, fields: &str, stops: &str) -> Result<String, AllocError> {
    format!(in alloc; "{{{fields},\"stops\":[{stops}]}}")
}

/// The tour of the form with these fields and these stops.
fn read(alloc: Global, fields: &str, stops: &str) -> Result<Tour, TourFault> {
    read_tour(alloc, form(alloc, fields, stops)?.as_bytes())
}

/// A tour of one stop, which has such a name, driving, service and windows.
fn assert_stop(rt: &impl Abort, tour: &Tour, drive: u32, service: u32, windows: &[Window]) {
    let stops = tour.stops.items();
    assert_eq!(rt; stops.len(), 1);
    assert_eq!(rt; stops[0].drive, drive);
    assert_eq!(rt; stops[0].service, service);
    assert_eq!(rt; stops[0].windows.items(), windows);
}

#[test]
fn reads_a_tour(rt: HostRuntime) -> Result<(), Fail> {
    let tour = read(rt.alloc(), US, A)?;
    let params = Params::UsProperty {
        berth: false,
        days: 8,
        day_start: 0,
    };
    assert_eq!(rt; tour.params, params);
    assert_eq!(rt; tour.grid, 30);
    assert_eq!(rt; tour.start, 13_762_440);
    let window = Window {
        opens: 0,
        closes: 144,
    };
    assert_stop(&rt, &tour, 8, 2, &[window]);
    let stops = tour.stops.items();
    assert_eq!(rt; stops.len(), 1);
    assert_eq!(rt; stops[0].name.items(), b"A".as_slice());
    Ok(())
}

#[test]
fn reads_other_books(rt: HostRuntime) -> Result<(), Fail> {
    let canada =
        r#""book":"canada","grid":5,"start":"2026-03-02T06:00","berth":true,"rest":"defer","cycle":2,"day_start":"23:59""#;
    let params = Params::Canada {
        berth: true,
        way: RestWay::Defer,
        cycle: 2,
        day_start: 1439,
    };
    assert_eq!(rt; read(rt.alloc(), canada, A)?.params, params);
    let hvnl = r#""book":"hvnl","grid":15,"start":"2026-03-02T05:45""#;
    assert_eq!(rt; read(rt.alloc(), hvnl, A)?.params, Params::Hvnl {});
    Ok(())
}

#[test]
fn rounds_to_steps(rt: HostRuntime) -> Result<(), Fail> {
    let tour = read(rt.alloc(), US, B)?;
    let window = Window {
        opens: 7,
        closes: 144,
    };
    assert_stop(&rt, &tour, 2, 1, &[window]);
    let windows =
        r#"{"name":"C","drive":0,"service":30,"windows":[["2026-03-02T06:10","2026-03-02T06:20"],["2026-03-01T00:00","2026-03-02T05:59"],["2026-03-01T00:00","2026-03-02T06:29"]]}"#;
    let tour = read(rt.alloc(), US, windows)?;
    let window = Window {
        opens: 0,
        closes: 0,
    };
    assert_stop(&rt, &tour, 0, 1, &[window]);
    Ok(())
}

#[test]
fn leaves_a_stop_without_windows(rt: HostRuntime) -> Result<(), Fail> {
    let empty =
        r#"{"name":"A","drive":0,"service":30,"windows":[["2026-03-02T06:10","2026-03-02T06:20"]]}"#;
    let tour = read(rt.alloc(), US, empty)?;
    assert_stop(&rt, &tour, 0, 1, &[]);
    Ok(())
}

#[test]
fn tells_bad_and_missing_values(rt: HostRuntime) -> Result<(), Fail> {
    let grid =
        r#""book":"us","grid":7,"start":"2026-03-02T06:00","berth":false,"days":9,"day_start":"00:00""#;
    let start = r#""book":"hvnl","grid":15,"start":"2026-03-02T05:50""#;
    let day_start =
        r#""book":"us","grid":30,"start":"2026-03-02T06:00","berth":false,"days":8,"day_start":"24:00""#;
    let drive =
        r#"{"name":"A","drive":30.0,"service":0,"windows":[["2026-03-02T06:00","2026-03-05T06:00"]]}"#;
    let windows =
        r#"{"name":"A","drive":0,"service":1,"windows":[["2026-03-02T06:00","2026-03-02T05:59"]]}"#;
    let no_service = r#"{"name":"","drive":0,"windows":[]}"#;
    let table = [
        (r#""book":"eu""#, "", false, Field::Book, None),
        (grid, "", false, Field::Grid, None),
        (start, "", false, Field::Start, None),
        (day_start, "", false, Field::DayStart, None),
        (US, "7", false, Field::Stops, Some(1)),
        (US, drive, false, Field::Drive, Some(1)),
        (US, windows, false, Field::Windows, Some(1)),
        (r#""grid":7"#, "", true, Field::Book, None),
        (
            r#""book":"us","grid":7,"zone":1"#,
            "",
            true,
            Field::Start,
            None,
        ),
        (US, no_service, true, Field::Service, Some(1)),
    ];
    for (fields, stops, is_missing, expected, number) in table {
        match read(rt.alloc(), fields, stops) {
            Err(TourFault::BadValue { field, stop }) => {
                assert!(rt; !is_missing, "at {fields}");
                assert_eq!(rt; (field, stop), (expected, number), "at {fields}");
            }
            Err(TourFault::Missing { field, stop }) => {
                assert!(rt; is_missing, "at {fields}");
                assert_eq!(rt; (field, stop), (expected, number), "at {fields}");
            }
            _ => assert!(rt; false, "at {fields}"),
        }
    }
    Ok(())
}

#[test]
fn tells_unknown_fields(rt: HostRuntime) -> Result<(), Fail> {
    let fields =
        r#""zz":1,"book":"us","grid":7,"start":"","berth":0,"days":0,"aa":1,"day_start":0"#;
    match &read(rt.alloc(), fields, "") {
        Err(TourFault::Unknown { name, stop }) => {
            assert_eq!(rt; name.items(), b"aa".as_slice());
            assert_eq!(rt; *stop, None);
        }
        _ => assert!(rt; false),
    }
    let stop = r#"{"name":"","drive":0,"service":0,"windows":[],"open":1}"#;
    match &read(rt.alloc(), US, stop) {
        Err(TourFault::Unknown { name, stop }) => {
            assert_eq!(rt; name.items(), b"open".as_slice());
            assert_eq!(rt; *stop, Some(1));
        }
        _ => assert!(rt; false),
    }
    Ok(())
}

#[test]
fn tells_faults_of_all_stops(rt: HostRuntime) -> Result<(), Fail> {
    assert!(rt; matches!(read(rt.alloc(), US, ""), Err(TourFault::NoStops)));
    let mut many = String::from_str(rt.alloc(), "0")?;
    for _ in 0..64 {
        many.push_str(",0")?;
    }
    let answer = read(rt.alloc(), US, many.as_str());
    assert!(rt; matches!(answer, Err(TourFault::TooManyStops)));
    let twice = format!(in rt.alloc(); "{A},{B},{A}")?;
    match &read(rt.alloc(), US, twice.as_str()) {
        Err(TourFault::DuplicateStop { name }) => {
            assert_eq!(rt; name.items(), b"A".as_slice());
        }
        _ => assert!(rt; false),
    }
    Ok(())
}

#[test]
fn tells_ends_past_the_horizon(rt: HostRuntime) -> Result<(), Fail> {
    let late =
        r#"{"name":"A","drive":240,"service":30,"windows":[["2026-03-02T06:00","2026-03-16T06:00"]]}"#;
    let answer = read(rt.alloc(), US, late);
    assert!(rt; matches!(answer, Err(TourFault::BeyondHorizon { stop: 1 })));
    let last =
        r#"{"name":"A","drive":240,"service":30,"windows":[["2026-03-02T06:00","2026-03-16T05:30"]]}"#;
    let window = Window {
        opens: 0,
        closes: 671,
    };
    assert_stop(&rt, &read(rt.alloc(), US, last)?, 8, 1, &[window]);
    Ok(())
}

/// The form of a tour whose book is so many arrays, one within another.
fn nested(alloc: Global, depth: usize) -> Result<String, AllocError> {
    let mut form = String::from_str(alloc, "{\"book\":")?;
    for _ in 0..depth {
        form.push_str("[")?;
    }
    for _ in 0..depth {
        form.push_str("]")?;
    }
    form.push_str("}")?;
    Ok(form)
}

#[test]
fn refuses_other_bytes(rt: HostRuntime) -> Result<(), Fail> {
    let good = form(rt.alloc(), US, A)?;
    let marked = format!(in rt.alloc(); "\u{feff}{good}")?;
    // `serde_json` reads no value so deep. Of fewer arrays the tour is refused for its book.
    let deep = nested(rt.alloc(), 200)?;
    let table: [&[u8]; 6] = [
        b"",
        b"[]",
        b"{} x",
        b"{\"book\":\"\xff\"}",
        marked.as_bytes(),
        deep.as_str().as_bytes(),
    ];
    for bytes in table {
        let answer = read_tour(rt.alloc(), bytes);
        assert!(rt; matches!(answer, Err(TourFault::NotJson)), "at {bytes:?}");
    }
    let shallow = nested(rt.alloc(), 100)?;
    let answer = read_tour(rt.alloc(), shallow.as_str().as_bytes());
    let book = Field::Book;
    assert!(rt; matches!(answer, Err(TourFault::BadValue { field, stop: None }) if field == book));
    let long = vec![in rt.alloc(); b' '; TOUR_LIMIT + 1]?;
    let answer = read_tour(rt.alloc(), &long);
    assert!(rt; matches!(answer, Err(TourFault::TooBig)));
    Ok(())
}

#[test]
fn counts_the_last_of_two_fields(rt: HostRuntime) -> Result<(), Fail> {
    let twice =
        r#""grid":7,"book":"us","grid":15,"start":"2026-03-02T06:00","berth":true,"days":7,"day_start":"09:05""#;
    let tour = read(rt.alloc(), twice, A)?;
    assert_eq!(rt; tour.grid, 15);
    Ok(())
}
