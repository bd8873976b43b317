//! Times and days that were worked out by hand.

use crate::{BadTime, day_first, day_of, minute_of_day, read_minute, write_minute};

#[test]
fn reads_times(rt: HostRuntime) {
    assert_eq!(rt; read_minute(b"2026-03-02T06:00"), Ok(13_762_440));
    assert_eq!(rt; read_minute(b"2000-01-01T00:00"), Ok(0));
    assert_eq!(rt; read_minute(b"2099-12-31T23:59"), Ok(52_595_999));
    assert_eq!(rt; read_minute(b"2000-02-29T00:00"), Ok(84_960));
}

#[test]
fn writes_times(rt: HostRuntime) {
    assert_eq!(rt; write_minute(13_762_440), *b"2026-03-02T06:00");
    assert_eq!(rt; write_minute(0), *b"2000-01-01T00:00");
    assert_eq!(rt; write_minute(52_595_999), *b"2099-12-31T23:59");
}

#[test]
fn tells_where_a_text_stops_being_a_time(rt: HostRuntime) {
    assert_eq!(rt; read_minute(b"2026-02-29T00:00"), Err(BadTime { place: 9 }));
    assert_eq!(rt;
        read_minute(b"2026-03-02T24:00"),
        Err(BadTime { place: 12 })
    );
    assert_eq!(rt; read_minute(b"2026-03"), Err(BadTime { place: 7 }));
    assert_eq!(rt;
        read_minute(b"2026-03-02T06:00Z"),
        Err(BadTime { place: 16 })
    );
    assert_eq!(rt; read_minute(b"2100-01-01T00:00"), Err(BadTime { place: 1 }));
}

#[test]
fn finds_days(rt: HostRuntime) {
    assert_eq!(rt; day_of(1440, 0), 1);
    assert_eq!(rt; day_of(1439, 0), 0);
    assert_eq!(rt; day_of(360, 360), 0);
    assert_eq!(rt; day_of(359, 360), -1);
    assert_eq!(rt; minute_of_day(359, 360), 1439);
    assert_eq!(rt; day_first(-1, 360), -1080);
}
