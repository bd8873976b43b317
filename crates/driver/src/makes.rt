//! Made tours: what is put of them, and what is told.
use crate::calls::drive;
use crate::worked_tours::WORKING_WEEK;
use driver_cli::Status;
use duty_core::NoMemory;
use outside::{DiskDesk, MemoryDesk, MemorySink, Word};
use std::alloc::Global;
use std::test::Fail;
use std::{fs, process};

const MAKE: [&str; 4] = ["make", "1", "tour.json", "log.csv"];

/// The first made tour up to its third stop, as its numbers are drawn by hand.
const FIRST_STOPS: &str =
    r#"{"book":"us","grid":30,"start":"2026-03-02T06:00","berth":true,"days":8,"day_start":"00:00","stops":[{"name":"S1","drive":210,"service":30,"windows":[["2026-03-02T06:00","2026-03-15T06:00"]]},{"name":"S2","drive":120,"service":60,"windows":[["2026-03-02T06:00","2026-03-15T06:00"]]},{"name":"S3","drive":120,"service":30,"#;

/// What a desk in memory holds under a name: nothing where there is no such file.
fn held(alloc: Global, desk: &MemoryDesk, name: &str) -> Result<Vec<u8>, NoMemory> {
    match desk.file(&Word::new(alloc, name)?) {
        Some(bytes) => Ok(bytes.to_vec(alloc)?),
        None => Ok(Vec::new(alloc)),
    }
}

#[test]
fn makes_and_plans_the_same_tour_each_time(rt: HostRuntime) -> Result<(), Fail> {
    let alloc = rt.alloc();
    let (mut one, mut other) = (MemoryDesk::new(alloc), MemoryDesk::new(alloc));
    let (mut sent, mut again) = (MemorySink::new(alloc), MemorySink::new(alloc));
    let first = drive(alloc, &MAKE, &mut one, &mut sent)?;
    let second = drive(alloc, &MAKE, &mut other, &mut again)?;
    assert_eq!(rt; first, second);
    assert_eq!(rt; sent.bytes(), again.bytes());
    let text = match first {
        Status::Done => "made 1 stops 20\nshortest ",
        Status::Infeasible => "made 1 stops 20\ninfeasible\n",
        _ => "made 1 stops 20\nspent 200000\n",
    };
    assert!(rt; sent.bytes().starts_with(text.as_bytes()));
    let tour = held(alloc, &one, "tour.json")?;
    assert!(rt; tour.starts_with(FIRST_STOPS.as_bytes()));
    let log = held(alloc, &one, "log.csv")?;
    assert_eq!(rt; log.as_slice(), WORKING_WEEK.as_bytes());
    Ok(())
}

#[test]
fn puts_the_tour_before_its_log(rt: HostRuntime) -> Result<(), Fail> {
    let alloc = rt.alloc();
    let cases = [
        (1, "write fault tour.json\n", "", ""),
        (2, "write fault log.csv\n", FIRST_STOPS, ""),
    ];
    for (failing, text, tour, log) in cases {
        let mut desk = MemoryDesk::new(alloc);
        desk.fail_put(failing)?;
        let mut out = MemorySink::new(alloc);
        assert_eq!(rt;
            drive(alloc, &MAKE, &mut desk, &mut out)?,
            Status::WriteFault
        );
        assert_eq!(rt; out.bytes(), text.as_bytes());
        assert!(rt; held(alloc, &desk, "tour.json")?.starts_with(tour.as_bytes()));
        assert_eq!(rt;
            held(alloc, &desk, "tour.json")?.is_empty(),
            tour.is_empty()
        );
        assert_eq!(rt; held(alloc, &desk, "log.csv")?.as_slice(), log.as_bytes());
    }
    // Of two equal names the log's put comes last.
    let mut desk = MemoryDesk::new(alloc);
    let mut out = MemorySink::new(alloc);
    out.fail_send(1, 3)?;
    let status = drive(alloc, &["make", "0", "one", "one"], &mut desk, &mut out)?;
    assert_eq!(rt; status, Status::WriteFault);
    assert_eq!(rt; out.bytes(), "mad".as_bytes());
    assert_eq!(rt;
        held(alloc, &desk, "one")?.as_slice(),
        WORKING_WEEK.as_bytes()
    );
    Ok(())
}

#[test]
fn makes_real_files_that_read(rt: HostRuntime) -> Result<(), Fail> {
    let alloc = rt.alloc();
    let id = process::id(rt.process());
    let tour = format!(in alloc; "made-{id}.json")?;
    let log = format!(in alloc; "made-{id}.csv")?;
    let mut desk = DiskDesk::new(&rt, alloc);
    let mut made = MemorySink::new(alloc);
    let made_words = ["make", "1", tour.as_str(), log.as_str()];
    drive(alloc, &made_words, &mut desk, &mut made)?;
    let mut audited = MemorySink::new(alloc);
    let audit_words = ["audit", tour.as_str(), log.as_str()];
    let audit = drive(alloc, &audit_words, &mut desk, &mut audited)?;
    fs::remove_file(&rt, tour.as_str())?;
    fs::remove_file(&rt, log.as_str())?;
    assert!(rt; made.bytes().starts_with("made 1 stops 20\n".as_bytes()));
    assert_eq!(rt; audit, Status::Done);
    assert_eq!(rt; audited.bytes(), "lawful\n".as_bytes());
    Ok(())
}
