//! Calls of the planner over a desk and a sink in memory.
use driver_cli::{Status, drive_tool};
use duty_core::NoMemory;
use outside::{Desk, MemoryDesk, MemorySink, Word};
use std::alloc::Global;

pub(crate) const PLAN: [&str; 4] = ["plan", "tour.json", "log.csv", "plan.cert"];

pub(crate) const CHECK: [&str; 4] = ["check", "tour.json", "log.csv", "plan.cert"];

pub(crate) const AUDIT: [&str; 3] = ["audit", "tour.json", "log.csv"];

pub(crate) const GRAPH: [&str; 3] = ["graph", "tour.json", "log.csv"];

/// A rested driver's log.
pub(crate) const RESTED: &str = "from,to,status\n";

pub(crate) const MONDAY: &str = "2026-03-02T06:00";

pub(crate) const THURSDAY: &str = "2026-03-05T06:00";

/// What a call is given: its words, what the files `tour.json`, `log.csv` and `plan.cert` hold, the
/// numbers of a fetch and of a put that are to fail, and after how many bytes the first send is to.
#[derive(Clone, Copy)]
pub(crate) struct Given<'a> {
    pub(crate) words: &'a [&'a str],
    pub(crate) tour: &'a [u8],
    pub(crate) log: &'a [u8],
    pub(crate) cert: Option<&'a [u8]>,
    pub(crate) failing_fetch: Option<u32>,
    pub(crate) failing_put: Option<u32>,
    pub(crate) failing_send: Option<u32>,
}

impl<'a> Given<'a> {
    pub(crate) fn new(words: &'a [&'a str], tour: &'a str, log: &'a str) -> Given<'a> {
        Given {
            words,
            tour: tour.as_bytes(),
            log: log.as_bytes(),
            cert: None,
            failing_fetch: None,
            failing_put: None,
            failing_send: None,
        }
    }
}

/// How a call ended, all that it sent, and what `plan.cert` holds then.
#[derive(Drop)]
pub(crate) struct Outcome {
    pub(crate) status: Status,
    pub(crate) sent: Vec<u8>,
    pub(crate) cert: Option<Vec<u8>>,
}

/// A desk that holds the files, and fails where it is to.
fn desk_of(alloc: Global, given: Given) -> Result<MemoryDesk, NoMemory> {
    let mut desk = MemoryDesk::new(alloc);
    desk.hold(&Word::new(alloc, "tour.json")?, given.tour)?;
    desk.hold(&Word::new(alloc, "log.csv")?, given.log)?;
    if let Some(cert) = given.cert {
        desk.hold(&Word::new(alloc, "plan.cert")?, cert)?;
    }
    if let Some(number) = given.failing_fetch {
        desk.fail_fetch(number)?;
    }
    if let Some(number) = given.failing_put {
        desk.fail_put(number)?;
    }
    Ok(desk)
}

/// How a call with these words ends, over this desk and this sink.
pub(crate) fn drive<D: Desk>(
    alloc: Global,
    words: &[&str],
    desk: &mut D,
    out: &mut MemorySink,
) -> Result<Status, NoMemory> {
    let mut named = Vec::new(alloc);
    for word in words {
        named.push(Word::new(alloc, word)?)?;
    }
    Ok(drive_tool(alloc, &named, desk, out))
}

/// What the call does.
pub(crate) fn call(alloc: Global, given: Given) -> Result<Outcome, NoMemory> {
    let mut desk = desk_of(alloc, given)?;
    let mut out = MemorySink::new(alloc);
    if let Some(prefix) = given.failing_send {
        out.fail_send(1, prefix)?;
    }
    let status = drive(alloc, given.words, &mut desk, &mut out)?;
    let cert = match desk.file(&Word::new(alloc, "plan.cert")?) {
        Some(bytes) => Some(bytes.to_vec(alloc)?),
        None => None,
    };
    Ok(Outcome {
        status,
        sent: out.bytes().to_vec(alloc)?,
        cert,
    })
}

/// The form of a tour: what stands before its stops, and they.
pub(crate) fn tour_of(alloc: Global, head: &str, stops: &str) -> Result<String, NoMemory> {
    Ok(format!(in alloc; r#"{{{head},"stops":[{stops}]}}"#)?)
}

/// The form of a stop with one window.
pub(crate) fn named(
    alloc: Global,
    name: &str,
    work: (u32, u32),
    from: &str,
    to: &str,
) -> Result<String, NoMemory> {
    let (drive, service) = work;
    Ok(format!(in alloc;
        r#"{{"name":"{name}","drive":{drive},"service":{service},"windows":[["{from}","{to}"]]}}"#
    )?)
}

/// The form of stop A.
pub(crate) fn stop(
    alloc: Global,
    drive: u32,
    service: u32,
    from: &str,
    to: &str,
) -> Result<String, NoMemory> {
    named(alloc, "A", (drive, service), from, to)
}
