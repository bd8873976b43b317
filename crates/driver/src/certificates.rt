//! Certificates that are put, changed and checked, and what fails on the way.
use crate::calls::{Given, MONDAY, PLAN, RESTED, THURSDAY, call, stop, tour_of};
use crate::worked_tours::{Setting, US, US_BERTH, checked, fixed_stops, planned};
use driver_cli::Status;
use duty_core::NoMemory;
use std::alloc::Global;
use std::test::Fail;

/// The certificate up to its first label, and how many lines that are.
fn first_lines(alloc: Global, cert: &[u8]) -> Result<(Vec<u8>, u32), NoMemory> {
    let mut lines = Vec::new(alloc);
    let mut count = 0u32;
    for line in cert.split(|byte| *byte == b'\n') {
        lines.extend_from_slice(line)?;
        lines.push(b'\n')?;
        count = count.saturating_add(1);
        if line.starts_with(b"l ") {
            break;
        }
    }
    Ok((lines, count))
}

/// The certificate with its first label written twice, and its layer of one label said to have two.
fn twice_labelled(alloc: Global, cert: &[u8]) -> Result<Vec<u8>, NoMemory> {
    let mut lines = Vec::new(alloc);
    let mut is_first = true;
    for line in cert.split(|byte| *byte == b'\n') {
        if line.is_empty() {
            continue;
        }
        if line == b"layer 0 1".as_slice() {
            lines.extend_from_slice(b"layer 0 2\n")?;
            continue;
        }
        lines.extend_from_slice(line)?;
        lines.push(b'\n')?;
        if is_first && line.starts_with(b"l ") {
            is_first = false;
            lines.extend_from_slice(line)?;
            lines.push(b'\n')?;
        }
    }
    Ok(lines)
}

#[test]
fn rejects_changed_certificates(rt: HostRuntime) -> Result<(), Fail> {
    let alloc = rt.alloc();
    let berth = Setting::new(US_BERTH, RESTED);
    let stops = fixed_stops(alloc, 390)?;
    let plan = planned(alloc, berth, stops.as_str())?;
    assert_eq!(rt; plan.status, Status::Done);
    let cert = plan.cert.unwrap_or(Vec::new(alloc));
    let (cut, count) = first_lines(alloc, &cert)?;
    let told = checked(alloc, berth, stops.as_str(), &cut)?;
    assert_eq!(rt; told.status, Status::Rejected);
    let next = count.saturating_add(1);
    let grammar = format!(in alloc; "rejected line {next}: GRAMMAR\n")?;
    assert_eq!(rt; told.sent.as_slice(), grammar.as_bytes());
    let twice = twice_labelled(alloc, &cert)?;
    let told = checked(alloc, berth, stops.as_str(), &twice)?;
    assert_eq!(rt; told.status, Status::Rejected);
    let repeated = format!(in alloc; "rejected line {next}: REPEATED\n")?;
    assert_eq!(rt; told.sent.as_slice(), repeated.as_bytes());
    // A schedule that rests in the berth serves no tour of a truck without one. The runs are counted
    // in the fourth line.
    let bare = Setting::new(US, RESTED);
    let told = checked(alloc, bare, stops.as_str(), &cert)?;
    assert_eq!(rt; told.status, Status::Rejected);
    assert_eq!(rt;
        told.sent.as_slice(),
        "rejected line 4: SERVES\n".as_bytes()
    );
    Ok(())
}

#[test]
fn puts_before_it_sends(rt: HostRuntime) -> Result<(), Fail> {
    let alloc = rt.alloc();
    let plain = stop(alloc, 240, 60, MONDAY, THURSDAY)?;
    let tour = tour_of(alloc, US, plain.as_str())?;
    let given = Given {
        cert: Some(b"as before"),
        ..Given::new(&PLAN, tour.as_str(), RESTED)
    };
    let unread = Given {
        failing_fetch: Some(1),
        ..given
    };
    let told = call(alloc, unread)?;
    assert_eq!(rt; told.status, Status::ReadFault);
    assert_eq!(rt; told.sent.as_slice(), "read fault tour.json\n".as_bytes());
    assert_eq!(rt;
        told.cert.unwrap_or(Vec::new(alloc)).as_slice(),
        b"as before".as_slice()
    );
    let unput = Given {
        failing_put: Some(1),
        ..given
    };
    let told = call(alloc, unput)?;
    assert_eq!(rt; told.status, Status::WriteFault);
    assert_eq!(rt; told.sent.as_slice(), "write fault plan.cert\n".as_bytes());
    let unsent = Given {
        failing_send: Some(3),
        ..given
    };
    let told = call(alloc, unsent)?;
    assert_eq!(rt; told.status, Status::WriteFault);
    assert_eq!(rt; told.sent.as_slice(), "sho".as_bytes());
    assert!(rt;
        told.cert
            .unwrap_or(Vec::new(alloc))
            .starts_with("duty-cert 1\nkind shortest\n".as_bytes())
    );
    Ok(())
}
