//! The files of a command, fetched and read.
ghost use Rattle.std.specs.Prelude.{◌≡◌, ◌≢◌, IfOk};
ghost use Rattle.tour_model.specs.Tour.{IsTour};
ghost use Rattle.driver_cli.specs.Sides.{read_side, write_side, IsKept};
ghost use Rattle.driver_cli.specs.Texts.{read_fault_text, tour_refused_text, log_refused_text};
ghost use Rattle.driver_cli.specs.Fetched.{IsFetched, IsTourFetched, IsLogFetched, AreInputsFetched};

use crate::answer::{Answer, Halt, Status};
use crate::texts::{log_refused_text, read_fault_text, tour_refused_text};
use duty_core::NoMemory;
use duty_log::{LOG_LIMIT, LogFault, read_log};
use outside::{Desk, DeskFault, Word};
use std::alloc::Global;
use timeline::Timeline;
use tour_model::Tour;
use tour_reader::{TOUR_LIMIT, TourFault, read_tour};

/// How many bytes of a tour's file are fetched: one more than a tour may have.
const TOUR_FETCH: usize = TOUR_LIMIT + 1;

/// How many bytes of a log's file are fetched: one more than a log may have.
const LOG_FETCH: usize = LOG_LIMIT + 1;

/// A tour, and the log after which it is planned: it ends where the tour starts.
#[derive(Drop)]
pub struct Inputs {
    pub tour: Tour,
    pub log: Timeline,
}

/// The answer where the file of that name could not be read.
fn read_fault(alloc: Global, name: &Word) -> Result<Answer, NoMemory>
    ensures { IfOk result (λ answer. (answer.status ≡ Status.ReadFault) × (answer.text ≡ read_fault_text name.now)) }
{
    Ok(Answer {
        status: Status::ReadFault,
        text: read_fault_text(alloc, name)?,
    })
}

/// The first bytes of the file of that name. Answered as `ReadFault` where it cannot be read.
pub fn fetch<D: Desk>(
    alloc: Global,
    name: &Word,
    limit: usize,
    desk: &mut D,
) -> Result<Vec<u8>, Halt>
    ensures kept { IsKept (write_side D.Desk desk.old desk.new) }
    ensures fetched { IsFetched name.now limit (read_side D.Desk desk.old desk.new) result }
{
    match desk.fetch(alloc, name, limit) {
        Ok(bytes) => Ok(bytes),
        Err(DeskFault::Failed) => Err(Halt::Answered(read_fault(alloc, name)?)),
        Err(DeskFault::Memory) => Err(Halt::Memory),
    }
}

/// The answer to a tour with this fault.
fn tour_refused(alloc: Global, fault: TourFault) -> Result<Answer, NoMemory>
    ensures { IfOk result (λ answer. (fault ≢ TourFault.Memory) × (answer.status ≡ Status.Refused) × (answer.text ≡ tour_refused_text fault)) }
{
    if matches!(fault, TourFault::Memory) {
        return Err(NoMemory);
    }
    Ok(Answer {
        status: Status::Refused,
        text: tour_refused_text(alloc, &fault)?,
    })
}

/// The tour that the file of that name holds. Answered as `ReadFault` where the file cannot be
/// read, and as `Refused` where it holds no tour.
fn fetch_tour<D: Desk>(alloc: Global, name: &Word, desk: &mut D) -> Result<Tour, Halt>
    ensures kept { IsKept (write_side D.Desk desk.old desk.new) }
    ensures fetched { IsTourFetched name.now (read_side D.Desk desk.old desk.new) result }
{
    let bytes = fetch(alloc, name, TOUR_FETCH, desk)?;
    match read_tour(alloc, &bytes) {
        Ok(tour) => Ok(tour),
        Err(fault) => Err(Halt::Answered(tour_refused(alloc, fault)?)),
    }
}

/// The answer to a log with this fault.
fn log_refused(alloc: Global, fault: LogFault) -> Result<Answer, NoMemory>
    ensures { IfOk result (λ answer. (fault ≢ LogFault.Memory) × (answer.status ≡ Status.Refused) × (answer.text ≡ log_refused_text fault)) }
{
    if matches!(fault, LogFault::Memory) {
        return Err(NoMemory);
    }
    Ok(Answer {
        status: Status::Refused,
        text: log_refused_text(alloc, fault)?,
    })
}

/// The log, after which the tour is planned, that the file of that name holds. Answered as
/// `ReadFault` where the file cannot be read, and as `Refused` where it holds no log that ends where
/// the tour starts.
fn fetch_log<D: Desk>(
    alloc: Global,
    tour: &Tour,
    name: &Word,
    desk: &mut D,
) -> Result<Timeline, Halt>
    requires { IsTour tour.now }
    ensures kept { IsKept (write_side D.Desk desk.old desk.new) }
    ensures fetched { IsLogFetched tour.now name.now (read_side D.Desk desk.old desk.new) result }
{
    let bytes = fetch(alloc, name, LOG_FETCH, desk)?;
    match read_log(alloc, &bytes, tour.params, tour.start) {
        Ok(log) => Ok(log),
        Err(fault) => Err(Halt::Answered(log_refused(alloc, fault)?)),
    }
}

/// The tour and the log that the files of these names hold: the tour's file is read first.
pub fn fetch_inputs<D: Desk>(
    alloc: Global,
    tour: &Word,
    log: &Word,
    desk: &mut D,
) -> Result<Inputs, Halt>
    ensures kept { IsKept (write_side D.Desk desk.old desk.new) }
    ensures fetched { AreInputsFetched tour.now log.now (read_side D.Desk desk.old desk.new) result }
{
    let tour = fetch_tour(alloc, tour, desk)?;
    let log = fetch_log(alloc, &tour, log, desk)?;
    Ok(Inputs { tour, log })
}
