//! A tour and a log that are made by number.
ghost use Rattle.std.specs.Prelude.{◌≡◌, ◌≢◌, ◌*◌, ◌≤◌, true, length, IfOk};
ghost use Rattle.duty_core.specs.declared.limits.TheConstants.{LONGEST_LOG};
ghost use Rattle.duty_core.specs.Params.{unit_minutes};
ghost use Rattle.duty_core.specs.declared.params.Params.TheVariants.{UsProperty};
ghost use Rattle.made_tours.specs.Drawn.{IsMade, tour_drawn, log_drawn};
ghost use Rattle.report_text.specs.Made.{tour_made, log_made};
ghost use Rattle.report_text.specs.declared.maker.TheConstants.{MOST_MADE};
ghost use Rattle.tour_model.specs.Tour.{IsTour};

use duty_core::NoMemory;
use duty_log::{LogFault, read_log};
use report_text::{Made, make_tour};
use std::alloc::Global;
use timeline::Timeline;
use tour_model::Tour;
use tour_reader::{TourFault, read_tour};

/// The texts of a tour and its log, and the tour and the log that they say.
#[derive(Drop)]
pub struct MadeTour {
    pub texts: Made,
    pub tour: Tour,
    pub log: Timeline,
}

/// The tour of this number, from 0 to 999,999, and the log before it: their texts, and what these
/// say. The tour is always the one that the number draws, and the log is lawful before it.
///
/// `NoMemory` where there is none for the texts, or for reading them.
pub fn made_tour(alloc: Global, n: u32) -> Result<MadeTour, NoMemory>
    requires { n ≤ MOST_MADE }
    ensures tour { IfOk result (λ made. made.texts.tour ≡ tour_made n) }
    ensures log { IfOk result (λ made. made.texts.log ≡ log_made) }
    ensures says { IfOk result (λ made. IsMade n made.tour made.log) }
    ensures good { IfOk result (λ made. IsTour made.tour) }
    ensures short { IfOk result (λ made. unit_minutes made.tour.params * length made.log ≤ LONGEST_LOG) }
{
    let texts = make_tour(alloc, n)?;
    let tour = tour_said(alloc, texts.tour.as_bytes(), n)?;
    let log = log_said(alloc, texts.log.as_bytes(), &tour)?;
    Ok(MadeTour { texts, tour, log })
}

/// The tour of a text that is made by this number.
fn tour_said(alloc: Global, text: &[u8], n: u32) -> Result<Tour, NoMemory>
    requires { text.now ≡ tour_made n }
    ensures drawn { IfOk result (λ tour. tour ≡ tour_drawn n) }
    ensures good { IfOk result IsTour }
{
    match read_tour(alloc, text) {
        Ok(tour) => Ok(tour),
        Err(fault) => Err(no_tour_memory(fault)),
    }
}

/// What is left where only memory can run out.
fn no_tour_memory(fault: TourFault) -> NoMemory
    requires { fault ≢ TourFault.Memory → ⊥ }
{
    match fault {
        TourFault::Memory => NoMemory,
        _ => unreachable!(),
    }
}

/// The log of the text that is made for each tour.
fn log_said(alloc: Global, text: &[u8], tour: &Tour) -> Result<Timeline, NoMemory>
    requires text { text.now ≡ log_made }
    requires params { tour.now.params ≡ UsProperty true 8 0 }
    requires start { tour.now.start ≡ 13_762_440 }
    ensures drawn { IfOk result (λ log. log ≡ log_drawn) }
    ensures short { IfOk result (λ log. unit_minutes tour.now.params * length log ≤ LONGEST_LOG) }
{
    match read_log(alloc, text, tour.params, tour.start) {
        Ok(log) => Ok(log),
        Err(fault) => Err(no_log_memory(fault)),
    }
}

/// What is left where only memory can run out.
fn no_log_memory(fault: LogFault) -> NoMemory
    requires { fault ≢ LogFault.Memory → ⊥ }
{
    match fault {
        LogFault::Memory => NoMemory,
        _ => unreachable!(),
    }
}
