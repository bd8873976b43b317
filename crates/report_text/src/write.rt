//! The report of a schedule.
ghost use Rattle.std.specs.Prelude.{◌≤◌, ◌*◌, length, All, IfOk};
ghost use Rattle.cert_text.specs.Text.Form.{IsMarkForm};
ghost use Rattle.duty_core.specs.declared.limits.TheConstants.{LONGEST_LOG};
ghost use Rattle.duty_core.specs.Params.{unit_minutes};
ghost use Rattle.tour_model.specs.declared.limits.TheConstants.{LONGEST_TOUR};
ghost use Rattle.tour_model.specs.Schedule.{IsSolutionWith};
ghost use Rattle.tour_model.specs.Tour.{IsTour};
ghost use Rattle.report_text.specs.Report.{IsReport, IsReportOf};

use crate::head::head_text;
use crate::history::{history_of, log_start};
use crate::marks::push_marks;
use crate::rules::push_readings;
use crate::runs::push_runs;
use duty_core::{Activity, Marks, NoMemory};
use log_graph::push_graph;
use rule_readings::readings;
use std::alloc::Global;
use text_parts::Text;
use timeline::Timeline;
use tour_model::{Schedule, Tour};

/// The report of a solution after a log that ends where the tour starts: its duration, departure
/// and end; a line for each of its runs and each of its marks, with their times; what each rule of
/// the book counts at most, or at least, in the history of both; and the graph of that history.
///
/// `NoMemory` where there is none for the text, or for the history.
pub fn report(
    alloc: Global,
    tour: &Tour,
    log: &Timeline,
    schedule: &Schedule,
) -> Result<Text, NoMemory>
    requires tour { IsTour tour.now }
    requires short { unit_minutes tour.now.params * length log.now ≤ LONGEST_LOG }
    requires solution { IsSolutionWith tour.now log.now schedule.now.steps schedule.now.marks }
    ensures { IfOk result (IsReport tour.now log.now schedule.now) }
{
    told(alloc, tour, log, schedule.steps.items(), &schedule.marks)
}

/// The report of these steps and marks, which are few enough for a tour and have times.
pub fn told(
    alloc: Global,
    tour: &Tour,
    log: &Timeline,
    steps: &[Activity],
    marks: &Marks,
) -> Result<Text, NoMemory>
    requires tour { IsTour tour.now }
    requires short { unit_minutes tour.now.params * length log.now ≤ LONGEST_LOG }
    requires steps { length steps.now * tour.now.grid ≤ LONGEST_TOUR }
    requires marks { All (IsMarkForm tour.now.params 0) marks.now }
    ensures { IfOk result (IsReportOf tour.now log.now steps.now marks.now) }
{
    let history = history_of(tour, log, steps)?;
    let first = log_start(tour, log);
    let planned_from = log.len();
    let counts = readings(alloc, tour.params, &history, first, planned_from, marks)?;
    let marked = marks.items();
    let lines = counts.items();
    let mut text = head_text(alloc, tour, steps)?;
    push_runs(&mut text, tour, steps)?;
    push_marks(&mut text, tour.params, marked)?;
    push_readings(&mut text, alloc, lines)?;
    push_graph(&mut text, tour.params, &history, first)?;
    Ok(text)
}
