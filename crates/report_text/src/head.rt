//! The first line of a report: the schedule's duration, and when it departs and ends.
ghost use Rattle.std.specs.Prelude.{◌≡◌, ◌<◌, ◌≤◌, ◌*◌, length, unwrap_or, position, IfOk, OnOk};
ghost use Rattle.civil_minutes.specs.declared.century.TheConstants.{MINUTES_OF_CENTURY};
ghost use Rattle.tour_model.specs.declared.limits.TheConstants.{LONGEST_TOUR};
ghost use Rattle.tour_model.specs.Schedule.{depart_from, duration};
ghost use Rattle.tour_model.specs.Tour.{IsTour};
ghost use Rattle.tour_model.specs.Way.{progresses};
ghost use Rattle.text_parts.specs.Parts.{IsText};
ghost use Rattle.report_text.specs.Report.{minute_of, departure, head_line};

use duty_core::{Activity, Minute, NoMemory};
use std::alloc::Global;
use text_parts::Text;
use tour_model::Tour;

/// The first line of a report.
pub fn head_text(alloc: Global, tour: &Tour, schedule: &[Activity]) -> Result<Text, NoMemory>
    requires tour { IsTour tour.now }
    requires short { length schedule.now * tour.now.grid ≤ LONGEST_TOUR }
    ensures { IfOk result (IsText (head_line tour.now schedule.now)) }
{
    let departs = departure(schedule) as u32;
    let ends = schedule.len() as u32;
    let mut text = Text::of(alloc, "shortest ")?;
    text.push_clock(alloc, (ends - departs) * tour.grid)?;
    text.push_str(" from ")?;
    text.push_time(minute_of(tour, departs))?;
    text.push_str(" to ")?;
    text.push_time(minute_of(tour, ends))?;
    text.push_str("\n")?;
    Ok(text)
}

/// The step of the departure.
fn departure(schedule: &[Activity]) -> usize
    ensures value { result ≡ departure schedule.now }
    ensures inside { result ≤ length schedule.now }
{
    first_progress(schedule).unwrap_or(0)
}

/// The first step of driving or service.
fn first_progress(schedule: &[Activity]) -> Option<usize>
    ensures { result ≡ position progresses schedule.now }
{
    schedule.iter().position(|act| is_progress(*act))
}

/// Whether the activity does a step of a tour's driving or service.
pub fn is_progress(act: Activity) -> bool
    ensures { result ≡ progresses act }
{
    matches!(act, Activity::Drive | Activity::Serve)
}

/// The civil minute at which a step begins.
pub fn minute_of(tour: &Tour, step: u32) -> Minute
    requires { minute_of tour.now step < MINUTES_OF_CENTURY }
    ensures { result ≡ minute_of tour.now step }
{
    tour.start + tour.grid * step
}
