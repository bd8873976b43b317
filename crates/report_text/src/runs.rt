//! The lines of a schedule's runs.
ghost use Rattle.std.specs.Prelude.{◌≡◌, ◌<◌, ◌≤◌, ◌*◌, ◌++◌, ◌↔◌, length, IsTrue, slice_get, OnOk};
ghost use Rattle.civil_minutes.specs.declared.century.TheConstants.{MINUTES_OF_CENTURY};
ghost use Rattle.tour_model.specs.declared.limits.TheConstants.{LONGEST_TOUR};
ghost use Rattle.tour_model.specs.Tour.{IsTour};
ghost use Rattle.tour_model.specs.Way.{done};
ghost use Rattle.tour_model.specs.Word.{next_piece};
ghost use Rattle.text_parts.specs.Parts.{Puts};
ghost use Rattle.report_text.specs.Report.{stop_of, doing_at, doings, runs_of, act_word, doing_text, name_of, stop_at, minute_of, run_line, run_lines};

use crate::head::{is_progress, minute_of};
use duty_core::{Activity, NoMemory};
use text_parts::Text;
use tour_model::{Piece, Tour};

/// What a step does: its activity, and the number of the stop that it drives to or serves.
#[derive(Clone, Copy, Debug, PartialEq, Eq)]
pub struct Doing {
    pub act: Activity,
    pub stop: Option<u32>,
}

/// Puts a line for each run of equal steps after the text.
pub fn push_runs(text: &mut Text, tour: &Tour, schedule: &[Activity]) -> Result<(), NoMemory>
    requires tour { IsTour tour.now }
    requires short { length schedule.now * tour.now.grid ≤ LONGEST_TOUR }
    ensures { OnOk result (Puts (run_lines tour.now 0 (runs_of (doings tour.now 0 schedule.now))) text.old text.new) }
{
    let Some((first, others)) = schedule.split_first() else {
        return Ok(());
    };
    let mut doing = doing_at(tour, 0, *first);
    let mut progress = done(0, *first);
    let mut from = 0u32;
    let mut step = 1u32;
    for act in others {
        let next = doing_at(tour, progress, *act);
        if !is_same(next, doing) {
            push_run(text, tour, from, step, doing)?;
            doing = next;
            from = step;
        }
        progress = done(progress, *act);
        step += 1;
    }
    push_run(text, tour, from, step, doing)
}

/// Puts the line of one run after the text.
fn push_run(text: &mut Text, tour: &Tour, from: u32, to: u32, doing: Doing) -> Result<(), NoMemory>
    requires from { minute_of tour.now from < MINUTES_OF_CENTURY }
    requires to { minute_of tour.now to < MINUTES_OF_CENTURY }
    ensures { OnOk result (Puts (run_line tour.now from to doing) text.old text.new) }
{
    text.push_time(minute_of(tour, from))?;
    text.push_str(" ")?;
    text.push_time(minute_of(tour, to))?;
    text.push_str(" ")?;
    push_doing(text, tour, doing)?;
    text.push_str("\n")
}

/// Puts the word and the name of a run after the text.
fn push_doing(text: &mut Text, tour: &Tour, doing: Doing) -> Result<(), NoMemory>
    ensures { OnOk result (text.new ≡ text.old ++ doing_text tour.now doing) }
{
    text.push_str(act_word(doing.act))?;
    text.push_str(" ")?;
    push_name(text, tour, doing.stop)
}

/// Puts the name of a stop after the text, or `-` where there is none.
fn push_name(text: &mut Text, tour: &Tour, stop: Option<u32>) -> Result<(), NoMemory>
    ensures { OnOk result (text.new ≡ text.old ++ name_of (stop_at tour.now.stops stop)) }
{
    let Some(number) = stop else {
        return text.push_str("-");
    };
    match tour.stops.items().get(number as usize) {
        Some(stop) => text.push_bytes(stop.name.items()),
        None => text.push_str("-"),
    }
}

/// The word of an activity in a line.
fn act_word(act: Activity) -> &'static str
    ensures { result.now ≡ act_word act }
{
    match act {
        Activity::Drive => "DRIVE",
        Activity::Serve => "SERVE",
        Activity::Wait => "WAIT",
        Activity::Off => "OFF",
        Activity::Berth => "SB",
    }
}

/// What a step of this activity does after so much progress.
fn doing_at(tour: &Tour, progress: u32, act: Activity) -> Doing
    requires { IsTour tour.now }
    ensures { result ≡ doing_at tour.now progress act }
{
    let stop = if is_progress(act) {
        next_stop(tour, progress)
    } else {
        None
    };
    Doing { act, stop }
}

/// The number of the stop that the piece is for which comes after so much progress.
fn next_stop(tour: &Tour, progress: u32) -> Option<u32>
    requires { IsTour tour.now }
    ensures { result ≡ stop_of (next_piece tour.now progress) }
{
    if progress >= tour.word_len() {
        return None;
    }
    match tour.word_at(progress) {
        Piece::Drive { stop } | Piece::Serve { stop, .. } => Some(stop),
    }
}

/// Whether two steps do the same for the same stop.
fn is_same(a: Doing, b: Doing) -> bool
    ensures { IsTrue result ↔ (a ≡ b) }
{
    a == b
}

/// The progress after an activity.
fn done(progress: u32, act: Activity) -> u32
    requires { progress ≤ LONGEST_TOUR }
    ensures { result ≡ done progress act }
{
    if is_progress(act) {
        progress + 1
    } else {
        progress
    }
}
