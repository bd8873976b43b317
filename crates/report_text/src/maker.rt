//! Tours that are made by number.
ghost use Rattle.std.specs.Prelude.{◌≡◌, ◌+◌, ◌≤◌, ◌<◌, ◌++◌, map, flat_map, IfOk, OnOk};
ghost use Rattle.std.specs.List.{range_with_len};
ghost use Rattle.report_text.specs.Draws.{drawn};
ghost use Rattle.report_text.specs.Made.{count_drawn, drive_drawn, service_drawn, stops_drawn, comma_before, stop_text, stop_made, tour_made, log_made};
ghost use Rattle.report_text.specs.declared.draws.TheConstants.{DRAW_MODULUS};
ghost use Rattle.report_text.specs.declared.maker.TheConstants.{MOST_MADE};

use crate::draws::{drawn, next_number};
use duty_core::NoMemory;
use std::alloc::Global;
use text_parts::Text;

/// The greatest number of a made tour.
pub const MOST_MADE: u32 = 999_999;

const TOUR_HEAD: &str =
    "{\"book\":\"us\",\"grid\":30,\"start\":\"2026-03-02T06:00\",\"berth\":true,\"days\":8,\"day_start\":\"00:00\",\"stops\":[";

const TOUR_END: &str = "]}\n";

const WINDOWS: &str = ",\"windows\":[[\"2026-03-02T06:00\",\"2026-03-15T06:00\"]]}";

const LOG: &str =
    "from,to,status\n2026-02-23T08:00,2026-02-23T17:00,ON\n2026-02-23T17:00,2026-02-24T08:00,OFF\n2026-02-24T08:00,2026-02-24T17:00,ON\n2026-02-24T17:00,2026-02-25T08:00,OFF\n2026-02-25T08:00,2026-02-25T17:00,ON\n2026-02-25T17:00,2026-02-26T08:00,OFF\n2026-02-26T08:00,2026-02-26T17:00,ON\n2026-02-26T17:00,2026-02-27T08:00,OFF\n2026-02-27T08:00,2026-02-27T17:00,ON\n2026-02-27T17:00,2026-03-02T06:00,OFF\n";

/// The texts of a tour and of the log before it.
#[derive(Drop)]
pub struct Made {
    pub tour: Text,
    pub log: Text,
}

/// The tour of this number, and its log: always the same for one number. It is a tour of the United
/// States in steps of half an hour, with 12 to 20 stops that are drawn.
///
/// `NoMemory` where there is none for the texts.
pub fn make_tour(alloc: Global, n: u32) -> Result<Made, NoMemory>
    requires { n ≤ MOST_MADE }
    ensures tour { IfOk result (λ made. made.tour ≡ tour_made n) }
    ensures log { IfOk result (λ made. made.log ≡ log_made) }
{
    let mut tour = Text::of(alloc, TOUR_HEAD)?;
    push_stops(&mut tour, alloc, u64::from(n))?;
    tour.push_str(TOUR_END)?;
    let log = Text::of(alloc, LOG)?;
    Ok(Made { tour, log })
}

/// Puts the stops that are drawn from a seed after the text.
fn push_stops(text: &mut Text, alloc: Global, seed: u64) -> Result<(), NoMemory>
    requires { seed < DRAW_MODULUS }
    ensures { OnOk result (text.new ≡ text.old ++ flat_map (λ stop. stop) (map (stop_made seed) (range_with_len 0 (stops_drawn seed)))) }
{
    let mut number = next_number(seed);
    let count = count_of(number);
    for before in 0..count {
        let driving = next_number(number);
        let serving = next_number(driving);
        let drive = drive_of(driving);
        let service = service_of(serving);
        push_stop(text, alloc, before, drive, service)?;
        number = serving;
    }
    Ok(())
}

/// The number of stops that is drawn with a number: from 12 to 20.
fn count_of(number: u64) -> u64
    ensures { result ≡ count_drawn (drawn number) }
{
    12 + drawn(number) % 9
}

/// The driving that is drawn with a number: from half an hour to four hours, in minutes.
fn drive_of(number: u64) -> u64
    ensures { result ≡ drive_drawn (drawn number) }
{
    30 * (1 + drawn(number) % 8)
}

/// The service that is drawn with a number: from half an hour to an hour and a half, in minutes.
fn service_of(number: u64) -> u64
    ensures { result ≡ service_drawn (drawn number) }
{
    30 * (1 + drawn(number) % 3)
}

/// Puts the stop that has so many stops before it after the text.
fn push_stop(
    text: &mut Text,
    alloc: Global,
    before: u64,
    drive: u64,
    service: u64,
) -> Result<(), NoMemory>
    requires { before < 100 }
    ensures { OnOk result (text.new ≡ text.old ++ stop_text before drive service) }
{
    text.push_str(comma_before(before))?;
    text.push_str("{\"name\":\"S")?;
    text.push_number(alloc, before + 1)?;
    text.push_str("\",\"drive\":")?;
    text.push_number(alloc, drive)?;
    text.push_str(",\"service\":")?;
    text.push_number(alloc, service)?;
    text.push_str(WINDOWS)
}

/// A comma before each stop but the first.
fn comma_before(before: u64) -> &'static str
    ensures { result.now ≡ comma_before before }
{
    if before == 0 { "" } else { "," }
}
