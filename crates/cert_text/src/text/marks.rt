//! Reading marks.
ghost use Rattle.std.specs.Prelude.{◌≡◌, ◌<◌, ◌≤◌, ◌+◌, ◌-◌, pos, IfOk};
ghost use Rattle.duty_core.specs.Day.{day_start};
ghost use Rattle.civil_minutes.specs.declared.century.TheConstants.{MINUTES_OF_CENTURY};
ghost use Rattle.cert_text.specs.Text.Reading.{Gives, time_at, mark_word_at, mark_of, has_room, mark_at, marks_at};

use crate::text::fault::Stop;
use crate::text::words::{strip, word};
use civil_minutes::{MINUTES_OF_CENTURY, day_of, minute_of_day, read_minute};
use duty_core::{Mark, Marks, Minute, Params, day_start_of};
use std::alloc::Global;

/// Where a mark may stand: its least minute, and how many marks there are from it on.
#[derive(Clone, Copy)]
pub struct MarkPlace {
    pub least: Minute,
    pub left: u32,
}

/// A mark, and the minute at which it stands.
#[derive(Clone, Copy)]
pub struct Marked {
    pub mark: Mark,
    pub at: Minute,
}

/// The minute of the time at the front.
#[tactic(auto, unfolding(crate::specs::Text::Reading::time_at))]
fn time(bytes: &[u8]) -> Result<(Minute, &[u8]), Stop>
    ensures value { Gives (λ x. (x.0, x.1.now)) result (time_at bytes.now) }
    ensures century { IfOk result (λ x. x.0 < MINUTES_OF_CENTURY) }
{
    if bytes.len() < 16 {
        return Err(Stop::Left(bytes.len()));
    }
    let (front, rest) = bytes.split_at(16);
    match read_minute(front) {
        Ok(at) => Ok((at, rest)),
        Err(_) => Err(Stop::Left(bytes.len())),
    }
}

/// Whether the word of a mark at the front is that of a deferral.
#[tactic(auto, unfolding(crate::specs::Text::Reading::mark_word_at))]
fn mark_word(bytes: &[u8]) -> Result<(bool, &[u8]), Stop>
    ensures { Gives (λ x. (x.0, x.1.now)) result (mark_word_at bytes.now) }
{
    match strip(b"split ", bytes) {
        Some(rest) => Ok((false, rest)),
        None => {
            let rest = word(b"defer ", bytes)?;
            Ok((true, rest))
        }
    }
}

/// The mark of this minute; None for a deferral where no day begins.
fn mark_of(params: Params, defers: bool, at: Minute) -> Option<Mark>
    requires { day_start params < 1440 }
    ensures { result ≡ mark_of params defers at }
{
    let start = day_start_of(params);
    if !defers {
        Some(Mark::SplitRest { at })
    } else if minute_of_day(at, start) == 0 {
        Some(Mark::DeferDay {
            day: day_of(at, start),
        })
    } else {
        None
    }
}

/// Whether a mark may stand at the minute, so that the marks after it have room before the century
/// ends.
fn has_room(place: MarkPlace, at: Minute) -> bool
    requires { at < MINUTES_OF_CENTURY }
    ensures { result ≡ has_room place at }
{
    place.least <= at && place.left <= MINUTES_OF_CENTURY - at
}

/// The mark at the front, which may stand at this place.
#[tactic(auto, unfolding(crate::specs::Text::Reading::mark_at))]
fn mark(params: Params, place: MarkPlace, bytes: &[u8]) -> Result<(Marked, &[u8]), Stop>
    requires { day_start params < 1440 }
    ensures value { Gives (λ x. (x.0, x.1.now)) result (mark_at params place bytes.now) }
    ensures century { IfOk result (λ x. x.0.at < MINUTES_OF_CENTURY) }
{
    let rest = word(b"m ", bytes)?;
    let (defers, rest) = mark_word(rest)?;
    let (at, rest) = time(rest)?;
    let rest = word(b"\n", rest)?;
    if !has_room(place, at) {
        return Err(Stop::Left(bytes.len()));
    }
    match mark_of(params, defers, at) {
        Some(mark) => Ok((Marked { mark, at }, rest)),
        None => Err(Stop::Left(bytes.len())),
    }
}

/// So many marks.
#[tactic(auto, unfolding(crate::specs::Text::Reading::marks_at))]
pub fn marks(
    alloc: Global,
    params: Params,
    count: u32,
    bytes: &[u8],
) -> Result<(Marks, &[u8]), Stop>
    requires { day_start params < 1440 }
    ensures { Gives (λ x. (x.0, x.1.now)) result (marks_at params count bytes.now) }
{
    let mut marks = Marks::new(alloc);
    let mut least = 0;
    let mut rest = bytes;
    for done in 0..count {
        let place = MarkPlace {
            least,
            left: count - done,
        };
        let (next, thereafter) = mark(params, place, rest)?;
        marks.push(next.mark)?;
        least = next.at + 1;
        rest = thereafter;
    }
    Ok((marks, rest))
}
