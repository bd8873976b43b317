//! Times and times of day.
ghost use Rattle.std.specs.Prelude.{◌≡◌};
ghost use Rattle.civil_minutes.specs.TimeOf.{time_of};
ghost use Rattle.tour_reader.specs.Times.{pair_of, clock_of};

use civil_minutes::read_minute;
use duty_core::Minute;

/// The civil minute of a time's text.
pub fn time_of(text: &str) -> Option<Minute>
    ensures { result ≡ time_of text.now }
{
    read_minute(text.as_bytes()).ok()
}

/// The number of two digits, if they are digits.
fn pair_of(tens: u8, units: u8) -> Option<u16>
    ensures { result ≡ pair_of tens units }
{
    match (tens, units) {
        (b'0'..=b'9', b'0'..=b'9') => Some(u16::from(tens - b'0') * 10 + u16::from(units - b'0')),
        _ => None,
    }
}

/// The minutes from midnight to the time of day, `HH:MM`.
#[tactic(auto, unfolding(crate::specs::Times::clock_of))]
pub fn clock_of(text: &str) -> Option<u16>
    ensures { result ≡ clock_of text.now }
{
    let text = text.as_bytes();
    if text.len() != 5 || text[2] != b':' {
        return None;
    }
    let hour = pair_of(text[0], text[1])?;
    let minute = pair_of(text[3], text[4])?;
    if hour < 24 && minute < 60 {
        Some(hour * 60 + minute)
    } else {
        None
    }
}
