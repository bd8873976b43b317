//! Writing a civil minute as the text of its time.
ghost use Rattle.std.specs.Prelude.{◌≡◌, ℕ, ◌+◌, ◌<◌, ◌/◌, List, pos};
ghost use Rattle.jiff.specs.Words.{IsBetween};
ghost use Rattle.duty_core.specs.declared.limits.TheConstants.{DAY_MINUTES};
ghost use Rattle.civil_minutes.specs.Time.{IsTimeText, digit, time_text, days_after_2000};

use crate::century::MINUTES_OF_CENTURY;
use duty_core::{DAY_MINUTES, Minute};
use jiff::ToSpan;
use jiff::civil::{Date, date};

/// Writes a civil minute of the years 2000 to 2099 as `YYYY-MM-DDTHH:MM`.
pub fn write_minute(at: Minute) -> [u8; 16]
    requires { at < MINUTES_OF_CENTURY }
    ensures time { IsTimeText result at }
    ensures only { (text : List ℕ) → IsTimeText text at → text ≡ result }
{
    let date = date_of(at);
    let minutes = at % DAY_MINUTES;
    spell(
        (date.year() - 2000) as u8,
        date.month() as u8,
        date.day() as u8,
        (minutes / 60) as u8,
        (minutes % 60) as u8,
    )
}

/// The date of a civil minute.
fn date_of(at: Minute) -> Date
    requires { at < MINUTES_OF_CENTURY }
    ensures day { days_after_2000 result.year result.month result.day ≡ pos (at / DAY_MINUTES) }
    ensures year { IsBetween (pos 2000) (pos 2099) result.year }
{
    let days = i64::from(at / DAY_MINUTES);
    date(2000, 1, 1) + days.days()
}

/// The text of a time, where `year` is the years from 2000.
fn spell(year: u8, month: u8, day: u8, hour: u8, minute: u8) -> [u8; 16]
    requires { year < 100 }
    ensures { result ≡ time_text (2000 + year) month day hour minute }
{
    [
        b'2',
        b'0',
        tens(year),
        units(year),
        b'-',
        tens(month),
        units(month),
        b'-',
        tens(day),
        units(day),
        b'T',
        tens(hour),
        units(hour),
        b':',
        tens(minute),
        units(minute),
    ]
}

/// The first digit of a number of two digits.
fn tens(value: u8) -> u8
    ensures { result ≡ digit (value / 10) }
{
    b'0' + value / 10 % 10
}

/// The second digit of a number of two digits.
fn units(value: u8) -> u8
    ensures { result ≡ digit value }
{
    b'0' + value % 10
}
