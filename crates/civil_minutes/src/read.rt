//! Reading the text of a time.
ghost use Rattle.std.specs.Prelude.{◌≡◌, ℕ, ◌+◌, ◌<◌, ◌≤◌, Ok, IfOk, IfErr, pos, ◌*ℤ◌};
ghost use Rattle.jiff.specs.Words.{IsBetween};
ghost use Rattle.duty_core.specs.declared.limits.TheConstants.{DAY_MINUTES};
ghost use Rattle.civil_minutes.specs.Time.{IsTimeText, IsBadFrom, days_after_2000};
ghost use Rattle.civil_minutes.specs.Fields.{BeginsWithMonth, BeginsWithDate, BeginsWithTime};

use crate::century::{FIRST_EPOCH_DAY, MINUTES_OF_CENTURY};
use crate::fields::{read_mark, read_pair};
use duty_core::{DAY_MINUTES, Minute};
use jiff::civil::{Date, date};

/// A text that is of no time of the years 2000 to 2099.
#[derive(Clone, Copy, Debug, PartialEq, Eq)]
pub struct BadTime {
    /// The place, in bytes from 0, of the first byte with which the text begins no time, or the
    /// text's length where a time goes on after it.
    pub place: u32,
}

/// Reads a time of the years 2000 to 2099, `YYYY-MM-DDTHH:MM`, as its civil minute.
///
/// `BadTime` comes exactly where the text is of no such time.
pub fn read_minute(text: &[u8]) -> Result<Minute, BadTime>
    ensures time { IfOk result (IsTimeText text.now) }
    ensures range { IfOk result (λ at. at < MINUTES_OF_CENTURY) }
    ensures only { (at : ℕ) → IsTimeText text.now at → result ≡ Ok at }
    ensures bad { IfErr result (λ bad. IsBadFrom text.now bad.place) }
{
    let date = read_date(text)?;
    let minutes = read_clock(text, date)?;
    if text.len() > 16 {
        return Err(BadTime { place: 16 });
    }
    Ok(minutes_before(date) + u32::from(minutes))
}

/// Reads the year and the month, `YYYY-MM`, as the first date of the month.
fn read_month(text: &[u8]) -> Result<Date, BadTime>
    ensures month { IfOk result (BeginsWithMonth text.now) }
    ensures bad { IfErr result (λ bad. IsBadFrom text.now bad.place) }
{
    read_mark(text, 0, b'2')?;
    read_mark(text, 1, b'0')?;
    let year = read_pair(text, 2, 0, 99)?;
    read_mark(text, 4, b'-')?;
    let month = read_pair(text, 5, 1, 12)?;
    Ok(date(2000 + i16::from(year), month as i8, 1))
}

/// Reads the date, `YYYY-MM-DD`.
fn read_date(text: &[u8]) -> Result<Date, BadTime>
    ensures date { IfOk result (BeginsWithDate text.now) }
    ensures bad { IfErr result (λ bad. IsBadFrom text.now bad.place) }
{
    let month = read_month(text)?;
    read_mark(text, 7, b'-')?;
    let day = read_pair(text, 8, 1, month.days_in_month() as u8)?;
    Ok(date(month.year(), month.month(), day as i8))
}

/// Reads what follows the date, `THH:MM`, as the minutes from midnight.
fn read_clock(text: &[u8], date: Date) -> Result<u16, BadTime>
    requires { BeginsWithDate text.now date }
    ensures time { IfOk result (BeginsWithTime text.now date) }
    ensures bad { IfErr result (λ bad. IsBadFrom text.now bad.place) }
{
    read_mark(text, 10, b'T')?;
    let hour = read_pair(text, 11, 0, 23)?;
    read_mark(text, 13, b':')?;
    let minute = read_pair(text, 14, 0, 59)?;
    Ok(u16::from(hour) * 60 + u16::from(minute))
}

/// The minutes from 2000-01-01T00:00 to the date's midnight.
fn minutes_before(date: Date) -> u32
    requires { IsBetween (pos 2000) (pos 2099) date.year }
    ensures value { pos result ≡ days_after_2000 date.year date.month date.day *ℤ pos DAY_MINUTES }
    ensures range { result + DAY_MINUTES ≤ MINUTES_OF_CENTURY }
{
    let days = date.to_plain().to_unix_epoch_day() - FIRST_EPOCH_DAY;
    days as u32 * DAY_MINUTES
}
