//! One field of a time's text: a mark between numbers, or a number of two digits.
ghost use Rattle.std.specs.Prelude.{◌≡◌, ◌+◌, ◌<◌, ◌≤◌, IfOk, IfErr, OnOk};
ghost use Rattle.std.specs.Int.{IsInRange};
ghost use Rattle.civil_minutes.specs.Time.{digit};
ghost use Rattle.civil_minutes.specs.Fields.{HasByte, HasPair, LacksDigit, LacksPair};

use crate::read::BadTime;

/// Reads the mark at the place.
pub(crate) fn read_mark(text: &[u8], place: u32, mark: u8) -> Result<(), BadTime>
    ensures mark { OnOk result (HasByte text.now place mark) }
    ensures bad { IfErr result (λ bad. (bad.place ≡ place) × ¬ (HasByte text.now place mark)) }
{
    match text.get(place as usize) {
        Some(byte) if *byte == mark => Ok(()),
        _ => Err(BadTime { place }),
    }
}

/// Reads the digit at the place.
fn read_digit(text: &[u8], place: u32) -> Result<u8, BadTime>
    ensures value { IfOk result (λ value. (value < 10) × HasByte text.now place (digit value)) }
    ensures bad { IfErr result (λ bad. (bad.place ≡ place) × LacksDigit text.now place) }
{
    match text.get(place as usize) {
        Some(byte @ b'0'..=b'9') => Ok(*byte - b'0'),
        _ => Err(BadTime { place }),
    }
}

/// Reads the number of two digits at the place, which is from `low` to `high`. What stops it is the
/// first digit of no such number, or the second.
pub(crate) fn read_pair(text: &[u8], place: u32, low: u8, high: u8) -> Result<u8, BadTime>
    requires order { low ≤ high }
    requires two_digits { high < 100 }
    requires range { place < 100 }
    ensures value { IfOk result (λ value. IsInRange low high value × HasPair text.now place value) }
    ensures bad { IfErr result (λ bad. LacksPair text.now place low high bad.place) }
{
    let tens = 10 * read_digit(text, place)?;
    if tens > high || tens + 9 < low {
        return Err(BadTime { place });
    }
    let value = tens + read_digit(text, place + 1)?;
    if value > high || value < low {
        return Err(BadTime { place: place + 1 });
    }
    Ok(value)
}
