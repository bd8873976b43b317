//! Reading words and numbers from the front of bytes.
ghost use Rattle.std.specs.Prelude.{◌≡◌, ◌<◌, None, Some, MatchOption};
ghost use Rattle.cert_text.specs.Text.Reading.{Gives, strip_at, word_at, digits_at, number_at, dash_or_number_at, number_line_at};

use crate::text::fault::Stop;
use rule_core::NUMBER_LIMIT;

/// What stands after the word, where it stands at the front.
#[tactic(auto, unfolding(crate::specs::Text::Reading::strip_at))]
pub fn strip<'a>(word: &[u8], bytes: &'a [u8]) -> Option<&'a [u8]>
    ensures { MatchOption result (strip_at word.now bytes.now ≡ None) (λ x. strip_at word.now bytes.now ≡ Some x.now) }
{
    if bytes.len() < word.len() {
        return None;
    }
    let (front, rest) = bytes.split_at(word.len());
    if front == word { Some(rest) } else { None }
}

/// What stands after the word.
pub fn word<'a>(word: &[u8], bytes: &'a [u8]) -> Result<&'a [u8], Stop>
    ensures { Gives (λ x. x.now) result (word_at word.now bytes.now) }
{
    match strip(word, bytes) {
        Some(rest) => Ok(rest),
        None => Err(Stop::Left(bytes.len())),
    }
}

/// The number that goes on with the digits at the front, as long as it stays below the limit.
#[tactic(auto, unfolding(crate::specs::Text::Reading::digits_at))]
fn digits(first: u32, bytes: &[u8]) -> (u32, &[u8])
    requires { first < NUMBER_LIMIT }
    ensures value { (result.0, result.1.now) ≡ digits_at first bytes.now }
    ensures below { result.0 < NUMBER_LIMIT }
{
    let mut number = first;
    let mut rest = bytes;
    while let [byte @ b'0'..=b'9', later @ ..] = rest {
        if number * 10 >= NUMBER_LIMIT {
            break;
        }
        number = number * 10 + u32::from(*byte - b'0');
        rest = later;
    }
    (number, rest)
}

/// A number without leading zeros.
#[tactic(auto, unfolding(crate::specs::Text::Reading::number_at))]
pub fn number(bytes: &[u8]) -> Result<(u32, &[u8]), Stop>
    ensures { Gives (λ x. (x.0, x.1.now)) result (number_at bytes.now) }
{
    match bytes {
        [b'0', rest @ ..] => Ok((0, rest)),
        [first @ b'1'..=b'9', rest @ ..] => Ok(digits(u32::from(*first - b'0'), rest)),
        _ => Err(Stop::Left(bytes.len())),
    }
}

/// A dash, or else a number.
#[tactic(auto, unfolding(crate::specs::Text::Reading::dash_or_number_at))]
pub fn dash_or_number(bytes: &[u8]) -> Result<(Option<u32>, &[u8]), Stop>
    ensures { Gives (λ x. (x.0, x.1.now)) result (dash_or_number_at bytes.now) }
{
    match bytes {
        [] => Err(Stop::Left(0)),
        [b'-', rest @ ..] => Ok((None, rest)),
        [_, ..] => {
            let (found, rest) = number(bytes)?;
            Ok((Some(found), rest))
        }
    }
}

/// The number after a word, to the end of the line.
#[tactic(auto, unfolding(crate::specs::Text::Reading::number_line_at))]
pub fn number_line<'a>(name: &[u8], bytes: &'a [u8]) -> Result<(u32, &'a [u8]), Stop>
    ensures { Gives (λ x. (x.0, x.1.now)) result (number_line_at name.now bytes.now) }
{
    let rest = word(name, bytes)?;
    let (found, rest) = number(rest)?;
    let rest = word(b"\n", rest)?;
    Ok((found, rest))
}
