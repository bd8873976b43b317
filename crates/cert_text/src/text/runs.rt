//! Reading runs.
ghost use Rattle.std.specs.Prelude.{◌≡◌};
ghost use Rattle.cert_text.specs.Text.Reading.{Gives, act_of, letter_at, same_act, may_follow, run_at, runs_at};

use crate::cert::{StepRun, StepRuns};
use crate::text::fault::Stop;
use crate::text::words::{number, word};
use duty_core::Activity;
use std::alloc::Global;

/// The activity of a letter.
fn act_of(letter: u8) -> Option<Activity>
    ensures { result ≡ act_of letter }
{
    match letter {
        b'D' => Some(Activity::Drive),
        b'S' => Some(Activity::Serve),
        b'W' => Some(Activity::Wait),
        b'O' => Some(Activity::Off),
        b'B' => Some(Activity::Berth),
        _ => None,
    }
}

/// The activity of the letter at the front.
#[tactic(auto, unfolding(crate::specs::Text::Reading::letter_at))]
fn letter(bytes: &[u8]) -> Result<(Activity, &[u8]), Stop>
    ensures { Gives (λ x. (x.0, x.1.now)) result (letter_at bytes.now) }
{
    match bytes {
        [] => Err(Stop::Left(0)),
        [first, rest @ ..] => match act_of(*first) {
            Some(act) => Ok((act, rest)),
            None => Err(Stop::Left(bytes.len())),
        },
    }
}

/// Whether two activities are the same.
fn is_same(a: Activity, b: Activity) -> bool
    ensures { result ≡ same_act a b }
{
    a == b
}

/// Whether a run of this activity may stand after one of the activity before.
fn may_follow(before: Option<Activity>, act: Activity) -> bool
    ensures { result ≡ may_follow before act }
{
    match before {
        Some(before) => !is_same(before, act),
        None => true,
    }
}

/// The run at the front, after one of the activity before.
#[tactic(auto, unfolding(crate::specs::Text::Reading::run_at))]
fn run(before: Option<Activity>, bytes: &[u8]) -> Result<(StepRun, &[u8]), Stop>
    ensures { Gives (λ x. (x.0, x.1.now)) result (run_at before bytes.now) }
{
    let rest = word(b"r ", bytes)?;
    let (count, rest) = number(rest)?;
    let rest = word(b" ", rest)?;
    let (act, rest) = letter(rest)?;
    let rest = word(b"\n", rest)?;
    if count > 0 && may_follow(before, act) {
        Ok((StepRun { count, act }, rest))
    } else {
        Err(Stop::Left(bytes.len()))
    }
}

/// So many runs.
#[tactic(auto, unfolding(crate::specs::Text::Reading::runs_at))]
pub fn runs(alloc: Global, count: u32, bytes: &[u8]) -> Result<(StepRuns, &[u8]), Stop>
    ensures { Gives (λ x. (x.0, x.1.now)) result (runs_at count bytes.now) }
{
    let mut runs = StepRuns::new(alloc);
    let mut before = None;
    let mut rest = bytes;
    for _ in 0..count {
        let (next, thereafter) = run(before, rest)?;
        runs.push(next)?;
        before = Some(next.act);
        rest = thereafter;
    }
    Ok((runs, rest))
}
