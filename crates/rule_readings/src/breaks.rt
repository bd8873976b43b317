//! Breaks in the United States, after 49 CFR 395.3(a)(3)(ii).
ghost use Rattle.std.specs.Prelude.{◌≡◌, ℕ, ◌≤◌, ◌↔◌, IsTrue, MatchOption, length};
ghost use Rattle.duty_core.specs.UsRules.{IsBreak, IsLastBreak};

use crate::padded::Padded;
use duty_core::US_BREAK;

/// Whether a break ends at place `to`: the minutes of a break before it hold no driving.
fn is_break(padded: &Padded, to: u32) -> bool
    requires { to ≤ length padded.now }
    ensures { IsTrue result ↔ IsBreak padded.now to }
{
    to >= US_BREAK && padded.driving(to - US_BREAK, to) == 0
}

/// Where the last break ended that ended at place `i` or before. `None` where none has ended.
pub(crate) fn last_break(padded: &Padded, i: u32) -> Option<u32>
    requires { i ≤ length padded.now }
    ensures { MatchOption result ((to : ℕ) → IsBreak padded.now to → to ≤ i → ⊥) (λ to. IsLastBreak padded.now i to) }
{
    let mut to = i;
    while !is_break(padded, to) {
        to = to.checked_sub(1)?;
    }
    Some(to)
}
