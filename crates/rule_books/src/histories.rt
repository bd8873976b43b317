//! What the tests of the books share: states of histories, and logs.
ghost use Rattle.std.specs.Prelude.{◌≡◌, ◌+◌, ◌*◌, ◌<◌, ◌≤◌, IfOk, IfSome};
ghost use Rattle.duty_core.specs.Params.{unit_minutes};

use duty_core::{Activity, LONGEST_HISTORY, MINUTE_LIMIT, Minute, NoMemory};
use rule_core::{Nexts, Replayed, RuleBook, replay};
use std::alloc::Global;
use std::test::Fail;
use timeline::Timeline;

/// The first state after so many equal units, or `None` where they are refused.
pub(crate) fn moved<B: RuleBook>(
    book: &B,
    state: &B::State,
    at: Minute,
    act: Activity,
    n: u32,
) -> Result<Option<B::State>, NoMemory>
    requires state { (B.machine book.now).is_state state.now at }
    requires some { 1 ≤ n }
    requires long { n ≤ LONGEST_HISTORY }
    requires range { at + unit_minutes (B.machine book.now).params * n < MINUTE_LIMIT }
    ensures { IfOk result (λ o. IfSome o (λ s. (B.machine book.now).is_state s (at + unit_minutes (B.machine book.now).params * n))) }
{
    let Nexts { a, b: _, c } = book.advance(state, at, act, n)?;
    if let Some(next) = a {
        return Ok(Some(next.state));
    }
    match c {
        Some(full) => Ok(Some(full.state)),
        None => Ok(None),
    }
}

/// The state after a unit that declares the rest run before it as a split rest, or `None` where it
/// may not be one.
pub(crate) fn declared<B: RuleBook>(
    book: &B,
    state: &B::State,
    at: Minute,
    act: Activity,
) -> Result<Option<B::State>, NoMemory>
    requires state { (B.machine book.now).is_state state.now at }
    requires range { at + unit_minutes (B.machine book.now).params < MINUTE_LIMIT }
    ensures { IfOk result (λ o. IfSome o (λ s. (B.machine book.now).is_state s (at + unit_minutes (B.machine book.now).params))) }
{
    let Nexts { a: _, b, c: _ } = book.step(state, at, act)?;
    match b {
        Some(next) => Ok(Some(next.state)),
        None => Ok(None),
    }
}

/// The unit up to which the log of these runs, which begins at the minute `first`, breaks a rule of a
/// book whose units are minutes, or the number of roots that it leaves and of marks of the first of
/// them.
pub(crate) fn replayed<B: RuleBook>(
    alloc: Global,
    book: &B,
    first: Minute,
    parts: &[(Activity, u32)],
) -> Result<Result<(usize, usize), u32>, Fail>
    requires unit { unit_minutes (B.machine book.now).params ≡ 1 }
    requires range { first + LONGEST_HISTORY < MINUTE_LIMIT }
{
    let mut log = Timeline::new(alloc);
    for (act, n) in parts {
        log.push_run(*act, *n)?;
    }
    let _length = log.len();
    match replay(alloc, book, &log, first)? {
        Replayed::Lawful(roots) => {
            let first = roots.items().first().ok_or("no root")?;
            Ok(Ok((roots.len(), first.marks.items().len())))
        }
        Replayed::Unlawful { unit } => Ok(Err(unit)),
    }
}
