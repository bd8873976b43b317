//! Whether a history is lawful with given marks.
ghost use Rattle.std.specs.Prelude.{◌+◌, ◌<◌, ◌≤◌, length, Decides, IfOk, OnOk};
ghost use Rattle.std.specs.Option.{option_to_list};
ghost use Rattle.duty_core.specs.declared.limits.TheConstants.{MINUTE_LIMIT};
ghost use Rattle.duty_core.specs.History.{IsTimed};
ghost use Rattle.duty_core.specs.Lawful.{IsLawfulWith};
ghost use Rattle.duty_core.specs.Params.{unit_minutes};
ghost use Rattle.rule_core.specs.Reach.{listed, IsOneOf};
ghost use Rattle.cert_checker.specs.declared.follow.Held.{Held};
ghost use Rattle.cert_checker.specs.Followed.{AddsNexts, AreAfter, HasAllUsed};

use duty_core::{Activity, Mark, Minute, NoMemory, unit_of};
use rule_core::{Next, Nexts, RuleBook};
use std::alloc::Global;
use timeline::Timeline;

/// A state that a history reaches with the first so many of the marks.
#[derive(Drop)]
pub struct Held<S> {
    pub state: S,
    pub used: usize,
}

/// Adds the state of the successor, where there is one and its mark is the next one, or it has none.
fn push_next<S: Drop>(
    held: &mut Vec<Held<S>>,
    marks: &[Mark],
    used: usize,
    next: Option<Next<S>>,
) -> Result<(), NoMemory>
    requires { used ≤ length marks.now }
    ensures ok { OnOk result (AddsNexts marks.now used (option_to_list next) held.old.items held.new.items) }
{
    let Some(Next { state, mark }) = next else {
        return Ok(());
    };
    let Some(mark) = mark else {
        held.push(Held { state, used })?;
        return Ok(());
    };
    if used < marks.len() && marks[used] == mark {
        held.push(Held {
            state,
            used: used + 1,
        })?;
    }
    Ok(())
}

/// Adds the states of the successors, the marks of which are the next ones.
fn push_nexts<S: Drop>(
    held: &mut Vec<Held<S>>,
    marks: &[Mark],
    used: usize,
    nexts: Nexts<S>,
) -> Result<(), NoMemory>
    requires { used ≤ length marks.now }
    ensures ok { OnOk result (AddsNexts marks.now used (listed nexts) held.old.items held.new.items) }
{
    let Nexts { a, b, c } = nexts;
    push_next(held, marks, used, a)?;
    push_next(held, marks, used, b)?;
    push_next(held, marks, used, c)
}

/// What one more unit, which begins at `at`, makes of the states.
fn held_after<B: RuleBook>(
    alloc: Global,
    book: &B,
    marks: &[Mark],
    held: Vec<Held<B::State>>,
    at: Minute,
    act: Activity,
) -> Result<Vec<Held<B::State>>, NoMemory>
    requires states { (e : Held B.State) → IsOneOf held.items e → (B.machine book.now).is_state e.state at }
    requires within { (e : Held B.State) → IsOneOf held.items e → e.used ≤ length marks.now }
    requires range { at + unit_minutes (B.machine book.now).params < MINUTE_LIMIT }
    ensures { IfOk result (λ after. AreAfter (B.machine book.now).nexts at act marks.now held.items after.items) }
{
    let mut after = Vec::new(alloc);
    for one in held {
        let Held { state, used } = one;
        let nexts = book.step(&state, at, act)?;
        push_nexts(&mut after, marks, used, nexts)?;
    }
    Ok(after)
}

/// Whether some state is reached with all of the marks.
fn has_all_used<S>(held: &[Held<S>], marks: &[Mark]) -> bool
    ensures { Decides result (HasAllUsed marks.now held.now) }
{
    for one in held {
        if one.used == marks.len() {
            return true;
        }
    }
    false
}

/// Whether the history, whose first unit begins at `first`, is lawful with these marks.
pub fn is_lawful_with<B: RuleBook>(
    alloc: Global,
    book: &B,
    history: &Timeline,
    first: Minute,
    marks: &[Mark],
) -> Result<bool, NoMemory>
    requires { IsTimed (B.machine book.now).params first history.now }
    ensures { IfOk result (λ b. Decides b (IsLawfulWith (B.machine book.now).params first history.now marks.now)) }
{
    let minutes = unit_of(book.params());
    let mut held = Vec::new(alloc);
    held.push(Held {
        state: book.root(first)?,
        used: 0,
    })?;
    for unit in 0..history.len() {
        held = held_after(
            alloc,
            book,
            marks,
            held,
            first + minutes * unit,
            history.at(unit),
        )?;
    }
    Ok(has_all_used(&held, marks))
}
