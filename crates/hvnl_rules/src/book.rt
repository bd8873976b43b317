//! The rule book.
ghost use Rattle.std.specs.Prelude.{◌≡◌, ◌+◌, ◌<◌, false, Some, None, IfOk, if◌then◌else◌};
ghost use Rattle.duty_core.specs.declared.params.Params.TheVariants.{Hvnl};
ghost use Rattle.duty_core.specs.declared.limits.TheConstants.{MINUTE_LIMIT};
ghost use Rattle.rule_core.specs.Reach.{listed};
ghost use Rattle.hvnl_rules.specs.Nights.{minutes};
ghost use Rattle.hvnl_rules.specs.Machine.{IsHvnlState, hvnl_step, goes_on, listed_state};
ghost use Rattle.hvnl_rules.specs.Book.{hvnl_book};
ghost use Rattle.hvnl_rules.specs.Laws.BookLaws.{hvnl_laws};

use crate::held;
use crate::state::HvnlState;
use duty_core::{Activity, Minute, NoMemory, Params, unit_of};
use rule_core::{Idles, Next, Nexts, Numbers, RuleBook};
use std::alloc::Global;

/// The rule book of Australia (Heavy Vehicle (Fatigue Management) National Regulation, Schedule 1,
/// standard hours, solo): counted periods from five and a half hours to fourteen days, the rest that
/// periods of one and seven days hold, and the night rests of fourteen days. Its unit is a quarter
/// of an hour, and it takes no marks.
#[derive(Clone, Copy)]
pub struct HvnlBook {
    alloc: Global,
}

impl HvnlBook {
    /// The book.
    pub fn new(alloc: Global) -> HvnlBook
        ensures { (⟦<HvnlBook as RuleBook>⟧.machine result).params ≡ Hvnl }
    {
        HvnlBook { alloc }
    }
}

/// The successor, if there is one. It has no mark.
fn nexts_of(state: Option<HvnlState>) -> Nexts<HvnlState>
    ensures { listed result ≡ listed_state state }
{
    Nexts {
        a: state.map(|state| Next { state, mark: None }),
        b: None,
        c: None,
    }
}

/// The state after one unit, which begins at `at`, if it may be.
fn after_one(state: &HvnlState, at: Minute, act: Activity) -> Result<Option<HvnlState>, NoMemory>
    requires state { IsHvnlState state.now at }
    requires range { at + minutes 1 < MINUTE_LIMIT }
    ensures { IfOk result (λ next. next ≡ hvnl_step state.now at act) }
{
    let mut next = state.copy()?;
    if next.go(at, act)? {
        Ok(Some(next))
    } else {
        Ok(None)
    }
}

/// The state after `n` equal units, the first of which begins at `at`, if they may be.
fn after(
    state: &HvnlState,
    at: Minute,
    act: Activity,
    n: u32,
) -> Result<Option<HvnlState>, NoMemory>
    requires state { IsHvnlState state.now at }
    requires range { at + minutes n < MINUTE_LIMIT }
    ensures { IfOk result (λ next. next ≡ goes_on (Some state.now) at act n) }
{
    let mut next = state.copy()?;
    if go_on(&mut next, at, act, n)? {
        Ok(Some(next))
    } else {
        Ok(None)
    }
}

/// Takes `n` equal units, the first of which begins at `at`. False where they may not be; then the
/// state is none of a history.
fn go_on(state: &mut HvnlState, at: Minute, act: Activity, n: u32) -> Result<bool, NoMemory>
    requires state { IsHvnlState state.old at }
    requires range { at + minutes n < MINUTE_LIMIT }
    ensures { IfOk result (λ done. goes_on (Some state.old) at act n ≡ (if done then Some state.new else None)) }
{
    for k in 0..n {
        if !state.go(at + unit_of(Params::Hvnl {}) * k, act)? {
            return Ok(false);
        }
    }
    Ok(true)
}

impl RuleBook for HvnlBook {
    type State = HvnlState;

    const FRUGAL: bool = false;

    ghost FRUGAL = { false };

    ghost machine = { λ book. hvnl_book };

    fn params(&self) -> Params {
        Params::Hvnl {}
    }

    fn root(&self, _first: Minute) -> Result<HvnlState, NoMemory> {
        HvnlState::root(self.alloc)
    }

    fn copy(&self, state: &HvnlState) -> Result<HvnlState, NoMemory> {
        state.copy()
    }

    fn step(
        &self,
        state: &HvnlState,
        at: Minute,
        act: Activity,
    ) -> Result<Nexts<HvnlState>, NoMemory> {
        Ok(nexts_of(after_one(state, at, act)?))
    }

    fn advance(
        &self,
        state: &HvnlState,
        at: Minute,
        act: Activity,
        n: u32,
    ) -> Result<Nexts<HvnlState>, NoMemory> {
        Ok(nexts_of(after(state, at, act, n)?))
    }

    fn covers(&self, a: &HvnlState, b: &HvnlState, at: Minute) -> bool {
        a.covers(b, at)
    }

    fn idles(&self, _state: &HvnlState) -> Idles {
        Idles {
            first: Activity::Off,
            second: Some(Activity::Wait),
        }
    }

    fn ahead(&self, _state: &HvnlState) -> bool {
        // A later start of a period can be worth more than rest now.
        false
    }

    fn least_rest(&self, state: &HvnlState, driving: u32, other: u32) -> u32 {
        let unit = unit_of(Params::Hvnl {});
        held::least_rest(state.held.limits(), driving.saturating_add(other) / unit).saturating_mul(
            unit,
        )
    }

    fn rank(&self, state: &HvnlState) -> u32 {
        held::rank(state.held.limits())
    }

    fn write_state(
        &self,
        state: &HvnlState,
        at: Minute,
        out: &mut Numbers,
    ) -> Result<(), NoMemory> {
        let numbers = state.numbers(self.alloc, at)?;
        out.extend(numbers.items())
    }

    fn read_state(&self, numbers: &[u32], at: Minute) -> Result<Option<HvnlState>, NoMemory> {
        HvnlState::of_numbers(self.alloc, numbers, at)
    }

    ghost laws = { λ book. hvnl_laws };
}
