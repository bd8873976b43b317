//! The numbers by which a state is written down, and the state that has them.
ghost use Rattle.std.specs.Prelude.{◌≡◌, ◌*◌, ◌-◌, ◌≤◌, [], ◌∷◌, ◌++◌, length, map, true, ◌&&◌, IfOk, OnOk, Some, None, if◌then◌else◌};
ghost use Rattle.hvnl_rules.specs.Numbers.{limit_numbers, need_numbers, hvnl_numbers, limits_in as limits_of, needs_in as needs_of, held_by, state_by, fits as fits_test, is_hvnl_state, hvnl_state_of};
ghost use Rattle.std.specs.Str.{bytes_eq};
ghost use Rattle.allowance.specs.Allow.{is_held};

use crate::nights::NightLog;
use crate::state::HvnlState;
use allowance::{Allowances, Limit, Need};
use duty_core::{DAY_MINUTES, Minute, NoMemory};
use rule_core::Numbers;
use std::alloc::Global;

/// Two numbers.
fn push_two(out: &mut Numbers, a: u32, b: u32) -> Result<(), NoMemory>
    ensures { OnOk result (out.new ≡ out.old ++ a ∷ b ∷ []) }
{
    out.push(a)?;
    out.push(b)
}

/// The units and the duty of each limit.
fn push_limits(out: &mut Numbers, limits: &[Limit]) -> Result<(), NoMemory>
    ensures { OnOk result (out.new ≡ out.old ++ limit_numbers limits.now) }
{
    for limit in limits {
        push_two(out, limit.units, limit.duty)?;
    }
    Ok(())
}

/// The units and the rest of each need.
fn push_needs(out: &mut Numbers, needs: &[Need]) -> Result<(), NoMemory>
    ensures { OnOk result (out.new ≡ out.old ++ need_numbers needs.now) }
{
    for need in needs {
        push_two(out, need.units, need.rest)?;
    }
    Ok(())
}

/// How far each number is below `now`.
fn push_ago(out: &mut Numbers, now: u32, list: &[u32]) -> Result<(), NoMemory>
    ensures { OnOk result (out.new ≡ out.old ++ map (λ n. now - n) list.now) }
{
    for number in list {
        out.push(now.saturating_sub(*number))?;
    }
    Ok(())
}

/// The length of a list, as a number.
fn count(length: usize) -> Result<u32, NoMemory>
    ensures { IfOk result (λ n. n ≡ length) }
{
    u32::try_from(length).map_err(|_| NoMemory)
}

impl HvnlState {
    /// The numbers of the state at the minute `at`.
    pub(crate) fn numbers(&self, alloc: Global, at: Minute) -> Result<Numbers, NoMemory>
        ensures { IfOk result (λ n. n ≡ hvnl_numbers self.now at) }
    {
        let mut out = Numbers::new(alloc);
        out.push(count(self.held.limits().len())?)?;
        out.push(count(self.held.needs().len())?)?;
        out.push(count(self.nights.starts().len())?)?;
        out.push(self.held.run())?;
        push_limits(&mut out, self.held.limits())?;
        push_needs(&mut out, self.held.needs())?;
        push_ago(&mut out, at, self.nights.starts())?;
        push_ago(&mut out, at / DAY_MINUTES, self.nights.dates())?;
        Ok(out)
    }

    /// The state with these numbers at the minute `at`. `None` exactly where they are those of none.
    pub(crate) fn of_numbers(
        alloc: Global,
        numbers: &[u32],
        at: Minute,
    ) -> Result<Option<HvnlState>, NoMemory>
        ensures { IfOk result (λ s. s ≡ hvnl_state_of numbers.now at) }
    {
        if !fit(numbers) {
            return Ok(None);
        }
        let Some(state) = read(alloc, numbers, at)? else {
            return Ok(None);
        };
        if state.is_told(alloc, numbers, at)? {
            Ok(Some(state))
        } else {
            Ok(None)
        }
    }

    /// Whether the state can be one at the minute `at`, and these are its numbers there.
    fn is_told(&self, alloc: Global, numbers: &[u32], at: Minute) -> Result<bool, NoMemory>
        ensures { IfOk result (λ told. told ≡ (is_hvnl_state self.now at && bytes_eq (hvnl_numbers self.now at) numbers.now)) }
    {
        let own = self.numbers(alloc, at)?;
        Ok(self.is_state(at) && own.items() == numbers)
    }
}

/// Whether there are as many numbers as the first ones tell.
fn fit(numbers: &[u32]) -> bool
    ensures { result ≡ fits_test numbers.now }
{
    if numbers.len() < 4 {
        return false;
    }
    4 + 2 * u64::from(numbers[0]) + 2 * u64::from(numbers[1]) + u64::from(numbers[2])
        <= numbers.len() as u64
}

/// So many limits, the first of which these numbers begin with.
fn limits_in(alloc: Global, count: u32, numbers: &[u32]) -> Result<Vec<Limit>, NoMemory>
    requires { 2 * count ≤ length numbers.now }
    ensures { IfOk result (λ limits. limits.items ≡ limits_of count numbers.now) }
{
    let mut limits = Vec::new(alloc);
    for i in 0..count as usize {
        limits.push(Limit {
            units: numbers[2 * i],
            duty: numbers[2 * i + 1],
        })?;
    }
    Ok(limits)
}

/// So many needs, the first of which these numbers begin with.
fn needs_in(alloc: Global, count: u32, numbers: &[u32]) -> Result<Vec<Need>, NoMemory>
    requires { 2 * count ≤ length numbers.now }
    ensures { IfOk result (λ needs. needs.items ≡ needs_of count numbers.now) }
{
    let mut needs = Vec::new(alloc);
    for i in 0..count as usize {
        needs.push(Need {
            units: numbers[2 * i],
            rest: numbers[2 * i + 1],
        })?;
    }
    Ok(needs)
}

/// What these numbers tell of the limits, the needs and the nights. `None` where no units break one
/// of the limits, or where one of the needs is met or can't be met.
fn read(alloc: Global, numbers: &[u32], at: Minute) -> Result<Option<HvnlState>, NoMemory>
    requires { fits_test numbers.now ≡ true }
    ensures { IfOk result (λ s. s ≡ if is_held (held_by numbers.now) then Some (state_by numbers.now at) else None) }
{
    let (_, limit_part) = numbers.split_at(4);
    let (_, need_part) = limit_part.split_at(2 * numbers[0] as usize);
    let (_, start_part) = need_part.split_at(2 * numbers[1] as usize);
    let (starts, dates) = start_part.split_at(numbers[2] as usize);
    let limits = limits_in(alloc, numbers[0], limit_part)?;
    let needs = needs_in(alloc, numbers[1], need_part)?;
    let Some(held) = Allowances::from_parts(alloc, limits.as_slice(), needs.as_slice(), numbers[3])?
    else {
        return Ok(None);
    };
    let nights = NightLog::of_ago(alloc, at, starts, dates)?;
    Ok(Some(HvnlState { held, nights }))
}
