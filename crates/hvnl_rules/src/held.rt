//! The counted periods, as what the next units may hold.
ghost use Rattle.std.specs.Prelude.{◌≡◌, ◌+◌, ◌<◌, ◌≤◌, All, true, IfOk, OnOk, IsTrue};
ghost use Rattle.std.specs.List.{list_all, list_any};
ghost use Rattle.duty_core.specs.declared.limits.TheConstants.{AU_7D_REST};
ghost use Rattle.allowance.specs.Allow.{may_spend, spent, implies as implies_test};
ghost use Rattle.hvnl_rules.specs.Counted.{begun_short, begun, with_needs, after_duty, after_rest, start_held, added_all, short_limits, long_limits};
ghost use Rattle.hvnl_rules.specs.Covers.{is_tight as is_tight_test, meets as meets_test, covers_run as covers_run_test, covers_held};

use allowance::{Allowances, Limit, Need, implies};
use duty_core::{
    AU_5H30_DUTY, AU_5H30_PERIOD, AU_7D_DUTY, AU_7D_PERIOD, AU_7D_REST, AU_8H_DUTY, AU_8H_PERIOD,
    AU_11H_DUTY, AU_11H_PERIOD, AU_14D_DUTY, AU_14D_PERIOD, AU_24H_DUTY, AU_24H_PERIOD,
    AU_24H_REST, AU_LONG_START, AU_SHORT_START, NoMemory,
};
use std::alloc::Global;

/// Nothing has begun, and there was rest before.
pub fn rested(alloc: Global) -> Result<Allowances, NoMemory>
    ensures { IfOk result (λ held. held ≡ start_held) }
{
    let limits: [Limit; 0] = [];
    let needs: [Need; 0] = [];
    match Allowances::from_parts(alloc, limits.as_slice(), needs.as_slice(), AU_7D_REST)? {
        Some(held) => Ok(held),
        None => Err(NoMemory),
    }
}

/// The limits of the periods that begin at a short start.
fn add_short(held: &mut Allowances) -> Result<(), NoMemory>
    ensures { OnOk result (held.new ≡ added_all held.old short_limits) }
{
    held.add(AU_5H30_PERIOD, AU_5H30_DUTY)?;
    held.add(AU_8H_PERIOD, AU_8H_DUTY)?;
    held.add(AU_11H_PERIOD, AU_11H_DUTY)?;
    Ok(())
}

/// The limits of the periods that begin at a long start.
fn add_long(held: &mut Allowances) -> Result<(), NoMemory>
    ensures { OnOk result (held.new ≡ added_all held.old long_limits) }
{
    held.add(AU_24H_PERIOD, AU_24H_DUTY)?;
    held.add(AU_7D_PERIOD, AU_7D_DUTY)?;
    held.add(AU_14D_PERIOD, AU_14D_DUTY)?;
    Ok(())
}

/// The limits of the periods that begin with the next unit, if it is duty.
fn begin(held: &mut Allowances) -> Result<(), NoMemory>
    ensures { OnOk result (held.new ≡ begun held.old) }
{
    let run = held.run();
    if run < AU_SHORT_START {
        return Ok(());
    }
    add_short(held)?;
    if run < AU_LONG_START {
        return Ok(());
    }
    add_long(held)
}

/// The needs of the periods that began with the last unit, where so much rest stood before it.
fn add_needs(held: &mut Allowances, run: u32) -> Result<(), NoMemory>
    requires { held.old.run ≡ 0 }
    ensures { OnOk result (held.new ≡ with_needs run held.old) }
{
    if run < AU_LONG_START {
        return Ok(());
    }
    held.need(AU_24H_PERIOD - 1, AU_24H_REST)?;
    held.need(AU_7D_PERIOD - 1, AU_7D_REST)?;
    Ok(())
}

/// One duty unit. False where it may not be.
pub fn work(held: &mut Allowances) -> Result<bool, NoMemory>
    ensures says { IfOk result (λ done. done ≡ may_spend (begun held.old)) }
    ensures done { IfOk result (λ done. IsTrue done → held.new ≡ after_duty held.old) }
{
    let run = held.run();
    begin(held)?;
    if !held.spend() {
        return Ok(false);
    }
    add_needs(held, run)?;
    Ok(true)
}

/// One rest unit.
pub fn rest(held: &mut Allowances)
    requires { All (λ n. n.rest ≤ AU_7D_REST) held.old.needs }
    ensures { held.new ≡ after_rest held.old }
{
    held.pass();
    held.settle(AU_7D_REST);
}

/// Whether some limit implies this one.
fn is_implied(limits: &[Limit], limit: Limit) -> bool
    ensures { result ≡ list_any (λ k. implies_test k limit) limits.now }
{
    limits.iter().any(|other| implies(*other, limit))
}

/// Whether no unit may be duty before the need is met.
fn is_tight(need: Need) -> bool
    ensures { result ≡ is_tight_test need }
{
    need.units <= need.rest
}

/// Whether who meets this need meets the other one: it asks for as much rest, and no later, or for no
/// less and no unit before may be duty.
fn meets(need: Need, other: Need) -> bool
    ensures { result ≡ meets_test need other }
{
    (need.rest == other.rest && need.units <= other.units)
        || (is_tight(need) && other.rest <= need.rest)
}

/// Whether no unit may be duty before some need is met.
fn has_tight(needs: &[Need]) -> bool
    ensures { result ≡ list_any is_tight_test needs.now }
{
    needs.iter().any(|need| is_tight(*need))
}

/// Whether who meets some of the needs meets this one.
fn is_met(needs: &[Need], need: Need) -> bool
    ensures { result ≡ list_any (λ k. meets_test k need) needs.now }
{
    needs.iter().any(|other| meets(*other, need))
}

/// Whether each limit is implied by one of the others.
fn are_implied(limits: &[Limit], others: &[Limit]) -> bool
    ensures { result ≡ list_all (λ q. list_any (λ k. implies_test k q) others.now) limits.now }
{
    for limit in limits {
        if !is_implied(others, *limit) {
            return false;
        }
    }
    true
}

/// Whether who meets the others meets each of the needs.
fn are_met(needs: &[Need], others: &[Need]) -> bool
    ensures { result ≡ list_all (λ n. list_any (λ k. meets_test k n) others.now) needs.now }
{
    for need in needs {
        if !is_met(others, *need) {
            return false;
        }
    }
    true
}

/// Whether the rest in progress may stand for that of the other: the next duty unit begins the same
/// periods after both, and it meets each need and gives each night its break no later.
fn covers_run(held: &Allowances, other: &Allowances) -> bool
    ensures { result ≡ covers_run_test held.now other.now }
{
    let run = other.run();
    held.run() == run || ((run >= AU_LONG_START || has_tight(other.needs())) && held.run() >= run)
}

/// Whether the rest in progress may stand for that of the other, each limit is implied by one of the
/// other, and who meets the needs of the other meets each need.
pub fn covers(held: &Allowances, other: &Allowances) -> bool
    ensures { result ≡ covers_held held.now other.now }
{
    covers_run(held, other)
        && (are_implied(held.limits(), other.limits()) && are_met(held.needs(), other.needs()))
}

/// The rest units that the limits want before so many duty units are done: a limit that leaves fewer
/// duty units keeps some of them until its own units are over.
pub fn least_rest(limits: &[Limit], duty: u32) -> u32
    ensures { All (λ p. p.duty < duty → p.units ≤ p.duty + result) limits.now }
{
    let mut rest = 0;
    for limit in limits {
        if limit.duty < duty {
            rest = limit.units.saturating_sub(limit.duty).max(rest);
        }
    }
    rest
}

/// The rest units that each limit keeps, added up: the fewer, the more may still be worked.
pub fn rank(limits: &[Limit]) -> u32 {
    let mut kept: u32 = 0;
    for limit in limits {
        kept = kept.saturating_add(limit.units.saturating_sub(limit.duty));
    }
    kept
}
