//! What one unit does to the lists of limits and needs, and how they grow.
ghost use Rattle.std.specs.Prelude.{◌≡◌, ℕ, ◌+◌, ◌-◌, ◌<◌, ◌≤◌, map, filter, All, nat_lt, not, ◌&&◌, OnOk, OnErr, List, [], ◌∷◌, ◌++◌};
ghost use Rattle.std.specs.List.{list_all, list_any};
ghost use Rattle.smallvec.specs.SmallVec.{small_vec_len};
ghost use Rattle.allowance.specs.Allow.{spent_limit, passed_limit, passed_need, is_open as is_open_limit, is_open_need, waits, implies as implies_test, gives, added_limits, needed_needs};

use crate::limit::{Limit, Need, implies};
use duty_core::NoMemory;
use smallvec::SmallVec;

/// The limits of a state. Up to eight lie in place.
pub type Limits = SmallVec<Limit, 8>;

/// The needs of a state. Up to four lie in place.
pub type Needs = SmallVec<Need, 4>;

/// Whether each limit leaves a duty unit.
pub fn may_spend_limits(limits: &[Limit]) -> bool
    ensures { result ≡ list_all (λ p. nat_lt 0 p.duty) limits.now }
{
    limits.iter().all(|limit| limit.duty > 0)
}

/// Whether each need can be met after a duty unit.
pub fn may_spend_needs(needs: &[Need]) -> bool
    ensures { result ≡ list_all (λ n. nat_lt n.rest n.units) needs.now }
{
    needs.iter().all(|need| need.rest < need.units)
}

/// Whether the next unit may be duty.
pub fn may_spend_both(limits: &Limits, needs: &Needs) -> bool
    ensures { result ≡ (list_all (λ p. nat_lt 0 p.duty) limits.now.items && list_all (λ n. nat_lt n.rest n.units) needs.now.items) }
{
    may_spend_limits(limits.as_slice()) && may_spend_needs(needs.as_slice())
}

/// One duty unit.
pub fn spend_limits(limits: &mut Limits)
    requires { All (λ p. (0 < p.units) × (0 < p.duty)) limits.old.items }
    ensures { limits.new.items ≡ map spent_limit limits.old.items }
{
    for limit in limits.iter_mut() {
        limit.units -= 1;
        limit.duty -= 1;
    }
}

/// One rest unit.
pub fn pass_limits(limits: &mut Limits)
    requires { All (λ p. 0 < p.units) limits.old.items }
    ensures { limits.new.items ≡ map passed_limit limits.old.items }
{
    for limit in limits.iter_mut() {
        limit.units -= 1;
    }
}

/// One unit.
pub fn pass_needs(needs: &mut Needs)
    requires { All (λ n. 0 < n.units) needs.old.items }
    ensures { needs.new.items ≡ map passed_need needs.old.items }
{
    for need in needs.iter_mut() {
        need.units -= 1;
    }
}

/// Lets the limits go that no units break.
pub fn keep_open(limits: &mut Limits)
    ensures { limits.new.items ≡ filter is_open_limit limits.old.items }
{
    limits.retain(|p| p.duty < p.units);
}

/// Lets the needs go that a run of so many units meets.
pub fn keep_waiting(needs: &mut Needs, run: u32)
    ensures { needs.new.items ≡ filter (waits run) needs.old.items }
{
    needs.retain(|n| run < n.rest);
}

/// Whether some limit implies this one.
pub fn is_implied_by_one(limits: &[Limit], b: Limit) -> bool
    ensures { result ≡ list_any (λ q. implies_test q b) limits.now }
{
    limits.iter().any(|a| implies(*a, b))
}

/// Lets the limits go that this one implies.
pub fn leave_implied(limits: &mut Limits, a: Limit)
    ensures kept { limits.new.items ≡ filter (λ q. not (implies_test a q)) limits.old.items }
    ensures room { limits.new.capacity ≡ limits.old.capacity }
    ensures bound { small_vec_len limits.new ≤ small_vec_len limits.old }
{
    limits.retain(|q| !implies(a, *q));
}

/// One more limit, where some units break it and none implies it; those that it implies leave.
pub fn add_limit(limits: &mut Limits, limit: Limit) -> Result<(), NoMemory>
    ensures ok { OnOk result (limits.new.items ≡ added_limits limits.old.items limit) }
    ensures err { OnErr result (limits.new.items ≡ limits.old.items) }
{
    if limit.duty >= limit.units || is_implied_by_one(limits, limit) {
        return Ok(());
    }
    limits.reserve(1)?;
    leave_implied(limits, limit);
    limits.push(limit)?;
    Ok(())
}

/// Whether some need asks for as much rest as this one, and no later.
pub fn is_given_by_one(needs: &[Need], n: Need) -> bool
    ensures { result ≡ list_any (λ m. gives m n) needs.now }
{
    needs.iter().any(|m| m.rest == n.rest && m.units <= n.units)
}

/// One more need, where none gives it.
pub fn add_need(needs: &mut Needs, need: Need) -> Result<(), NoMemory>
    ensures ok { OnOk result (needs.new.items ≡ needed_needs needs.old.items need) }
    ensures err { OnErr result (needs.new.items ≡ needs.old.items) }
{
    if is_given_by_one(needs, need) {
        return Ok(());
    }
    needs.push(need)?;
    Ok(())
}

/// Whether some units break each limit.
pub fn are_open(limits: &[Limit]) -> bool
    ensures { result ≡ list_all is_open_limit limits.now }
{
    limits.iter().all(|p| p.duty < p.units)
}

/// Whether a run of so many units does not meet the need, which still can be met.
fn is_open(need: Need, run: u32) -> bool
    ensures { result ≡ is_open_need run need }
{
    run < need.rest && need.rest - run <= need.units
}

/// Whether a run of so many units meets none of the needs, and each can still be met.
pub fn are_open_needs(needs: &[Need], run: u32) -> bool
    ensures { result ≡ list_all (is_open_need run) needs.now }
{
    needs.iter().all(|need| is_open(*need, run))
}
