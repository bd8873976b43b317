//! Roots without those that others answer for.
ghost use Rattle.std.specs.Prelude.{◌≡◌, ◌↔◌, IfOk, IsTrue};
ghost use Rattle.rule_core.specs.Reach.{IsOneOf};
ghost use Rattle.rule_core.specs.Replay.{AreRootStates, IsCoveredByRoot};
ghost use Rattle.rule_core.specs.Pruned.{ArePruned, AreApart, AreUncovered};

use crate::book::RuleBook;
use crate::numbers::Numbers;
use crate::roots::{Root, Roots};
use duty_core::{Minute, NoMemory};
use std::alloc::Global;

/// Whether the numbers stand in the list.
fn is_listed(lists: &[Numbers], numbers: &Numbers) -> bool
    ensures { IsTrue result ↔ IsOneOf lists.now numbers.now }
{
    for list in lists {
        if list.items() == numbers.items() {
            return true;
        }
    }
    false
}

/// Of the roots with equal states the first one each, at the minute `at`. States are equal where
/// their numbers are.
pub(crate) fn distinct<B: RuleBook>(
    alloc: Global,
    book: &B,
    roots: Roots<B::State>,
    at: Minute,
) -> Result<Roots<B::State>, NoMemory>
    requires states { AreRootStates (B.machine book.now) at roots }
    ensures kept { IfOk result (ArePruned (λ a b. a ≡ b) roots) }
    ensures apart { IfOk result (AreApart (λ a b. a ≡ b)) }
{
    let roots = roots.into_vec();
    let mut kept = Roots::new(alloc);
    let mut lists = Vec::new(alloc);
    for root in roots {
        let mut numbers = Numbers::new(alloc);
        book.write_state(&root.state, at, &mut numbers)?;
        if is_listed(&lists, &numbers) {
            continue;
        }
        lists.push(numbers)?;
        kept.push(root)?;
    }
    Ok(kept)
}

/// Whether some root has a state that may stand for this one at the minute `at`.
fn is_covered<B: RuleBook>(book: &B, roots: &[Root<B::State>], state: &B::State, at: Minute) -> bool
    requires roots { AreRootStates (B.machine book.now) at roots.now }
    requires state { (B.machine book.now).is_state state.now at }
    ensures { IsTrue result ↔ IsCoveredByRoot (λ a b. (B.machine book.now).covers a b at) roots.now state.now }
{
    for root in roots {
        if book.covers(&root.state, state, at) {
            return true;
        }
    }
    false
}

/// The roots without those that an earlier one covers at the minute `at`.
fn uncovered_by_earlier<B: RuleBook>(
    alloc: Global,
    book: &B,
    roots: Roots<B::State>,
    at: Minute,
) -> Result<Roots<B::State>, NoMemory>
    requires states { AreRootStates (B.machine book.now) at roots }
    ensures { IfOk result (AreUncovered (B.machine book.now) at roots) }
{
    let roots = roots.into_vec();
    let mut kept = Roots::new(alloc);
    for root in roots {
        if is_covered(book, kept.items(), &root.state, at) {
            continue;
        }
        kept.push(root)?;
    }
    Ok(kept)
}

/// The roots without those that another one covers at the minute `at`.
pub(crate) fn uncovered<B: RuleBook>(
    alloc: Global,
    book: &B,
    roots: Roots<B::State>,
    at: Minute,
) -> Result<Roots<B::State>, NoMemory>
    requires states { AreRootStates (B.machine book.now) at roots }
    ensures { IfOk result (AreUncovered (B.machine book.now) at roots) }
{
    let mut roots = uncovered_by_earlier(alloc, book, roots, at)?.into_vec();
    roots.reverse();
    uncovered_by_earlier(alloc, book, Roots::from_vec(roots), at)
}
