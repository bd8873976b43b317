//! What holds of every state of the book. The function does nothing: its clauses are the law.
ghost use Rattle.std.specs.Prelude.{ℕ, ◌≤◌, length};
ghost use Rattle.duty_core.specs.declared.activity.Activity.{Activity};
ghost use Rattle.hvnl_rules.specs.declared.state.HvnlState.{HvnlState};

use crate::book::HvnlBook;
use rule_core::RuleBook;

/// A state has one successor at most, by one unit and by many equal ones: there is nothing to
/// choose.
pub fn successor_is_one_at_most(book: HvnlBook)
    ensures step { (s : HvnlState) (at : ℕ) (x : Activity) → length ((⟦<HvnlBook as RuleBook>⟧.machine book).nexts s at x) ≤ 1 }
    ensures advance { (s : HvnlState) (at : ℕ) (x : Activity) (n : ℕ) → length ((⟦<HvnlBook as RuleBook>⟧.machine book).advances s at x n) ≤ 1 }
{
    let _ = book;
}
