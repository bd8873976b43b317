//! What holds of every state of the book. The function does nothing: its clauses are the law.
ghost use Rattle.std.specs.Prelude.{ℕ, ◌≤◌, length};
ghost use Rattle.duty_core.specs.declared.activity.Activity.{Activity};
ghost use Rattle.us_rules.specs.declared.state.UsState.{UsState};

use crate::book::UsBook;
use rule_core::RuleBook;

/// A state has two successors at most, by one unit and by many equal ones: a run of rest that ends
/// is a split rest or not.
pub fn successors_are_two_at_most(book: UsBook)
    ensures step { (s : UsState) (at : ℕ) (x : Activity) → length ((⟦<UsBook as RuleBook>⟧.machine book).nexts s at x) ≤ 2 }
    ensures advance { (s : UsState) (at : ℕ) (x : Activity) (n : ℕ) → length ((⟦<UsBook as RuleBook>⟧.machine book).advances s at x n) ≤ 2 }
{
    let _ = book;
}
