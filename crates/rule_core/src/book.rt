//! The trait of a rule book, and its laws.
ghost use Rattle.std.specs.Prelude.{◌≡◌, ◌↔◌, ℕ, ◌+◌, ◌*◌, ◌<◌, ◌≤◌, Bool, List, [], ◌∷◌, ◌++◌, length, replicate, OnOk, OnErr, IfOk, IsOk, IsTrue};
ghost use Rattle.duty_core.specs.declared.activity.Activity.{Activity};
ghost use Rattle.duty_core.specs.declared.mark.Mark.{Mark};
ghost use Rattle.duty_core.specs.Params.{unit_minutes, BeginsUnit};
ghost use Rattle.duty_core.specs.declared.limits.TheConstants.{LONGEST_HISTORY};
ghost use Rattle.duty_core.specs.History.{IsTimed};
ghost use Rattle.rule_core.specs.Reach.{listed};
ghost use Rattle.rule_core.specs.Refusal.{IsRefused};
ghost use Rattle.rule_core.specs.Machine.{Machine, LeadsTo};
ghost use Rattle.rule_core.specs.Book.{IsBook};

use crate::nexts::{Idles, Next, Nexts};
use crate::numbers::Numbers;
use duty_core::{Activity, LONGEST_HISTORY, MINUTE_LIMIT, Minute, NoMemory, Params};

/// A rule book, as a machine over states of histories.
///
/// A state is what the book remembers of a history and its marks up to a minute. Each minute that a
/// call takes, the units taken counted, is below 100,000,000.
pub trait RuleBook {
    /// What the book remembers of a history.
    type State: Drop;

    /// Whether `root`, `copy`, `step` and `advance` take no memory.
    const FRUGAL: bool;

    ghost FRUGAL: { Bool };

    /// What the book does, as one value.
    ghost machine: { Self → Machine Self.State };

    /// The book's parameters.
    fn params(&self) -> Params
        ensures { result ≡ (machine self.now).params };

    /// The state of an empty history whose first unit begins at `first`.
    fn root(&self, first: Minute) -> Result<Self::State, NoMemory>
        requires begins { BeginsUnit (machine self.now).params first }
        requires range { first < MINUTE_LIMIT }
        ensures root { IfOk result (λ s. s ≡ (machine self.now).root first) }
        ensures frugal { IsTrue FRUGAL → IsOk result };

    /// An equal state.
    fn copy(&self, state: &Self::State) -> Result<Self::State, NoMemory>
        ensures same { IfOk result (λ s. s ≡ state.now) }
        ensures frugal { IsTrue FRUGAL → IsOk result };

    /// The states after one unit that begins at `at`, each with the mark that was chosen there.
    ///
    /// There is none exactly where the history with that unit is lawful neither with the marks chosen
    /// so far nor with these and one more that is first possible at that unit.
    fn step(
        &self,
        state: &Self::State,
        at: Minute,
        act: Activity,
    ) -> Result<Nexts<Self::State>, NoMemory>
        requires state { (machine self.now).is_state state.now at }
        requires range { at + unit_minutes (machine self.now).params < MINUTE_LIMIT }
        ensures nexts { IfOk result (λ n. listed n ≡ (machine self.now).nexts state.now at act) }
        ensures refused { IfOk result (λ n. (first : ℕ) (h : List Activity) (marks : List Mark) →
            IsTimed (machine self.now).params first (h ++ act ∷ []) → first + unit_minutes (machine self.now).params * length h ≡ at →
            LeadsTo (unit_minutes (machine self.now).params) (machine self.now) first h marks state.now →
            (listed n ≡ []) ↔ IsRefused (machine self.now).params first h marks (act ∷ [])) }
        ensures frugal { IsTrue FRUGAL → IsOk result };

    /// The states after `n` equal units, from 1 to 50,400, the first of which begins at `at`, each with
    /// the mark that was chosen on the way.
    ///
    /// There is none exactly where the history with these units is lawful neither with the marks
    /// chosen so far nor with these and one more that is first possible at them.
    fn advance(
        &self,
        state: &Self::State,
        at: Minute,
        act: Activity,
        n: u32,
    ) -> Result<Nexts<Self::State>, NoMemory>
        requires state { (machine self.now).is_state state.now at }
        requires some { 1 ≤ n }
        requires long { n ≤ LONGEST_HISTORY }
        requires range { at + unit_minutes (machine self.now).params * n < MINUTE_LIMIT }
        ensures nexts { IfOk result (λ ns. listed ns ≡ (machine self.now).advances state.now at act n) }
        ensures refused { IfOk result (λ ns. (first : ℕ) (h : List Activity) (marks : List Mark) →
            IsTimed (machine self.now).params first (h ++ replicate n act) → first + unit_minutes (machine self.now).params * length h ≡ at →
            LeadsTo (unit_minutes (machine self.now).params) (machine self.now) first h marks state.now →
            (listed ns ≡ []) ↔ IsRefused (machine self.now).params first h marks (replicate n act)) }
        ensures frugal { IsTrue FRUGAL → IsOk result };

    /// Whether `a` may stand for `b` at the minute `at`: whatever `b` can do from there, `a` can.
    fn covers(&self, a: &Self::State, b: &Self::State, at: Minute) -> bool
        requires a { (machine self.now).is_state a.now at }
        requires b { (machine self.now).is_state b.now at }
        ensures { result ≡ (machine self.now).covers a.now b.now at };

    /// The idle activities that a search needs to try from the state.
    fn idles(&self, state: &Self::State) -> Idles
        ensures { result ≡ (machine self.now).idles state.now };

    /// Whether resting in place of anything else is always safe from the state on: then no other
    /// activity that a schedule may hold leads to anything that the tour's rest does not cover.
    fn ahead(&self, state: &Self::State) -> bool
        ensures { result ≡ (machine self.now).ahead state.now };

    /// An estimate of the least minutes of rest that are still owed, from the state on, before
    /// `driving` more minutes of driving and `other` more minutes of other duty are done.
    ///
    /// A search orders what it tries first by it, and nothing that it answers rests on it: a book
    /// that says nothing answers 0.
    fn least_rest(&self, _state: &Self::State, _driving: u32, _other: u32) -> u32 {
        0
    }

    /// How much the state asks, roughly: of labels that are alike but for their states a search
    /// offers those first whose states have the lower ranks, since these are likelier to stand for
    /// the others.
    ///
    /// Nothing that a search answers rests on it: a book that says nothing answers 0.
    fn rank(&self, _state: &Self::State) -> u32 {
        0
    }

    /// Puts the state's numbers at the minute `at` after the others. Where there is no memory for
    /// them, the others stay as they were.
    fn write_state(
        &self,
        state: &Self::State,
        at: Minute,
        out: &mut Numbers,
    ) -> Result<(), NoMemory>
        requires state { (machine self.now).is_state state.now at }
        ensures ok { OnOk result (out.new ≡ out.old ++ (machine self.now).numbers state.now at) }
        ensures err { OnErr result (out.new ≡ out.old) };

    /// The state that has these numbers at the minute `at`. `None` exactly where they are those of no
    /// state there.
    fn read_state(&self, numbers: &[u32], at: Minute) -> Result<Option<Self::State>, NoMemory>
        ensures { IfOk result (λ o. o ≡ (machine self.now).state_of numbers.now at) };

    /// The machine has the laws of a book.
    ghost laws: { (book : Self) → IsBook (machine book).params (machine book) };
}
