//! What the counts of a driver leave open, as laws.
ghost use Rattle.std.specs.Prelude.{◌≡◌, ℕ, ◌+◌, ◌≤◌, true, suc, List};
ghost use Rattle.rest_bound.specs.declared.counts.Counts.{Counts};
ghost use Rattle.rest_bound.specs.declared.counts.Deed.{Deed};
ghost use Rattle.rest_bound.specs.declared.limits.Limits.{Limits};
ghost use Rattle.rest_bound.specs.Ends.{Plan};
ghost use Rattle.rest_bound.specs.CanEnd.{CanEnd};
ghost use Rattle.rest_bound.specs.Order.{IsNoWorse};
ghost use Rattle.rest_bound.specs.Runs.{Reaches, MayWork, MaySplit, AreCounts, AreLimits, worked, split_worked, waited, split_waited, idled};

/// At the end of the work a tour can end at once, and never before its step; by what it can end after
/// a lawful step it can end before that step; counts that are no worse leave no less open; and the end
/// of each lawful list of deeds is one that its first counts leave open.
pub fn ends_law()
    ensures last { (plan : Plan) (l : Limits) (p k : ℕ) (c : Counts) → CanEnd plan l 0 p k c k }
    ensures after { (plan : Plan) (l : Limits) (n p k e : ℕ) (c : Counts) → CanEnd plan l n p k c e → k ≤ e }
    ensures work { (plan : Plan) (l : Limits) (n p k e : ℕ) (c : Counts) → AreLimits l → AreCounts plan p c →
        MayWork plan l p k (worked plan l p c) → CanEnd plan l n (p + 1) (k + 1) (worked plan l p c) e → CanEnd plan l (suc n) p k c e }
    ensures split { (plan : Plan) (l : Limits) (n p k e : ℕ) (c : Counts) → AreLimits l → AreCounts plan p c → MaySplit l c →
        MayWork plan l p k (split_worked plan p c) → CanEnd plan l n (p + 1) (k + 1) (split_worked plan p c) e → CanEnd plan l (suc n) p k c e }
    ensures wait { (plan : Plan) (l : Limits) (n p k e : ℕ) (c : Counts) → AreLimits l →
        CanEnd plan l n p (k + 1) (waited l c) e → CanEnd plan l n p k c e }
    ensures split_wait { (plan : Plan) (l : Limits) (n p k e : ℕ) (c : Counts) → AreLimits l → AreCounts plan p c → MaySplit l c →
        CanEnd plan l n p (k + 1) (split_waited c) e → CanEnd plan l n p k c e }
    ensures idle { (plan : Plan) (l : Limits) (n p k e : ℕ) (c : Counts) → AreLimits l →
        plan.idles p ≡ true → CanEnd plan l n p (k + 1) (idled c) e → CanEnd plan l n p k c e }
    ensures order { (plan : Plan) (l : Limits) (n p k e : ℕ) (c d : Counts) → IsNoWorse l k c d → CanEnd plan l n p k d e → CanEnd plan l n p k c e }
    ensures run { (plan : Plan) (l : Limits) (deeds : List Deed) (n p k e : ℕ) (c : Counts) → AreLimits l → AreCounts plan p c →
        Reaches plan l deeds n p k c e → CanEnd plan l n p k c e }
{}
