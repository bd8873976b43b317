//! What holds of every graph. The functions do nothing: their clauses are the laws.
ghost use Rattle.std.specs.Prelude.{◌≡◌, ◌↔◌, ℕ, ◌≤◌, List, Contains};
ghost use Rattle.std.specs.List.Sorted.{IsStrictlyIncreasing};
ghost use Rattle.duty_core.specs.declared.activity.Activity.{Activity};
ghost use Rattle.duty_core.specs.declared.limits.TheConstants.{DAY_MINUTES};
ghost use Rattle.duty_core.specs.Params.{AreGoodParams, BeginsUnit};
ghost use Rattle.log_graph.specs.Days.{BeginsDay, HoldsUnit};
ghost use Rattle.log_graph.specs.Graph.{days_of, IsGraph};

use duty_core::Params;

/// A history has one graph: two texts that are graphs of it are equal.
pub fn graphs_are_one(params: Params)
    ensures { (first : ℕ) (h : List Activity) (one other : List ℕ) → IsGraph params first h one → IsGraph params first h other → one ≡ other }
{
    let _ = params;
}

/// The days of a graph are exactly those that hold a unit of its history, each once and in order.
pub fn days_with_units_are_shown(params: Params)
    ensures shown { (first : ℕ) (h : List Activity) (day : ℕ) → AreGoodParams params → BeginsUnit params first → DAY_MINUTES ≤ first →
        Contains (days_of params first h) day ↔ (BeginsDay params day × HoldsUnit params first h day) }
    ensures in_order { (first : ℕ) (h : List Activity) → IsStrictlyIncreasing (days_of params first h) }
{
    let _ = params;
}
