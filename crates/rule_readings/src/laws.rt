//! What holds of all readings. The functions do nothing: their clauses are the laws.
ghost use Rattle.std.specs.Prelude.{◌≡◌, ◌↔◌, ℕ, ◌+◌, ◌-◌, ◌≤◌, List, Option};
ghost use Rattle.duty_core.specs.declared.activity.Activity.{Activity};
ghost use Rattle.duty_core.specs.declared.activity.Activity.TheVariants.{Drive};
ghost use Rattle.duty_core.specs.declared.limits.TheConstants.{CA_DAY_OFF, CA_DAY_OFF_WITHIN};
ghost use Rattle.duty_core.specs.declared.mark.Mark.{Mark};
ghost use Rattle.duty_core.specs.declared.rule.Rule.{Rule};
ghost use Rattle.duty_core.specs.History.{unit_at, padded};
ghost use Rattle.duty_core.specs.Stretch.{HoldsRest};
ghost use Rattle.duty_core.specs.Counting.{IsLastEnd};
ghost use Rattle.duty_core.specs.RuleBooks.{Keeps};
ghost use Rattle.rule_readings.specs.declared.reading.Reading.{Reading};
ghost use Rattle.rule_readings.specs.declared.measure.TheConstants.{CA_SINCE_DAY_OFF_LIMIT};
ghost use Rattle.rule_readings.specs.Asked.{asked_of, order_of};
ghost use Rattle.rule_readings.specs.Readings.{scope_of, IsReading, IsWithin, AreReadings};

use duty_core::Params;

/// A history with its marks has one list of readings.
pub fn readings_are_one(params: Params)
    ensures { (first from : ℕ) (h : List Activity) (marks : List Mark) (these those : List (Rule × Option Reading)) →
        AreReadings params first h from marks these → AreReadings params first h from marks those → these ≡ those }
{
    let _ = params;
}

/// A reading agrees with its rule: where the history keeps the rule with its marks, the reading is
/// within the limit that it tells, at most that, or at least that where the rule asks for it.
pub fn kept_rules_read_within(params: Params)
    ensures { (first from : ℕ) (h : List Activity) (marks : List Mark) (rule : Rule) (reading : Reading) →
        Keeps params first h marks rule → IsReading (scope_of params first h from) (padded params h) marks rule reading →
        IsWithin (order_of (asked_of params rule).measure) reading.limit reading.used }
{
    let _ = params;
}

/// The two ways of telling of 24 hours of rest in 14 days agree (SOR/2005-313, section 25): they lie
/// wholly in the 20,160 minutes before a unit of driving exactly where the last rest run of at least
/// 24 hours ended at most 18,720 minutes before it.
pub fn day_off_is_told_two_ways(params: Params)
    ensures { (h : List Activity) (i to : ℕ) → unit_at (padded params h) i ≡ Drive → IsLastEnd CA_DAY_OFF (padded params h) i to →
        HoldsRest CA_DAY_OFF (padded params h) (i - CA_DAY_OFF_WITHIN) i ↔ (i ≤ to + CA_SINCE_DAY_OFF_LIMIT) }
{
    let _ = params;
}
