//! What the days and the counts of a cycle say of a history. The functions do nothing: their clauses
//! are the laws.
ghost use Rattle.std.specs.Prelude.{true, ℤ, Option, Some, ◌≡◌, ◌↔◌, ℕ, ◌≤◌, Bool, List, [], ◌++◌, length};
ghost use Rattle.duty_core.specs.declared.activity.Activity.{Activity};
ghost use Rattle.duty_core.specs.declared.limits.TheConstants.{DAY_MINUTES, CA_LOST_LIMIT};
ghost use Rattle.duty_core.specs.declared.mark.Mark.{Mark};
ghost use Rattle.duty_core.specs.declared.params.Params.{Params};
ghost use Rattle.duty_core.specs.declared.params.Params.TheVariants.{Canada};
ghost use Rattle.duty_core.specs.declared.params.RestWay.{RestWay};
ghost use Rattle.duty_core.specs.declared.params.RestWay.TheVariants.{Split, Defer};
ghost use Rattle.duty_core.specs.History.{padding, padded};
ghost use Rattle.duty_core.specs.Day.{day_number};
ghost use Rattle.duty_core.specs.CaCycle.{MeetsCa24in14, MeetsCaCycle, MeetsCa70without24};
ghost use Rattle.duty_core.specs.LostMinutes.{lost};
ghost use Rattle.duty_core.specs.Deferral.{IsDeferWay, MeetsCaOff10, MeetsCaDefer};
ghost use Rattle.duty_core.specs.Marks.{AreInOrder, IsDeferred};
ghost use Rattle.cycles_deferral.specs.declared.days.CanadaDays.{CanadaDays};
ghost use Rattle.cycles_deferral.specs.declared.cycle.CycleCount.{CycleCount};
ghost use Rattle.cycles_deferral.specs.DayMachine.{fresh_days, days_begun, days_after};
ghost use Rattle.cycles_deferral.specs.CycleMachine.{IsCycleCount, HasRoom, fresh_cycle, cycle_after};
ghost use Rattle.cycles_deferral.specs.Paths.{ca_pads, ca_padding, ca_padded, AreDays, begins, TakesDays, TakesCycle, AreDeferrals};
ghost use Rattle.cycles_deferral.specs.DaySteps.{Stands};
ghost use Rattle.cycles_deferral.specs.Counts.{Counts};
ghost use Rattle.cycles_deferral.specs.DayCovers.{DaysCover, CoversOn};
ghost use Rattle.cycles_deferral.specs.CycleCovers.{CycleCovers, CycleCoversOn};
ghost use Rattle.duty_core.specs.Activity.{rests};

use duty_core::Params;

/// The numbers of the days of a Canadian book are days as the laws below take them.
pub fn book_days_are_days()
    ensures { (berth : Bool) (way : RestWay) (cycle start first : ℕ) → AreDays (day_number (Canada berth way cycle start) first) }
{}

/// Under `split` the days take a history exactly where each of its days loses at most its limit,
/// rest before and after it, and choose no marks.
pub fn split_days_are_exact()
    ensures { (day : ℕ → ℕ) → AreDays day → (h : List Activity) (marks : List Mark) →
        ((t : CanadaDays) × TakesDays day (fresh_days Split) ca_pads h marks t) ↔
        ((marks ≡ []) × ((j : ℕ) → lost day (ca_padded h) j ≤ CA_LOST_LIMIT)) }
{}

/// Under `defer` the days take a history with these marks exactly where these are marks of
/// deferrals, in order, with which it keeps CA-OFF10 and CA-DEFER, rest before and after it.
pub fn deferred_days_are_exact(params: Params)
    ensures { IsDeferWay params → (day : ℕ → ℕ) → AreDays day → (h : List Activity) (marks : List Mark) →
        ((t : CanadaDays) × TakesDays day (fresh_days Defer) ca_pads h marks t) ↔
        (AreDeferrals marks × AreInOrder params marks × ((j : ℕ) → MeetsCaOff10 day (ca_padded h) (IsDeferred marks) j) × MeetsCaDefer params day (ca_padded h) marks) }
{
    let _ = params;
}

/// The minutes of a history lead to one value of the days and one list of marks. What it tells of
/// the history is told by `Stands`.
pub fn days_have_one_path()
    ensures one { (day : ℕ → ℕ) (s : CanadaDays) (n : ℕ) (h : List Activity) (marks others : List Mark) (t u : CanadaDays) →
        TakesDays day s n h marks t → TakesDays day s n h others u → (t ≡ u) × (marks ≡ others) }
    ensures tells { (day : ℕ → ℕ) → AreDays day → (way : RestWay) (h : List Activity) (marks : List Mark) (t : CanadaDays) →
        TakesDays day (fresh_days way) ca_pads h marks t → Stands day (ca_padding ++ h) t }
{}

/// The counts of a cycle take a history exactly where each minute of driving keeps CA-24IN14,
/// CA-CYCLE and CA-70WITHOUT24.
pub fn cycle_is_exact()
    ensures { (day : ℕ → ℕ) → AreDays day → (cycle : ℕ) (h : List Activity) →
        ((t : CycleCount) × TakesCycle day (fresh_cycle cycle) ca_pads h t) ↔
        ((i : ℕ) → MeetsCa24in14 (ca_padded h) i × MeetsCaCycle cycle day (ca_padded h) i × MeetsCa70without24 cycle (ca_padded h) i) }
{}

/// The minutes of a history lead to one value of the counts. What it tells of the history is told
/// by `Counts`, and the next minute fits in its day.
pub fn cycle_has_one_path()
    ensures one { (day : ℕ → ℕ) (s : CycleCount) (n : ℕ) (h : List Activity) (t u : CycleCount) →
        TakesCycle day s n h t → TakesCycle day s n h u → t ≡ u }
    ensures tells { (day : ℕ → ℕ) → AreDays day → (cycle : ℕ) (h : List Activity) (t : CycleCount) →
        TakesCycle day (fresh_cycle cycle) ca_pads h t → Counts day (ca_padding ++ h) t }
    ensures room { (day : ℕ → ℕ) → AreDays day → (cycle : ℕ) (h : List Activity) (t : CycleCount) →
        TakesCycle day (fresh_cycle cycle) ca_pads h t → (x : Activity) → HasRoom t x (begins day (length (ca_padding ++ h))) }
{}

/// Days that may stand for others do so again after each minute by the same activity, and rest may
/// stand for any activity. So `covers` prunes safely.
pub fn days_stand_on()
    ensures same { (a : CanadaDays) → DaysCover a a }
    ensures over { (a b c : CanadaDays) → DaysCover a b → DaysCover b c → DaysCover a c }
    ensures begun { (new : Bool) (a b : CanadaDays) → DaysCover a b → DaysCover (days_begun new a) (days_begun new b) }
    ensures steps { (a b u : CanadaDays) (x : Activity) (new : Bool) (date : ℤ) (m : Option Mark) →
        DaysCover (days_begun new a) (days_begun new b) → days_after b x new date ≡ Some (u, m) → CoversOn (days_after a x new date) u }
    ensures rest { (s u : CanadaDays) (x y : Activity) (new : Bool) (date : ℤ) (m : Option Mark) →
        rests y ≡ true → days_after s x new date ≡ Some (u, m) → CoversOn (days_after s y new date) u }
{}

/// The same of the counts of a cycle.
pub fn cycle_stands_on()
    ensures same { (new : Bool) (a : CycleCount) → CycleCovers new a a }
    ensures over { (new : Bool) (a b c : CycleCount) → CycleCovers new a b → CycleCovers new b c → CycleCovers new a c }
    ensures steps { (a b u : CycleCount) (x : Activity) (new next : Bool) → CycleCovers new a b → cycle_after b x new ≡ Some u → CycleCoversOn next (cycle_after a x new) u }
    ensures rest { (s u : CycleCount) (x y : Activity) (new next : Bool) → IsCycleCount s →
        rests y ≡ true → cycle_after s x new ≡ Some u → CycleCoversOn next (cycle_after s y new) u }
{}
